// Executes operations and runs programs on a lent register file.
#![tactic(auto)]

mod carried;
mod families;
mod program;
mod step;

pub use program::{ending_number, execute, run};
