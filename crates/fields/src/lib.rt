// An operation as eight numbers, as the calls take and give it.
#![tactic(auto)]

mod naming;
mod numbers;
pub mod types;

pub use naming::{named_by, read_numbers};
pub use numbers::{fields_of, put_fields};
