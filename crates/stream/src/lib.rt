// A trace that comes in pieces: the state that is handed on, and the calls with some bytes and at the end.
#![tactic(auto)]

mod bodies;
mod body;
pub mod bytes;
mod case;
mod contents;
pub mod feed;
pub mod number;
pub mod state;

pub use state::{Closed, Fed, State};
