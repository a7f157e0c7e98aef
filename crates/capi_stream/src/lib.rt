// The calls that take a trace in pieces, for programs in C, C++ and Rust. A crate of its own, so that the other calls are compiled as they were.
#![tactic(auto)]

pub mod calls;
mod marks;
