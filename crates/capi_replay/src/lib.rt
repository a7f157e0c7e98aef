// The call that replays a case of a trace, for programs in C, C++ and Rust. A crate of its own, so that the call that runs a program is compiled as it
// was.
#![tactic(auto)]

pub mod case;
