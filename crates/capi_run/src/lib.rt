// The call that runs a program, for programs in C, C++ and Rust. It is a crate of its own so that no other call decodes beside it: the compiler then
// puts the decoder into the loop over the words.
#![tactic(auto)]

pub mod run;
