// The calls for programs in C, C++ and Rust, but for the one that runs a program (capi_run): answers packed into one number, results in lent memory.
#![tactic(auto)]

pub mod decode;
pub mod encode;
pub mod list;
pub mod register;
