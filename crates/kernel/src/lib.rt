// The kernels: what an operation makes of one segment of 16 bytes, once for every size of element.
#![tactic(auto)]

pub mod element;
pub mod indexed;
pub mod lane;
mod lane16;
mod lane32;
mod lane64;
mod lane8;
mod product64;
mod segment;
pub mod vectors;
