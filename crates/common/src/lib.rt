// What the kernels of every width share.
#![tactic(auto)]

pub mod bits16;
pub mod bits32;
pub mod bits64;
pub mod bits8;
pub mod element;
pub mod multiply;
pub mod product16;
pub mod product32;
pub mod product8;
pub mod rotation;
