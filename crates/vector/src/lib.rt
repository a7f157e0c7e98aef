// Operations on whole registers of the lent file, one segment after the other, for elements of any size. Callers have checked the length and where
// the registers stand.
#![tactic(auto)]

pub mod element;
pub mod group;
pub mod indexed;
pub mod products;
pub mod sums;
pub mod sweep;
