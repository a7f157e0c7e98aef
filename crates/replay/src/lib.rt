// The check of a recorder's trace, and the verdict of a case.
#![tactic(auto)]

pub mod body;
pub mod compare;
pub mod contents;
pub mod number;
pub mod program;
pub mod reader;

pub use contents::{check, judge};
