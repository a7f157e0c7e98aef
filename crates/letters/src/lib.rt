// What the letters of a template stand for, and the patterns of the grammar, as the code holds them.
#![tactic(auto)]

pub mod templates;
pub mod texts;
