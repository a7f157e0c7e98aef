// The lent register file: which lengths and sizes pass, where a register stands, one register's part, sixteen bytes at a place.
#![tactic(auto)]

pub mod check;
pub mod layout;
pub mod part;
pub mod segment;
