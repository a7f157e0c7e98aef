// The types of verdicts and answers of a trace. The crate has no code but a conversion of refusals: its definitions are in specs/, and the laws about them in proofs/.
#![tactic(auto)]

pub mod types;
