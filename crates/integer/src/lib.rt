// No code: numbers of N bits over the integers (specs/) and their laws (proofs/).
#![tactic(auto)]
