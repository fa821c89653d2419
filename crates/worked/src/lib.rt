// Worked examples of the whole tool. There is nothing to run.
#![tactic(auto)]

pub mod laws;
