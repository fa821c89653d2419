// A job: the calls that a user makes, and the lines that they print.
#![tactic(auto)]

pub mod call;
pub mod job;
pub mod laws;
pub mod lines;
pub mod solution;
mod text;
