// Exploring a machine's standings in lent memory, and the least set of places that keeps every fault out.
#![tactic(auto)]

mod crossings;
pub mod explore;
pub mod laws;
pub mod least;
pub mod rows;
mod run;
mod table;
pub mod test;
