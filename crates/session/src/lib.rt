// A session at the bench: commands in words, a job that carries them out, and the answers as they are printed.
#![tactic(auto)]

mod board;
pub mod command;
mod desk;
mod fault;
mod lent;
pub mod reply;
mod run;
pub mod session;
mod spelling;
mod step;
pub mod words;
