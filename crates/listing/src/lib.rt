// From the bytes of a listing to a program within its limits, or to a refusal.
#![tactic(auto)]

pub mod code;
pub mod draft;
pub mod laws;
pub mod lexer;
pub mod lines;
pub mod program;
pub mod reader;
pub mod refusal;
