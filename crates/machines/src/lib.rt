// What a machine is, the two that are shipped, and a placement laid over any of them.
#![tactic(auto)]

pub mod buffered;
pub mod fenced;
pub mod instruction;
pub mod judge;
pub mod laws;
pub mod machine;
pub mod picture;
pub mod placement;
pub mod queue;
pub mod standing;
pub mod unbuffered;
