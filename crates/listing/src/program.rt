// A program that keeps its limits.
ghost use Rattle.std.specs.Prelude.{◌≡◌, true};
ghost use Rattle.listing.specs.Limits.{within_limits};

use crate::code::{FaultLine, ThreadCode};
use few::Few;
use limits::{MOST_FAULTS, MOST_THREADS};

mod access;

#[derive(Clone, Copy)]
pub struct Program {
    pub(crate) bound: u8,
    pub(crate) threads: Few<ThreadCode, MOST_THREADS>,
    pub(crate) faults: Few<FaultLine, MOST_FAULTS>,
    ghost ok: { within_limits bound threads faults ≡ true },
}
