// How much of each there may be in a listing.
#![tactic(auto)]

ghost use Rattle.std.specs.Prelude.{◌≡◌, nat_le};
ghost use Rattle.limits.specs.declared.TheConstants.{MOST_BYTES, MOST_THREADS, MOST_IN_THREAD, MOST_INSTRUCTIONS, MOST_FAULTS, MOST_CONDITIONS};

pub const MOST_BYTES: usize = 4096;

pub const MOST_THREADS: usize = 4;

pub const MOST_IN_THREAD: usize = 16;

pub const MOST_INSTRUCTIONS: usize = 32;

pub const MOST_FAULTS: usize = 8;

pub const MOST_CONDITIONS: usize = 6;

// Does nothing: its contract says the numbers.
pub fn numbers_stand()
    ensures bytes { MOST_BYTES ≡ 4096 }
    ensures threads { MOST_THREADS ≡ 4 }
    ensures in_thread { MOST_IN_THREAD ≡ 16 }
    ensures instructions { MOST_INSTRUCTIONS ≡ 32 }
    ensures faults { MOST_FAULTS ≡ 8 }
    ensures conditions { MOST_CONDITIONS ≡ 6 }
{}

pub fn short_enough(bytes: usize) -> bool
    ensures { result ≡ nat_le bytes 4096 }
{
    bytes <= MOST_BYTES
}
