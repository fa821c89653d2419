// The program as far as it has been read, with the lines that its parts stand on.
ghost use Rattle.std.specs.Prelude.{◌≡◌, ◌≤◌, true, length, map};
ghost use Rattle.listing.specs.Limits.{all, bound_fits, fault_fits, thread_fits, together};

mod adding;
pub mod finish;

use crate::code::{FaultLine, ThreadCode};
use few::Few;
use limits::{MOST_FAULTS, MOST_IN_THREAD, MOST_THREADS};

#[derive(Clone, Copy)]
pub struct Draft {
    pub(crate) bound: Option<u8>,
    pub(crate) threads: Few<ThreadCode, MOST_THREADS>,
    pub(crate) faults: Few<FaultLine, MOST_FAULTS>,
    // A program keeps no lines, so they stand beside its parts, which it is handed whole.
    pub(crate) thread_lines: Few<u16, MOST_THREADS>,
    pub(crate) instruction_lines: Few<Few<u16, MOST_IN_THREAD>, MOST_THREADS>,
    pub(crate) fault_lines: Few<u16, MOST_FAULTS>,
    ghost bounded: { bound_fits bound ≡ true },
    ghost few_threads: { length threads ≤ 4 },
    ghost few_instructions: { together threads ≤ 32 },
    ghost threads_fit: { all thread_fits threads ≡ true },
    ghost few_faults: { length faults ≤ 8 },
    ghost faults_fit: { all fault_fits faults ≡ true },
    ghost threads_lined: { length thread_lines ≡ length threads },
    ghost instructions_lined: { map length instruction_lines ≡ map length threads },
    ghost faults_lined: { length fault_lines ≡ length faults },
}
