// One exploration of a program in many rows, with no fence: how long it takes, and how many standings it compares.
ghost use Rattle.std.specs.Prelude.{◌≡◌, not, ◌==◌, length, take_while, IfOk};

use crate::counting::Counting;
use listing::program::Program;
use machines::buffered::Buffered;
use machines::machine::{Kind, Machine};
use machines::standing::Standing;
use search::explore::explore;
use std::cell::Cell;
use std::hint::black_box;
use std::io;
use std::time::{Duration, Instant};

// What a note holds until its row is used: no row has this number.
pub const UNUSED: u32 = 0xffff_ffff;

// How many rows were used.
fn used(notes: &[u32]) -> usize
    ensures { result ≡ length (take_while (λ note. not (note == 4294967295)) notes.now) }
{
    notes.iter().take_while(|note| **note != UNUSED).count()
}

// Takes all steps from the standings in the first `used` rows, and looks none up.
fn walk(machine: &Buffered, rows: &[Standing], used: usize) {
    for standing in rows.iter().take(used) {
        for number in 0..machine.width() {
            black_box(machine.step(standing, number));
        }
    }
}

// How many standings one exploration meets, how long it takes, and how long its steps take alone: what is left of its time is
// that of its look-ups, but for the writing of rows.
#[derive(Clone, Copy)]
pub struct Times {
    pub standings: usize,
    pub exploration: Duration,
    pub steps: Duration,
}

// What stands in the rows afterwards is free; the times are what the clock says, and it is refused where that fails.
pub fn measured(
    rt: &HostRuntime,
    program: &Program,
    rows: &mut [Standing],
    notes: &mut [u32],
) -> io::Result<Times>
    ensures { IfOk result (λ t. t.standings ≡ length (take_while (λ note. not (note == 4294967295)) notes.new)) }
{
    let machine = Buffered::of(*program);
    let begun = Instant::now(rt)?;
    let _ = explore(&machine, program, rows, notes);
    let exploration = begun.elapsed(rt)?;
    let standings = used(notes);
    let begun = Instant::now(rt)?;
    walk(&machine, rows, standings);
    let steps = begun.elapsed(rt)?;
    Ok(Times {
        standings,
        exploration,
        steps,
    })
}

// How many standings an exploration compares in its look-ups, as a machine counts them that is asked.
pub fn compared(program: &Program, rows: &mut [Standing], notes: &mut [u32]) -> u64 {
    let (starts, compared) = (Cell::new(0), Cell::new(0));
    let machine = Counting {
        machine: Buffered::of(*program),
        starts: &starts,
        compared: &compared,
    };
    let _ = explore(&machine, program, rows, notes);
    compared.get()
}
