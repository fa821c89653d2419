// Reads a listing from standard input, and prints how much work a search over the buffered machine has with it: how often it
// explores the listing; with the argument `time`, how long one exploration takes in many rows; and with `compared`, how many
// standings that exploration compares.
#![tactic(auto)]

mod counting;
mod once;

use counting::Counting;
use listing::program::Program;
use listing::reader::read;
use machines::buffered::Buffered;
use machines::machine::{Kind, Machine};
use machines::placement::Placement;
use machines::standing::Standing;
use once::{UNUSED, compared, measured};
use search::least::least;
use std::cell::Cell;
use std::io::Read;
use std::{env, io};

// The rows of the console.
const CONSOLE_ROWS: usize = 512;

// The most rows that a search uses.
const MOST_ROWS: usize = 65_536;

// The explorations of one search; each asks the machine for its start once. Rows and notes are lent apart, as a search is
// lent them.
fn explorations(program: &Program, rows: &mut [Standing], notes: &mut [u32]) -> u32 {
    let (starts, compared) = (Cell::new(0), Cell::new(0));
    let machine = Counting {
        machine: Buffered::of(*program),
        starts: &starts,
        compared: &compared,
    };
    let _ = least(
        &machine,
        program,
        Placement::below(program.places()),
        rows,
        notes,
    );
    starts.get()
}

// A rule of the project: only programs allocate, so what is read and lent here stands in the console as well.
fn main(rt: HostRuntime) -> io::Result<()> {
    let mut text = Vec::new(rt.alloc());
    rt.stdin().take(4097).read_to_end(&mut text)?;
    let asked = env::args(&rt)?.nth(1);
    let count = if asked.is_some() {
        MOST_ROWS
    } else {
        CONSOLE_ROWS
    };
    let mut rows = vec![in rt.alloc(); Standing::start(); count]?;
    let mut notes = vec![in rt.alloc(); UNUSED; count]?;
    let Ok(program) = read(&text) else {
        return println!(rt; "explorations 0");
    };
    match asked.as_deref() {
        Some("time") => {
            let times = measured(&rt, &program, &mut rows, &mut notes)?;
            println!(rt; "standings {}", times.standings)?;
            println!(rt; "exploration {}", times.exploration.as_nanos())?;
            println!(rt; "steps {}", times.steps.as_nanos())
        }
        Some(_) => {
            let compared = compared(&program, &mut rows, &mut notes);
            println!(rt; "compared {compared}")
        }
        None => {
            let count = explorations(&program, &mut rows, &mut notes);
            println!(rt; "explorations {count}")
        }
    }
}
