// Reads a listing from standard input, and prints where the fences go or why there is no answer.
#![tactic(auto)]

mod answer;
mod laws;

use answer::answer;
use job::call::Memory;
use machines::standing::Standing;
use std::io;
use std::io::{Read, Write};
use std::process::ExitCode;

// One byte more than a listing may have, so that a longer one is refused and not read to its end.
const MOST_READ: u64 = 4097;

// Prints the answer, and says with which status the process ends. A rule of the project: only programs allocate, so what is
// read and lent here stands in `effort` as well.
fn print_answer(rt: &HostRuntime) -> io::Result<ExitCode> {
    let mut text = Vec::new(rt.alloc());
    rt.stdin().take(MOST_READ).read_to_end(&mut text)?;
    let mut rows = vec![in rt.alloc(); Standing::start(); 512]?;
    let mut notes = vec![in rt.alloc(); 0u32; 512]?;
    let mut out = [0u8; 512];
    let mut memory = Memory {
        rows: &mut rows,
        pictures: &mut [],
        notes: &mut notes,
        run: &mut [],
        out: &mut out,
    };
    let (length, status) = match answer(&text, &mut memory) {
        Ok(length) => (length, ExitCode::SUCCESS),
        Err(length) => (length, ExitCode::FAILURE),
    };
    rt.stdout().write_all(&out[..length])?;
    Ok(status)
}

// The process ends with status 1 where the listing is refused, or where reading, memory or printing fails.
fn main(rt: HostRuntime) -> ExitCode {
    print_answer(&rt).unwrap_or_else(|error| {
        let _ = eprintln!(rt; "{error}");
        ExitCode::FAILURE
    })
}
