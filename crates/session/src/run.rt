// A fault run, replayed and told step by step.
ghost use Rattle.std.specs.Prelude.{◌≡◌, IfOk, IfSome};
ghost use Rattle.machines.specs.Machines.{Run};

use crate::board::{Board, Step};
use crate::fault::first_fault;
use listing::program::Program;
use machines::picture::Picture;
use std::io;
use std::io::Write;

// Prints the run: its length, a line for each step, and which fault line holds at its end.
pub(crate) fn put_run<K: Board>(
    program: &Program,
    run: &[u8],
    out: &mut Vec<u8>,
) -> io::Result<()> {
    writeln!(out, "run {}", run.len())?;
    let machine = K::of(*program);
    match put_steps(program, &machine, run, out)? {
        Some(end) => put_fault(program, machine.picture(&end), out),
        None => Ok(()),
    }
}

// Prints a line for each step, and answers the standing in which the run ends, none where a step of it is absent.
fn put_steps<K: Board>(
    program: &Program,
    machine: &K,
    run: &[u8],
    out: &mut Vec<u8>,
) -> io::Result<Option<K::Standing>>
    ensures { let means = K.means machine.now in
        IfOk result (λ end. IfSome end (Run means means.start run.now)) }
{
    let mut standing = machine.start();
    for number in run {
        let Some(taken) = machine.step(&standing, *number) else {
            return Ok(None);
        };
        let step = Step {
            number: *number,
            before: &standing,
            after: &taken.after,
        };
        put_line::<K>(program, step, out)?;
        standing = taken.after;
    }
    Ok(Some(standing))
}

fn put_line<K: Board>(
    program: &Program,
    step: Step<'_, K::Standing>,
    out: &mut Vec<u8>,
) -> io::Result<()> {
    write!(
        out,
        "step {} thread {}: ",
        step.number,
        K::thread(step.number)
    )?;
    K::put_step(program, step, out)?;
    writeln!(out)
}

// Prints the number of the first fault line that holds, if one does.
fn put_fault(program: &Program, picture: Option<Picture>, out: &mut Vec<u8>) -> io::Result<()> {
    match picture.and_then(|picture| first_fault(program, &picture)) {
        Some(fault) => writeln!(out, "fault {fault}"),
        None => Ok(()),
    }
}
