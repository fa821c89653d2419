// The boards that a session may be for: kinds of machine with a name, whose steps can be told in words.
ghost use Rattle.std.specs.Prelude.{◌≡◌, ◌/◌, codes};

use crate::step::{Change, put_drain};
use listing::program::Program;
use machines::buffered::Buffered;
use machines::machine::{Kind, Machine};
use machines::picture::Picture;
use machines::standing::Standing;
use machines::unbuffered::Unbuffered;
use std::io;

// A step that was taken: its number, and the standings before and after it.
#[derive(Clone, Copy)]
pub(crate) struct Step<'a, S> {
    pub number: u8,
    pub before: &'a S,
    pub after: &'a S,
}

pub(crate) trait Board: Kind {
    // As the command names it.
    fn name() -> &'static str;

    // A standing to fill rows with.
    fn blank() -> Self::Standing;

    // The thread that takes the step of this number.
    fn thread(number: u8) -> u8;

    // Prints what a step does.
    fn put_step(
        program: &Program,
        step: Step<'_, Self::Standing>,
        out: &mut Vec<u8>,
    ) -> io::Result<()>;
}

impl Board for Buffered {
    fn name() -> &'static str
        ensures { result.now ≡ codes "tso" }
    {
        "tso"
    }

    fn blank() -> Standing {
        Standing::start()
    }

    fn thread(number: u8) -> u8
        ensures { result ≡ number / 2 }
    {
        number / 2
    }

    fn put_step(program: &Program, step: Step<'_, Standing>, out: &mut Vec<u8>) -> io::Result<()> {
        let thread = Self::thread(step.number);
        let index = usize::from(thread);
        let (Some(before), Some(after)) = (
            step.before.threads.get(index),
            step.after.threads.get(index),
        ) else {
            return Ok(());
        };
        if step.number % 2 == 1 {
            return put_drain(&before.queue, out);
        }
        let Some(instruction) = program.instruction(thread, before.shown.at) else {
            return Ok(());
        };
        let change = Change {
            instruction,
            before: &before.shown,
            after: &after.shown,
            memory: &step.after.memory,
        };
        change.put_queued(&before.queue, out)
    }
}

impl Board for Unbuffered {
    fn name() -> &'static str
        ensures { result.now ≡ codes "none" }
    {
        "none"
    }

    fn blank() -> Picture {
        Picture::start()
    }

    fn thread(number: u8) -> u8
        ensures { result ≡ number }
    {
        number
    }

    fn put_step(program: &Program, step: Step<'_, Picture>, out: &mut Vec<u8>) -> io::Result<()> {
        let index = usize::from(step.number);
        let (Some(before), Some(after)) = (
            step.before.threads.get(index),
            step.after.threads.get(index),
        ) else {
            return Ok(());
        };
        let Some(instruction) = program.instruction(step.number, before.at) else {
            return Ok(());
        };
        let change = Change {
            instruction,
            before,
            after,
            memory: &step.after.memory,
        };
        change.put(out)
    }
}
