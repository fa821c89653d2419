// A session: one job at a time, for one board or the other, and how much memory it is lent.
ghost use Rattle.std.specs.Prelude.{◌≡◌, IfOk, OnOk};

use crate::board::Board;
use crate::command::{Command, Kinds};
use crate::desk::Desk;
use crate::lent::Lengths;
use crate::reply::{Outcome, put_help};
use machines::buffered::Buffered;
use machines::unbuffered::Unbuffered;
use std::alloc::{AllocError, Global};
use std::io;
use std::io::Write;

// The desk of the board that is in use.
#[derive(Drop)]
enum AnyDesk {
    Buffered(Desk<Buffered>),
    Unbuffered(Desk<Unbuffered>),
}

/// A session: its job, and the memory that the job is lent.
#[derive(Drop)]
pub struct Session {
    desk: AnyDesk,
    lengths: Lengths,
}

impl AnyDesk {
    ghost use Rattle.session.specs.Sessions.{Lends};

    fn new(alloc: Global, board: Kinds, lengths: Lengths) -> Result<Self, AllocError>
        ensures { IfOk result (Lends lengths) }
    {
        match board {
            Kinds::Buffered => Ok(AnyDesk::Buffered(Desk::new(alloc, lengths)?)),
            Kinds::Unbuffered => Ok(AnyDesk::Unbuffered(Desk::new(alloc, lengths)?)),
        }
    }

    fn name(&self) -> &'static str {
        match self {
            AnyDesk::Buffered(_) => Buffered::name(),
            AnyDesk::Unbuffered(_) => Unbuffered::name(),
        }
    }
}

impl Session {
    ghost use Rattle.session.specs.Sessions.{Lends, LendsAfter, LendsRun, at_start, lengths_after, lengths_of};

    /// A session begins at the buffered board.
    pub fn new(alloc: Global) -> Result<Self, AllocError>
        ensures noted { IfOk result (λ session. lengths_of session ≡ at_start) }
        ensures lent { IfOk result (λ session. Lends at_start session.desk) }
    {
        let lengths = Lengths::at_start();
        Ok(Session {
            desk: AnyDesk::new(alloc, Kinds::Buffered, lengths)?,
            lengths,
        })
    }

    /// Hands a listing to the job.
    pub fn read(&mut self, text: &[u8], out: &mut Vec<u8>) -> io::Result<Outcome>
        ensures { lengths_of self.new ≡ lengths_of self.old }
    {
        match &mut self.desk {
            AnyDesk::Buffered(desk) => desk.read(text, out),
            AnyDesk::Unbuffered(desk) => desk.read(text, out),
        }
    }

    /// Carries a command out, other than one that needs more input.
    pub fn obey(
        &mut self,
        alloc: Global,
        command: Command<'_>,
        out: &mut Vec<u8>,
    ) -> io::Result<Outcome>
        ensures noted { OnOk result (lengths_of self.new ≡ lengths_after command.entry (lengths_of self.old)) }
        ensures lent { OnOk result (LendsAfter command.entry (lengths_of self.old) self.new.desk) }
    {
        match command {
            Command::Board(board) => {
                self.desk = AnyDesk::new(alloc, board, self.lengths)?;
                writeln!(out, "board {}", self.desk.name())?;
            }
            Command::Rows(rows) => {
                self.lend(alloc, Lengths::of(rows))?;
                writeln!(out, "rows {rows}")?;
            }
            Command::Runs(runs) => {
                self.lend_run(alloc, runs)?;
                writeln!(out, "runs {runs}")?;
            }
            Command::Help => put_help(out)?,
            _ => return self.pass_on(alloc, command, out),
        }
        Ok(Outcome::Granted)
    }

    fn pass_on(
        &mut self,
        alloc: Global,
        command: Command<'_>,
        out: &mut Vec<u8>,
    ) -> io::Result<Outcome>
        ensures { lengths_of self.new ≡ lengths_of self.old }
    {
        match &mut self.desk {
            AnyDesk::Buffered(desk) => desk.obey(alloc, command, out),
            AnyDesk::Unbuffered(desk) => desk.obey(alloc, command, out),
        }
    }

    // Lends memory of these lengths from now on.
    fn lend(&mut self, alloc: Global, lengths: Lengths) -> Result<(), AllocError>
        ensures noted { OnOk result (lengths_of self.new ≡ lengths) }
        ensures lent { OnOk result (Lends lengths self.new.desk) }
    {
        match &mut self.desk {
            AnyDesk::Buffered(desk) => desk.lend(alloc, lengths)?,
            AnyDesk::Unbuffered(desk) => desk.lend(alloc, lengths)?,
        }
        self.lengths = lengths;
        Ok(())
    }

    fn lend_run(&mut self, alloc: Global, runs: u32) -> Result<(), AllocError>
        ensures noted { OnOk result (lengths_of self.new ≡ record (lengths_of self.old) { runs = runs }) }
        ensures lent { OnOk result (LendsRun runs self.new.desk) }
    {
        match &mut self.desk {
            AnyDesk::Buffered(desk) => desk.lend_run(alloc, runs)?,
            AnyDesk::Unbuffered(desk) => desk.lend_run(alloc, runs)?,
        }
        self.lengths = self.lengths.with_runs(runs);
        Ok(())
    }
}
