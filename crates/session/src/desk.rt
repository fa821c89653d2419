// A job with the memory that it is lent, for one kind of board.
ghost use Rattle.std.specs.Prelude.{◌≡◌, IfOk, OnOk, vec_len};
ghost use Rattle.std.specs.Option.{option_map_or};
ghost use Rattle.session.specs.Spots.{place_at, spot_at};
ghost use Rattle.session.specs.Held.{IsNoReading, program_held};
ghost use Rattle.session.specs.Lengths.{IsAsLong};

use crate::board::Board;
use crate::command::{Command, Spot};
use crate::lent::{Lengths, Lent};
use crate::reply::{Outcome, put_refusal, put_spot};
use crate::run::put_run;
use job::call::{Answer, Call};
use job::job::Job;
use job::solution::View;
use listing::program::Program;
use listing::reader::read;
use listing::refusal::Refusal;
use machines::unbuffered::Unbuffered;
use std::alloc::{AllocError, Global};
use std::io;
use std::io::Write;

// A place that no program has.
const NO_PLACE: u8 = 255;

// The program is the one that the job holds: runs are replayed on it, and places named by it.
#[derive(Drop)]
pub(crate) struct Desk<K: Board> {
    job: Job<K>,
    program: Option<Program>,
    lent: Lent<K::Standing>,
    ghost same: { program ≡ program_held job },
}

// The place before this instruction, or one that no program has where there is no such instruction.
fn place_at(program: &Program, spot: Spot) -> u8
    ensures { result ≡ place_at spot program.now }
{
    if spot.number < program.length(spot.thread) {
        program.place(spot.thread, spot.number)
    } else {
        NO_PLACE
    }
}

// The instruction that a place stands before.
fn spot_at(program: &Program, place: u8) -> Spot
    ensures { result ≡ spot_at program.now place }
{
    let thread = program.thread_at(place);
    Spot {
        thread,
        number: place - program.first_place(thread),
    }
}

impl<K: Board> Desk<K> {
    // A new job, with no program.
    pub(crate) fn new(alloc: Global, lengths: Lengths) -> Result<Self, AllocError>
        ensures { IfOk result (λ desk. IsAsLong lengths desk.lent) }
    {
        Ok(Desk {
            job: Job::new(),
            program: None,
            lent: Lent::new(alloc, K::blank(), lengths)?,
        })
    }

    // Lends memory of these lengths from now on.
    pub(crate) fn lend(&mut self, alloc: Global, lengths: Lengths) -> Result<(), AllocError>
        ensures { OnOk result (IsAsLong lengths self.new.lent) }
    {
        self.lent = Lent::new(alloc, K::blank(), lengths)?;
        Ok(())
    }

    // Makes a new run list of this length.
    pub(crate) fn lend_run(&mut self, alloc: Global, length: u32) -> Result<(), AllocError>
        ensures { OnOk result (vec_len self.new.lent.run ≡ length) }
    {
        self.lent.run = vec![in alloc; 0u8; length as usize]?;
        Ok(())
    }

    // Makes a call that leaves the program as it is.
    fn call(&mut self, call: Call<'_>) -> Result<Answer, Refusal>
        requires { IsNoReading call }
    {
        self.job.call(call, &mut self.lent.memory())
    }

    fn place(&self, spot: Spot) -> u8
        ensures { result ≡ option_map_or (place_at spot) self.now.program 255 }
    {
        self.program
            .as_ref()
            .map_or(NO_PLACE, |program| place_at(program, spot))
    }

    // Hands a listing to the job.
    pub(crate) fn read(&mut self, text: &[u8], out: &mut Vec<u8>) -> io::Result<Outcome> {
        let answer = self.job.call(Call::Read(text), &mut self.lent.memory());
        if answer.is_ok() {
            self.program = read(text).ok();
        }
        self.put_answer(answer, out)
    }

    // Carries a command out, other than one that is for the session itself.
    pub(crate) fn obey(
        &mut self,
        alloc: Global,
        command: Command<'_>,
        out: &mut Vec<u8>,
    ) -> io::Result<Outcome> {
        match command {
            Command::Bar(spot) => self.change(Call::Bar(self.place(spot)), "barred", spot, out),
            Command::Free(spot) => self.change(Call::Free(self.place(spot)), "freed", spot, out),
            Command::Show(spot) => {
                let answer = self.call(Call::Show(self.place(spot)));
                self.put_answer(answer, out)
            }
            Command::Test(spots) => {
                let places: Vec<u8> = spots.iter().map(|spot| self.place(*spot)).collect(alloc)?;
                let answer = self.call(Call::Test(places.as_slice()));
                self.put_answer(answer, out)
            }
            Command::Solve => self.ask(Call::Solve, out),
            Command::Report => self.ask(Call::Report, out),
            Command::Plain => self.ask(Call::Plain, out),
            Command::Look => self.ask(Call::Look, out),
            _ => Ok(Outcome::Granted),
        }
    }

    fn ask(&mut self, call: Call<'_>, out: &mut Vec<u8>) -> io::Result<Outcome>
        requires { IsNoReading call }
    {
        let answer = self.call(call);
        self.put_answer(answer, out)
    }

    // Bars or frees a place.
    fn change(
        &mut self,
        call: Call<'_>,
        word: &str,
        spot: Spot,
        out: &mut Vec<u8>,
    ) -> io::Result<Outcome>
        requires { IsNoReading call }
    {
        match self.call(call) {
            Ok(_) => {
                put_spot(word, spot, out)?;
                Ok(Outcome::Granted)
            }
            Err(refusal) => put_refusal(refusal, out),
        }
    }

    fn put_answer(
        &mut self,
        answer: Result<Answer, Refusal>,
        out: &mut Vec<u8>,
    ) -> io::Result<Outcome> {
        match answer {
            Ok(Answer::Places(places)) => writeln!(out, "places {places}")?,
            Ok(Answer::Barred | Answer::Freed) => {}
            Ok(Answer::Solved(_)) => return self.ask_report(out),
            Ok(Answer::Tested(None)) => writeln!(out, "enough")?,
            Ok(Answer::Tested(Some(length)) | Answer::Shown(length)) => {
                self.put_run::<K>(length, out)?;
            }
            Ok(Answer::Plain(None)) => writeln!(out, "free of faults")?,
            Ok(Answer::Plain(Some(length))) => self.put_run::<Unbuffered>(length, out)?,
            Ok(Answer::Seen(view)) => return self.put_view(view, out),
            Ok(Answer::Reported(length)) => out.write_all(self.lent.report(length))?,
            Err(refusal) => return put_refusal(refusal, out),
        }
        Ok(Outcome::Granted)
    }

    // Prints the report of what is kept now.
    fn ask_report(&mut self, out: &mut Vec<u8>) -> io::Result<Outcome> {
        match self.call(Call::Report) {
            Ok(Answer::Reported(length)) => {
                out.write_all(self.lent.report(length))?;
                Ok(Outcome::Granted)
            }
            Ok(_) => Ok(Outcome::Granted),
            Err(refusal) => put_refusal(refusal, out),
        }
    }

    // Prints a run, which is one of this kind of board or of the unbuffered one.
    fn put_run<B: Board>(&self, length: usize, out: &mut Vec<u8>) -> io::Result<()> {
        match &self.program {
            Some(program) => put_run::<B>(program, self.lent.run(length), out),
            None => Ok(()),
        }
    }

    // Prints the bars, and the report of the kept placement.
    fn put_view(&mut self, view: View, out: &mut Vec<u8>) -> io::Result<Outcome> {
        if let Some(program) = &self.program {
            for place in view.barred {
                put_spot("barred", spot_at(program, place), out)?;
            }
        }
        match view.kept {
            Some(_) => self.ask_report(out),
            None => {
                writeln!(out, "kept none")?;
                Ok(Outcome::Granted)
            }
        }
    }
}
