// A call of a job as a value, its answer, and all memory that a call may be lent.
ghost use Rattle.std.specs.Prelude.{◌≡◌, ◌≤◌, IfOk};
ghost use Rattle.job.specs.Calls.{IfReported, IsMade, Lists, SameMemory, WrittenRun, lists_of, outcome};
ghost use Rattle.job.specs.Promises.{Promises};

use crate::job::Job;
use crate::solution::{Solution, View};
use listing::refusal::Refusal;
use machines::machine::{Kind, Machine};
use machines::picture::Picture;

/// The memory that calls are lent; each uses its own part.
#[derive(Drop)]
pub struct Memory<'a, S> {
    /// Standings for a search of the job's machine.
    pub rows: &'a mut [S],
    /// Standings for a search of the unbuffered machine.
    pub pictures: &'a mut [Picture],
    /// The other half of a search: as many rows are used as the shorter of the two lists has, at most 65,536.
    pub notes: &'a mut [u32],
    /// A fault run is written here, as step numbers.
    pub run: &'a mut [u8],
    /// A report is written here.
    pub out: &'a mut [u8],
}

/// One of the calls of a job, with what it is handed beside memory: a text, a place, or some places.
#[derive(Clone, Copy)]
pub enum Call<'a> {
    Read(&'a [u8]),
    Bar(u8),
    Free(u8),
    Solve,
    Test(&'a [u8]),
    Show(u8),
    Plain,
    Look,
    Report,
}

/// What a call that is granted answers, a case for each call: the same as the call itself.
#[derive(Clone, Copy)]
pub enum Answer {
    Places(u8),
    Barred,
    Freed,
    Solved(Solution),
    Tested(Option<usize>),
    Shown(usize),
    Plain(Option<usize>),
    Seen(View),
    Reported(usize),
}

impl<K: Kind> Job<K> {
    // Makes the call.
    fn answer(
        &mut self,
        call: Call<'_>,
        memory: &mut Memory<'_, K::Standing>,
    ) -> Result<Answer, Refusal>
        ensures answer { IsMade (λ p. K.means (K.made p)) self.old call.entry (lists_of memory.old)
            (record { result = result; state = self.new; lists = lists_of memory.new }) }
        ensures limit { IfOk result (λ a. IfReported a (λ n. n ≤ 512)) }
        ensures same_memory { SameMemory memory.old memory.new }
    {
        match call {
            Call::Read(text) => self.read(text).map(Answer::Places),
            Call::Bar(place) => self.bar(place).map(|()| Answer::Barred),
            Call::Free(place) => self.free(place).map(|()| Answer::Freed),
            Call::Solve => self.solve(memory.rows, memory.notes).map(Answer::Solved),
            Call::Test(places) => {
                self.test(places, memory.rows, memory.notes, memory.run)
                    .map(Answer::Tested)
            }
            Call::Show(place) => {
                self.show(place, memory.rows, memory.notes, memory.run)
                    .map(Answer::Shown)
            }
            Call::Plain => {
                self.plain(memory.pictures, memory.notes, memory.run)
                    .map(Answer::Plain)
            }
            Call::Look => Ok(Answer::Seen(self.look())),
            Call::Report => self.report(memory.out).map(Answer::Reported),
        }
    }

    /// Makes the call. Through this the programs do all that they do with a job.
    pub fn call(
        &mut self,
        call: Call<'_>,
        memory: &mut Memory<'_, K::Standing>,
    ) -> Result<Answer, Refusal>
        ensures answer { (free : Lists _) ×
            WrittenRun (λ p. K.means (K.made p)) self.old call.entry (lists_of memory.old) free.run ×
            (record { result = result; state = self.new; lists = lists_of memory.new } ≡
            outcome (λ p. K.means (K.made p)) self.old call.entry (lists_of memory.old) free) }
        ensures promises { Promises (λ p. K.means (K.made p)) self.new }
        ensures limit { IfOk result (λ a. IfReported a (λ n. n ≤ 512)) }
        ensures same_memory { SameMemory memory.old memory.new }
    {
        let answer = self.answer(call, memory);
        self.keeps_its_promises();
        answer
    }
}
