// What the layers above ask of a program. A cast is of a number that a clause bounds: `try_from` would answer a `Result`
// that is never an error. A thread's number stays a `u8`, below 4 by clauses, since a type of its own would ask more of
// callers.
ghost use Rattle.std.specs.Prelude.{◌≡◌, ℕ, ◌+◌, ◌<◌, ◌≤◌, true, [], length, slice_index_or, OnSome};
ghost use Rattle.listing.specs.Limits.{all, together};
ghost use Rattle.listing.specs.Code.{code_of, condition_sound, length_of, fetched, place_of, thread_at, places, lines_of, line_sound};

use crate::code::{FaultLine, Instruction, together};
use crate::program::Program;

impl Program {
    // The most writes that wait in one queue.
    pub fn bound(&self) -> u8
        ensures value { result ≡ self.now.bound }
        ensures limit { result ≤ 4 }
    {
        self.bound
    }

    pub fn threads(&self) -> u8
        ensures value { result ≡ length self.now.threads }
        ensures limit { result ≤ 4 }
    {
        self.threads.len() as u8
    }

    // The instructions of a thread, none where there is no such thread.
    fn code(&self, thread: u8) -> &[Instruction<u8>]
        ensures value { result.now ≡ slice_index_or self.now.threads thread [] }
        ensures limit { length result.now ≤ 16 }
    {
        self.threads
            .as_slice()
            .get(usize::from(thread))
            .map_or(&[], |code| code.as_slice())
    }

    // The number of instructions of a thread, 0 where there is no such thread: it promised so, and a call that could not fail
    // still cannot.
    pub fn length(&self, thread: u8) -> u8
        ensures value { result ≡ length_of self.now thread }
        ensures limit { result ≤ 16 }
    {
        self.code(thread).len() as u8
    }

    // The instruction at which a thread stands, if it has not ended.
    pub fn instruction(&self, thread: u8, at: u8) -> Option<Instruction<u8>>
        ensures value { result ≡ fetched self.now thread at }
        ensures limit { OnSome result ((at < length_of self.now thread) × (at < 16)) }
    {
        self.code(thread).get(usize::from(at)).copied()
    }

    // The number of instructions of the threads before this one.
    pub fn first_place(&self, thread: u8) -> u8
        requires { thread ≤ 4 }
        ensures value { result ≡ place_of self.now thread 0 }
        ensures limit { result ≤ 32 }
    {
        let threads = self.threads.as_slice();
        together(&threads[..threads.len().min(usize::from(thread))]) as u8
    }

    // The place of an instruction: its number counted through the whole listing from 0.
    pub fn place(&self, thread: u8, at: u8) -> u8
        requires { at < length_of self.now thread }
        ensures value { result ≡ place_of self.now thread at }
        ensures limit { result < 32 }
    {
        self.first_place(thread) + at
    }

    // The thread that a place lies in; 3 for a place past all of them. As the definition has it: a search over the threads
    // would be proved by these three cases too.
    pub fn thread_at(&self, place: u8) -> u8
        ensures value { result ≡ thread_at self.now place }
        ensures limit { result < 4 }
        ensures low { place_of self.now result 0 ≤ place }
    {
        if place < self.first_place(1) {
            0
        } else if place < self.first_place(2) {
            1
        } else if place < self.first_place(3) {
            2
        } else {
            3
        }
    }

    // The number of places.
    pub fn places(&self) -> u8
        ensures value { result ≡ places self.now }
        ensures listed { result ≡ together (code_of self.now).threads }
        ensures limit { result ≤ 32 }
    {
        self.first_place(4)
    }

    pub fn faults(&self) -> &[FaultLine]
        ensures value { result.now ≡ lines_of self.now }
        ensures sound { all line_sound result.now ≡ true }
        ensures conditions { all (all condition_sound) result.now ≡ true }
    {
        self.faults.as_slice()
    }
}
