// The memory that a session lends to its job.
ghost use Rattle.std.specs.Prelude.{◌≡◌, IfOk, take};

use job::call::Memory;
use machines::picture::Picture;
use std::alloc::{AllocError, Global};

// No report needs more bytes than this.
const LEAST_BUFFER: usize = 512;

// How long the lists are that a search is lent, and the one that a run is written into.
#[derive(Clone, Copy)]
pub(crate) struct Lengths {
    pub rows: u32,
    pub runs: u32,
}

impl Lengths {
    // Those of a session as it starts.
    pub(crate) fn at_start() -> Self
        ensures { result ≡ record { rows = 8192; runs = 8192 } }
    {
        Lengths::of(8192)
    }

    // As many rows, and a run list of that length.
    pub(crate) fn of(rows: u32) -> Self
        ensures { result ≡ record { rows = rows; runs = rows } }
    {
        Lengths { rows, runs: rows }
    }

    // The same rows, and a run list of this length.
    pub(crate) fn with_runs(self, runs: u32) -> Self
        ensures { result ≡ record self { runs = runs } }
    {
        Lengths { runs, ..self }
    }
}

#[derive(Drop)]
pub(crate) struct Lent<S> {
    pub rows: Vec<S>,
    pub pictures: Vec<Picture>,
    pub notes: Vec<u32>,
    pub run: Vec<u8>,
    pub out: Vec<u8>,
}

impl<S: Copy> Lent<S> {
    ghost use Rattle.session.specs.Lengths.{IsAsLong};

    // Lists of these lengths, the rows filled with one standing.
    pub(crate) fn new(alloc: Global, standing: S, lengths: Lengths) -> Result<Self, AllocError>
        ensures { IfOk result (IsAsLong lengths) }
    {
        let rows = lengths.rows as usize;
        Ok(Lent {
            rows: vec![in alloc; standing; rows]?,
            pictures: vec![in alloc; Picture::start(); rows]?,
            notes: vec![in alloc; 0u32; rows]?,
            run: vec![in alloc; 0u8; lengths.runs as usize]?,
            out: vec![in alloc; 0u8; LEAST_BUFFER]?,
        })
    }

    pub(crate) fn memory(&mut self) -> Memory<'_, S> {
        Memory {
            rows: self.rows.as_mut_slice(),
            pictures: self.pictures.as_mut_slice(),
            notes: self.notes.as_mut_slice(),
            run: self.run.as_mut_slice(),
            out: self.out.as_mut_slice(),
        }
    }

    // The run of this length.
    pub(crate) fn run(&self, length: usize) -> &[u8]
        ensures { result.now ≡ take length self.now.run.items }
    {
        &self.run[..length.min(self.run.len())]
    }

    // The report of this length.
    pub(crate) fn report(&self, length: usize) -> &[u8]
        ensures { result.now ≡ take length self.now.out.items }
    {
        &self.out[..length.min(self.out.len())]
    }
}
