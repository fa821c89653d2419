// A job for one kind of machine: it holds a program, the barred places, and perhaps a kept placement.
ghost use Rattle.std.specs.Prelude.{◌<◌, ◌≤◌, false, IfOk, ◌≡◌, ℕ, List, Some, None, length, option_map, IsTrue};
ghost use Rattle.search.specs.Enough.{rows_lent};
ghost use Rattle.job.specs.Answers.{PlainRun, ShowRun, TestRun};
ghost use Rattle.job.specs.Checks.{is_missing, set_of as set_in};
ghost use Rattle.job.specs.Loads.{held_in};
ghost use Rattle.job.specs.Lent.{after_bar, after_free, after_plain, after_read, after_report, after_show, after_solve, after_test, lent};
ghost use Rattle.job.specs.Promises.{Promises};
ghost use Rattle.job.specs.States.{placement, view_of};

use crate::lines::{long_enough, put_report};
use crate::solution::{Solution, View};
use listing::program::Program;
use listing::reader::read;
use listing::refusal::{Reason, Refusal};
use machines::machine::{Kind, Machine};
use machines::picture::Picture;
use machines::placement::Placement;
use machines::unbuffered::Unbuffered;
use search::least::least;
use search::rows::rows_in;
use search::test::test;
use std::marker::Model;

// The program that was read, its machine, the places that may not be fenced, and the placement found last.
#[derive(Drop)]
pub(crate) struct Loaded<K> {
    pub(crate) program: Program,
    pub(crate) machine: K,
    pub(crate) barred: Placement,
    pub(crate) kept: Option<Solution>,
}

impl<K> Loaded<K> {
    // Whether the program has no such place.
    fn lacks(&self, place: u8) -> bool
        ensures value { result ≡ is_missing (held_in self.now) place }
        ensures limit { result ≡ false → place < 32 }
    {
        place >= self.program.places()
    }
}

/// What a job holds is, for its callers, one value: nothing, or the program with its bars and the kept placement.
#[derive(Drop)]
pub struct Job<K: Kind> {
    loaded: Option<Loaded<K>>,
}

impl<K: Kind> Model for Job<K> {
    ghost use Rattle.job.specs.States.{State};

    ghost Value = { State };

    ghost use Rattle.job.specs.Loads.{Sound, state_in};

    ghost view = { λ j. state_in j.loaded };

    ghost invariant = { λ j. Sound K.made K.means j.loaded };
}

// The set of these places, none where one is not in the program.
fn set_of(program: &Program, places: &[u8]) -> Option<Placement>
    ensures { result ≡ option_map placement (set_in program.now places.now) }
{
    let mut set = Placement::empty();
    for place in places {
        if *place >= program.places() {
            return None;
        }
        set = set.with(*place);
    }
    Some(set)
}

impl<K: Kind> Job<K> {
    /// A job starts with no program.
    pub fn new() -> Self
        ensures { result ≡ None }
    {
        Job { loaded: None }
    }

    // Every job keeps its promises, since some calls of a new one led to it. There is nothing to do.
    pub(crate) fn keeps_its_promises(&self)
        ensures { Promises (λ p. K.means (K.made p)) self.now }
    {
        let _ = &self.loaded;
    }

    /// Holds the program written in the listing, with no bars and no kept placement, and answers the number of its places, 1 to
    /// 32. Refused by 1 to 7, with the line where one is concerned; the job is then as it was.
    pub fn read(&mut self, text: &[u8]) -> Result<u8, Refusal>
        ensures { (result, self.new) ≡ after_read (λ p. K.means (K.made p)) self.old text.now }
    {
        let program = read(text)?;
        self.loaded = Some(Loaded {
            program,
            machine: K::of(program),
            barred: Placement::empty(),
            kept: None,
        });
        Ok(program.places())
    }

    /// Bars a place, and drops the kept placement. A place is an instruction's number, counted through the whole listing from 0.
    /// Refused by 8, by 9 for a place that is not in the program, and by 10 where it is barred.
    pub fn bar(&mut self, place: u8) -> Result<(), Refusal>
        ensures { (result, self.new) ≡ after_bar (λ p. K.means (K.made p)) self.old place }
    {
        let loaded = self.loaded.as_mut().ok_or(Reason::NoProgram.refusal())?;
        if loaded.lacks(place) {
            return Err(Reason::PlaceMissing.refusal());
        }
        if loaded.barred.contains(place) {
            return Err(Reason::AlreadySo.refusal());
        }
        loaded.barred = loaded.barred.with(place);
        loaded.kept = None;
        Ok(())
    }

    /// Frees a place, and drops the kept placement. Refused by 8, by 9 for a place that is not in the program, and by 10 where it is
    /// not barred.
    pub fn free(&mut self, place: u8) -> Result<(), Refusal>
        ensures { (result, self.new) ≡ after_free (λ p. K.means (K.made p)) self.old place }
    {
        let loaded = self.loaded.as_mut().ok_or(Reason::NoProgram.refusal())?;
        if loaded.lacks(place) {
            return Err(Reason::PlaceMissing.refusal());
        }
        if !loaded.barred.contains(place) {
            return Err(Reason::AlreadySo.refusal());
        }
        loaded.barred = loaded.barred.without(place);
        loaded.kept = None;
        Ok(())
    }

    /// Keeps and answers the fewest open places that keep every fault out; of equal counts, the set that holds the lowest place in
    /// which the two differ. The rows are the shorter of the two lists, at most 65,536. What a search leaves in them is free.
    /// Refused by 8, by 14 where there are too few rows, and by 15 where all open places together are not enough.
    pub fn solve(
        &mut self,
        rows: &mut [K::Standing],
        notes: &mut [u32],
    ) -> Result<Solution, Refusal>
        ensures { (result, self.new, rows.new, notes.new) ≡
            after_solve (λ p. K.means (K.made p)) self.old rows.old notes.old rows.new notes.new }
    {
        let loaded = self.loaded.as_mut().ok_or(Reason::NoProgram.refusal())?;
        let open_places = Placement::below(loaded.program.places()).minus(loaded.barred);
        let places = least(&loaded.machine, &loaded.program, open_places, rows, notes).map_err(
            Reason::refusal,
        )?;
        let solution = Solution {
            places,
            fences: places.count(),
        };
        loaded.kept = Some(solution);
        Ok(solution)
    }

    /// None where no fault run keeps to the set of these places, barred or not; else the length of the fault run that is
    /// written, which keeps to them. Which fault run it is stays free, and what a search leaves in rows and notes. Places may come
    /// in any order and more than once. Refused by 8, by 9 where one is not in the program, by 11 where the run list is shorter
    /// than the number of rows, and by 14.
    pub fn test(
        &self,
        places: &[u8],
        rows: &mut [K::Standing],
        notes: &mut [u32],
        run: &mut [u8],
    ) -> Result<Option<usize>, Refusal>
        ensures { (ns : List ℕ) ×
            TestRun (λ p. K.means (K.made p)) self.now places.now (rows_lent rows.old notes.old) (length run.old) ns ×
            ((result, self.now, lent rows.new notes.new run.new) ≡
            after_test (λ p. K.means (K.made p)) self.now places.now (lent rows.old notes.old run.old) (lent rows.new notes.new ns)) }
    {
        let loaded = self.loaded.as_ref().ok_or(Reason::NoProgram.refusal())?;
        let set = set_of(&loaded.program, places).ok_or(Reason::PlaceMissing.refusal())?;
        test(&loaded.machine, &loaded.program, set, rows, notes, run).map_err(Reason::refusal)
    }

    /// The length of the fault run that is written, which keeps to the kept places but this one. There always is one. Refused by
    /// 8, 9, 11, 12 where nothing is kept, 13 where the place is not kept, and 14.
    pub fn show(
        &self,
        place: u8,
        rows: &mut [K::Standing],
        notes: &mut [u32],
        run: &mut [u8],
    ) -> Result<usize, Refusal>
        ensures { (ns : List ℕ) ×
            ShowRun (λ p. K.means (K.made p)) self.now place (rows_lent rows.old notes.old) (length run.old) ns ×
            ((result, self.now, lent rows.new notes.new run.new) ≡
            after_show (λ p. K.means (K.made p)) self.now place (lent rows.old notes.old run.old) (lent rows.new notes.new ns)) }
    {
        let loaded = self.loaded.as_ref().ok_or(Reason::NoProgram.refusal())?;
        if loaded.lacks(place) {
            return Err(Reason::PlaceMissing.refusal());
        }
        if run.len() < rows_in(rows, notes) {
            return Err(Reason::RunListTooShort.refusal());
        }
        let kept = loaded.kept.ok_or(Reason::NoPlacement.refusal())?;
        if !kept.places.contains(place) {
            return Err(Reason::PlaceNotKept.refusal());
        }
        let others = kept.places.without(place);
        let found = test(&loaded.machine, &loaded.program, others, rows, notes, run).map_err(
            Reason::refusal,
        )?;
        Ok(found.unwrap())
    }

    /// None where the unbuffered machine is free of faults; else the length of the fault run of it that is written. The rows are
    /// that machine's standings. Refused by 8, 11 and 14.
    pub fn plain(
        &self,
        rows: &mut [Picture],
        notes: &mut [u32],
        run: &mut [u8],
    ) -> Result<Option<usize>, Refusal>
        ensures { (ns : List ℕ) ×
            PlainRun self.now (rows_lent rows.old notes.old) (length run.old) ns ×
            ((result, self.now, lent rows.new notes.new run.new) ≡
            after_plain (λ p. K.means (K.made p)) self.now (lent rows.old notes.old run.old) (lent rows.new notes.new ns)) }
    {
        let loaded = self.loaded.as_ref().ok_or(Reason::NoProgram.refusal())?;
        let machine = Unbuffered::of(loaded.program);
        test(
            &machine,
            &loaded.program,
            Placement::empty(),
            rows,
            notes,
            run,
        )
        .map_err(Reason::refusal)
    }

    /// The bars and the kept placement; none of either without a program. Never refused.
    pub fn look(&self) -> View
        ensures { result ≡ view_of self.now }
    {
        self.loaded
            .as_ref()
            .map(|loaded| View {
                barred: loaded.barred,
                kept: loaded.kept,
            })
            .unwrap_or_default()
    }

    /// Writes the report of the kept placement, and answers its length. Refused by 8, by 12 where nothing is kept, and by 16 where
    /// the buffer has fewer than 512 bytes.
    pub fn report(&self, out: &mut [u8]) -> Result<usize, Refusal>
        ensures value { (result, out.new) ≡ after_report self.now out.old }
        ensures limit { IfOk result (λ n. n ≤ 512) }
    {
        let loaded = self.loaded.as_ref().ok_or(Reason::NoProgram.refusal())?;
        let kept = loaded.kept.ok_or(Reason::NoPlacement.refusal())?;
        long_enough(out)?;
        Ok(put_report(out, &loaded.program, kept))
    }
}
