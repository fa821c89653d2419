// The least set of open places that keeps every fault out.
ghost use Rattle.std.specs.Prelude.{◌≡◌, ◌-◌, ◌^◌, ◌<◌, ◌≤◌, [], ◌∷◌, ◌++◌, true, false, length, drop, find, option_map, MatchOption};
ghost use Rattle.machines.specs.declared.placement.Placement.{Placement};
ghost use Rattle.machines.specs.Places.{from_place, places_in};
ghost use Rattle.search.specs.Answers.{least_placed};
ghost use Rattle.search.specs.Crossed.{AllNoted, Apart, Noted};
ghost use Rattle.search.specs.Enough.{enough, fits, rows_lent};
ghost use Rattle.search.specs.Explored.{room};
ghost use Rattle.search.specs.Least.{choices, least, Within};

use crate::crossings::Crossings;
use crate::explore::{Extent, Judged};
use crate::table::Table;
use listing::program::Program;
use listing::refusal::Reason;
use machines::fenced::Fenced;
use machines::machine::Machine;
use machines::placement::Placement;

// Which of the open places to fence: what is asked, and what the sets tried so far have shown.
#[derive(Drop)]
struct Search<'m, 'p, 't, M: Machine> {
    unfenced: Judged<'m, 'p, M>,
    unbarred: Placement,
    table: Table<'t, M::Standing>,
    known: Crossings,
    ghost small: { unbarred.mask < 2 ^ 32 },
}

// The set without the lower half of its places.
fn higher_half(places: Placement) -> Placement
    ensures { Within result.mask places.mask }
{
    let mut left = places;
    for _ in 0..places.count() / 2 {
        if let Some(place) = left.lowest() {
            left = left.without(place);
        }
    }
    left
}

impl<M: Machine> Search<'_, '_, '_, M> {
    // The places that a fault run crosses which keeps to the set, if there is one. That the rows suffice is known by then.
    fn crossed_past(&mut self, places: Placement) -> Option<Placement>
        requires { fits (M.means self.old.unfenced.machine.now) (room self.old.table) ≡ true }
        ensures found { MatchOption result (enough self.old.unfenced.program.now (M.means self.old.unfenced.machine.now) (room self.old.table) places.mask ≡ true) (λ crossed. (enough self.old.unfenced.program.now (M.means self.old.unfenced.machine.now) (room self.old.table) places.mask ≡ false) × Noted self.old.unfenced.program.now (M.means self.old.unfenced.machine.now) crossed.mask × Apart crossed.mask places.mask) }
        ensures asked { (self.new.unfenced ≡ self.old.unfenced) × (self.new.unbarred ≡ self.old.unbarred) × (room self.new.table ≡ room self.old.table) × (self.new.known ≡ self.old.known) }
    {
        let machine = Fenced {
            machine: self.unfenced.machine,
            places,
        };
        let fenced = Judged {
            machine: &machine,
            program: self.unfenced.program,
        };
        match fenced.explore(&mut self.table, Extent::FirstFault) {
            Ok(Some(row)) => Some(fenced.crossed(&self.table, row)),
            Ok(None) => None,
            Err(_) => None,
        }
    }

    // The places that some fault run crosses: these, or fewer, where a run is found that crosses their higher half alone, and again
    // so of what that crosses. The smaller a set that is noted, the more it rules out; of two places trying costs more than it saves.
    fn fewer(&mut self, crossed: Placement) -> Placement
        requires fits { fits (M.means self.old.unfenced.machine.now) (room self.old.table) ≡ true }
        requires noted { Noted self.old.unfenced.program.now (M.means self.old.unfenced.machine.now) crossed.mask }
        ensures noted { Noted self.old.unfenced.program.now (M.means self.old.unfenced.machine.now) result.mask }
        ensures within { Within result.mask crossed.mask }
        ensures asked { (self.new.unfenced ≡ self.old.unfenced) × (self.new.unbarred ≡ self.old.unbarred) × (room self.new.table ≡ room self.old.table) × (self.new.known ≡ self.old.known) }
    {
        let mut kept = crossed;
        for _ in 0..5u8 {
            if kept.count() <= 2 {
                break;
            }
            let fences = Placement::below(32).minus(higher_half(kept));
            let Some(found) = self.crossed_past(fences) else {
                break;
            };
            kept = found;
        }
        kept
    }

    // Whether no fault run keeps to the set; where one does, what some fault run crosses is noted, and the set has none of it.
    fn is_enough(&mut self, places: Placement) -> bool
        requires fits { fits (M.means self.old.unfenced.machine.now) (room self.old.table) ≡ true }
        requires known { AllNoted self.old.unfenced.program.now (M.means self.old.unfenced.machine.now) self.old.known.sets }
        ensures answer { result ≡ enough self.old.unfenced.program.now (M.means self.old.unfenced.machine.now) (room self.old.table) places.mask }
        ensures known { AllNoted self.old.unfenced.program.now (M.means self.old.unfenced.machine.now) self.new.known.sets }
        ensures noted { result ≡ false → (crossed : Placement) × (self.new.known.sets ≡ drop (length self.old.known.sets - 63) self.old.known.sets ++ crossed ∷ []) × Apart crossed.mask places.mask }
        ensures asked { (self.new.unfenced ≡ self.old.unfenced) × (self.new.unbarred ≡ self.old.unbarred) × (room self.new.table ≡ room self.old.table) }
    {
        let Some(crossed) = self.crossed_past(places) else {
            return true;
        };
        let noted = self.fewer(crossed);
        self.known.note(noted);
        false
    }

    // The first set that is enough among those that hold `chosen` and `left` more open places from `from` on; a set that
    // holds a lower place comes first.
    fn first_enough(&mut self, chosen: Placement, from: u8, left: u32) -> Option<Placement>
        requires from { from ≤ 32 }
        requires fits { fits (M.means self.old.unfenced.machine.now) (room self.old.table) ≡ true }
        requires known { AllNoted self.old.unfenced.program.now (M.means self.old.unfenced.machine.now) self.old.known.sets }
        ensures answer { result ≡ option_map (λ s. record { mask = s }) (find (enough self.old.unfenced.program.now (M.means self.old.unfenced.machine.now) (room self.old.table)) (choices chosen.mask left (places_in (from_place self.old.unbarred.mask from) 32))) }
        ensures known { AllNoted self.old.unfenced.program.now (M.means self.old.unfenced.machine.now) self.new.known.sets }
        ensures asked { (self.new.unfenced ≡ self.old.unfenced) × (self.new.unbarred ≡ self.old.unbarred) × (room self.new.table ≡ room self.old.table) }
    {
        let later = if left == 0 {
            Placement::empty()
        } else {
            self.unbarred.from(from)
        };
        if self.known.missed(chosen, later) {
            return None;
        }
        if left == 0 {
            return self.is_enough(chosen).then_some(chosen);
        }
        let place = self.unbarred.lowest_from(from)?;
        let more = chosen.with(place);
        // By `or_else` the closure would be part of the recursion, and want a measure of its own.
        let taken = self.first_enough(more, place + 1, left - 1);
        if taken.is_some() {
            return taken;
        }
        self.first_enough(chosen, place + 1, left)
    }

    // The least set of open places that is enough, or none.
    fn least(&mut self) -> Option<Placement>
        requires fits { fits (M.means self.old.unfenced.machine.now) (room self.old.table) ≡ true }
        requires known { AllNoted self.old.unfenced.program.now (M.means self.old.unfenced.machine.now) self.old.known.sets }
        ensures { result ≡ option_map (λ s. record { mask = s }) (least (enough self.old.unfenced.program.now (M.means self.old.unfenced.machine.now) (room self.old.table)) self.old.unbarred.mask) }
    {
        let unbarred = self.unbarred;
        if !self.is_enough(unbarred) {
            return None;
        }
        let none = Placement::empty();
        for count in 0..unbarred.count() {
            let places = self.first_enough(none, 0, count);
            if places.is_some() {
                return places;
            }
        }
        Some(unbarred)
    }
}

// The fewest open places that keep every fault out; of equal counts, the set that holds the lowest place in which the
// two differ. What is left in rows and notes is free. They are no struct: where one's slices are lent on to the table, the check
// makes no proof.
pub fn least<M: Machine>(
    machine: &M,
    program: &Program,
    unbarred: Placement,
    rows: &mut [M::Standing],
    notes: &mut [u32],
) -> Result<Placement, Reason>
    ensures { result ≡ least_placed program.now (M.means machine.now) (rows_lent rows.old notes.old) unbarred.mask }
{
    let unfenced = Judged { machine, program };
    let mut table = Table::new(rows, notes);
    // Explored with no fence first, and to the end.
    let Some(row) = unfenced.explore(&mut table, Extent::Whole)? else {
        return Ok(Placement::empty());
    };
    let mut known = Crossings::new();
    known.note(unfenced.crossed(&table, row));
    let mut search = Search {
        unfenced,
        unbarred,
        table,
        known,
    };
    search.least().ok_or(Reason::NoneEnough)
}
