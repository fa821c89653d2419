// A set of places, as a mask: bit p is set where the place p is in it.
ghost use Rattle.std.specs.Prelude.{◌≡◌, ℕ, ◌+◌, ◌-◌, ◌^◌, ◌<◌, ◌≤◌, Bool, not, IfSome, ◌==◌, count_ones};
ghost use Rattle.std.specs.Int.Bits.{bit_or};
ghost use Rattle.std.specs.Iterator.{at_most};
ghost use Rattle.machines.specs.Places.{has, adding, removing, first_places, from_place, outside, common, lowest, TakesLowest};

use few::Filler;

// A place stays a `u8` below 32, and an end one of at most 32, by clauses: a type of their own would ask more of callers. A
// cast is of a number that fits: `try_from` would answer a `Result` that is never an error.
#[derive(Clone, Copy, PartialEq, Eq, Default)]
pub struct Placement {
    pub mask: u32,
}

impl Filler for Placement {
    ghost filler = { record { mask = 0 } };

    fn filler() -> Self {
        Placement::empty()
    }
}

impl Placement {
    pub fn empty() -> Self
        ensures { result.mask ≡ 0 }
    {
        Placement { mask: 0 }
    }

    // All places below this one.
    pub fn below(end: u8) -> Self
        requires { end ≤ 32 }
        ensures { result.mask ≡ first_places end }
    {
        Placement {
            mask: ((1u64 << end) - 1) as u32,
        }
    }

    #[tactic(auto, using(crate::proofs::Masks::past_none))]
    pub fn contains(self, place: u8) -> bool
        ensures { result ≡ has self.mask place }
    {
        place < 32 && (self.mask >> place) % 2 == 1
    }

    pub fn with(self, place: u8) -> Self
        requires { place < 32 }
        ensures { result.mask ≡ adding self.mask place }
    {
        Placement {
            mask: self.mask | (1 << place),
        }
    }

    #[tactic(auto, using(crate::proofs::Masks::has_low, crate::proofs::Masks::has_within))]
    pub fn without(self, place: u8) -> Self
        ensures { result.mask ≡ removing self.mask place }
    {
        if self.contains(place) {
            Placement {
                mask: self.mask - (1 << place),
            }
        } else {
            self
        }
    }

    // The places of this set that are not in the other.
    pub fn minus(self, other: Placement) -> Self
        ensures { result.mask ≡ outside self.mask other.mask }
    {
        Placement {
            mask: self.mask ^ (self.mask & other.mask),
        }
    }

    pub fn common(self, other: Placement) -> Self
        ensures { result.mask ≡ common self.mask other.mask }
    {
        Placement {
            mask: self.mask & other.mask,
        }
    }

    // The places of this set from this one on.
    #[tactic(auto, using(crate::proofs::Masks::past_below))]
    pub fn from(self, start: u8) -> Self
        requires { start ≤ 32 }
        ensures { result.mask ≡ from_place self.mask start }
    {
        self.minus(Placement::below(start))
    }

    pub fn is_empty(self) -> bool
        ensures { result ≡ (self.mask == 0) }
    {
        self.mask == 0
    }

    // The number of places in the set.
    pub fn count(self) -> u32
        ensures value { result ≡ count_ones self.mask }
        ensures limit { result ≤ 32 }
    {
        self.mask.count_ones()
    }

    pub fn lowest(self) -> Option<u8>
        ensures value { result ≡ lowest self.mask }
        ensures limit { IfSome result (λ place. place < 32) }
    {
        (self.mask != 0).then(|| self.mask.trailing_zeros() as u8)
    }

    // The lowest place of the set from this one on.
    pub fn lowest_from(self, start: u8) -> Option<u8>
        requires { start ≤ 32 }
        ensures value { result ≡ lowest (from_place self.mask start) }
        ensures limit { IfSome result (λ place. (start ≤ place) × (place < 32)) }
    {
        self.from(start).lowest()
    }
}

// The places of a set, lowest first: those that are still to come.
#[derive(Clone, Copy)]
pub struct Places {
    pub left: Placement,
}

impl Iterator for Places {
    type Item = u8;

    ghost next_gives = { λ s place t. TakesLowest s.left.mask place t.left.mask };

    ghost remaining = { λ s. at_most (count_ones s.left.mask) };

    fn next(&mut self) -> Option<u8> {
        let place = self.left.lowest()?;
        self.left = self.left.without(place);
        Some(place)
    }
}

impl IntoIterator for Placement {
    type Item = u8;

    type IntoIter = Places;

    ghost into_iter_gives = { λ s places. places.left ≡ s };

    fn into_iter(self) -> Places {
        Places { left: self }
    }
}
