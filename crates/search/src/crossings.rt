// Sets of places crossed by fault runs met so far. A set of fences that misses one of them is not enough.
ghost use Rattle.std.specs.Prelude.{◌≡◌, ◌-◌, [], ◌∷◌, ◌++◌, length, drop};
ghost use Rattle.std.specs.List.{list_any};
ghost use Rattle.search.specs.Crossed.{misses};

use few::Few;
use machines::placement::Placement;

// The last few dozen: forgetting one costs time and changes no answer.
#[derive(Clone, Copy)]
pub(crate) struct Crossings {
    sets: Few<Placement, 64>,
}

impl Crossings {
    pub(crate) fn new() -> Self
        ensures { result.sets ≡ [] }
    {
        Crossings { sets: Few::new() }
    }

    // Keeps one set more, in place of the oldest where there is no room.
    pub(crate) fn note(&mut self, crossed: Placement)
        ensures { self.new.sets ≡ drop (length self.old.sets - 63) self.old.sets ++ crossed ∷ [] }
    {
        if self.sets.is_full() {
            self.sets.remove_first();
        }
        self.sets.push(crossed);
    }

    // Whether some set kept has no place in `chosen` and none in `later`.
    pub(crate) fn missed(&self, chosen: Placement, later: Placement) -> bool
        ensures { result ≡ list_any (misses chosen later) self.now.sets }
    {
        self.sets.as_slice().iter().any(|set| set.common(chosen).is_empty()
            && set.common(later).is_empty())
    }
}
