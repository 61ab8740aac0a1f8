//! The notes of one role: the facts noted for each action, and for action 0 where the role takes none.

ghost use Rattle.std.specs.Prelude.{◌≡◌, ℕ, false, ◌&&◌, ◌||◌, ◌==◌, nat_lt};
ghost use Rattle.table.specs.Memory.{marked, noted, facts_of};

use crate::limits::{ACTION_PLACES, FACT_PLACES};
use crate::marks::Marks;

// A fixed array, as no heap is used here.
#[derive(Clone, Copy)]
pub(crate) struct Notes {
    of: [Marks<FACT_PLACES>; ACTION_PLACES],
}

impl Notes {
    pub(crate) fn none() -> Notes
        ensures { (a p : ℕ) → noted result a p ≡ false }
    {
        let facts = Marks::none();
        Notes {
            of: [facts; ACTION_PLACES],
        }
    }

    /// The facts noted for an action.
    pub(crate) fn facts(&self, action: u32) -> Marks<FACT_PLACES>
        ensures { (p : ℕ) → marked result p ≡ noted self.now action p }
    {
        self.of
            .get(action as usize)
            .copied()
            .unwrap_or_else(Marks::none)
    }

    pub(crate) fn has(&self, action: u32, fact: u32) -> bool
        ensures { result ≡ noted self.now action fact }
    {
        self.of
            .get(action as usize)
            .is_some_and(|facts| facts.has(fact))
    }

    /// Adds a note. One that there is no place for changes nothing.
    pub(crate) fn add(&mut self, action: u32, fact: u32)
        ensures { (a p : ℕ) → noted self.new a p ≡ ((a == action && (nat_lt action 17 && (p == fact && nat_lt fact 33))) || noted self.old a p) }
    {
        // By index: where `get_mut` gives None, that there are all these places stays open (tried).
        let place = action as usize;
        if place < ACTION_PLACES {
            self.of[place].put(fact, true);
        }
    }
}
