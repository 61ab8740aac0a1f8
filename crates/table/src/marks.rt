//! Sets of facts or of actions: a mark for each number below N. Numbers count from 1, so N is one more than the largest number that
//! a set can hold. Every function is total: a number that a set has no place for is never in it.

ghost use Rattle.std.specs.Prelude.{◌≡◌, ℕ, false, not, ◌&&◌, ◌||◌, if◌then◌else◌, nat_eq, nat_lt};
ghost use Rattle.table.specs.Memory.{marked};

use crate::limits::FACT_PLACES;
use std::array;

// A fixed array, as no heap is used here, and no model: what a set says is a function, and the value of a model has to be data.
#[derive(Clone, Copy)]
pub(crate) struct Marks<const N: usize> {
    marks: [bool; N],
}

impl<const N: usize> Marks<N> {
    /// The empty set.
    pub(crate) fn none() -> Marks<N>
        ensures { (i : ℕ) → marked result i ≡ false }
    {
        Marks { marks: [false; N] }
    }

    pub(crate) fn has(&self, number: u32) -> bool
        ensures { result ≡ marked self.now number }
    {
        self.marks.get(number as usize).copied().unwrap_or(false)
    }

    /// Puts the number in or takes it out. A number that the set has no place for changes nothing.
    pub(crate) fn put(&mut self, number: u32, present: bool)
        ensures { (i : ℕ) → marked self.new i ≡ (if nat_eq i number && nat_lt number N then present else marked self.old i) }
    {
        // By index: where `get_mut` gives None, that there are N places stays open (tried).
        let place = number as usize;
        if place < N {
            self.marks[place] = present;
        }
    }
}

impl Marks<FACT_PLACES> {
    /// The facts without what is deleted, and with what is added.
    pub(crate) fn changed(
        self,
        adds: Marks<FACT_PLACES>,
        deletes: Marks<FACT_PLACES>,
    ) -> Marks<FACT_PLACES>
        ensures { (i : ℕ) → marked result i ≡ (marked adds i || (marked self i && not (marked deletes i))) }
    {
        Marks {
            marks: array::from_fn(|i| adds.marks[i] || (self.marks[i] && !deletes.marks[i])),
        }
    }
}
