//! A state of a cell: the facts that are true, and the actions that are open.

ghost use Rattle.std.specs.Prelude.{◌≡◌};
ghost use Rattle.table.specs.States.{state_of};

use crate::limits::{ACTION_PLACES, FACT_PLACES};
use crate::marks::Marks;

#[derive(Clone, Copy)]
pub struct State {
    pub(crate) facts: Marks<FACT_PLACES>,
    pub(crate) open: Marks<ACTION_PLACES>,
}

impl State {
    pub fn holds(&self, fact: u32) -> bool
        ensures { result ≡ (state_of self.now).holds fact }
    {
        self.facts.has(fact)
    }

    pub fn is_open(&self, action: u32) -> bool
        ensures { result ≡ (state_of self.now).is_open action }
    {
        self.open.has(action)
    }
}
