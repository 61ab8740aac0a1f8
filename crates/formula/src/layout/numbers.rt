//! The numbers of the variables of the beginning and of the first step.

ghost use Rattle.std.specs.Prelude.{◌≡◌, ◌+◌, ◌≤◌};
ghost use Rattle.encoding.specs.Limits.{fact_limit};
ghost use Rattle.encoding.specs.Tables.{events as events_of};
ghost use Rattle.encoding.specs.Variables.{O, X, Y, number, step_size, variables};
ghost use Rattle.formula.specs.Layouts.{table_in};

use super::Layout;
use crate::events::{Action, Event};
use crate::widths::pairs;
use table::Table;

impl<'a> Layout<'a> {
    pub(crate) fn of(table: &'a Table) -> Layout<'a>
        ensures { result.table.now ≡ table.now }
    {
        let pairs = pairs(table);
        Layout { table, pairs }
    }

    /// How many variables a step has.
    #[tactic(auto, unfolding(encoding::specs::Variables::step_size))]
    pub(crate) fn step_size(&self) -> u32
        ensures { result ≡ step_size (table_in self.now) }
    {
        self.table.facts() + 3 * self.table.actions() + self.pairs
    }

    /// How many variables come before those of the first step.
    #[tactic(auto, using(crate::proofs::Numbers::first_variables))]
    pub(crate) fn before_steps(&self) -> u32
        ensures count { result ≡ variables (table_in self.now) 0 }
        ensures few { result ≤ 48 }
    {
        self.table.facts() + self.table.actions()
    }

    /// How many variables come before those of the relevant pairs of the first step.
    pub(crate) fn before_pairs(&self) -> u32
        ensures count { result ≡ variables (table_in self.now) 0 + events_of (table_in self.now) }
        ensures few { result ≤ 80 }
    {
        self.before_steps() + 2 * self.table.actions()
    }

    /// Whether an event is in the first step.
    #[tactic(auto, unfolding(encoding::specs::Variables::number))]
    pub(crate) fn event(&self, event: Event) -> u32
        ensures { result ≡ number (table_in self.now) (Y 1 event.number) }
    {
        self.before_steps() + event.number
    }

    /// Whether a fact is true after the first step.
    #[tactic(auto, unfolding(encoding::specs::Variables::number))]
    pub(crate) fn fact_after(&self, fact: u32) -> u32
        requires { fact ≤ fact_limit }
        ensures { result ≡ number (table_in self.now) (X 1 fact) }
    {
        self.before_pairs() + self.pairs + fact
    }

    /// Whether an action is open at the beginning.
    #[tactic(auto, unfolding(encoding::specs::Variables::number))]
    pub(crate) fn open_before(&self, action: Action) -> u32
        ensures { result ≡ number (table_in self.now) (O 0 action.number) }
    {
        self.table.facts() + action.number
    }

    /// Whether an action is open after the first step.
    #[tactic(auto, unfolding(encoding::specs::Variables::number))]
    pub(crate) fn open_after(&self, action: Action) -> u32
        ensures { result ≡ number (table_in self.now) (O 1 action.number) }
    {
        self.before_pairs() + self.pairs + self.table.facts() + action.number
    }
}
