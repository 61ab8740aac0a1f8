//! The start's clauses, the agenda's and the kept ones of the first step, and the goal's as if the first step were still to come.
//!
//! Each loop puts clauses of its own: one loop for all, over a closure, would have to be given, for the proof alone, which clauses they are.

ghost use Rattle.std.specs.Prelude.{◌≡◌, not, ◌&&◌, if◌then◌else◌, ◌==◌, nat_lt};
ghost use Rattle.encoding.specs.Clauses.{agenda, goal, goal_facts, is, isnt, kept, none_open, numbered, start, start_facts};
ghost use Rattle.encoding.specs.Ranges.{each};
ghost use Rattle.encoding.specs.Tables.{harms, owner as owner_of};
ghost use Rattle.encoding.specs.Variables.{O, Y, number};
ghost use Rattle.formula.specs.Layouts.{table_in};
ghost use Rattle.formula.specs.Listings.{Joined, lit};
ghost use Rattle.formula.specs.Parts.{kept_at};

use super::Layout;
use crate::clauses::{Clause, Literal};
use crate::events::{Action, Event};
use crate::groups::agenda_of;
use crate::listing::Listing;
use table::owner;

impl<'a> Layout<'a> {
    /// The initial facts are true, the others false, and no action is open.
    pub(crate) fn put_start<const N: usize>(&self, out: &mut Listing<N>)
        ensures { Joined out.old out.new (numbered (table_in self.now) (start (table_in self.now))) }
    {
        self.put_start_facts(out);
        self.put_none_open(out);
    }

    /// The goal facts are true, and no action is open.
    pub(crate) fn put_goal<const N: usize>(&self, out: &mut Listing<N>)
        ensures { Joined out.old out.new (numbered (table_in self.now) (goal (table_in self.now) 0)) }
    {
        self.put_goal_facts(out);
        self.put_none_open(out);
    }

    /// Six clauses for each action.
    pub(crate) fn put_agenda<const N: usize>(&self, out: &mut Listing<N>)
        ensures { Joined out.old out.new (numbered (table_in self.now) (agenda (table_in self.now) 0)) }
    {
        for number in 1..=self.table.actions() {
            let action = Action { number };
            out.extend(&agenda_of(
                self.event(action.start()),
                self.event(action.end()),
                self.open_before(action),
                self.open_after(action),
            ));
        }
    }

    /// For each event and each action that does not own it, a clause if the event deletes a held fact of the action.
    pub(crate) fn put_kept<const N: usize>(&self, out: &mut Listing<N>)
        ensures { Joined out.old out.new (numbered (table_in self.now) (kept (table_in self.now) 0)) }
    {
        for number in 1..=2 * self.table.actions() {
            self.put_kept_from(Event { number }, out);
        }
    }

    fn put_start_facts<const N: usize>(&self, out: &mut Listing<N>)
        ensures { Joined out.old out.new (numbered (table_in self.now) (start_facts (table_in self.now))) }
    {
        for fact in 1..=self.table.facts() {
            out.push(Clause::One(literal(self.table.initial(fact), fact)));
        }
    }

    fn put_goal_facts<const N: usize>(&self, out: &mut Listing<N>)
        ensures { Joined out.old out.new (numbered (table_in self.now) (goal_facts (table_in self.now) 0)) }
    {
        for fact in 1..=self.table.facts() {
            out.push_if(self.table.goal(fact), Clause::One(Literal::Is(fact)));
        }
    }

    fn put_none_open<const N: usize>(&self, out: &mut Listing<N>)
        ensures { Joined out.old out.new (numbered (table_in self.now) (none_open (table_in self.now) 0)) }
    {
        for number in 1..=self.table.actions() {
            let open = self.open_before(Action { number });
            out.push(Clause::One(Literal::Isnt(open)));
        }
    }

    // The kept clauses of one event.
    fn put_kept_from<const N: usize>(&self, event: Event, out: &mut Listing<N>)
        ensures { Joined out.old out.new (each (table_in self.now).actions (kept_at (table_in self.now) event.number)) }
    {
        for number in 1..=self.table.actions() {
            let action = Action { number };
            let open = self.open_at_turn(event, action);
            let clause = Clause::Two(Literal::Isnt(self.event(event)), Literal::Isnt(open));
            out.push_if(self.excludes(event, action), clause);
        }
    }

    // Whether the event deletes a held fact of an action that does not own it.
    fn excludes(&self, event: Event, action: Action) -> bool
        ensures { result ≡ (not (action.number == owner_of event.number) && harms (table_in self.now) event.number action.number) }
    {
        action.number != owner(event.number) && self.table.harms(event.number, action.number)
    }

    // Whether the action is open at the event's turn: the turns of an action below the owner are past then, those of one above are not.
    fn open_at_turn(&self, event: Event, action: Action) -> u32
        ensures { result ≡ number (table_in self.now) (O (if nat_lt action.number (owner_of event.number) then 1 else 0) action.number) }
    {
        if action.number < owner(event.number) {
            self.open_after(action)
        } else {
            self.open_before(action)
        }
    }
}

// The variable if it holds, otherwise its denial.
fn literal(holds: bool, variable: u32) -> Literal
    ensures { lit result ≡ (if holds then is variable else isnt variable) }
{
    if holds {
        Literal::Is(variable)
    } else {
        Literal::Isnt(variable)
    }
}
