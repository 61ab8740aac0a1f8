//! An event's turn at a fact: the clauses that hand the fact's value on.

ghost use Rattle.std.specs.Prelude.{◌≡◌};
ghost use Rattle.encoding.specs.Clauses.{pass_on, turn};
ghost use Rattle.formula.specs.Listings.{Joined};

use crate::clauses::{Clause, Literal};
use crate::groups::{same, same_unless};
use crate::listing::Listing;

// What the event is to the fact, the event's variable, and the variables of the fact's value before the turn and after it.
#[derive(Clone, Copy)]
pub(super) struct Turn {
    pub needs: bool,
    pub adds: bool,
    pub deletes: bool,
    pub event: u32,
    pub before: u32,
    pub after: u32,
}

impl Turn {
    // What is required before the turn, then what is handed on.
    pub(super) fn put<const N: usize>(&self, out: &mut Listing<N>)
        ensures { Joined out.old out.new (turn self.now.needs self.now.adds self.now.deletes self.now.event self.now.before self.now.after) }
    {
        let needed = Clause::Two(Literal::Isnt(self.event), Literal::Is(self.before));
        out.push_if(self.needs, needed);
        self.put_passed_on(out);
    }

    // The value is handed on; by an event that adds or deletes the fact, only where it is not in the step.
    fn put_passed_on<const N: usize>(&self, out: &mut Listing<N>)
        ensures { Joined out.old out.new (pass_on self.now.adds self.now.deletes self.now.event self.now.before self.now.after) }
    {
        // the branches of adds and deletes follow the two cases of the definition
        if self.adds {
            out.push(Clause::Two(Literal::Isnt(self.event), Literal::Is(self.after)));
            out.extend(&same_unless(self.event, self.before, self.after));
        } else if self.deletes {
            out.push(Clause::Two(Literal::Isnt(self.event), Literal::Isnt(self.after)));
            out.extend(&same_unless(self.event, self.before, self.after));
        } else {
            out.extend(&same(self.before, self.after));
        }
    }
}
