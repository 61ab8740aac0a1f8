//! The truth clauses of the first step: the value of each fact, handed on from each relevant event to the next.

ghost use Rattle.std.specs.Prelude.{◌≡◌, ◌+◌, ◌<◌, ◌≤◌, if◌then◌else◌};
ghost use Rattle.encoding.specs.Chains.{next_at, truth_at, turn_at};
ghost use Rattle.encoding.specs.Clauses.{numbered, truth};
ghost use Rattle.encoding.specs.Limits.{fact_limit, pair_limit};
ghost use Rattle.encoding.specs.Tables.{relevant as is_relevant};
ghost use Rattle.encoding.specs.Variables.{variables, width as width_of};
ghost use Rattle.formula.specs.Layouts.{table_in};
ghost use Rattle.formula.specs.Listings.{Joined};

use super::Layout;
use super::turns::Turn;
use crate::events::Event;
use crate::groups::same;
use crate::listing::Listing;
use crate::widths::{relevant, width};

// A fact, with how many relevant pairs come before its own, and how many are its own.
#[derive(Clone, Copy)]
struct Chain<'a> {
    layout: &'a Layout<'a>,
    fact: u32,
    before: u32,
    width: u32,
    ghost fact_in: { fact ≤ fact_limit },
    ghost before_in: { before ≤ pair_limit },
    ghost counted: { width ≡ width_of (table_in layout.now) fact },
}

impl<'a> Layout<'a> {
    pub(crate) fn put_truth<const N: usize>(&self, out: &mut Listing<N>)
        ensures { Joined out.old out.new (numbered (table_in self.now) (truth (table_in self.now) 0)) }
    {
        // like the loop over events below, a loop of its own: one over a closure would have to be given, for the proof alone, which clauses it puts
        let mut before = 0;
        for fact in 1..=self.table.facts() {
            let width = width(self.table, fact);
            let chain = Chain {
                layout: &*self,
                fact,
                before,
                width,
            };
            chain.put(out);
            before += width;
        }
    }
}

impl Chain<'_> {
    // The truth clauses of the fact.
    fn put<const N: usize>(&self, out: &mut Listing<N>)
        ensures { Joined out.old out.new (truth_at (table_in self.now.layout.now) self.now.fact (variables (table_in self.now.layout.now) 0) self.now.before self.now.fact) }
    {
        out.extend(&same(self.fact, self.next(0)));
        let mut count = 0;
        for number in 1..=2 * self.layout.table.actions() {
            count = self.put_turn(Event { number }, count, out);
        }
    }

    // The variable that has the fact's value where `count` relevant events are past: that of the next pair, or that of the fact after the step.
    #[tactic(auto, unfolding(encoding::specs::Variables::number))]
    fn next(&self, count: u32) -> u32
        requires { count ≤ 32 }
        ensures { result ≡ next_at (table_in self.now.layout.now) self.now.fact (variables (table_in self.now.layout.now) 0) self.now.before count }
    {
        if count < self.width {
            self.layout.before_pairs() + (self.before + count + 1)
        } else {
            self.layout.fact_after(self.fact)
        }
    }

    // The clauses of an event's turn, if it is relevant, where `count` relevant events came before it; how many are past after it.
    fn put_turn<const N: usize>(&self, event: Event, count: u32, out: &mut Listing<N>) -> u32
        requires { count < event.number }
        ensures count { result ≡ count + (if is_relevant (table_in self.now.layout.now) event.number self.now.fact then 1 else 0) }
        ensures puts { Joined out.old out.new (turn_at (table_in self.now.layout.now) self.now.fact (variables (table_in self.now.layout.now) 0) self.now.before event.number result) }
    {
        let table = self.layout.table;
        if !relevant(table, event.number, self.fact) {
            return count;
        }
        let past = count + 1;
        let turn = Turn {
            needs: table.requires_fact(event.number, self.fact),
            adds: table.adds(event.number, self.fact),
            deletes: table.deletes(event.number, self.fact),
            event: self.layout.event(event),
            before: self.layout.before_pairs() + (self.before + past),
            after: self.next(past),
        };
        turn.put(out);
        past
    }
}
