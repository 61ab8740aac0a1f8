//! How a listing begins and grows, and what it holds.

ghost use Rattle.std.specs.Prelude.{◌≡◌, [], ◌∷◌, map};
ghost use Rattle.encoding.specs.Ranges.{only};
ghost use Rattle.formula.specs.Listings.{Joined, lits, values};

use super::Listing;
use crate::clauses::{Clause, Literal};

impl<const N: usize> Listing<N> {
    pub(crate) fn none() -> Listing<N>
        ensures { result.count ≡ 0 }
    {
        let unused = Clause::One(Literal::Is(0));
        Listing {
            slots: [unused; N],
            count: 0,
        }
    }

    /// Puts a clause after the last, where there is room.
    pub(crate) fn push(&mut self, clause: Clause)
        ensures { Joined self.old self.new (lits clause ∷ []) }
    {
        // tried with get_mut: what the slots hold afterwards stays open
        let at = self.count;
        if at < N {
            self.slots[at] = clause;
            self.count = at + 1;
        }
    }

    /// Puts a clause after the last, if the test holds and there is room.
    pub(crate) fn push_if(&mut self, test: bool, clause: Clause)
        ensures { Joined self.old self.new (only test (lits clause ∷ [])) }
    {
        if test {
            self.push(clause);
        }
    }

    /// Puts clauses after the last, where there is room for them all.
    pub(crate) fn extend(&mut self, clauses: &[Clause])
        ensures { Joined self.old self.new (map lits clauses.now) }
    {
        for clause in clauses {
            self.push(*clause);
        }
    }

    /// The clauses, first to last.
    pub(crate) fn as_slice(&self) -> &[Clause]
        ensures { result.now ≡ values self.now }
    {
        &self.slots[..self.count]
    }
}
