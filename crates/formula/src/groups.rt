//! The clauses that come together, over any variables.

ghost use Rattle.std.specs.Prelude.{◌≡◌, map};
ghost use Rattle.encoding.specs.Clauses.{agenda_of, same as same_value, same_unless};
ghost use Rattle.formula.specs.Listings.{lits};

use crate::clauses::{Clause, Literal};

/// An action's start and end, and whether it is open before the step and after it.
#[tactic(auto, unfolding(encoding::specs::Clauses::agenda_of))]
pub(crate) fn agenda_of(start: u32, end: u32, before: u32, after: u32) -> [Clause; 6]
    ensures { map lits result ≡ agenda_of start end before after }
{
    [
        Clause::Two(Literal::Isnt(start), Literal::Isnt(before)),
        Clause::Three(
            Literal::Is(before),
            Literal::Isnt(after),
            Literal::Is(start),
        ),
        Clause::Three(Literal::Isnt(start), Literal::Is(end), Literal::Is(after)),
        Clause::Two(Literal::Isnt(end), Literal::Isnt(after)),
        Clause::Three(Literal::Isnt(before), Literal::Is(after), Literal::Is(end)),
        Clause::Three(Literal::Is(start), Literal::Isnt(end), Literal::Is(before)),
    ]
}

/// Both variables have one value.
#[tactic(auto, unfolding(encoding::specs::Clauses::same))]
pub(crate) fn same(v: u32, w: u32) -> [Clause; 2]
    ensures { map lits result ≡ same_value v w }
{
    [
        Clause::Two(Literal::Isnt(v), Literal::Is(w)),
        Clause::Two(Literal::Is(v), Literal::Isnt(w)),
    ]
}

/// The last two variables have one value, unless the first holds.
#[tactic(auto, unfolding(encoding::specs::Clauses::same_unless))]
pub(crate) fn same_unless(y: u32, v: u32, w: u32) -> [Clause; 2]
    ensures { map lits result ≡ same_unless y v w }
{
    [
        Clause::Three(Literal::Is(y), Literal::Isnt(v), Literal::Is(w)),
        Clause::Three(Literal::Is(y), Literal::Is(v), Literal::Isnt(w)),
    ]
}
