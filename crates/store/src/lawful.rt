//! A clause that is known to be within the limits.

ghost use Rattle.std.specs.Prelude.{◌≡◌, true, false, MatchOption};
ghost use Rattle.store.specs.Clauses.{is_clause};

use super::clauses::is_clause;

/// A clause within the limits: one to four literals.
#[derive(Clone, Copy)]
pub(crate) struct Lawful<'a> {
    pub literals: &'a [i32],
    ghost lawful: { is_clause literals.now ≡ true },
}

impl<'a> Lawful<'a> {
    /// The clause, if it is within the limits.
    pub(crate) fn new(clause: &'a [i32]) -> Option<Lawful<'a>>
        ensures { MatchOption result (is_clause clause.now ≡ false) (λ lawful. lawful.literals.now ≡ clause.now) }
    {
        if is_clause(clause) {
            Some(Lawful { literals: clause })
        } else {
            None
        }
    }
}
