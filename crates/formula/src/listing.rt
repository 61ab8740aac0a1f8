//! A list of clauses in memory of its own, for at most N of them.

ghost use Rattle.std.specs.Prelude.{◌≤◌};

use crate::clauses::Clause;

mod growing;

// An array with a count beside it: no heap is used here, and a vector of fixed size from a further crate would be one more thing to trust.
#[derive(Drop)]
pub struct Listing<const N: usize> {
    slots: [Clause; N],
    count: usize,
    ghost within: { count ≤ N },
}
