//! Where the variables of the beginning and of the first step lie, by their numbers; and the clauses that are written over them.

ghost use Rattle.std.specs.Prelude.{◌≡◌, ◌≤◌};
ghost use Rattle.encoding.specs.Limits.{pair_limit};
ghost use Rattle.encoding.specs.Variables.{pairs as pairs_of};
ghost use Rattle.table.specs.Model.{meant};

use table::Table;

mod families;
mod numbers;
mod truth;
mod turns;

#[derive(Drop)]
pub(crate) struct Layout<'a> {
    table: &'a Table,
    // how many relevant pairs the table has
    pairs: u32,
    ghost counted: { pairs ≡ pairs_of (meant table.now) },
    ghost few: { pairs ≤ pair_limit },
}
