//! To how many events a fact is relevant, and how many relevant pairs there are.

ghost use Rattle.std.specs.Prelude.{◌≡◌, ◌≤◌, ◌||◌};
ghost use Rattle.encoding.specs.Tables.{relevant as is_relevant};
ghost use Rattle.encoding.specs.Variables.{width as width_of, pairs as pairs_of};
ghost use Rattle.table.specs.Model.{meant};

use table::Table;

/// Whether the event requires, adds or deletes the fact. The two stay two parameters: the subject, and what is asked of it.
#[tactic(auto, unfolding(encoding::specs::Tables::relevant))]
pub(crate) fn relevant(table: &Table, event: u32, fact: u32) -> bool
    ensures { result ≡ is_relevant (meant table.now) event fact }
{
    table.requires_fact(event, fact) || table.adds(event, fact) || table.deletes(event, fact)
}

/// To how many events the fact is relevant.
pub(crate) fn width(table: &Table, fact: u32) -> u32
    ensures { result ≡ width_of (meant table.now) fact }
{
    (1..=2 * table.actions())
        .filter(|&event| relevant(table, event, fact))
        .count() as u32
}

/// How many relevant pairs there are: at most one for each of 32 facts and 32 events.
pub(crate) fn pairs(table: &Table) -> u32
    ensures pairs { result ≡ pairs_of (meant table.now) }
    ensures few { result ≤ 1024 }
{
    (1..=table.facts()).map(|fact| width(table, fact)).sum()
}
