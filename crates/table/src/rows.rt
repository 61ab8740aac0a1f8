//! The table: its sizes and the notes of each role. The ghost fields say what every table keeps.

ghost use Rattle.std.specs.Prelude.{◌≡◌};
ghost use Rattle.table.specs.Entries.{Apart, Sizes, Within, some_note};
ghost use Rattle.table.specs.Memory.{noted_in};

mod calls;
mod lookups;
mod obstacles;
mod plans;
mod sizes;

use crate::limits::ROLE_PLACES;
use crate::notes::Notes;

// No model stands for a table as one value: what it says is which notes there are, a function, and the value of a model has to be data.
// Its facts and actions are two numbers, as at the call that sets them.
#[derive(Drop)]
pub struct Table {
    facts: u32,
    actions: u32,
    // the notes of each role, by its number; place 0 stays free, which is plainer than to shift each number
    rows: [Notes; ROLE_PLACES],
    // whether there is any note: to look for one anew would walk all places of all roles at each size
    begun: bool,
    ghost sizes: { Sizes facts actions },
    ghost within: { Within facts actions (noted_in rows) },
    ghost apart: { Apart (noted_in rows) },
    ghost counted: { begun ≡ some_note (noted_in rows) },
}
