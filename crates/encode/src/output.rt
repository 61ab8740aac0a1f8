//! What the program does with an input: all of it is worked out here, from bytes to bytes.

ghost use Rattle.std.specs.Prelude.{◌≡◌};
ghost use Rattle.encode.specs.Printed.{Answers, Runs, Written};

use planner::Draft;
use refusal::Refusal;
use report::{Stop, is_too_long, print_output};
use std::alloc::Global;
use std::io::Write;
use store::{ClauseStore, TextStore};
use text::read_table;

/// How many bytes the clause text may have.
const STORE: usize = 61_440;

/// Writes the clause text, or the line of the refusal, and ends well after the text alone.
pub fn run<W: Write>(to: &mut W, heap: Global, input: &[u8]) -> Result<(), Stop>
    ensures { Runs input.now result (W.contents to.old) (W.contents to.new) }
{
    print_output(to, encode(heap, input))
}

/// The clause text of the table that the input begins with, at its number of steps; or the first refusal, or that memory ran out.
pub fn encode(heap: Global, input: &[u8]) -> Result<Vec<u8>, Stop>
    ensures { Answers input.now result }
{
    let mut memory = [b' '; STORE];
    let mut store = TextStore::new(&mut memory);
    write_table(input, &mut store)?;
    let text = Vec::from_slice(heap, store.text())?;
    Ok(text)
}

// Emits the clauses of the table that the input begins with into a store of any kind. What follows the table is not looked at.
fn write_table<S: ClauseStore>(input: &[u8], store: &mut S) -> Result<usize, Refusal>
    ensures written { Written S.ClauseStore.held S.ClauseStore.units S.ClauseStore.prices store.old store.new input.now result }
    ensures grows { S.ClauseStore.grew store.old store.new }
{
    if is_too_long(input) {
        return Err(Refusal::InputTooLong);
    }
    let mut draft = Draft::new();
    let (steps, _) = read_table(&mut draft, input)?;
    let job = draft.seal();
    let count = job.emit(steps, store)?;
    Ok(count)
}
