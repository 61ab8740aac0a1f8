//! A table text, read into a draft line by line.

ghost use Rattle.std.specs.Prelude.{◌≡◌, ◌≤◌, length};
ghost use Rattle.planner.specs.Contents.{in_draft};
ghost use Rattle.text.specs.Ends.{Ends, fault_at, stop_at};
ghost use Rattle.text.specs.Outcomes.{NoOther, Outcome, after_line, answer_to, said};

use crate::cursor::{Malformed, Reader};
use crate::faults::{LineFault, Stop, TableFault};
use crate::lines::Line;
use crate::places::place;
use planner::Draft;

// Gives a line to the draft.
fn apply(draft: &mut Draft, line: Line) -> Result<(), LineFault>
    ensures answer { result ≡ answer_to (in_draft draft.old) line }
    ensures after { in_draft draft.new ≡ after_line (in_draft draft.old) line }
{
    match line {
        Line::Sizes { facts, actions, .. } => draft.size(u32::from(facts), u32::from(actions))?,
        Line::Note { role, action, fact } => draft.note(
            u32::from(role),
            u32::from(action),
            u32::from(fact),
        )?,
    }
    Ok(())
}

impl<'a> Reader<'a> {
    // Reads the lines up to the closing one, gives each to the draft, and returns the number of steps.
    fn table(&mut self, draft: &mut Draft) -> Result<u16, Stop>
        ensures { Ends 0 0 (in_draft draft.old) self.old result (in_draft draft.new) self.new }
    {
        let mut last = None;
        let mut steps = 0;
        while let Some(line) = self.line(last)? {
            let at = self.at - 1;
            apply(draft, line).map_err(|fault| Stop::Refused { at, fault })?;
            last = Some(line.role());
            steps = line.steps(steps);
        }
        Ok(steps)
    }
}

/// Reads a table text into the draft, line by line, and returns the number of steps and the bytes after the closing line.
/// A fault leaves the draft as the lines before made it.
pub fn read_table<'a>(draft: &mut Draft, text: &'a [u8]) -> Result<(u32, &'a [u8]), TableFault>
    ensures law { Outcome (in_draft draft.old) text.now (said (λ rest. rest.now) result) (in_draft draft.new) }
    ensures only { NoOther (in_draft draft.old) text.now (said (λ rest. rest.now) result) (in_draft draft.new) }
{
    let mut reader = Reader::new(text);
    let steps = reader.table(draft).map_err(|stop| placed(stop, text))?;
    Ok((u32::from(steps), reader.left))
}

// The fault at the place where reading stopped.
fn placed(stop: Stop, text: &[u8]) -> TableFault
    requires { stop_at stop ≤ length text.now }
    ensures { result ≡ fault_at text.now stop }
{
    match stop {
        Stop::Malformed { at } => {
            let (line, column) = place(text, at);
            TableFault::Malformed { line, column }
        }
        Stop::Refused { at, fault } => {
            let (line, _) = place(text, at);
            TableFault::Refused { line, fault }
        }
    }
}
