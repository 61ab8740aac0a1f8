//! The lines that a plan is printed as, one for each event.

ghost use Rattle.std.specs.Prelude.{◌≡◌, IfOk, Some};
ghost use Rattle.report.specs.Lines.{event_lines, event_text, letter_of};

use std::alloc::{AllocError, Global};
use std::fmt;
use table::{owner, starts};

/// An event as it is printed: its step and its action in 4 columns each, a blank, and `S` or `E`. No line feed ends it.
#[derive(Clone, Copy)]
pub struct EventLine {
    pub step: u32,
    pub event: u32,
}

/// Whether the event starts its action or ends it: `S` or `E`.
fn letter(event: u32) -> &'static str
    ensures { result.now ≡ letter_of event }
{
    if starts(event) { "S" } else { "E" }
}

impl fmt::Display for EventLine {
    ghost output = { λ line. Some (event_text line.step line.event) };

    #[tactic(auto, using(crate::proofs::Holes::hole_is_column))]
    fn fmt<W: fmt::Write>(&self, f: &mut fmt::Formatter<W>) -> fmt::Result {
        let EventLine { step, event } = *self;
        let action = owner(event);
        let letter = letter(event);
        write!(f, "{step:>4}{action:>4} {letter}")
    }
}

/// The lines of a plan, a list of pairs of a step and an event.
pub fn event_lines(heap: Global, plan: &[(u32, u32)]) -> Result<Vec<u8>, AllocError>
    ensures { IfOk result (λ lines. lines.items ≡ event_lines plan.now) }
{
    let mut lines = String::new(heap);
    for (step, event) in plan {
        let line = EventLine {
            step: *step,
            event: *event,
        };
        writeln!(lines, "{line}")?;
    }
    Ok(lines.into_bytes())
}
