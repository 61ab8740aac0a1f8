//! A table as a text: read into a draft line by line, or refused at the first byte that is at fault.

use crate::showing::{show_plan, show_refusal};
use planner::Draft;
use std::io;
use text::read_table;

/// Reads a table text into a new draft, seals it, and shows a plan of it; or shows why the text is refused.
pub fn show_text(rt: &HostRuntime, bytes: &[u8], plan: &[(u32, u32)]) -> io::Result<()> {
    let mut draft = Draft::new();
    match read_table(&mut draft, bytes) {
        Ok((steps, rest)) => {
            let left = rest.len();
            println!(rt; "  read: {steps} steps, {left} bytes after the closing line")?;
            show_plan(rt, &draft.seal(), steps, plan)
        }
        Err(fault) => {
            print!(rt; "  ")?;
            show_refusal(rt, fault)
        }
    }
}
