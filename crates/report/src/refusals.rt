//! The line that a refusal is printed as.

ghost use Rattle.std.specs.Prelude.{OnOk, Some};
ghost use Rattle.std.specs.Io.KnownBytes.{Appends};
ghost use Rattle.report.specs.Lines.{refusal_line, refusal_text};

use refusal::Code;
use std::fmt::{InlineText, Write as _};
use std::io::Write;
use std::{fmt, io};

/// Room for every refusal's line: `refused`, a number of at most 10 digits, three figures of at most 39, and a line feed.
const LONGEST_LINE: usize = 135;

/// A refusal as it is printed: `refused`, its number in 4 columns and its three figures in 7 each. No line feed ends it.
#[derive(Clone, Copy)]
pub struct RefusalLine(pub Code);

impl fmt::Display for RefusalLine {
    ghost output = { λ line. Some (refusal_text line.0) };

    #[tactic(auto, using(crate::proofs::Holes::hole_is_column))]
    fn fmt<W: fmt::Write>(&self, f: &mut fmt::Formatter<W>) -> fmt::Result {
        let Code {
            number,
            first,
            second,
            third,
        } = self.0;
        write!(f, "refused{number:>4}{first:>7}{second:>7}{third:>7}")
    }
}

/// Writes the line of a refusal's number and figures, whatever they are, in one piece: who shares the output, or reads it while it is
/// written, sees no half of a line.
pub fn print_line<W: Write>(to: &mut W, code: Code) -> io::Result<()>
    ensures { OnOk result (Appends (W.contents to.old) (W.contents to.new) (refusal_line code)) }
{
    let line = RefusalLine(code);
    let mut text = InlineText::<LONGEST_LINE>::new();
    match writeln!(text, "{line}") {
        Ok(()) => to.write_all(text.as_str().as_bytes()),
        // Every line has room, but no contract of the library says that writing into such a text succeeds.
        Err(_) => writeln!(to, "{line}"),
    }
}
