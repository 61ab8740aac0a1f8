//! Standard input and output, for the `main` of a program. No contract can say what is read there, or what reaches the output. What a
//! program gives to be written is proved.

ghost use Rattle.std.specs.Prelude.{◌≡◌};
ghost use Rattle.report.specs.Endings.{Ends, Writes};

use crate::outputs::{LONGEST_INPUT, Stop};
use crate::refusals::print_line;
use std::io;
use std::io::{Read, Write};

/// Reads standard input to its end, or to one byte past the longest input.
pub fn read_input(rt: &HostRuntime) -> io::Result<Vec<u8>> {
    let mut bytes = Vec::new(rt.alloc());
    rt.stdin()
        .take(LONGEST_INPUT as u64 + 1)
        .read_to_end(&mut bytes)?;
    Ok(bytes)
}

/// Writes the text that was asked for, or the line of the refusal, which is then given on as an `Err`: a `main` that returns it ends with
/// status 1.
pub fn print_output<W: Write>(to: &mut W, output: Result<Vec<u8>, Stop>) -> Result<(), Stop>
    ensures ends { Ends output result }
    ensures written { Writes output result (W.contents to.old) (W.contents to.new) }
{
    // taken apart: a refusal's line is written before the error is handed on
    match output {
        Ok(text) => {
            to.write_all(text.as_slice())?;
            Ok(())
        }
        Err(Stop::Refused(refusal)) => {
            print_line(to, refusal.code())?;
            Err(Stop::Refused(refusal))
        }
        Err(failure) => Err(failure),
    }
}
