//! What a program answers in the end: the text that it was asked for, or why it stops without.

ghost use Rattle.std.specs.Prelude.{◌≡◌};
ghost use Rattle.report.specs.Outputs.{too_long};
ghost use Rattle.report.specs.declared.outputs.Stop.TheVariants.{Refused as RefusedFor, OutOfMemory as NoMemory, Failed as FailedBy};

use refusal::Refusal;
use std::alloc::AllocError;
use std::io;

/// How many bytes of input a program takes at most.
pub const LONGEST_INPUT: usize = 32_768;

/// Why a program ends with status 1: what it was asked for is refused, or it could not get memory, read or print.
#[derive(Drop)]
pub enum Stop {
    Refused(Refusal),
    OutOfMemory,
    Failed(io::Error),
}

impl From<Refusal> for Stop {
    ghost from_gives = { λ e r. r ≡ RefusedFor e };

    fn from(refusal: Refusal) -> Stop {
        Stop::Refused(refusal)
    }
}

impl From<AllocError> for Stop {
    ghost from_gives = { λ e r. r ≡ NoMemory };

    fn from(_error: AllocError) -> Stop {
        Stop::OutOfMemory
    }
}

impl From<io::Error> for Stop {
    ghost from_gives = { λ e r. r ≡ FailedBy e };

    fn from(error: io::Error) -> Stop {
        Stop::Failed(error)
    }
}

/// Whether the input has more bytes than a program takes.
pub fn is_too_long(input: &[u8]) -> bool
    ensures { result ≡ too_long input.now }
{
    input.len() > LONGEST_INPUT
}
