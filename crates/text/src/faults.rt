//! Why a table text is refused, and which refusal that is.

ghost use Rattle.std.specs.Prelude.{◌≡◌};
ghost use Rattle.text.specs.Faults.{line_refusal, table_refusal};
ghost use Rattle.text.specs.declared.faults.LineFault.TheVariants.{Size as OfSize, Note as OfNote};
ghost use Rattle.text.specs.declared.faults.Stop.TheVariants.{Malformed as BadAt};

use crate::cursor::Malformed;
use refusal::{Fault, Refusal};
use table::{NoteFault, SizeFault};

/// Why the draft refuses a line: the fault of its size or note.
#[derive(Clone, Copy, PartialEq, Eq, Debug)]
pub enum LineFault {
    Size(SizeFault),
    Note(NoteFault),
}

/// Why a table text is refused. Lines and columns count from 1.
#[derive(Clone, Copy, PartialEq, Eq, Debug)]
pub enum TableFault {
    /// no lawful text continues with the byte at this place, or the text ends there too early
    Malformed { line: usize, column: usize },
    /// the draft refuses this line
    Refused { line: usize, fault: LineFault },
}

/// Where reading stops: at the first bad byte, or at the line feed of a line that the draft refuses.
#[derive(Clone, Copy)]
pub(crate) enum Stop {
    Malformed { at: usize },
    Refused { at: usize, fault: LineFault },
}

impl From<SizeFault> for LineFault {
    ghost from_gives = { λ e r. r ≡ OfSize e };

    fn from(e: SizeFault) -> LineFault {
        LineFault::Size(e)
    }
}

impl From<NoteFault> for LineFault {
    ghost from_gives = { λ e r. r ≡ OfNote e };

    fn from(e: NoteFault) -> LineFault {
        LineFault::Note(e)
    }
}

impl From<Malformed> for Stop {
    ghost from_gives = { λ e r. r ≡ BadAt e.at };

    fn from(e: Malformed) -> Stop {
        Stop::Malformed { at: e.at }
    }
}

impl Fault for LineFault {
    ghost means = { line_refusal };

    fn refusal(&self) -> Refusal {
        match *self {
            LineFault::Size(fault) => fault.refusal(),
            LineFault::Note(fault) => fault.refusal(),
        }
    }
}

impl Fault for TableFault {
    ghost means = { table_refusal };

    fn refusal(&self) -> Refusal {
        match *self {
            TableFault::Malformed { line, column } => Refusal::MalformedText { line, column },
            TableFault::Refused { line, fault } => Refusal::LineRefused {
                line,
                number: fault.code().number,
            },
        }
    }
}

// Of this type alone: an impl for every fault would overlap with the `From<T> for T` of std, since a refusal is a fault, too.
impl From<TableFault> for Refusal {
    ghost from_gives = { λ e r. r ≡ table_refusal e };

    fn from(e: TableFault) -> Refusal {
        e.refusal()
    }
}
