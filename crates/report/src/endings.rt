//! What a program that stops says on standard error, where the runtime prints the error that `main` returns.

use crate::outputs::Stop;
use std::{fmt, io};

/// A program that refuses says only that, since the refusal's line is its output. Memory that ran out is a failure like any other.
impl fmt::Debug for Stop {
    fn fmt<W: fmt::Write>(&self, f: &mut fmt::Formatter<W>) -> fmt::Result {
        match self {
            Stop::Refused(_) => f.write_str("Refused"),
            Stop::OutOfMemory => {
                let error = io::Error::from(io::ErrorKind::OutOfMemory);
                f.debug_tuple("Failed").field(&error).finish()
            }
            Stop::Failed(error) => f.debug_tuple("Failed").field(error).finish(),
        }
    }
}
