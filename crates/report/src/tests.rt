//! What is written in the end, byte by byte and in how many pieces, what a program that stops says, and the lines of a plan.

use super::{Stop, event_lines, print_line, print_output};
use refusal::{Code, Refusal};
use std::io;
use std::io::Write;

/// A writer that takes all it is given, and counts the pieces and the bytes.
#[derive(Drop)]
struct Counter {
    pieces: u32,
    bytes: usize,
}

impl Write for Counter {
    fn write(&mut self, buf: &[u8]) -> io::Result<usize> {
        self.pieces = self.pieces.saturating_add(1);
        self.bytes = self.bytes.saturating_add(buf.len());
        Ok(buf.len())
    }

    fn flush(&mut self) -> io::Result<()> {
        Ok(())
    }
}

#[test]
fn granted_text(rt: HostRuntime) {
    let alloc = rt.alloc();
    let text = Vec::from_slice(alloc, b"p cnf\n").expect(&rt, "memory");
    let mut written = Vec::new(alloc);
    assert!(rt; print_output(&mut written, Ok(text)).is_ok());
    assert_eq!(rt; written.as_slice(), b"p cnf\n".as_slice());
}

#[test]
fn refused_line(rt: HostRuntime) {
    let refusal = Refusal::MalformedText {
        line: 2,
        column: 1_234_567,
    };
    let mut written = Vec::new(rt.alloc());
    let ending = print_output(&mut written, Err(Stop::Refused(refusal)));
    assert!(rt; matches!(&ending, Err(Stop::Refused(Refusal::MalformedText { .. }))));
    assert_eq!(rt;
        written.as_slice(),
        b"refused  18      21234567      0\n".as_slice()
    );
}

/// The longest line has 7 + 10 + 3 * 39 + 1 bytes.
#[test]
fn lines_in_one_piece(rt: HostRuntime) {
    let cases = [
        (Code::new(1, 0, 0, 0), 33),
        (Code::new(18, 40_000, 1_234_567, 0), 33),
        (Code::new(u32::MAX, u128::MAX, u128::MAX, u128::MAX), 135),
    ];
    for (code, length) in cases {
        let mut counter = Counter {
            pieces: 0,
            bytes: 0,
        };
        assert!(rt; print_line(&mut counter, code).is_ok());
        assert_eq!(rt; (counter.pieces, counter.bytes), (1, length));
    }
    let mut counter = Counter {
        pieces: 0,
        bytes: 0,
    };
    let ending = print_output(&mut counter, Err(Stop::Refused(Refusal::InputTooLong)));
    assert!(rt; ending.is_err());
    assert_eq!(rt; (counter.pieces, counter.bytes), (1, 33));
}

#[test]
fn said_of_a_stop(rt: HostRuntime) {
    let cases = [
        (Stop::Refused(Refusal::NoModel), "Refused"),
        (Stop::OutOfMemory, "Failed(Kind(OutOfMemory))"),
        (
            Stop::from(io::Error::from(io::ErrorKind::NotFound)),
            "Failed(Kind(NotFound))",
        ),
    ];
    for (stop, said) in cases {
        let text = format!(in rt.alloc(); "{stop:?}").expect(&rt, "memory");
        assert_eq!(rt; text.as_str(), said);
    }
}

#[test]
fn plan_lines(rt: HostRuntime) {
    let lines = event_lines(rt.alloc(), &[(1, 1), (12_345, 4)]).expect(&rt, "memory");
    assert_eq!(rt; lines.as_slice(), b"   1   1 S\n12345   2 E\n".as_slice());
}
