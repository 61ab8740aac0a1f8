//! The tests.

use planner::Draft;
use refusal::{Code, Fault, Refusal};
use text::read_table;

const LENGTH: usize = 116;

const TEXT: [u8; LENGTH] =
    *b"SZ   4   2  12\nIN   1\nGO   2\nGO   4\nSN   1   1\nSA   2   2\nSD   1   3\nEN   2   2\nEA   1   4\nED   2   1\nHD   1   2\nZZ\n";

// The steps that a text gives and how many bytes are left after it, or the refusal's number and figures.
type Reading = Result<(u32, usize), Code>;

// No lawful text goes on so at this line and column.
fn malformed(line: u128, column: u128) -> Reading {
    Err(Code::new(18, line, column, 0))
}

// The draft refuses this line, by this number.
fn declined(line: u128, number: u128) -> Reading {
    Err(Code::new(20, line, 0, number))
}

fn reading_into(draft: &mut Draft, text: &[u8]) -> Reading {
    let (steps, rest) = read_table(draft, text).map_err(|fault| fault.code())?;
    Ok((steps, rest.len()))
}

fn reading(text: &[u8]) -> Reading {
    let mut draft = Draft::new();
    reading_into(&mut draft, text)
}

// The line and the column after a byte.
fn onward(line: u128, column: u128, byte: u8) -> (u128, u128) {
    if byte == b'\n' {
        (line.wrapping_add(1), 1)
    } else {
        (line, column.wrapping_add(1))
    }
}

// The text with another byte at a place.
fn changed(place: usize, byte: u8) -> [u8; LENGTH] {
    let mut text = TEXT;
    if let Some(old) = text.get_mut(place) {
        *old = byte;
    }
    text
}

#[test]
fn lawful(rt: HostRuntime) {
    assert_eq!(rt; reading(&TEXT), Ok((12, 0)));
}

#[test]
fn prefixes(rt: HostRuntime) {
    let mut line = 1;
    let mut column = 1;
    for (k, byte) in TEXT.iter().enumerate() {
        assert_eq!(rt; reading(&TEXT[0..k]), malformed(line, column));
        (line, column) = onward(line, column, *byte);
    }
}

// No table text has any of these bytes where it has another.
#[test]
fn changed_bytes(rt: HostRuntime) {
    let mut line = 1;
    let mut column = 1;
    for (k, old) in TEXT.iter().enumerate() {
        for byte in [b'#', b'a', b'\n', b'\r', b'-', 0, 255] {
            if byte != *old {
                assert_eq!(rt; reading(&changed(k, byte)), malformed(line, column));
            }
        }
        (line, column) = onward(line, column, *old);
    }
}

#[test]
fn rests(rt: HostRuntime) {
    assert_eq!(rt; reading(b"SZ   1   1   0\nZZ\n"), Ok((0, 0)));
    assert_eq!(rt; reading(b"SZ   1   1   1\nZZ\nZZ\n"), Ok((1, 3)));
    assert_eq!(rt;
        reading(b"SZ  32  169999\nZZ\ns SATISFIABLE"),
        Ok((9999, 13))
    );
}

#[test]
fn columns_of_numbers(rt: HostRuntime) {
    assert_eq!(rt; reading(b""), malformed(1, 1));
    assert_eq!(rt; reading(b"SZ0001"), malformed(1, 3));
    assert_eq!(rt; reading(b"SZ  01"), malformed(1, 5));
    assert_eq!(rt; reading(b"SZ    "), malformed(1, 6));
    assert_eq!(rt; reading(b"SZ 1 1"), malformed(1, 5));
    assert_eq!(rt; reading(b"SZ   1   1   1 \n"), malformed(1, 15));
    assert_eq!(rt; reading(b"SZ   1   1   1"), malformed(1, 15));
    assert_eq!(rt; reading(b"SZ   1   1   1\n"), malformed(2, 1));
}

#[test]
fn order_of_lines(rt: HostRuntime) {
    assert_eq!(rt; reading(b"ZZ\n"), malformed(1, 1));
    assert_eq!(rt; reading(b"SN"), malformed(1, 2));
    assert_eq!(rt;
        reading(b"SZ   1   1   1\nSZ   1   1   1\nZZ\n"),
        malformed(2, 2)
    );
    assert_eq!(rt;
        reading(b"SZ   1   1   1\nGO   1\nIN   1\nZZ\n"),
        malformed(3, 1)
    );
    assert_eq!(rt;
        reading(b"SZ   1   1   1\nSA   1   1\nSN   1   1\nZZ\n"),
        malformed(3, 2)
    );
    assert_eq!(rt;
        reading(b"SZ   1   1   1\nHD   1   1\nED   1   1\nZZ\n"),
        malformed(3, 1)
    );
}

#[test]
fn refused_lines(rt: HostRuntime) {
    assert_eq!(rt; reading(b"SZ  33   1   1\n"), declined(1, 1));
    assert_eq!(rt; reading(b"SZ   0   1   1\n#"), declined(1, 1));
    assert_eq!(rt; reading(b"SZ   1   1   1\nSN   0   1\n"), declined(2, 4));
    assert_eq!(rt; reading(b"SZ   1   1   1\nIN   2\nZZ\n"), declined(2, 5));
    assert_eq!(rt;
        reading(b"SZ   1   1   1\nIN   1\nIN   1\nZZ\n"),
        declined(3, 6)
    );
    assert_eq!(rt;
        reading(b"SZ   1   1   1\nSA   1   1\nSD   1   1\nZZ\n"),
        declined(3, 7)
    );
    // a bad byte before the end of a line that the draft would refuse
    assert_eq!(rt; reading(b"SZ  33   1   x\n"), malformed(1, 14));
    assert_eq!(rt; reading(b"SZ   1   1   1\nIN   2"), malformed(2, 7));
}

// What a note on the draft answers, by the refusal's number.
fn noted(draft: &mut Draft, role: u32, action: u32, fact: u32) -> Result<(), u32> {
    draft
        .note(role, action, fact)
        .map_err(|fault| fault.code().number)
}

#[test]
fn drafts_after_faults(rt: HostRuntime) {
    // the lines before the fault stand; the refused line does not
    let mut draft = Draft::new();
    let text = b"SZ   2   1   1\nIN   1\nSA   1   1\nSD   1   1\nZZ\n";
    assert_eq!(rt; reading_into(&mut draft, text), declined(4, 7));
    assert_eq!(rt; noted(&mut draft, 1, 0, 1), Err(6));
    assert_eq!(rt; noted(&mut draft, 4, 1, 1), Err(6));
    assert_eq!(rt; noted(&mut draft, 5, 1, 1), Err(7));
    assert_eq!(rt; noted(&mut draft, 1, 0, 2), Ok(()));
    // sizes on a draft that has notes
    assert_eq!(rt;
        reading_into(&mut draft, b"SZ   2   1   1\nZZ\n"),
        declined(1, 2)
    );
}

// The example of the formats' page, and what changes of it come to.
#[test]
fn example(rt: HostRuntime) {
    assert_eq!(rt;
        reading(b"SZ   2   2   2\nGO   2\nSA   1   1\nEA   2   2\nED   1   1\nHD   2   1\nZZ\n"),
        Ok((2, 0))
    );
    assert_eq!(rt; reading(b"SZ   2   2  02\n"), malformed(1, 13));
    assert_eq!(rt; reading(b"SZ   2   2\n"), malformed(1, 11));
    assert_eq!(rt; reading(b"SZ   2   2   2\nGO   3\n"), declined(2, 5));
    assert_eq!(rt;
        reading(b"SZ   2   2   2\nGO   2\nSA   1   1\nED   1   1\nEA   2   2\n"),
        malformed(5, 2)
    );
    assert_eq!(rt;
        reading(b"SZ   2   2   2\nGO   2\nSA   1   1\nEA   2   2\nED   1   1\nED   1   1\nZZ\n"),
        declined(6, 6)
    );
    assert_eq!(rt;
        reading(b"SZ   2   2   2\nGO   2\nSA   1   1\nEA   2   2\nED   1   1\nHD   2   1\n"),
        malformed(7, 1)
    );
}

// A fault of a table text becomes a refusal on its way up.
fn refusal_on_the_way(text: &[u8]) -> Result<(u32, usize), Refusal> {
    let mut draft = Draft::new();
    let (steps, rest) = read_table(&mut draft, text)?;
    Ok((steps, rest.len()))
}

fn code_on_the_way(text: &[u8]) -> Reading {
    refusal_on_the_way(text).map_err(|refusal| refusal.code())
}

#[test]
fn refusals(rt: HostRuntime) {
    assert_eq!(rt; code_on_the_way(b"SZ   1   1   1\nZ"), malformed(2, 2));
    assert_eq!(rt; code_on_the_way(b"SZ   1  17   1\n"), declined(1, 1));
}
