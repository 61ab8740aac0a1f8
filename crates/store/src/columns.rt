//! Numbers and clause lines, written into bytes of just their length.

ghost use Rattle.std.specs.Prelude.{◌≡◌, ◌+◌, ◌*◌, ◌^◌, ◌<◌, ◌≤◌, true, length, pos};
ghost use Rattle.store.specs.Clauses.{is_literal};
ghost use Rattle.store.specs.Rendering.{justified, field as column_of, line_of, width};
ghost use Rattle.store.specs.Spelling.{spelled, column_byte, filled};

use super::lawful::Lawful;

/// The width of a column.
pub const WIDTH: usize = 7;

/// How many bytes end a clause's line: a blank, a 0 and a line feed.
pub const LINE_END: usize = 3;

// Digits by hand: the library prints with a width onto the heap, or to a writer of which no contract says the bytes.

/// A byte of a column: a digit of what is left of the number, or the sign before the digits, or a blank.
fn column_byte(rest: usize, minus: bool) -> u8
    ensures { result ≡ column_byte rest minus }
{
    if rest > 0 {
        b'0' + (rest % 10) as u8
    } else if minus {
        b'-'
    } else {
        b' '
    }
}

/// Writes what is left of a number and its sign into the bytes, from the last on, and blanks before them.
fn fill(bytes: &mut [u8], rest: usize, minus: bool)
    ensures { bytes.new ≡ filled (length bytes.old) rest minus }
{
    if let Some((last, front)) = bytes.split_last_mut() {
        *last = column_byte(rest, minus);
        fill(front, rest / 10, minus && rest > 0);
    }
}

/// Writes the number into the column, right-justified, from its last digit on.
fn write_number(column: &mut [u8], n: usize, negative: bool)
    requires { length (spelled n negative) ≤ length column.old }
    ensures { column.new ≡ justified (length column.old) (spelled n negative) }
{
    if let Some((last, front)) = column.split_last_mut() {
        *last = b'0' + (n % 10) as u8;
        fill(front, n / 10, negative);
    }
}

fn write_literal(column: &mut [u8], z: i32)
    requires whole { length column.old ≡ width }
    requires lawful { is_literal z ≡ true }
    ensures { column.new ≡ column_of width z }
{
    write_number(column, z.unsigned_abs() as usize, z < 0);
}

/// Writes a count, which fits a column.
pub fn write_count(column: &mut [u8], n: usize)
    requires whole { length column.old ≡ width }
    requires fits { n < 10 ^ width }
    ensures { column.new ≡ column_of width (pos n) }
{
    write_number(column, n, false);
}

/// Writes the clause's line.
#[tactic(auto, using(crate::proofs::Lines::line_ends, crate::proofs::Lines::literal_at, crate::proofs::Lines::length_literal))]
pub fn write_line(line: &mut [u8], clause: Lawful)
    requires { length line.old ≡ width * length clause.literals.now + 3 }
    ensures { line.new ≡ line_of width clause.entry.literals.now }
{
    // By place: what `chunks_exact_mut` lent is not known any more once its loop is over (tried).
    for (i, z) in clause.literals.iter().enumerate() {
        let start = WIDTH * i;
        write_literal(&mut line[start..start + WIDTH], *z);
    }
    let end = WIDTH * clause.literals.len();
    line[end..end + LINE_END].copy_from_slice(b" 0\n");
}
