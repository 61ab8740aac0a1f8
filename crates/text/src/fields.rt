//! Numbers in columns: four bytes, blanks and then digits, with no leading zero. The errors here are bare places within the bytes at
//! hand; `Malformed` has the place within the text.

ghost use Rattle.std.specs.Prelude.{◌≡◌, ◌<◌, None, take, MatchResult};
ghost use Rattle.text.specs.Columns.{Within, column, read_on};
ghost use Rattle.text.specs.Numbers.{Number};
ghost use Rattle.text.specs.Texts.{Any, Stuck};

// The number that the columns show once `b` stands in column `i`, none while there are only blanks; or `i`, if no number has this byte
// there. A blank may stand in all columns but the last, before the first digit; a number begins with the digit 0 in the last column only.
fn digit(at: Option<u16>, i: usize, b: u8) -> Result<Option<u16>, usize>
    requires place { i < 4 }
    requires within { Within i at }
    ensures { result ≡ column i at b }
{
    match (at, b) {
        (None, b' ') if i < 3 => Ok(None),
        (None, b'0') if i == 3 => Ok(Some(0)),
        (None, b'1'..=b'9') => Ok(Some(u16::from(b - b'0'))),
        (Some(n), b'0'..=b'9') => Ok(Some(10 * n + u16::from(b - b'0'))),
        _ => Err(i),
    }
}

// The four columns, one by one. A missing one is refused at its place, so the loop goes over the columns and not over the bytes.
fn columns(s: &[u8]) -> Result<u16, usize>
    ensures { result ≡ read_on 4 0 None s.now }
{
    let mut at = None;
    for i in 0..4 {
        let Some(b) = s.get(i) else {
            return Err(i);
        };
        at = digit(at, i, *b)?;
    }
    at.ok_or(4)
}

/// The number that the first four bytes of `s` show, or the place of the first byte with which no number continues.
pub(crate) fn field(s: &[u8]) -> Result<u16, usize>
    ensures { MatchResult result (λ n. Number n (take 4 s.now)) (λ k. Stuck (Any Number) s.now k) }
{
    columns(s)
}
