//! The line and the column of a byte.

ghost use Rattle.std.specs.Prelude.{◌≡◌, ◌≤◌, length, take};
ghost use Rattle.text.specs.Places.{place_of};

/// The line and the column of the byte at `at`, counted from 1: the two figures of the refusal, in its order.
pub(crate) fn place(text: &[u8], at: usize) -> (usize, usize)
    requires { at ≤ length text.now }
    ensures { result ≡ place_of (take at text.now) }
{
    let mut line = 1;
    let mut column = 1;
    for b in &text[..at] {
        if *b == b'\n' {
            line += 1;
            column = 1;
        } else {
            column += 1;
        }
    }
    (line, column)
}
