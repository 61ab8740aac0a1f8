//! What is left to read of a text, and how much was read: the first is matched by slice patterns, the second is what a fault needs.

ghost use Rattle.std.specs.Prelude.{◌+◌, ◌^◌, ◌<◌, length};

#[derive(Drop)]
pub(crate) struct Reader<'a> {
    pub left: &'a [u8],
    pub at: usize,
    ghost fits: { at + length left.now < 2 ^ 64 },
}

/// The place of the first byte with which no lawful text continues.
#[derive(Clone, Copy)]
pub(crate) struct Malformed {
    pub at: usize,
}
