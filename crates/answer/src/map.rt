//! A map: one byte for each variable.

ghost use Rattle.answer.specs.Kinds.{map_tells, map-outside};

use super::{AnswerSource, is_variable};

/// Byte 1 is that of variable 1, and so on: 1 is false, 2 is true, and any other byte, or no byte, is none.
#[derive(Clone, Copy)]
pub struct MapSource<'a> {
    pub bytes: &'a [u8],
}

impl<'a> AnswerSource for MapSource<'a> {
    ghost tells = { λ s v. map_tells s.bytes.now v };

    ghost outside = { λ s v h. map-outside s.bytes.now v h };

    fn value(&self, variable: u32) -> Option<bool> {
        if !is_variable(variable) {
            return None;
        }
        match self.bytes.get(variable as usize - 1)? {
            1 => Some(false),
            2 => Some(true),
            _ => None,
        }
    }
}
