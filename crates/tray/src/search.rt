//! Finding an element by its equality: all that a tray does by way of the equality stands here.

ghost use Rattle.std.specs.Prelude.{◌≡◌, ◌<◌, length, position, IfSome};
ghost use Rattle.tray.specs.Places.{Found};
ghost use Rattle.tray.specs.Trays.{items};

use super::Tray;

/// The index of the first element of a row that equals a value.
fn index_of<T: Eq>(row: &[T], x: &T) -> Option<usize>
    ensures index { result ≡ position (λ y. T.eq y x.now) row.now }
    ensures within { IfSome result (λ i. i < length row.now) }
{
    row.iter().position(|y| *y == *x)
}

/// The place of the first element of a row that equals a value.
fn first_equal<T: Eq>(row: &[T], x: &T) -> Option<usize>
    ensures { Found T.eq x.now row.now result }
{
    index_of(row, x).map(|i| i + 1)
}

impl<'a, T: Eq> Tray<'a, T> {
    /// The place, counted from 1, of the first element that equals a value. Equal values are found at one place.
    pub fn find(&self, x: &T) -> Option<usize>
        ensures { Found T.eq x.now (items self.now) result }
    {
        first_equal(self.as_slice(), x)
    }
}
