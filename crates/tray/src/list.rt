//! What a tray does as a list: make, append, empty, and tell its length, its size and its elements.

ghost use Rattle.std.specs.Prelude.{◌≡◌, ◌<◌, [], length, take, MatchOption};
ghost use Rattle.tray.specs.Places.{item_at};
ghost use Rattle.tray.specs.Trays.{items, memory, size_of, lender, Append};

use super::{Tray, TrayFault};

impl<'a, T> Tray<'a, T> {
    /// An empty tray over lent memory.
    pub fn new(slots: &'a mut [T]) -> Tray<'a, T>
        ensures items { items result ≡ [] }
        ensures memory { memory result ≡ slots.old }
        ensures lender { lender result ≡ slots.entry.ghost_name }
    {
        Tray { slots, count: 0 }
    }

    /// A tray over lent memory that holds the first `count` slots from the start, or all of them where `count` is larger.
    pub fn holding(slots: &'a mut [T], count: usize) -> Tray<'a, T>
        ensures items { items result ≡ take count slots.old }
        ensures memory { memory result ≡ slots.old }
        ensures lender { lender result ≡ slots.entry.ghost_name }
    {
        Tray { slots, count }
    }

    /// Holds nothing from now on. The memory stays as it is.
    pub fn empty(&mut self)
        ensures items { items self.new ≡ [] }
        ensures memory { memory self.new ≡ memory self.old }
        ensures lender { lender self.new ≡ lender self.old }
    {
        self.count = 0;
    }

    /// Its elements, first to last.
    pub fn as_slice(&self) -> &[T]
        ensures { result.now ≡ items self.now }
    {
        let slots = &*self.slots;
        slots.get(..self.count).unwrap_or(slots)
    }

    /// How many elements it holds.
    pub fn len(&self) -> usize
        ensures { result ≡ length (items self.now) }
    {
        self.as_slice().len()
    }

    /// How many elements it has memory for.
    pub fn size(&self) -> usize
        ensures { result ≡ size_of self.now }
    {
        self.slots.len()
    }
}

impl<'a, T: Drop> Tray<'a, T> {
    /// Puts one element after the last. A full tray refuses and stays as it was.
    pub fn append(&mut self, x: T) -> Result<(), TrayFault>
        ensures { Append self.old x self.new result }
    {
        let slot = self.len();
        if slot == self.size() {
            return Err(TrayFault::Full {
                needed: self.size() as u128 + 1,
            });
        }
        self.slots[slot] = x;
        self.count = slot + 1;
        Ok(())
    }
}

impl<'a, T: Copy> Tray<'a, T> {
    /// The element at a place, counted from 1.
    pub fn at(&self, place: usize) -> Option<T>
        ensures { result ≡ item_at (items self.now) place }
    {
        self.as_slice().get(place.checked_sub(1)?).copied()
    }
}
