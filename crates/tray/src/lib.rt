//! A tray: a list in given memory, for every kind of element. What is found in it is found by the equality of the elements (`Eq`).
//!
//! The tray is a struct over a lent slice. It allocates nothing and never grows: when the slice is full, it refuses. Places count
//! from 1 throughout. What it holds is the list `items` of `specs/Trays.antt`, and every contract speaks of that list, of the whole
//! memory, and of who lent it.
#![tactic(auto)]

mod fault;
mod kinds;
mod list;
mod search;

pub use fault::TrayFault;

/// A list in lent memory, as no heap is used here: the first `count` slots, or all of them where `count` is larger. So any two fields make a tray, and there
/// is no invariant to keep. No model stands for it as a list: its whole memory, and whose it is, stay in every contract.
#[derive(Drop)]
pub struct Tray<'a, T> {
    slots: &'a mut [T],
    count: usize,
}

#[cfg(test)]
mod tests;
