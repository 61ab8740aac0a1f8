//! A chain of implications, put into any kind of store, and into lent memory by way of each kind.

ghost use Rattle.std.specs.Prelude.{◌≡◌, ◌-◌, min, length};
ghost use Rattle.store.specs.Numbers.{numbers_of, number_prices};
ghost use Rattle.store.specs.Rendering.{shown_in, text_prices, header_length, longest_text};
ghost use Rattle.stores_demo.specs.Chain.{Chained, Laid};

use store::{ClauseStore, GREATEST_VARIABLE, NumberStore, PutFault, TextStore};

/// Puts the clauses that say that variable 1 holds and that each variable up to `n` implies the next, and returns how many there
/// are. The price of all of them is worked out first, so that either all are put or none.
pub fn put_chain<S: ClauseStore>(store: &mut S, n: u32) -> Result<usize, PutFault>
    ensures puts { Chained S.ClauseStore.held S.ClauseStore.units S.ClauseStore.prices store.old store.new n result }
    ensures grows { S.ClauseStore.grew store.old store.new }
{
    if n >= GREATEST_VARIABLE {
        return Err(PutFault::ClauseOutOfLimits);
    }
    if store.free() < S::price(1) + n as usize * S::price(2) {
        return Err(PutFault::PriceExceedsFree);
    }
    store.put(&[1])?;
    // From 0: over `1..=n` the loop has two ways out, and the proof of one of them stayed open.
    for k in 0..n {
        let variable = k as i32 + 1;
        store.put(&[-variable, variable + 1])?;
    }
    Ok(n as usize + 1)
}

// This and `chain_numbers` are two functions since each contract names its own memory and how that is read.

/// Puts the chain into a text store over the bytes, whatever they are, and returns the length of the text, which they then begin
/// with. The bytes beyond the text are as they were.
pub fn chain_text(bytes: &mut [u8], n: u32) -> Result<usize, PutFault>
    ensures { Laid (shown_in (length bytes.old)) text_prices (min (length bytes.old) longest_text - header_length) n bytes.old bytes.new result }
{
    let mut store = TextStore::new(bytes);
    put_chain(&mut store, n)?;
    Ok(store.text().len())
}

/// Puts the chain into a number store over the numbers, whatever they are, and returns how many the chain takes. The numbers
/// beyond are as they were.
pub fn chain_numbers(numbers: &mut [i32], n: u32) -> Result<usize, PutFault>
    ensures { Laid numbers_of number_prices (length numbers.old) n numbers.old numbers.new result }
{
    let mut store = NumberStore::new(numbers);
    put_chain(&mut store, n)?;
    Ok(store.numbers().len())
}
