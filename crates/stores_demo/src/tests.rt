//! The stores at their edges, written out.

use refusal::Fault;
use std::process::Abort;
use std::test::Fail;
use store::{ClauseStore, NumberStore, PutFault, TextStore};

fn same(rt: &impl Abort, left: &[u8], right: &[u8]) {
    assert_eq!(rt; left, right);
}

/// Puts a clause, which the free units cover, and expects that it is put, or the number of the refusal, and what it leaves.
fn offer<S: ClauseStore>(
    rt: &impl Abort,
    store: &mut S,
    clause: &[i32],
    expected: Result<(), u32>,
) -> Result<(), Fail> {
    let count = store.count();
    let free = store.free();
    let price = S::price(clause.len());
    assert!(rt; price <= free && count < 9);
    let after = match expected {
        Ok(()) => (count + 1, free - price),
        Err(_) => (count, free),
    };
    assert_eq!(rt;
        store.put(clause).map_err(|fault| fault.code().number),
        expected
    );
    assert_eq!(rt; (store.count(), store.free()), after);
    Ok(())
}

/// Clauses at the limits, with the number of the refusal.
fn limits<S: ClauseStore>(rt: &impl Abort, store: &mut S) -> Result<(), Fail> {
    let single = [
        (1, Ok(())),
        (-1, Ok(())),
        (99_999, Ok(())),
        (-99_999, Ok(())),
        (0, Err(17)),
        (100_000, Err(17)),
        (-100_000, Err(17)),
        (i32::MAX, Err(17)),
        (i32::MIN, Err(17)),
    ];
    for (literal, expected) in single {
        offer(rt, store, &[literal], expected)?;
    }
    offer(rt, store, &[], Err(17))?;
    offer(rt, store, &[1, -2, 3, -4], Ok(()))?;
    offer(rt, store, &[1, -2, 3, 0], Err(17))?;
    offer(rt, store, &[1, 2, 3, 4, 5], Err(17))
}

#[test]
fn clauses_at_the_limits(rt: HostRuntime) -> Result<(), Fail> {
    let mut bytes = [255; 160];
    limits(&rt, &mut TextStore::new(&mut bytes))?;
    let mut numbers = [-1; 20];
    limits(&rt, &mut NumberStore::new(&mut numbers))
}

/// Where nothing is free, the limits are still checked before the price.
fn order<S: ClauseStore>(rt: &impl Abort, store: &mut S) {
    assert_eq!(rt; store.free(), 0);
    assert_eq!(rt; store.put(&[1]), Err(PutFault::PriceExceedsFree));
    assert_eq!(rt; store.put(&[0]), Err(PutFault::ClauseOutOfLimits));
    assert_eq!(rt; store.put(&[]), Err(PutFault::ClauseOutOfLimits));
    assert_eq!(rt;
        store.put(&[1, 2, 3, 4, 5]),
        Err(PutFault::ClauseOutOfLimits)
    );
    assert_eq!(rt; store.count(), 0);
}

#[test]
fn limits_before_price(rt: HostRuntime) {
    order(&rt, &mut TextStore::new(&mut []));
    let mut bytes = [0; 20];
    order(&rt, &mut TextStore::new(&mut bytes));
    order(&rt, &mut NumberStore::new(&mut []));
}

#[test]
fn prices(rt: HostRuntime) {
    let table = [
        (0, 0, 0),
        (1, 2, 10),
        (2, 3, 17),
        (3, 4, 24),
        (4, 5, 31),
        (5, 0, 0),
        (usize::MAX, 0, 0),
    ];
    for (length, numbers, bytes) in table {
        assert_eq!(rt; NumberStore::price(length), numbers);
        assert_eq!(rt; TextStore::price(length), bytes);
    }
    assert_eq!(rt; (NumberStore::PRICE_1, NumberStore::PRICE_4), (2, 5));
    assert_eq!(rt; (TextStore::PRICE_1, TextStore::PRICE_4), (10, 31));
}

/// The header stands from the making where it has room; below, nothing is written and nothing is free.
#[test]
fn small_texts(rt: HostRuntime) {
    let mut none = [b'.'; 0];
    assert_eq!(rt; TextStore::new(&mut none).free(), 0);
    let mut bytes = [b'.'; 19];
    {
        let mut store = TextStore::new(&mut bytes);
        assert_eq!(rt; store.free(), 0);
        assert_eq!(rt; store.put(&[1]), Err(PutFault::PriceExceedsFree));
        assert_eq!(rt; store.text().len(), 0);
    }
    assert_eq!(rt; bytes, [b'.'; 19]);
    let mut bytes = [b'.'; 20];
    assert_eq!(rt; TextStore::new(&mut bytes).free(), 0);
    assert_eq!(rt; bytes, *b"p cnf      0      0\n");
}

/// A text that is just filled, and one that is one byte short.
#[test]
fn full_texts(rt: HostRuntime) -> Result<(), Fail> {
    let mut bytes = [b'.'; 30];
    {
        let mut store = TextStore::new(&mut bytes);
        assert_eq!(rt; store.free(), 10);
        assert_eq!(rt; store.put(&[1, 2]), Err(PutFault::PriceExceedsFree));
        store.put(&[-7])?;
        assert_eq!(rt; store.free(), 0);
        assert_eq!(rt; store.put(&[1]), Err(PutFault::PriceExceedsFree));
        assert_eq!(rt; store.count(), 1);
    }
    assert_eq!(rt; bytes, *b"p cnf      7      1\n     -7 0\n");
    let mut bytes = [b'.'; 29];
    {
        let mut store = TextStore::new(&mut bytes);
        assert_eq!(rt; store.free(), 9);
        assert_eq!(rt; store.put(&[-7]), Err(PutFault::PriceExceedsFree));
        assert_eq!(rt; store.count(), 0);
    }
    assert_eq!(rt; bytes, *b"p cnf      0      0\n.........");
    Ok(())
}

/// The header after each put, and the bytes beyond the text.
#[test]
fn headers(rt: HostRuntime) -> Result<(), Fail> {
    let mut bytes = [b'.'; 80];
    let mut store = TextStore::new(&mut bytes);
    store.put(&[5])?;
    same(&rt, store.text(), b"p cnf      5      1\n      5 0\n");
    store.put(&[-99_999, 2])?;
    same(
        &rt,
        store.text(),
        b"p cnf  99999      2\n      5 0\n -99999      2 0\n",
    );
    store.put(&[3, -4, 9])?;
    same(
        &rt,
        store.text(),
        b"p cnf  99999      3\n      5 0\n -99999      2 0\n      3     -4      9 0\n",
    );
    assert_eq!(rt; store.put(&[1]), Err(PutFault::PriceExceedsFree));
    assert_eq!(rt; store.free(), 9);
    assert!(rt; bytes.ends_with(b" 0\n........."));
    Ok(())
}

/// A number store that is just filled, and one that is one number short.
#[test]
fn full_numbers(rt: HostRuntime) -> Result<(), Fail> {
    let mut numbers = [7; 6];
    {
        let mut store = NumberStore::new(&mut numbers);
        assert_eq!(rt; store.free(), 6);
        store.put(&[-3])?;
        assert_eq!(rt; store.put(&[1, 2, 3, 4]), Err(PutFault::PriceExceedsFree));
        assert_eq!(rt; store.put(&[1, 2, 3]), Ok(()));
        assert_eq!(rt; store.free(), 0);
        assert_eq!(rt; store.count(), 2);
        assert_eq!(rt; store.numbers().len(), 6);
    }
    assert_eq!(rt; numbers, [-3, 0, 1, 2, 3, 0]);
    let mut numbers = [7; 5];
    {
        let mut store = NumberStore::new(&mut numbers);
        store.put(&[-3])?;
        assert_eq!(rt; store.put(&[1, 2, 3]), Err(PutFault::PriceExceedsFree));
    }
    assert_eq!(rt; numbers, [-3, 0, 7, 7, 7]);
    Ok(())
}

/// Bytes beyond 9,999,999 are neither used nor free.
#[test]
fn longest_text(rt: HostRuntime) -> Result<(), Fail> {
    let mut bytes = vec![in rt.alloc(); b'.'; 10_000_000]?;
    {
        let mut store = TextStore::new(&mut bytes);
        assert_eq!(rt; store.free(), 9_999_979);
        for _ in 0..322_579 {
            store.put(&[-99_999, 1, -2, 3])?;
        }
        for _ in 0..3 {
            store.put(&[4])?;
        }
        assert_eq!(rt; store.free(), 0);
        assert_eq!(rt; store.count(), 322_582);
        assert_eq!(rt; store.put(&[4]), Err(PutFault::PriceExceedsFree));
    }
    let bytes = bytes.as_slice();
    assert!(rt; bytes.starts_with(b"p cnf  99999 322582\n -99999      1     -2      3 0\n"));
    assert!(rt; bytes.ends_with(b"      4 0\n."));
    Ok(())
}
