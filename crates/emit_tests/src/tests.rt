//! The tests.

use encoder::EmitFault;
use planner::{Draft, Job};
use refusal::Fault;
use std::test::Fail;
use store::{ClauseStore, NumberStore, TextStore};

/// One action, whose end makes the goal fact true.
fn cell_one() -> Job {
    let mut draft = Draft::new();
    let _ = draft.note(2, 0, 1);
    let _ = draft.note(7, 1, 1);
    draft.seal()
}

#[test]
fn steps_at_the_limits(rt: HostRuntime) {
    let job = cell_one();
    let cases = [
        (0, Err(8)),
        (1, Ok(15)),
        (64, Ok(708)),
        (65, Err(8)),
        (u32::MAX, Err(8)),
    ];
    for (n, expected) in cases {
        let mut numbers = [5; 3_000];
        let mut store = NumberStore::new(&mut numbers);
        let answer = job.emit(n, &mut store);
        assert_eq!(rt; answer.map_err(|fault| fault.code().number), expected);
        assert_eq!(rt; store.count(), expected.unwrap_or(0));
        if expected.is_err() {
            assert_eq!(rt; numbers, [5; 3_000]);
        }
    }
}

/// In one step four clauses of one literal, five of two and six of three, so 8, 15 and 24 numbers; and one number too few.
#[test]
fn a_store_that_is_just_large_enough(rt: HostRuntime) {
    let job = cell_one();
    let mut numbers = [0; 47];
    let mut store = NumberStore::new(&mut numbers);
    assert_eq!(rt; job.emit(1, &mut store), Ok(15));
    assert_eq!(rt; (store.count(), store.free()), (15, 0));
    let mut few = [7; 46];
    let mut store = NumberStore::new(&mut few);
    assert_eq!(rt; job.emit(1, &mut store), Err(EmitFault::PriceExceedsFree));
    assert_eq!(rt; (store.count(), store.free()), (0, 46));
    assert_eq!(rt; few, [7; 46]);
}

/// A job emits any number of times, into stores in any state.
#[test]
fn after_other_clauses(rt: HostRuntime) -> Result<(), Fail> {
    let job = cell_one();
    let mut numbers = [0; 100];
    let mut store = NumberStore::new(&mut numbers);
    store.put(&[9, -9])?;
    assert_eq!(rt; job.emit(1, &mut store), Ok(15));
    assert_eq!(rt; job.emit(1, &mut store), Ok(15));
    assert_eq!(rt; (store.count(), store.free()), (31, 3));
    assert_eq!(rt; job.emit(1, &mut store), Err(EmitFault::PriceExceedsFree));
    assert_eq!(rt; (store.count(), store.free()), (31, 3));
    let mut bytes = [b'.'; 600];
    let mut text = TextStore::new(&mut bytes);
    assert_eq!(rt; job.emit(1, &mut text), Ok(15));
    assert_eq!(rt; (text.count(), text.text().len()), (15, 289));
    Ok(())
}

/// 32 facts and 16 actions, where every event is relevant to every fact, each end deletes what the other actions hold, and every fact is
/// a goal.
fn largest() -> Job {
    let mut draft = Draft::new();
    let _ = draft.size(32, 16);
    for fact in 1..=32 {
        let _ = draft.note(2, 0, fact);
        for action in 1..=16 {
            for role in [3, 4, 6, 8, 9] {
                let _ = draft.note(role, action, fact);
            }
        }
    }
    draft.seal()
}

/// 96 clauses of one literal; in each of 64 steps 2,384 of two and 2,112 of three. So 287,840 clauses, which take 998,592 numbers.
#[test]
fn the_largest_table(rt: HostRuntime) -> Result<(), Fail> {
    let job = largest();
    let mut numbers = vec![in rt.alloc(); 0; 998_592]?;
    let mut store = NumberStore::new(&mut numbers);
    assert_eq!(rt; job.emit(64, &mut store), Ok(287_840));
    assert_eq!(rt; (store.count(), store.free()), (287_840, 0));
    let mut few = vec![in rt.alloc(); 0; 998_591]?;
    let mut store = NumberStore::new(&mut few);
    assert_eq!(rt; job.emit(64, &mut store), Err(EmitFault::PriceExceedsFree));
    assert_eq!(rt; (store.count(), store.free()), (0, 998_591));
    Ok(())
}
