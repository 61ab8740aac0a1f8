//! Trays of event pairs and of signed numbers, on examples.

ghost use Rattle.std.specs.Prelude.{◌≡◌, [], ◌∷◌, pos};

use super::*;
use refusal::{Code, Fault};

#[test]
fn a_full_tray_refuses(rt: HostRuntime) {
    let mut memory = [(0u32, 0u32); 2];
    let mut tray = Tray::new(&mut memory);
    assert_eq!(rt; tray.append((1, 3)), Ok(()));
    assert_eq!(rt; tray.append((2, 4)), Ok(()));
    assert_eq!(rt; tray.append((5, 6)), Err(TrayFault::Full { needed: 3 }));
    assert_eq!(rt; (tray.len(), tray.size()), (2, 2));
    assert_eq!(rt; tray.as_slice(), [(1, 3), (2, 4)].as_slice());
    let mut nothing = [0i32; 0];
    assert_eq!(rt;
        Tray::new(&mut nothing).append(-1),
        Err(TrayFault::Full { needed: 1 })
    );
    let code = Code {
        number: 12,
        first: 3,
        second: 0,
        third: 0,
    };
    assert_eq!(rt; TrayFault::Full { needed: 3 }.code(), code);
}

#[test]
fn emptied_it_starts_again(rt: HostRuntime) {
    let mut memory = [7i32; 3];
    let mut tray = Tray::holding(&mut memory, 2);
    assert_eq!(rt; (tray.len(), tray.size(), tray.at(2)), (2, 3, Some(7)));
    tray.empty();
    assert_eq!(rt; (tray.len(), tray.size(), tray.at(1)), (0, 3, None));
    assert_eq!(rt; tray.append(-5), Ok(()));
    assert_eq!(rt; (tray.len(), tray.at(1), tray.at(2)), (1, Some(-5), None));
    assert_eq!(rt; memory, [-5, 7, 7]);
}

#[test]
fn places_count_from_one(rt: HostRuntime) {
    let mut pairs = [(1u32, 1u32), (1, 3), (2, 2)];
    let plan = Tray::holding(&mut pairs, 2);
    let table = [
        (0, None),
        (1, Some((1, 1))),
        (2, Some((1, 3))),
        (3, None),
        (usize::MAX, None),
    ];
    for (place, expected) in table {
        assert_eq!(rt; plan.at(place), expected);
    }
    let mut numbers = [4i32, -4];
    let answer = Tray::holding(&mut numbers, usize::MAX);
    let table = [
        (0, None),
        (1, Some(4)),
        (2, Some(-4)),
        (3, None),
        (usize::MAX, None),
    ];
    for (place, expected) in table {
        assert_eq!(rt; answer.at(place), expected);
    }
    assert_eq!(rt; answer.len(), 2);
}

#[test]
fn places_in_plans_and_answers(rt: HostRuntime) {
    let mut pairs = [(1u32, 2u32), (2, 1), (3, 3)];
    let plan = Tray::holding(&mut pairs, 2);
    let table = [
        ((1, 2), Some(1)),
        ((2, 1), Some(2)),
        ((1, 1), None),
        ((3, 3), None),
    ];
    for ((step, event), expected) in table {
        assert_eq!(rt; plan.place_of_event(step, event), expected);
    }
    let mut signs = [3i32, -3, i32::MIN];
    let answer = Tray::holding(&mut signs, 2);
    for (number, expected) in [(3, Some(1)), (-3, Some(2)), (0, None), (i32::MIN, None)] {
        assert_eq!(rt; answer.place_of_literal(number), expected);
    }
}

#[test]
fn the_first_equal_one_is_found(rt: HostRuntime) {
    let mut pairs = [(1u32, 2u32), (2, 1), (1, 2), (2, 2), (3, 3)];
    let plan = Tray::holding(&mut pairs, 4);
    let table = [
        ((1, 2), Some(1)),
        ((2, 1), Some(2)),
        ((2, 2), Some(4)),
        ((1, 1), None),
        ((3, 3), None),
    ];
    for (pair, expected) in table {
        assert_eq!(rt; plan.find(&pair), expected);
    }
    let mut numbers = [3i32, -3, i32::MIN, -3];
    let answer = Tray::holding(&mut numbers, 4);
    let table = [
        (3, Some(1)),
        (-3, Some(2)),
        (i32::MIN, Some(3)),
        (0, None),
        (i32::MAX, None),
    ];
    for (number, expected) in table {
        assert_eq!(rt; answer.find(&number), expected);
    }
}

/// The memory once the tray is gone: the slot that was written, and the others as they were.
fn memory_after() -> [i32; 3]
    ensures { result ≡ pos 5 ∷ pos 8 ∷ pos 9 ∷ [] }
{
    let mut memory = [7, 8, 9];
    let mut tray = Tray::new(&mut memory);
    let _ = tray.append(5);
    memory
}

/// What was refused left no trace.
fn memory_after_refusal() -> u32
    ensures { result ≡ 1 }
{
    let mut memory = [8u32];
    let mut tray = Tray::new(&mut memory);
    let _ = tray.append(1);
    let _ = tray.append(2);
    memory[0]
}

#[test]
fn the_lender_knows_its_memory(rt: HostRuntime) {
    assert_eq!(rt; memory_after(), [5, 8, 9]);
    assert_eq!(rt; memory_after_refusal(), 1);
}
