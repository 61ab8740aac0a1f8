//! Both kinds of source on examples, and the lowest missing variable at both.

use super::*;

#[test]
fn a_map_tells_by_its_bytes(rt: HostRuntime) {
    let source = MapSource {
        bytes: &[0, 1, 2, 3, 255],
    };
    let table = [
        (0, None),
        (1, None),
        (2, Some(false)),
        (3, Some(true)),
        (4, None),
        (5, None),
        (6, None),
        (99_999, None),
        (u32::MAX, None),
    ];
    for (variable, expected) in table {
        assert_eq!(rt; source.value(variable), expected);
    }
    let long = MapSource {
        bytes: &[2; 100_001],
    };
    for (variable, expected) in [
        (0, None),
        (1, Some(true)),
        (99_999, Some(true)),
        (100_000, None),
    ] {
        assert_eq!(rt; long.value(variable), expected);
    }
}

#[test]
fn the_first_entry_decides(rt: HostRuntime) {
    let entries = [
        3,
        -1,
        1,
        0,
        i32::MIN,
        100_000,
        -3,
        3,
        i32::MAX,
        -99_999,
        99_999,
    ];
    let source = ListSource { entries: &entries };
    let table = [
        (0, None),
        (1, Some(false)),
        (2, None),
        (3, Some(true)),
        (99_999, Some(false)),
        (100_000, None),
        (i32::MAX.unsigned_abs(), None),
        (i32::MIN.unsigned_abs(), None),
        (u32::MAX, None),
    ];
    for (variable, expected) in table {
        assert_eq!(rt; source.value(variable), expected);
    }
    assert_eq!(rt; ListSource { entries: &[] }.value(1), None);
}

#[test]
fn the_lowest_missing_variable(rt: HostRuntime) {
    let map = MapSource {
        bytes: &[2, 1, 0, 2],
    };
    let list = ListSource {
        entries: &[-2, 4, 1],
    };
    for (variables, expected) in [
        (0, None),
        (1, None),
        (2, None),
        (3, Some(3)),
        (4, Some(3)),
        (u32::MAX, Some(3)),
    ] {
        assert_eq!(rt; lowest_missing(&map, variables), expected);
        assert_eq!(rt; lowest_missing(&list, variables), expected);
    }
    let full = MapSource {
        bytes: &[1; 100_001],
    };
    for (variables, expected) in [
        (99_999, None),
        (100_000, Some(100_000)),
        (u32::MAX, Some(100_000)),
    ] {
        assert_eq!(rt; lowest_missing(&full, variables), expected);
    }
}
