//! Every refusal of drafts and rehearsed plans with its number and figures, on tables of cases.

use super::{Draft, Job, rehearse, state_after};
use refusal::{Code, Fault};
use std::test::Fail;

fn coded<F: Fault + Drop>(answer: Result<(), F>) -> Result<(), Code> {
    answer.map_err(|fault| fault.code())
}

fn numbered<F: Fault + Drop>(answer: Result<(), F>) -> Result<(), u32> {
    coded(answer).map_err(|code| code.number)
}

#[test]
fn sizes(rt: HostRuntime) {
    let cases = [
        (0, 1, Err(1)),
        (1, 0, Err(1)),
        (33, 1, Err(1)),
        (1, 17, Err(1)),
        (u32::MAX, u32::MAX, Err(1)),
        (32, 16, Ok(())),
        (1, 1, Ok(())),
        (5, 3, Ok(())),
    ];
    let mut draft = Draft::new();
    for (facts, actions, expected) in cases {
        assert_eq!(rt; numbered(draft.size(facts, actions)), expected);
    }
    // the last granted size stands, and a granted note ends sizing, in or out of the limits
    assert_eq!(rt; numbered(draft.note(3, 3, 5)), Ok(()));
    assert_eq!(rt; numbered(draft.size(5, 3)), Err(2));
    assert_eq!(rt; numbered(draft.size(33, 3)), Err(1));
}

#[test]
fn notes(rt: HostRuntime) {
    let cases = [
        (0, 0, 1, Err(3)),
        (10, 1, 1, Err(3)),
        (u32::MAX, u32::MAX, u32::MAX, Err(3)),
        (1, 1, 0, Err(4)),
        (2, 1, 1, Err(4)),
        (3, 0, 1, Err(4)),
        (9, 3, 33, Err(4)),
        (4, u32::MAX, 1, Err(4)),
        (1, 0, 0, Err(5)),
        (1, 0, 4, Err(5)),
        (9, 2, 33, Err(5)),
        (8, 1, u32::MAX, Err(5)),
        (1, 0, 3, Ok(())),
        (1, 0, 3, Err(6)),
        (2, 0, 3, Ok(())),
        (4, 1, 1, Ok(())),
        (4, 1, 1, Err(6)),
    ];
    let mut draft = Draft::new();
    assert_eq!(rt; numbered(draft.size(3, 2)), Ok(()));
    for (role, action, fact, expected) in cases {
        assert_eq!(rt; numbered(draft.note(role, action, fact)), expected);
    }
}

// The three clashes, each in both orders of its notes; what is near a clash is granted.
#[test]
fn clashes(rt: HostRuntime) {
    for (one, other) in [(4, 5), (5, 4), (7, 8), (8, 7), (5, 9), (9, 5)] {
        let mut draft = Draft::new();
        assert_eq!(rt; numbered(draft.size(2, 2)), Ok(()));
        assert_eq!(rt; numbered(draft.note(one, 1, 1)), Ok(()));
        assert_eq!(rt; numbered(draft.note(other, 1, 1)), Err(7));
        assert_eq!(rt; numbered(draft.note(other, 1, 2)), Ok(()));
        assert_eq!(rt; numbered(draft.note(other, 2, 1)), Ok(()));
    }
    // an end may delete a held fact of its own action, and a start may add one
    let mut draft = Draft::new();
    for (role, expected) in [
        (9, Ok(())),
        (8, Ok(())),
        (4, Ok(())),
        (5, Err(7)),
        (7, Err(7)),
    ] {
        assert_eq!(rt; numbered(draft.note(role, 1, 1)), expected);
    }
}

fn filled(facts: u32, actions: u32, notes: &[(u32, u32, u32)]) -> Job {
    let mut draft = Draft::new();
    let _ = draft.size(facts, actions);
    for (role, action, fact) in notes {
        let _ = draft.note(*role, *action, *fact);
    }
    draft.seal()
}

fn rehearsed(job: &Job, n: u32, plan: &[(u32, u32)]) -> Result<(), Code> {
    coded(rehearse(job, n, plan))
}

fn refused(number: u32, first: u128, second: u128, third: u128) -> Result<(), Code> {
    Err(Code::new(number, first, second, third))
}

#[test]
fn plans_of_cell_one(rt: HostRuntime) {
    let job = filled(1, 1, &[(2, 0, 1), (7, 1, 1)]);
    assert_eq!(rt; rehearsed(&job, 1, &[(1, 1), (1, 2)]), Ok(()));
    assert_eq!(rt; rehearsed(&job, 2, &[(1, 1), (2, 2)]), Ok(()));
    assert_eq!(rt; rehearsed(&job, 1, &[]), refused(15, 0, 6, 1));
    assert_eq!(rt; rehearsed(&job, 1, &[(1, 1)]), refused(15, 0, 5, 1));
    assert_eq!(rt; rehearsed(&job, 1, &[(1, 2)]), refused(14, 1, 3, 1));
    assert_eq!(rt; rehearsed(&job, 2, &[(1, 1), (2, 1)]), refused(14, 2, 2, 1));
    assert_eq!(rt; rehearsed(&job, 0, &[(1, 1), (1, 2)]), refused(13, 1, 0, 0));
    assert_eq!(rt;
        rehearsed(&job, 1, &[(1, 1), (1, 2), (2, 1)]),
        refused(13, 3, 0, 0)
    );
    assert_eq!(rt; rehearsed(&job, 1, &[(1, 1), (1, 1)]), refused(13, 2, 0, 0));
    assert_eq!(rt; rehearsed(&job, 1, &[(1, 2), (1, 1)]), refused(13, 2, 0, 0));
    assert_eq!(rt; rehearsed(&job, 1, &[(1, 2), (1, 3)]), refused(13, 2, 0, 0));
    assert_eq!(rt; rehearsed(&job, u32::MAX, &[(0, 1)]), refused(13, 1, 0, 0));
    assert_eq!(rt;
        rehearsed(&job, u32::MAX, &[(1, 1), (u32::MAX, u32::MAX)]),
        refused(13, 2, 0, 0)
    );
}

#[test]
fn plans_of_cell_two(rt: HostRuntime) {
    let job = filled(
        2,
        2,
        &[(4, 1, 1), (8, 1, 1), (9, 2, 1), (7, 2, 2), (2, 0, 2)],
    );
    assert_eq!(rt;
        rehearsed(&job, 2, &[(1, 1), (1, 3), (1, 4), (2, 2)]),
        Ok(())
    );
    assert_eq!(rt;
        rehearsed(&job, 2, &[(1, 1), (1, 3), (2, 2), (2, 4)]),
        refused(14, 3, 4, 2)
    );
    assert_eq!(rt; rehearsed(&job, 2, &[(1, 3)]), refused(14, 1, 1, 1));
    assert_eq!(rt; rehearsed(&job, 2, &[(1, 1), (1, 3)]), refused(15, 0, 5, 1));
    assert_eq!(rt; rehearsed(&job, 2, &[(1, 1), (1, 2)]), refused(15, 0, 6, 2));
}

#[test]
fn states(rt: HostRuntime) -> Result<(), Fail> {
    let job = filled(
        2,
        2,
        &[(4, 1, 1), (8, 1, 1), (9, 2, 1), (7, 2, 2), (1, 0, 2)],
    );
    assert!(rt; state_after(&job, &[(1, 0)]).is_none());
    assert!(rt; state_after(&job, &[(1, 5)]).is_none());
    assert!(rt; state_after(&job, &[(1, u32::MAX)]).is_none());
    let Some(state) = state_after(&job, &[(1, 1)]) else {
        return Err(Fail::new("event 1 is one of the table's"));
    };
    assert!(rt;
        state.holds(1)
            && state.holds(2)
            && !state.holds(0)
            && !state.holds(33)
            && !state.holds(u32::MAX)
    );
    assert!(rt;
        state.is_open(1)
            && !state.is_open(2)
            && !state.is_open(0)
            && !state.is_open(17)
            && !state.is_open(u32::MAX)
    );
    Ok(())
}
