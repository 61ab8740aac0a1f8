//! Every refusal with its number and figures, written out.

use super::{Code, Obstacle, Refusal, Unmet};

/// Made by hand, and not by what is tested.
fn code(number: u32, first: u128, second: u128, third: u128) -> Code {
    Code {
        number,
        first,
        second,
        third,
    }
}

#[test]
fn refusals_without_figures(rt: HostRuntime) {
    let table = [
        (Refusal::SizeOutOfLimits, 1),
        (Refusal::SizeAfterNote, 2),
        (Refusal::RoleOutOfLimits, 3),
        (Refusal::ActionOutOfLimits, 4),
        (Refusal::FactOutOfLimits, 5),
        (Refusal::NoteRepeated, 6),
        (Refusal::NoteClashes, 7),
        (Refusal::StepsOutOfLimits, 8),
        (Refusal::PriceExceedsFree, 9),
        (Refusal::ClauseOutOfLimits, 17),
        (Refusal::NoModel, 19),
        (Refusal::InputTooLong, 21),
    ];
    for (refusal, number) in table {
        assert_eq!(rt; refusal.code(), code(number, 0, 0, 0));
    }
}

#[test]
fn refusals_with_figures(rt: HostRuntime) {
    let table = [
        (
            Refusal::VariableWithoutValue { variable: 7 },
            code(10, 7, 0, 0),
        ),
        (
            Refusal::FalseClause {
                clause: 63,
                family: 5,
                step: 2,
            },
            code(11, 63, 5, 2),
        ),
        (
            Refusal::TrayTooShort { needed: u128::MAX },
            code(12, u128::MAX, 0, 0),
        ),
        (Refusal::PairMisplaced { place: 4 }, code(13, 4, 0, 0)),
        (
            Refusal::EventDoesNotRun {
                place: 3,
                obstacle: Obstacle::RequiredFactFalse(9),
            },
            code(14, 3, 1, 9),
        ),
        (
            Refusal::EventDoesNotRun {
                place: 3,
                obstacle: Obstacle::ActionAlreadyOpen(8),
            },
            code(14, 3, 2, 8),
        ),
        (
            Refusal::EventDoesNotRun {
                place: 3,
                obstacle: Obstacle::ActionNotOpen(7),
            },
            code(14, 3, 3, 7),
        ),
        (
            Refusal::EventDoesNotRun {
                place: 3,
                obstacle: Obstacle::HeldFactDeleted(2),
            },
            code(14, 3, 4, 2),
        ),
        (
            Refusal::WrongEnding {
                unmet: Unmet::ActionLeftOpen(2),
            },
            code(15, 0, 5, 2),
        ),
        (
            Refusal::WrongEnding {
                unmet: Unmet::GoalFactFalse(1),
            },
            code(15, 0, 6, 1),
        ),
        (Refusal::MapTooShort { variables: 28 }, code(16, 28, 0, 0)),
        (
            Refusal::MalformedText { line: 2, column: 5 },
            code(18, 2, 5, 0),
        ),
        (
            Refusal::LineRefused { line: 3, number: 7 },
            code(20, 3, 0, 7),
        ),
    ];
    for (refusal, expected) in table {
        assert_eq!(rt; refusal.code(), expected);
    }
}
