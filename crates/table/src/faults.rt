//! What each call on a table may refuse, and which refusal each case is.

ghost use Rattle.std.specs.Prelude.{◌≡◌};
ghost use Rattle.table.specs.Faults.{size_refusal, note_refusal, plan_refusal};

use refusal::{Fault, Obstacle, Refusal, Unmet};

#[derive(Clone, Copy, PartialEq, Eq, Debug)]
pub enum SizeFault {
    OutOfLimits,
    AfterNote,
}

#[derive(Clone, Copy, PartialEq, Eq, Debug)]
pub enum NoteFault {
    RoleOutOfLimits,
    ActionOutOfLimits,
    FactOutOfLimits,
    Repeated,
    Clashes,
}

/// Why a plan is not valid. Places count from 1.
#[derive(Clone, Copy, PartialEq, Eq, Debug)]
pub enum PlanFault {
    /// the pair at this place is out of limits, or does not rise
    Misplaced { place: usize },
    DoesNotRun { place: usize, obstacle: Obstacle },
    WrongEnding { unmet: Unmet },
}

impl Fault for SizeFault {
    ghost means = { size_refusal };

    fn refusal(&self) -> Refusal {
        match *self {
            SizeFault::OutOfLimits => Refusal::SizeOutOfLimits,
            SizeFault::AfterNote => Refusal::SizeAfterNote,
        }
    }
}

impl Fault for NoteFault {
    ghost means = { note_refusal };

    fn refusal(&self) -> Refusal {
        match *self {
            NoteFault::RoleOutOfLimits => Refusal::RoleOutOfLimits,
            NoteFault::ActionOutOfLimits => Refusal::ActionOutOfLimits,
            NoteFault::FactOutOfLimits => Refusal::FactOutOfLimits,
            NoteFault::Repeated => Refusal::NoteRepeated,
            NoteFault::Clashes => Refusal::NoteClashes,
        }
    }
}

impl Fault for PlanFault {
    ghost means = { plan_refusal };

    fn refusal(&self) -> Refusal {
        match *self {
            PlanFault::Misplaced { place } => Refusal::PairMisplaced { place },
            PlanFault::DoesNotRun { place, obstacle } => Refusal::EventDoesNotRun {
                place,
                obstacle,
            },
            PlanFault::WrongEnding { unmet } => Refusal::WrongEnding { unmet },
        }
    }
}
