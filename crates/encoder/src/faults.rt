//! Why a table's clauses are not emitted, and which refusal that is.

ghost use Rattle.std.specs.Prelude.{◌≡◌};
ghost use Rattle.encoder.specs.Faults.{emit_refusal};
ghost use Rattle.encoder.specs.declared.faults.EmitFault.TheVariants.{StepsOutOfLimits as TooManyOrNone};

use formula::StepsOutOfLimits;
use refusal::{Fault, Refusal};

/// The first is checked before the second.
#[derive(Clone, Copy, PartialEq, Eq, Debug)]
pub enum EmitFault {
    /// the number of steps is not 1 to 64
    StepsOutOfLimits,
    /// the clauses' prices together exceed the store's free units
    PriceExceedsFree,
}

impl Fault for EmitFault {
    ghost means = { emit_refusal };

    fn refusal(&self) -> Refusal {
        match *self {
            EmitFault::StepsOutOfLimits => Refusal::StepsOutOfLimits,
            EmitFault::PriceExceedsFree => Refusal::PriceExceedsFree,
        }
    }
}

impl From<StepsOutOfLimits> for EmitFault {
    ghost from_gives = { λ e r. r ≡ TooManyOrNone };

    fn from(_e: StepsOutOfLimits) -> EmitFault {
        EmitFault::StepsOutOfLimits
    }
}

// one impl for every fault would overlap with std's own `From<T> for T`, since a refusal is a fault too
impl From<EmitFault> for Refusal {
    ghost from_gives = { λ e r. r ≡ emit_refusal e };

    fn from(e: EmitFault) -> Refusal {
        e.refusal()
    }
}
