//! Why a tray refuses.

ghost use Rattle.refusal.specs.declared.causes.Refusal.TheVariants.{TrayTooShort};
ghost use Rattle.tray.specs.declared.fault.TrayFault.TheVariants.{Full as FullOf};

use refusal::{Fault, Refusal};

#[derive(Clone, Copy, PartialEq, Eq, Debug)]
pub enum TrayFault {
    /// The tray is full: it would need this many slots, one more than it has.
    Full { needed: u128 },
}

impl Fault for TrayFault {
    ghost means = { λ f. elim f [ FullOf n ↦ TrayTooShort n ] };

    fn refusal(&self) -> Refusal {
        match *self {
            TrayFault::Full { needed } => Refusal::TrayTooShort { needed },
        }
    }
}
