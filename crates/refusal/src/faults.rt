//! The trait by which the fault of a call tells which refusal it is. A trait and not `From` alone: what a fault means is a function here,
//! so the number and figures of every fault are promised by equality.

ghost use Rattle.std.specs.Prelude.{◌≡◌};
ghost use Rattle.refusal.specs.Codes.{code_of};
ghost use Rattle.refusal.specs.declared.causes.Refusal.{Refusal as AnyRefusal};

use super::causes::{Code, Refusal};

pub trait Fault {
    ghost means: { Self → AnyRefusal };

    fn refusal(&self) -> Refusal
        ensures { result ≡ means self.now };

    /// The number and figures of the fault's refusal.
    fn code(&self) -> Code
        ensures { result ≡ code_of (means self.now) }
    {
        self.refusal().code()
    }
}

/// A refusal is a fault that means itself.
impl Fault for Refusal {
    ghost means = { λ r. r };

    fn refusal(&self) -> Refusal {
        *self
    }
}
