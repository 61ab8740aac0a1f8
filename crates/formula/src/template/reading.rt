//! What a template and its families tell.

ghost use Rattle.std.specs.Prelude.{◌≡◌};
ghost use Rattle.formula.specs.Templates.{family_in, family_number};

use super::{Family, Template};
use crate::clauses::Clause;

/// The number of a family: the one that a false clause is reported with.
impl From<Family> for u32 {
    ghost from_gives = { λ family n. n ≡ family_number family };

    fn from(family: Family) -> u32 {
        family as u32
    }
}

impl Template {
    /// The clauses of a family.
    pub fn family(&self, family: Family) -> &[Clause]
        ensures { result.now ≡ family_in self.now family }
    {
        match family {
            Family::Start => self.start.as_slice(),
            Family::Agenda => self.agenda.as_slice(),
            Family::Kept => self.kept.as_slice(),
            Family::Truth => self.truth.as_slice(),
            Family::Goal => self.goal.as_slice(),
        }
    }

    /// How many variables a step has, so how much is added to each variable from one step to the next.
    pub fn step_size(&self) -> u32
        ensures { result ≡ self.now.step_size }
    {
        self.step_size
    }
}
