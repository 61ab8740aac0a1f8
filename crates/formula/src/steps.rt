//! Numbers of steps within the limits.

ghost use Rattle.std.specs.Prelude.{◌≡◌, ◌≤◌, true, false, MatchResult};
ghost use Rattle.encoding.specs.Limits.{step_limit};
ghost use Rattle.table.specs.Entries.{from};

use table::limits::MOST_STEPS;

/// A number of steps, from 1 to 64.
#[derive(Clone, Copy)]
pub struct Steps {
    pub count: u32,
    ghost some: { 1 ≤ count },
    ghost few: { count ≤ step_limit },
}

/// No number of steps, or too large a one.
#[derive(Clone, Copy, PartialEq, Eq, Debug)]
pub struct StepsOutOfLimits;

impl TryFrom<u32> for Steps {
    type Error = StepsOutOfLimits;

    ghost try_from_gives = { λ n answer. MatchResult answer (λ steps. (from 1 step_limit n ≡ true) × (steps.count ≡ n)) (λ _. from 1 step_limit n ≡ false) };

    fn try_from(n: u32) -> Result<Steps, StepsOutOfLimits> {
        if (1..=MOST_STEPS).contains(&n) {
            Ok(Steps { count: n })
        } else {
            Err(StepsOutOfLimits)
        }
    }
}
