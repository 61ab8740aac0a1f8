//! Plans, rehearsed on a job from the beginning. Neither function changes the job. Job, n and plan stay apart: the subject, and what is asked
//! of it.

ghost use Rattle.std.specs.Prelude.{◌≡◌, true, false, MatchOption};
ghost use Rattle.encoding.specs.Plans.{initially, run};
ghost use Rattle.planner.specs.Contents.{meant_by};
ghost use Rattle.table.specs.States.{state_of};
ghost use Rattle.table.specs.Verdicts.{Decides, events_in, plan_answer};

use crate::jobs::Job;
use table::{PlanFault, State};

/// Grants exactly the valid plans of n steps of the job's table; refuses any other list of pairs of step and event with the first
/// cause.
pub fn rehearse(job: &Job, n: u32, plan: &[(u32, u32)]) -> Result<(), PlanFault>
    ensures answer { result ≡ plan_answer (meant_by job.now) n plan.now }
    ensures decides { Decides (meant_by job.now) n plan.now result }
{
    job.table.check_plan(n, plan)
}

/// The state after a list of events, whether or not each runs in its turn. None if one of them is no event of the job's table.
pub fn state_after(job: &Job, plan: &[(u32, u32)]) -> Option<State>
    ensures { MatchOption result (events_in (meant_by job.now) plan.now ≡ false)
        (λ s. (events_in (meant_by job.now) plan.now ≡ true) × (state_of s ≡ run (meant_by job.now) (initially (meant_by job.now)) plan.now)) }
{
    job.table.state_after(plan)
}
