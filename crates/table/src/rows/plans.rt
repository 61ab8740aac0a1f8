//! Plans, run on a table from the beginning: a list of pairs is a valid plan, or there is a first reason why not. The number of steps and the
//! plan stay two parameters: any plan is compared with any n. Pairs are looped over with their places, since a place is the answer.

ghost use Rattle.std.specs.Prelude.{◌≡◌, ℕ, ◌<◌, ◌≤◌, true, false, ◌&&◌, length, MatchOption, slice_index_or};
ghost use Rattle.encoding.specs.Plans.{initially as at_first, run as run_of};
ghost use Rattle.encoding.specs.Tables.{events as events_of};
ghost use Rattle.table.specs.Entries.{from};
ghost use Rattle.table.specs.Model.{meant};
ghost use Rattle.table.specs.States.{state_of};
ghost use Rattle.table.specs.Verdicts.{Decides, Played, comes_before, events_in, in_place, misplaced as misplaced_at, plan_answer};

use super::Table;
use crate::faults::PlanFault;
use crate::states::State;

impl Table {
    /// Grants exactly the valid plans of n steps, and refuses any other list of pairs with the first cause. All pairs are looked at
    /// before any event runs.
    pub fn check_plan(&self, n: u32, plan: &[(u32, u32)]) -> Result<(), PlanFault>
        ensures answer { result ≡ plan_answer (meant self.now) n plan.now }
        ensures decides { Decides (meant self.now) n plan.now result }
    {
        if let Some(place) = self.misplaced(n, plan) {
            return Err(PlanFault::Misplaced { place });
        }
        let end = self.play(plan)?;
        if let Some(unmet) = self.unmet(&end) {
            return Err(PlanFault::WrongEnding { unmet });
        }
        Ok(())
    }

    /// The state after a list of events, whether or not each runs in its turn. None if one of them is no event of the table.
    pub fn state_after(&self, plan: &[(u32, u32)]) -> Option<State>
        ensures { MatchOption result (events_in (meant self.now) plan.now ≡ false)
            (λ s. (events_in (meant self.now) plan.now ≡ true) × (state_of s ≡ run_of (meant self.now) (at_first (meant self.now)) plan.now)) }
    {
        if !self.are_events(plan) {
            return None;
        }
        Some(self.run_all(plan))
    }

    // Whether each event is one of the table's.
    fn are_events(&self, plan: &[(u32, u32)]) -> bool
        ensures { result ≡ events_in (meant self.now) plan.now }
    {
        plan.iter().all(|pair| self.is_event(pair.1))
    }

    // The state after the events, which are the table's.
    fn run_all(&self, plan: &[(u32, u32)]) -> State
        requires { events_in (meant self.now) plan.now ≡ true }
        ensures { state_of result ≡ run_of (meant self.now) (at_first (meant self.now)) plan.now }
    {
        // a fold's closure would have to be shown anew, at each turn, that the event is the table's
        let mut state = self.initially();
        for pair in plan {
            state = self.run(pair.1, state);
        }
        state
    }

    // The place of the first pair that is out of limits or does not rise.
    fn misplaced(&self, n: u32, plan: &[(u32, u32)]) -> Option<usize>
        ensures { result ≡ misplaced_at (meant self.now) n (0, 0) 1 plan.now }
    {
        let mut before = (0, 0);
        for (i, pair) in plan.iter().enumerate() {
            if !self.in_order(n, before, *pair) {
                return Some(i + 1);
            }
            before = *pair;
        }
        None
    }

    fn in_order(&self, n: u32, before: (u32, u32), pair: (u32, u32)) -> bool
        ensures { result ≡ (in_place (meant self.now) n pair && comes_before before pair) }
    {
        let (step, event) = pair;
        (1..=n).contains(&step) && self.is_event(event) && before < pair
    }

    // Whether it is one of the table's events.
    fn is_event(&self, event: u32) -> bool
        ensures { result ≡ from 1 (events_of (meant self.now)) event }
    {
        (1..=2 * self.actions).contains(&event)
    }

    // The state after all events, if each runs in its turn.
    fn play(&self, plan: &[(u32, u32)]) -> Result<State, PlanFault>
        requires { (k : ℕ) → k < length plan.now → (slice_index_or plan.now k (0, 0)).1 ≤ 32 }
        ensures { Played (meant self.now) plan.now result }
    {
        let mut state = self.initially();
        for (i, pair) in plan.iter().enumerate() {
            let event = pair.1;
            if let Some(obstacle) = self.obstacle(event, &state) {
                return Err(PlanFault::DoesNotRun {
                    place: i + 1,
                    obstacle,
                });
            }
            state = self.run(event, state);
        }
        Ok(state)
    }
}
