//! When an event runs and what it does, and what is left undone at the end. Event and state stay two parameters: the event is asked about,
//! and the state is where it would run.

ghost use Rattle.std.specs.Prelude.{◌≡◌, ◌≤◌};
ghost use Rattle.encoding.specs.Plans.{after, initially as at_first};
ghost use Rattle.table.specs.Model.{meant};
ghost use Rattle.table.specs.States.{state_of};
ghost use Rattle.table.specs.Verdicts.{agenda_obstacle, lacks, lowest, misses, obstacle as obstacle_of, robs, unmet as unmet_of};

use super::Table;
use super::lookups::by_kind;
use crate::events::{owner, starts};
use crate::marks::Marks;
use crate::roles::Role;
use crate::states::State;
use refusal::{Obstacle, Unmet};

impl Table {
    /// The initial facts, and no action open.
    pub(super) fn initially(&self) -> State
        ensures { state_of result ≡ at_first (meant self.now) }
    {
        State {
            facts: self.facts_of(Role::Initial, 0),
            open: Marks::none(),
        }
    }

    /// Why an event does not run in a state.
    pub(super) fn obstacle(&self, event: u32, state: &State) -> Option<Obstacle>
        ensures { result ≡ obstacle_of (meant self.now) event (state_of state.now) }
    {
        self.lacking(event, state)
            .map(Obstacle::RequiredFactFalse)
            .or_else(|| agenda_obstacle(event, state))
            .or_else(|| self.robbed(event, state).map(Obstacle::HeldFactDeleted))
    }

    /// What is left undone in a state, if it is the end.
    pub(super) fn unmet(&self, state: &State) -> Option<Unmet>
        ensures { result ≡ unmet_of (meant self.now) (state_of state.now) }
    {
        self.left_open(state)
            .map(Unmet::ActionLeftOpen)
            .or_else(|| self.missing_goal(state).map(Unmet::GoalFactFalse))
    }

    // The state after an event of the table.
    pub(super) fn run(&self, event: u32, state: State) -> State
        requires { event ≤ 32 }
        ensures { state_of result ≡ after (meant self.now) event (state_of state) }
    {
        let action = owner(event);
        let added = self.facts_of(by_kind(event, Role::StartAdds, Role::EndAdds), action);
        let deleted = self.facts_of(by_kind(event, Role::StartDeletes, Role::EndDeletes), action);
        let mut open = state.open;
        open.put(action, starts(event));
        State {
            facts: state.facts.changed(added, deleted),
            open,
        }
    }

    // The lowest required fact that is false.
    fn lacking(&self, event: u32, state: &State) -> Option<u32>
        ensures { result ≡ lowest (meant self.now).facts (lacks (meant self.now) event (state_of state.now)) }
    {
        (1..=self.facts).find(|&fact| self.requires_fact(event, fact) && !state.holds(fact))
    }

    // The lowest other open action of which the event deletes a held fact.
    fn robbed(&self, event: u32, state: &State) -> Option<u32>
        ensures { result ≡ lowest (meant self.now).actions (robs (meant self.now) event (state_of state.now)) }
    {
        (1..=self.actions).find(|&action| {
            action != owner(event) && state.is_open(action) && self.harms(event, action)
        })
    }

    // The lowest open action.
    fn left_open(&self, state: &State) -> Option<u32>
        ensures { result ≡ lowest (meant self.now).actions (state_of state.now).is_open }
    {
        (1..=self.actions).find(|&action| state.is_open(action))
    }

    // The lowest goal fact that is false.
    fn missing_goal(&self, state: &State) -> Option<u32>
        ensures { result ≡ lowest (meant self.now).facts (misses (meant self.now) (state_of state.now)) }
    {
        (1..=self.facts).find(|&fact| self.goal(fact) && !state.holds(fact))
    }
}

// A start's action is open, or an end's is not.
fn agenda_obstacle(event: u32, state: &State) -> Option<Obstacle>
    ensures { result ≡ agenda_obstacle event (state_of state.now) }
{
    let action = owner(event);
    match (starts(event), state.is_open(action)) {
        (true, true) => Some(Obstacle::ActionAlreadyOpen(action)),
        (false, false) => Some(Obstacle::ActionNotOpen(action)),
        _ => None,
    }
}
