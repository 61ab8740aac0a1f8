//! The template of a cell's clauses: five families, from which the clause list of any number of steps follows.

ghost use Rattle.std.specs.Prelude.{ℕ, ◌+◌, ◌*◌, ◌<◌, ◌≤◌};
ghost use Rattle.encoding.specs.Limits.{action_limit, fact_limit, pair_limit, step_limit};
ghost use Rattle.std.proofs.Props.{props};
ghost use Rattle.formula.specs.Listings.{LawfulAt};

use crate::listing::Listing;

mod making;
mod reading;

/// The five families of clauses, by their numbers.
#[derive(Clone, Copy, PartialEq, Eq, Debug)]
pub enum Family {
    /// the facts and actions at the beginning
    Start = 1,
    /// when actions start, end and are open
    Agenda = 2,
    /// held facts that are not deleted under an open action
    Kept = 3,
    /// the value of each fact from event to event
    Truth = 4,
    /// the facts and actions at the end
    Goal = 5,
}

/// The clauses of each family: the start's, those of the first step, and the goal's as if it were to hold at the beginning. Each has room
/// for as many clauses as the limits of facts and actions allow. Moved to any step within the limits, they name variables that a clause may
/// name.
#[derive(Drop)]
pub struct Template {
    start: Listing<48>,
    agenda: Listing<96>,
    kept: Listing<512>,
    truth: Listing<4160>,
    goal: Listing<48>,
    step_size: u32,
    ghost small: { step_size ≤ fact_limit + 3 * action_limit + pair_limit },
    ghost start_in: { LawfulAt 0 start } by { Prim.hlevel props },
    ghost agenda_in: { (s : ℕ) → s < step_limit → LawfulAt (s * step_size) agenda } by { Prim.hlevel props },
    ghost kept_in: { (s : ℕ) → s < step_limit → LawfulAt (s * step_size) kept } by { Prim.hlevel props },
    ghost truth_in: { (s : ℕ) → s < step_limit → LawfulAt (s * step_size) truth } by { Prim.hlevel props },
    ghost goal_in: { (n : ℕ) → n ≤ step_limit → LawfulAt (n * step_size) goal } by { Prim.hlevel props },
}
