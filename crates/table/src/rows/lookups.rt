//! What a table says of a fact, an event or an action. Of numbers out of limits it says `false`.

ghost use Rattle.std.specs.Prelude.{◌≡◌, ℕ, if◌then◌else◌};
ghost use Rattle.encoding.specs.Tables.{harms as is_harm, requires as is_required, starts as is_start};
ghost use Rattle.table.specs.Memory.{marked};
ghost use Rattle.table.specs.Model.{entries_of, meant};

use super::Table;
use crate::events::{owner, starts};
use crate::limits::FACT_PLACES;
use crate::marks::Marks;
use crate::roles::Role;

impl Table {
    // role, action and fact stay three parameters: each look-up has them apart, and a struct would only be made to be taken apart
    pub(crate) fn noted(&self, role: Role, action: u32, fact: u32) -> bool
        ensures { result ≡ (entries_of self.now).noted role action fact }
    {
        self.rows[u32::from(role) as usize].has(action, fact)
    }

    /// The facts noted in a role for an action.
    pub(crate) fn facts_of(&self, role: Role, action: u32) -> Marks<FACT_PLACES>
        ensures { (p : ℕ) → marked result p ≡ (entries_of self.now).noted role action p }
    {
        self.rows[u32::from(role) as usize].facts(action)
    }

    // initial, goal and held are one look-up each, in the subject's words
    pub fn initial(&self, fact: u32) -> bool
        ensures { result ≡ (meant self.now).initial fact }
    {
        self.noted(Role::Initial, 0, fact)
    }

    pub fn goal(&self, fact: u32) -> bool
        ensures { result ≡ (meant self.now).goal fact }
    {
        self.noted(Role::Goal, 0, fact)
    }

    pub fn held(&self, action: u32, fact: u32) -> bool
        ensures { result ≡ (meant self.now).held action fact }
    {
        self.noted(Role::Held, action, fact)
    }

    // what an event needs, adds and deletes are one look-up, at the event's action, in the role of its kind; three names, since they are the
    // subject's words. Event and fact stay two parameters: the subject, and what is asked of it
    pub(crate) fn needs(&self, event: u32, fact: u32) -> bool
        ensures { result ≡ (meant self.now).needs event fact }
    {
        self.noted(
            by_kind(event, Role::StartNeeds, Role::EndNeeds),
            owner(event),
            fact,
        )
    }

    pub fn adds(&self, event: u32, fact: u32) -> bool
        ensures { result ≡ (meant self.now).adds event fact }
    {
        self.noted(
            by_kind(event, Role::StartAdds, Role::EndAdds),
            owner(event),
            fact,
        )
    }

    pub fn deletes(&self, event: u32, fact: u32) -> bool
        ensures { result ≡ (meant self.now).deletes event fact }
    {
        self.noted(
            by_kind(event, Role::StartDeletes, Role::EndDeletes),
            owner(event),
            fact,
        )
    }

    /// Whether the event requires the fact: it needs it, or it starts an action that holds it and does not add it itself.
    pub fn requires_fact(&self, event: u32, fact: u32) -> bool
        ensures { result ≡ is_required (meant self.now) event fact }
    {
        self.needs(event, fact)
            || starts(event) && self.held(owner(event), fact) && !self.adds(event, fact)
    }

    /// Whether the event deletes a held fact of the action.
    pub fn harms(&self, event: u32, action: u32) -> bool
        ensures { result ≡ is_harm (meant self.now) event action }
    {
        (1..=self.facts).any(|fact| self.held(action, fact) && self.deletes(event, fact))
    }
}

// The first role for a start, the second for an end.
pub(super) fn by_kind(event: u32, start: Role, end: Role) -> Role
    ensures { result ≡ (if is_start event then start else end) }
{
    if starts(event) { start } else { end }
}
