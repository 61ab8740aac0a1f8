//! A new table, and the two calls that change one. A refused call changes nothing.

ghost use Rattle.std.specs.Prelude.{◌≡◌};
ghost use Rattle.table.specs.Calls.{after_note, after_size, clashing, note_answer, role_answer, size_answer};
ghost use Rattle.table.specs.Entries.{Sizes, blank, sized, taken, unnoted};
ghost use Rattle.table.specs.Memory.{noted_in};
ghost use Rattle.table.specs.Model.{entries_of};

use super::Table;
use crate::faults::{NoteFault, SizeFault};
use crate::limits::{MOST_ACTIONS, MOST_FACTS, ROLE_PLACES};
use crate::notes::Notes;
use crate::roles::Role;

impl Table {
    /// One fact, one action, no notes.
    pub fn new() -> Table
        ensures { entries_of result ≡ blank }
    {
        Table::empty(1, 1)
    }

    // No notes.
    fn empty(facts: u32, actions: u32) -> Table
        requires { Sizes facts actions }
        ensures { entries_of result ≡ unnoted facts actions }
    {
        let none = Notes::none();
        Table {
            facts,
            actions,
            rows: [none; ROLE_PLACES],
            begun: false,
        }
    }

    // facts and actions are two numbers here, as in the table
    pub fn resize(&mut self, facts: u32, actions: u32) -> Result<(), SizeFault>
        ensures answer { result ≡ size_answer (entries_of self.old) facts actions }
        ensures after { entries_of self.new ≡ after_size (entries_of self.old) facts actions }
    {
        self.permits_size(facts, actions)?;
        self.facts = facts;
        self.actions = actions;
        Ok(())
    }

    // the role by its number: any number may be given, and one that is no role is refused
    pub fn note(&mut self, role: u32, action: u32, fact: u32) -> Result<(), NoteFault>
        ensures answer { result ≡ note_answer (entries_of self.old) role action fact }
        ensures after { entries_of self.new ≡ after_note (entries_of self.old) role action fact }
    {
        let known = Role::try_from(role)?;
        self.permits_note(known, action, fact)?;
        self.rows[u32::from(known) as usize].add(action, fact);
        self.begun = true;
        Ok(())
    }

    fn permits_size(&self, facts: u32, actions: u32) -> Result<(), SizeFault>
        ensures { result ≡ size_answer (entries_of self.now) facts actions }
    {
        if !in_limits(facts, actions) {
            return Err(SizeFault::OutOfLimits);
        }
        if self.begun {
            return Err(SizeFault::AfterNote);
        }
        Ok(())
    }

    // role, action and fact are three parameters here, too: each test looks at them apart
    fn permits_note(&self, role: Role, action: u32, fact: u32) -> Result<(), NoteFault>
        ensures { result ≡ role_answer (entries_of self.now) role action fact }
    {
        if !takes(self.actions, role, action) {
            return Err(NoteFault::ActionOutOfLimits);
        }
        if !(1..=self.facts).contains(&fact) {
            return Err(NoteFault::FactOutOfLimits);
        }
        if self.noted(role, action, fact) {
            return Err(NoteFault::Repeated);
        }
        if self.clashes(role, action, fact) {
            return Err(NoteFault::Clashes);
        }
        Ok(())
    }

    fn clashes(&self, role: Role, action: u32, fact: u32) -> bool
        ensures { result ≡ clashing (entries_of self.now) role action fact }
    {
        match role {
            Role::Initial | Role::Goal | Role::StartNeeds | Role::EndNeeds => false,
            Role::StartAdds => self.noted(Role::StartDeletes, action, fact),
            Role::StartDeletes => self.noted(Role::StartAdds, action, fact)
                || self.noted(Role::Held, action, fact),
            Role::EndAdds => self.noted(Role::EndDeletes, action, fact),
            Role::EndDeletes => self.noted(Role::EndAdds, action, fact),
            Role::Held => self.noted(Role::StartDeletes, action, fact),
        }
    }
}

fn in_limits(facts: u32, actions: u32) -> bool
    ensures { result ≡ sized facts actions }
{
    (1..=MOST_FACTS).contains(&facts) && (1..=MOST_ACTIONS).contains(&actions)
}

// Initial facts and goals take action 0, the other roles one of the table's actions.
fn takes(actions: u32, role: Role, action: u32) -> bool
    ensures { result ≡ taken actions role action }
{
    match role {
        Role::Initial | Role::Goal => action == 0,
        _ => (1..=actions).contains(&action),
    }
}
