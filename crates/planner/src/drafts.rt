//! Drafts: a table that is being filled.

ghost use Rattle.std.specs.Prelude.{◌≡◌};
ghost use Rattle.planner.specs.Contents.{Kept, in_draft, in_job};
ghost use Rattle.table.specs.Calls.{after_note, after_size, note_answer, size_answer};
ghost use Rattle.table.specs.Entries.{blank};

use crate::jobs::Job;
use table::{NoteFault, SizeFault, Table};

// No model as one value: see `table::Table`.
#[derive(Drop)]
pub struct Draft {
    table: Table,
}

impl Draft {
    /// A draft of one fact, one action and no notes.
    pub fn new() -> Draft
        ensures { in_draft result ≡ blank }
    {
        let table = Table::new();
        Draft { table }
    }

    /// Sets the numbers of facts and actions, while there is no note. Any two numbers may be given.
    pub fn size(&mut self, facts: u32, actions: u32) -> Result<(), SizeFault>
        ensures answer { result ≡ size_answer (in_draft self.old) facts actions }
        ensures after { in_draft self.new ≡ after_size (in_draft self.old) facts actions }
    {
        self.table.resize(facts, actions)
    }

    /// Adds a note: what a fact is to an action, by the role's number. Roles 1 and 2 take action 0. Any
    /// numbers may be given, and one that is no role is refused.
    pub fn note(&mut self, role: u32, action: u32, fact: u32) -> Result<(), NoteFault>
        ensures answer { result ≡ note_answer (in_draft self.old) role action fact }
        ensures after { in_draft self.new ≡ after_note (in_draft self.old) role action fact }
    {
        self.table.note(role, action, fact)
    }

    /// Ends the draft. Its table is the job's, with sizes and notes in the limits and no clash.
    pub fn seal(self) -> Job
        ensures same { in_job result ≡ in_draft self }
        ensures kept { Kept (in_job result) }
    {
        let Draft { table } = self;
        Job::of(table)
    }
}
