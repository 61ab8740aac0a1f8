//! Jobs: a table that stays as it was sealed, and what is done with it.

ghost use Rattle.std.specs.Prelude.{◌≡◌};
ghost use Rattle.encoder.specs.Emission.{Emitted, emit_answer};
ghost use Rattle.planner.specs.Contents.{in_job, meant_by};
ghost use Rattle.table.specs.Model.{entries_of};

use encoder::EmitFault;
use store::ClauseStore;
use table::Table;

// No model as one value: see `table::Table`.
#[derive(Drop)]
pub struct Job {
    pub(crate) table: Table,
}

impl Job {
    pub(crate) fn of(table: Table) -> Job
        ensures { in_job result ≡ entries_of table }
    {
        Job { table }
    }

    /// Adds exactly the clauses of n steps to a store of any kind, in their order, and returns how many there are. It grants exactly when n
    /// is 1 to 64 and the clauses' prices together fit the free units; refused, nothing changes.
    pub fn emit<S: ClauseStore>(&self, n: u32, store: &mut S) -> Result<usize, EmitFault>
        ensures answer { result ≡ emit_answer (meant_by self.now) n S.ClauseStore.prices (S.ClauseStore.units store.old) }
        ensures after { Emitted S.ClauseStore.held S.ClauseStore.units S.ClauseStore.prices store.old store.new (meant_by self.now) n result }
        ensures grows { S.ClauseStore.grew store.old store.new }
    {
        encoder::emit(&self.table, n, store)
    }
}
