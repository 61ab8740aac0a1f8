//! A table's clause list for n steps, put into a store: all of it, or nothing.
//!
//! A store's held, units, prices and grew stand in each contract: they are members of the bound, and a clause names such members one by one.

ghost use Rattle.std.specs.Prelude.{◌≡◌, ◌<◌};
ghost use Rattle.encoder.specs.Emission.{Emitted, emit_answer};
ghost use Rattle.encoder.specs.Puts.{Adds, signs};
ghost use Rattle.encoding.specs.Limits.{step_limit};
ghost use Rattle.formula.specs.Templates.{unrolled, unrolled_step};
ghost use Rattle.table.specs.Model.{meant};

use crate::counts::Counts;
use crate::faults::EmitFault;
use crate::puts::put_all;
use formula::{Family, Steps, Template};
use store::ClauseStore;
use table::Table;

/// Adds exactly the clauses of n steps, in their order, and returns how many there are; refused, nothing changes.
pub fn emit<S: ClauseStore>(table: &Table, n: u32, store: &mut S) -> Result<usize, EmitFault>
    ensures answer { result ≡ emit_answer (meant table.now) n S.ClauseStore.prices (S.ClauseStore.units store.old) }
    ensures after { Emitted S.ClauseStore.held S.ClauseStore.units S.ClauseStore.prices store.old store.new (meant table.now) n result }
    ensures grows { S.ClauseStore.grew store.old store.new }
{
    let steps = Steps::try_from(n)?;
    emit_in_limits(table, steps, store)
}

// The price of all the clauses is compared with the free units before the first is put.
fn emit_in_limits<S: ClauseStore>(
    table: &Table,
    steps: Steps,
    store: &mut S,
) -> Result<usize, EmitFault>
    ensures answer { result ≡ emit_answer (meant table.now) steps.count S.ClauseStore.prices (S.ClauseStore.units store.old) }
    ensures after { Emitted S.ClauseStore.held S.ClauseStore.units S.ClauseStore.prices store.old store.new (meant table.now) steps.count result }
    ensures grows { S.ClauseStore.grew store.old store.new }
{
    let template = Template::of(table);
    let counts = Counts::of(&template);
    if store.free() < counts.price::<S>(steps) {
        return Err(EmitFault::PriceExceedsFree);
    }
    put_list(store, &template, steps);
    Ok(counts.clauses(steps))
}

// The start's clauses, those of each step, and the goal's.
fn put_list<S: ClauseStore>(store: &mut S, template: &Template, steps: Steps)
    ensures puts { Adds S.ClauseStore.held S.ClauseStore.units S.ClauseStore.prices store.old store.new (signs (unrolled template.now steps.count)) }
    ensures grows { S.ClauseStore.grew store.old store.new }
{
    let n = steps.count;
    put_all(store, template.family(Family::Start), 0);
    for step in 0..n {
        put_step(store, template, step);
    }
    put_all(
        store,
        template.family(Family::Goal),
        n * template.step_size(),
    );
}

// The clauses of the step after `step` others.
fn put_step<S: ClauseStore>(store: &mut S, template: &Template, step: u32)
    requires { step < step_limit }
    ensures puts { Adds S.ClauseStore.held S.ClauseStore.units S.ClauseStore.prices store.old store.new (signs (unrolled_step template.now step)) }
    ensures grows { S.ClauseStore.grew store.old store.new }
{
    let shift = step * template.step_size();
    // a loop over a list of the three families is no shorter
    put_all(store, template.family(Family::Agenda), shift);
    put_all(store, template.family(Family::Kept), shift);
    put_all(store, template.family(Family::Truth), shift);
}
