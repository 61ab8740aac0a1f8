//! Clauses of a template, put into a store with a number added to each variable.
//!
//! A store's held, units, prices and grew stand in each contract: they are members of the bound, and a clause names such members one by one.

ghost use Rattle.std.specs.Prelude.{◌≡◌, ◌+◌, true, [], ◌∷◌, map};
ghost use Rattle.encoder.specs.Puts.{Adds, moved, signs};
ghost use Rattle.encoding.specs.Clauses.{rename, signed as signed_of};
ghost use Rattle.formula.specs.Listings.{InLimits, lit, lits, shifted};
ghost use Rattle.std.specs.List.{AllByRecursion};
ghost use Rattle.store.specs.Clauses.{is_clause};

use formula::{Clause, Literal};
use store::ClauseStore;

/// Puts clauses one after another.
pub(crate) fn put_all<S: ClauseStore>(store: &mut S, clauses: &[Clause], shift: u32)
    requires { AllByRecursion (AllByRecursion InLimits) (shifted shift (map lits clauses.now)) }
    ensures puts { Adds S.ClauseStore.held S.ClauseStore.units S.ClauseStore.prices store.old store.new (signs (shifted shift (map lits clauses.now))) }
    ensures grows { S.ClauseStore.grew store.old store.new }
{
    for clause in clauses {
        put_clause(store, *clause, shift);
    }
}

fn put_clause<S: ClauseStore>(store: &mut S, clause: Clause, shift: u32)
    requires { AllByRecursion InLimits (moved shift clause) }
    ensures puts { Adds S.ClauseStore.held S.ClauseStore.units S.ClauseStore.prices store.old store.new (map signed_of (moved shift clause) ∷ []) }
    ensures grows { S.ClauseStore.grew store.old store.new }
{
    match clause {
        Clause::One(a) => put_signed(store, &[signed(a, shift)]),
        Clause::Two(a, b) => put_signed(store, &[signed(a, shift), signed(b, shift)]),
        Clause::Three(a, b, c) => put_signed(
            store,
            &[signed(a, shift), signed(b, shift), signed(c, shift)],
        ),
    }
}

// Puts a clause. Where the free units cover its price, nothing is left to refuse.
fn put_signed<S: ClauseStore>(store: &mut S, clause: &[i32])
    requires { is_clause clause.now ≡ true }
    ensures puts { Adds S.ClauseStore.held S.ClauseStore.units S.ClauseStore.prices store.old store.new (clause.now ∷ []) }
    ensures grows { S.ClauseStore.grew store.old store.new }
{
    let _ = store.put(clause);
}

// The literal as a signed number, with the shift added to its variable.
fn signed(literal: Literal, shift: u32) -> i32
    requires { InLimits (rename (λ v. v + shift) (lit literal)) }
    ensures { result ≡ signed_of (rename (λ v. v + shift) (lit literal)) }
{
    match literal {
        Literal::Is(variable) => (variable + shift) as i32,
        Literal::Isnt(variable) => -((variable + shift) as i32),
    }
}
