//! Clause stores: where the clauses of a formula are put, one after another.
//!
//! `ClauseStore` is a store by its meaning: the list of clauses that it holds, and its free units. Code that puts clauses is
//! written once over this trait and knows nothing else of a store. Two kinds stand here: the number store, in lent numbers, and
//! the text store, in lent bytes, as a text in the DIMACS CNF form. Neither uses the heap.
#![tactic(auto)]

mod clauses;
mod columns;
mod header;
mod lawful;
mod numbers;
mod text;

pub use clauses::{ClauseStore, GREATEST_VARIABLE, LONGEST_CLAUSE, PutFault, is_clause};
pub use numbers::NumberStore;
pub use text::{LONGEST_TEXT, TextStore};
