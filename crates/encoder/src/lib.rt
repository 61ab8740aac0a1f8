//! The encoder: writes the clause list of a table into a clause store, written once for every kind of store.
//!
//! It knows a store by the clauses that it holds and by its free units, and by nothing else. The price of the whole list is worked out
//! before the first clause is put, so that either all of it is put or nothing. No heap is used. `specs/Emission.antt` says what emitting
//! answers and does.
#![tactic(auto)]

mod counts;
mod emission;
mod faults;
mod puts;

pub use emission::emit;
pub use faults::EmitFault;
