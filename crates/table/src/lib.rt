//! A table in memory: its sizes and its notes, what they say of events and facts, and plans run on it.
//!
//! This is the inside of drafts and jobs. Every function that another crate can call is total: of numbers out of limits it refuses,
//! or says `false` or nothing. No heap is used. `specs/Entries.antt` says what a table is, `specs/Meaning.antt` what it means.
#![tactic(auto)]

mod events;
mod faults;
pub mod limits;
mod marks;
mod notes;
mod roles;
mod rows;
mod states;

pub use events::{owner, starts};
pub use faults::{NoteFault, PlanFault, SizeFault};
pub use roles::Role;
pub use rows::Table;
pub use states::State;
