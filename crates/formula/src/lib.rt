//! The clauses of a cell, worked out once from its table: a template.
//!
//! The clauses of any step are those of the first with one number added to each variable, and those of the goal likewise. So the clause
//! list of n steps is known from five short lists: the start's clauses, the first step's three families, and the goal's. Whoever
//! writes clauses and whoever judges them walk the same template. No heap is used. `specs/Templates.antt` says what a template is.
#![tactic(auto)]

mod clauses;
mod events;
mod groups;
mod layout;
mod listing;
mod steps;
mod template;
mod widths;

pub use clauses::{Clause, Literal};
pub use steps::{Steps, StepsOutOfLimits};
pub use template::{Family, Template};
