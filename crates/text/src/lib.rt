//! Texts that the planner reads.
//!
//! A table text is read into a draft: each line is a size or a note, in a fixed order, and `ZZ` closes. `specs/Documents.antt` says what a
//! lawful text is, by its rendering, and `specs/Outcomes.antt` what reading comes to; `specs/Faults.antt` gives each fault its refusal.
//! Readers of digits, tags, numbers and lines return where no lawful text continues; the line and the column are worked out once, at the
//! end. No heap is used.
#![tactic(auto)]

mod cursor;
mod faults;
mod fields;
mod lines;
mod places;
mod tables;
mod tags;

pub use faults::{LineFault, TableFault};
pub use tables::read_table;
