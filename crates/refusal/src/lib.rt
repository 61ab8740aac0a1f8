//! What a refusal says: its number and three figures.
//!
//! A call that refuses returns a fault, an enum of the call's own with just the cases that it has. Each such enum tells which
//! refusal a case of it is (the trait `Fault`), and `Refusal` lists all the refusals there are, with the figures that each one
//! names. `specs/Codes.antt` is the one table from a refusal to its number and figures.
#![tactic(auto)]

mod causes;
mod faults;

pub use causes::{Code, Obstacle, Refusal, Unmet};
pub use faults::Fault;

#[cfg(test)]
mod tests;
