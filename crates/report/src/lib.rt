//! What programs read and print.
//!
//! A program prints a refusal as one line, and a plan as a line for each of its events. `specs/Lines.antt` says which bytes these lines
//! are, and `specs/Endings.antt` what a program writes in the end, and how it ends: with what it was asked for, or the line of a refusal.
//! `read_input` and `print_output` are for the `main` of a program; what is read is only tested.
#![tactic(auto)]

mod console;
mod endings;
mod events;
mod outputs;
mod refusals;

pub use console::{print_output, read_input};
pub use events::{EventLine, event_lines};
pub use outputs::{LONGEST_INPUT, Stop, is_too_long};
pub use refusals::{RefusalLine, print_line};

#[cfg(test)]
mod tests;
