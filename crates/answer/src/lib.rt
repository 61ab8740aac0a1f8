//! Answer sources: where the values of variables come from.
//!
//! A source tells true, false or none for each variable, and its user knows nothing else of it (the trait `AnswerSource`). Two kinds
//! stand here, a map over bytes and a list over signed numbers, and one function that works over every kind.
#![tactic(auto)]

mod list;
mod map;
mod missing;
mod source;

pub use list::ListSource;
pub use map::MapSource;
pub use missing::lowest_missing;
pub use source::{AnswerSource, LARGEST_VARIABLE, is_variable};

#[cfg(test)]
mod tests;
