//! Emission at its edges, through the public call: the numbers of steps, a store that is just large enough, a store that holds clauses
//! already, and the largest table.
//!
//! The counts of the largest table are worked out by hand, from the rules for clauses; the program's own output is not their source.
#![tactic(auto)]

#[cfg(test)]
mod tests;
