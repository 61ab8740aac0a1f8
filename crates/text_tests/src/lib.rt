//! Malformed table texts by the hundred, and each kind of refusal, read through the public call.
//!
//! Every proper prefix of a lawful text whose lines are granted is malformed just past its end. A byte that no lawful text has at its
//! place is malformed there. Both are counted here by line and column from the text alone.
#![tactic(auto)]

#[cfg(test)]
mod tests;
