//! What users call. A draft is filled by size and note; sealing it gives a job, which no call changes any more.
//!
//! A draft and a job are types of their own, neither `Copy` nor `Clone`, and without a public field: a note on a job and a draft
//! that is used after its seal do not compile.
#![tactic(auto)]

mod drafts;
mod jobs;
mod laws;
mod rehearsal;

pub use drafts::Draft;
pub use jobs::Job;
pub use laws::histories_stand;
pub use rehearsal::{rehearse, state_after};

#[cfg(test)]
mod tests;
