//! A job's clauses, emitted into a text store over lent bytes.

use crate::showing::show_refusal;
use planner::Job;
use std::io;
use std::io::Write;
use store::TextStore;

/// Emits the clauses of n steps into a store of 289 bytes, and shows its text, or why there is none.
pub fn show_clauses(rt: &HostRuntime, job: &Job, n: u32) -> io::Result<()> {
    let mut memory = [b' '; 289];
    let mut store = TextStore::new(&mut memory);
    match job.emit(n, &mut store) {
        Ok(count) => {
            println!(rt; "  {count} clauses:")?;
            rt.stdout().write_all(store.text())
        }
        Err(fault) => {
            print!(rt; "  ")?;
            show_refusal(rt, fault)
        }
    }
}
