//! Prints a chain of implications from each kind of store, through one function over every kind, with the memory behind it.
#![tactic(auto)]

mod chain;
#[cfg(test)]
mod tests;

use chain::{chain_numbers, chain_text};
use refusal::Fault;
use std::io;
use store::PutFault;

fn main(rt: HostRuntime) -> io::Result<()> {
    let mut bytes = [b'.'; 84];
    show_used(&rt, "text", "84 bytes", chain_text(&mut bytes, 3))?;
    rt.write_all(&bytes)?;
    println!(rt; "")?;

    let mut numbers = [7; 13];
    show_used(&rt, "number", "13 numbers", chain_numbers(&mut numbers, 3))?;
    println!(rt; "{numbers:?}")?;

    let mut few = [7; 10];
    show_used(&rt, "number", "10 numbers", chain_numbers(&mut few, 3))?;
    println!(rt; "{few:?}")
}

// Shows how much of the lent memory a chain uses, or the number of its refusal.
fn show_used(
    rt: &HostRuntime,
    kind: &str,
    lent: &str,
    answer: Result<usize, PutFault>,
) -> io::Result<()> {
    match answer {
        Ok(used) => println!(rt; "{kind} store: {used} of {lent} used"),
        Err(fault) => println!(rt; "refused {}", fault.code().number),
    }
}
