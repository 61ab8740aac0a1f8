//! The program `encode`: reads a table text from standard input and prints its clauses as a text in the DIMACS CNF form, or the line of a
//! refusal. A refusal ends it with status 1, and so does a failure to read, to print or to get memory; otherwise the status is 0.
#![tactic(auto)]

mod output;

use output::run;
use report::{Stop, read_input};

fn main(rt: HostRuntime) -> Result<(), Stop> {
    let input = read_input(&rt)?;
    run(&mut rt.stdout(), rt.alloc(), input.as_slice())
}
