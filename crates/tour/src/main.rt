//! A tour of the library: two small cells are described call by call or read from a text, sealed, their plans run event by event, and
//! clauses emitted.
#![tactic(auto)]

mod cells;
mod clauses;
mod showing;
mod texts;

use cells::{HANDOVER, SINGLE};
use clauses::show_clauses;
use showing::{show_plan, show_refused_plan};
use std::io;
use texts::show_text;

fn main(rt: HostRuntime) -> io::Result<()> {
    println!(rt; "Cell one: one action, whose end makes the goal fact true.")?;
    let single = showing::describe(&rt, 1, 1, &SINGLE)?;
    show_plan(&rt, &single, 1, &[(1, 1), (1, 2)])?;
    println!(rt; "The empty plan leaves the goal false:")?;
    show_refused_plan(&rt, &single, 1, &[])?;

    println!(rt; "")?;
    println!(rt;
        "Cell two: action 1 keeps fact 1 true while it is open; action 2 holds fact 1 and makes the goal true."
    )?;
    let handover = showing::describe(&rt, 2, 2, &HANDOVER)?;
    show_plan(&rt, &handover, 2, &[(1, 1), (1, 3), (1, 4), (2, 2)])?;
    println!(rt;
        "Ending action 1 under the open action 2 would let go of the fact that it holds:"
    )?;
    show_refused_plan(&rt, &handover, 2, &[(1, 1), (1, 3), (2, 2), (2, 4)])?;

    println!(rt; "")?;
    println!(rt; "Cell two as a table text:")?;
    let lawful = b"SZ   2   2   2\nGO   2\nSA   1   1\nEA   2   2\nED   1   1\nHD   2   1\nZZ\n";
    show_text(&rt, lawful, &[(1, 1), (1, 3), (1, 4), (2, 2)])?;
    println!(rt; "With a leading zero on line 3, and with a fact that there is not:")?;
    show_text(&rt, b"SZ   2   2   2\nGO   2\nSA  01   1\nZZ\n", &[])?;
    show_text(&rt, b"SZ   2   2   2\nGO   3\nZZ\n", &[])?;

    println!(rt; "")?;
    println!(rt; "Cell one's clauses of one step, as a text:")?;
    show_clauses(&rt, &single, 1)?;
    println!(rt; "Those of two steps have no room, and there are none of 65:")?;
    show_clauses(&rt, &single, 2)?;
    show_clauses(&rt, &single, 65)
}
