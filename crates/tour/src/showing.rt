//! Calls and their answers, plans and their states, as lines of text.

use crate::cells::Note;
use planner::{Draft, Job, rehearse, state_after};
use refusal::Fault;
use report::RefusalLine;
use std::io;
use table::limits::MOST_FACTS;
use table::{State, owner, starts};

/// Fills a draft by size and note, shows each call with its answer, and seals it.
pub fn describe(rt: &HostRuntime, facts: u32, actions: u32, notes: &[Note]) -> io::Result<Job> {
    let mut draft = Draft::new();
    print!(rt; "  size {facts} {actions}: ")?;
    show_answer(rt, draft.size(facts, actions))?;
    for note in notes {
        let role = u32::from(note.role);
        let action = note.action;
        let fact = note.fact;
        print!(rt; "  note {role} {action} {fact}: ")?;
        show_answer(rt, draft.note(role, action, fact))?;
    }
    println!(rt; "  seal")?;
    Ok(draft.seal())
}

/// Runs a valid plan event by event, and shows the facts that are true after each.
pub fn show_plan(rt: &HostRuntime, job: &Job, n: u32, plan: &[(u32, u32)]) -> io::Result<()> {
    match rehearse(job, n, plan) {
        Ok(()) => println!(rt; "A valid plan:")?,
        Err(fault) => return show_refusal(rt, fault),
    }
    for (i, (step, event)) in plan.iter().enumerate() {
        let action = owner(*event);
        let verb = if starts(*event) { "starts" } else { "ends" };
        print!(rt; "  step {step}: action {action} {verb}; true now:")?;
        match state_after(job, &plan[..i + 1]) {
            Some(state) => show_facts(rt, &state)?,
            None => println!(rt; " unknown")?,
        }
    }
    Ok(())
}

/// Shows why a plan is not valid.
pub fn show_refused_plan(
    rt: &HostRuntime,
    job: &Job,
    n: u32,
    plan: &[(u32, u32)],
) -> io::Result<()> {
    print!(rt; "  ")?;
    show_answer(rt, rehearse(job, n, plan))
}

fn show_facts(rt: &HostRuntime, state: &State) -> io::Result<()> {
    for fact in (1..=MOST_FACTS).filter(|fact| state.holds(*fact)) {
        print!(rt; " {fact}")?;
    }
    println!(rt; "")
}

/// Shows what a call answers: `granted`, or its refusal.
fn show_answer<F: Fault + Drop>(rt: &HostRuntime, answer: Result<(), F>) -> io::Result<()> {
    match answer {
        Ok(()) => println!(rt; "granted"),
        Err(fault) => show_refusal(rt, fault),
    }
}

/// Shows the refusal of a fault.
pub fn show_refusal<F: Fault + Drop>(rt: &HostRuntime, fault: F) -> io::Result<()> {
    let line = RefusalLine(fault.code());
    println!(rt; "{line}")
}
