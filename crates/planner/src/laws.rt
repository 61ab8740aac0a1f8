//! Laws over whole histories of calls, each the contract of a function: without its proof the crate fails.

ghost use Rattle.planner.specs.Histories.{Faithful};

/// After any calls of size and note, granted or refused, a new draft's table is the one that the granted calls name: the sizes of
/// the last granted size, and exactly the granted notes.
pub fn histories_stand()
    ensures { Faithful }
{}
