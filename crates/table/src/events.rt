//! Events: event 2a - 1 starts action a, and event 2a ends it. An event is its number: plans, variables and texts name it so.

ghost use Rattle.std.specs.Prelude.{◌≡◌};
ghost use Rattle.encoding.specs.Tables.{owner as owner_of, starts as is_start};

/// The action of an event.
pub fn owner(event: u32) -> u32
    ensures { result ≡ owner_of event }
{
    event.div_ceil(2)
}

/// Whether the event is a start.
pub fn starts(event: u32) -> bool
    ensures { result ≡ is_start event }
{
    event % 2 == 1
}
