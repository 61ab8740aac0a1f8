//! The events and actions that a table can have, by their numbers.

ghost use Rattle.std.specs.Prelude.{◌≡◌, ◌-◌, ◌*◌, ◌≤◌};
ghost use Rattle.encoding.specs.Limits.{action_limit};

/// An event: each action has two.
#[derive(Clone, Copy)]
pub(crate) struct Event {
    pub number: u32,
    ghost few: { number ≤ 2 * action_limit },
}

#[derive(Clone, Copy)]
pub(crate) struct Action {
    pub number: u32,
    ghost few: { number ≤ action_limit },
    ghost some: { 1 ≤ number },
}

impl Action {
    pub(crate) fn start(self) -> Event
        ensures { result.number ≡ 2 * self.number - 1 }
    {
        Event {
            number: 2 * self.number - 1,
        }
    }

    pub(crate) fn end(self) -> Event
        ensures { result.number ≡ 2 * self.number }
    {
        Event {
            number: 2 * self.number,
        }
    }
}
