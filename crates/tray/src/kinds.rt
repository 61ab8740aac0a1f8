//! Places in the trays of the planner: in a plan, by step and event, and in an answer, by signed number. Here a contract names the
//! equality of numbers itself.

ghost use Rattle.std.specs.Prelude.{◌≡◌, ◌&&◌, ◌==◌};
ghost use Rattle.std.specs.Ordering.{int_eq};
ghost use Rattle.tray.specs.Places.{first_place};
ghost use Rattle.tray.specs.Trays.{items};

use super::Tray;

impl<'a> Tray<'a, (u32, u32)> {
    /// The place of the first pair of this step and this event.
    pub fn place_of_event(&self, step: u32, event: u32) -> Option<usize>
        ensures { result ≡ first_place (λ pair. pair.0 == step && pair.1 == event) (items self.now) }
    {
        self.find(&(step, event))
    }
}

impl<'a> Tray<'a, i32> {
    /// The place of the first element that is this number.
    pub fn place_of_literal(&self, literal: i32) -> Option<usize>
        ensures { result ≡ first_place (λ number. int_eq number literal) (items self.now) }
    {
        self.find(&literal)
    }
}
