//! The sizes of a table.

ghost use Rattle.std.specs.Prelude.{◌≡◌};
ghost use Rattle.table.specs.Model.{meant};

use super::Table;

impl Table {
    pub fn facts(&self) -> u32
        ensures { result ≡ (meant self.now).facts }
    {
        self.facts
    }

    pub fn actions(&self) -> u32
        ensures { result ≡ (meant self.now).actions }
    {
        self.actions
    }
}
