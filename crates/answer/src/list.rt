//! A list: signed numbers, each of which names a variable by v or minus v.

ghost use Rattle.std.specs.Prelude.{◌≡◌, true};
ghost use Rattle.answer.specs.Kinds.{list_tells, list-outside, first_sign, FirstNames, Decided};
ghost use Rattle.answer.specs.Variables.{is_variable};

use super::{AnswerSource, is_variable};

/// The sign of the first entry that names a variable decides. Entries that are no variable's, as 0 or `i32::MIN`, name none.
#[derive(Clone, Copy)]
pub struct ListSource<'a> {
    pub entries: &'a [i32],
}

impl<'a> ListSource<'a> {
    /// The index of the first entry that is the variable or minus the variable. At `i32::MIN`, too, `unsigned_abs` is the magnitude.
    fn first_naming(&self, variable: u32) -> Option<usize>
        ensures { FirstNames variable self.now.entries.now result }
    {
        // A rule of the project: the entries are looped over with their places, and left at the first that is v or minus v.
        for (i, entry) in self.entries.iter().enumerate() {
            if entry.unsigned_abs() == variable {
                return Some(i);
            }
        }
        None
    }

    /// What the sign of that entry tells.
    fn first_sign(&self, variable: u32) -> Option<bool>
        ensures sign { result ≡ first_sign variable self.now.entries.now }
        ensures decided { is_variable variable ≡ true → Decided variable self.now.entries.now result }
    {
        let i = self.first_naming(variable)?;
        Some(self.entries[i] > 0)
    }
}

impl<'a> AnswerSource for ListSource<'a> {
    ghost tells = { λ s v. list_tells s.entries.now v };

    ghost outside = { λ s v h. list-outside s.entries.now v h };

    fn value(&self, variable: u32) -> Option<bool>
        ensures tells { result ≡ list_tells self.now.entries.now variable }
        ensures decided { is_variable variable ≡ true → Decided variable self.now.entries.now result }
    {
        if !is_variable(variable) {
            return None;
        }
        self.first_sign(variable)
    }
}
