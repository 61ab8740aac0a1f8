//! What is missing from an answer, for every kind of source.

ghost use Rattle.answer.specs.Missing.{Lowest};

use super::AnswerSource;

/// The lowest variable of 1 to `variables` without a value.
pub fn lowest_missing<S: AnswerSource>(source: &S, variables: u32) -> Option<u32>
    ensures { Lowest (S.AnswerSource.tells source.now) variables result }
{
    // A loop: `find` wants a lemma on which numbers a range gives, and no crate below has it.
    for variable in 1..=variables {
        if source.value(variable).is_none() {
            return Some(variable);
        }
    }
    None
}
