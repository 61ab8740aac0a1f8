//! What a source is, by its meaning.

ghost use Rattle.std.specs.Prelude.{◌≡◌, ℕ, Bool, false, None, Option};
ghost use Rattle.answer.specs.Variables.{is_variable};

/// Variables are numbered from 1 to this. The crate `store` has the same limit: neither knows the other.
pub const LARGEST_VARIABLE: u32 = 99_999;

/// A source of values for variables.
///
/// Its meaning is `tells`: for each number true, false or none, as a function of the source's own value. `outside` is a proof that it
/// tells none of a number that is no variable; it has no default, so every kind owes it.
///
/// A source that changes its mind is no source. `value` must return what `tells` says of the value behind `&self`, and that value is
/// the same before and after each call, so two calls with one variable have one answer. A cell inside the source is no way round:
/// what a cell holds is no part of the value that `tells` is a function of, and a read of it promises nothing about what comes out,
/// so a `value` that answers from a cell cannot be proved. The same goes for what is read from a file. A cell that only counts the
/// calls does no harm.
pub trait AnswerSource {
    ghost tells: { Self → ℕ → Option Bool };

    ghost outside: { (s : Self) (v : ℕ) → is_variable v ≡ false → tells s v ≡ None };

    /// The value of a variable. Asking changes nothing.
    fn value(&self, variable: u32) -> Option<bool>
        ensures { result ≡ tells self.now variable };
}

/// Whether a number is that of a variable.
pub fn is_variable(number: u32) -> bool
    ensures { result ≡ is_variable number }
{
    (1..=LARGEST_VARIABLE).contains(&number)
}
