//! Literals and clauses as values.

ghost use Rattle.std.specs.Prelude.{◌≡◌, length};
ghost use Rattle.formula.specs.Listings.{lits};

/// A variable, by its number, or its denial.
#[derive(Clone, Copy)]
pub enum Literal {
    Is(u32),
    Isnt(u32),
}

/// A clause has one to three literals.
#[derive(Clone, Copy)]
pub enum Clause {
    One(Literal),
    Two(Literal, Literal),
    Three(Literal, Literal, Literal),
}

impl Clause {
    /// How many literals the clause has.
    pub fn len(&self) -> usize
        ensures { result ≡ length (lits self.now) }
    {
        match *self {
            Clause::One(_) => 1,
            Clause::Two(_, _) => 2,
            Clause::Three(_, _, _) => 3,
        }
    }
}
