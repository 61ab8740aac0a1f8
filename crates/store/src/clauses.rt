//! The clause store by its meaning, and the limits of a clause.

ghost use Rattle.std.specs.Prelude.{◌≡◌, ℕ, List, [], ◌∷◌, length, ℤ};
ghost use Rattle.refusal.specs.declared.causes.Refusal.TheVariants.{ClauseOutOfLimits as OutOfLimits, PriceExceedsFree as ExceedsFree};
ghost use Rattle.store.specs.declared.clauses.PutFault.TheVariants.{ClauseOutOfLimits, PriceExceedsFree};
ghost use Rattle.store.specs.Clauses.{is_literal, all_literals, is_clause, Prices, cost, Priced, Put};
ghost use Rattle.store.specs.Growth.{Growth};

use refusal::{Fault, Refusal};

/// The largest variable that a literal may name. The crate `answer` has the same limit: neither knows the other.
pub const GREATEST_VARIABLE: u32 = 99_999;

/// How many literals a clause may have.
pub const LONGEST_CLAUSE: usize = 4;

/// Why a store refuses a clause. The first is checked before the second.
#[derive(Clone, Copy, PartialEq, Eq, Debug)]
pub enum PutFault {
    /// no literal, more than four, or a number that is no literal
    ClauseOutOfLimits,
    /// the store has fewer free units than the clause's price
    PriceExceedsFree,
}

impl Fault for PutFault {
    ghost means = { λ f. elim f [ ClauseOutOfLimits ↦ OutOfLimits | PriceExceedsFree ↦ ExceedsFree ] };

    fn refusal(&self) -> Refusal {
        match *self {
            PutFault::ClauseOutOfLimits => Refusal::ClauseOutOfLimits,
            PutFault::PriceExceedsFree => Refusal::PriceExceedsFree,
        }
    }
}

/// A clause store. Its meaning is `held`, the clauses that it holds in the order in which they were put, and `units`, its free
/// units. Each kind fixes a price of 1 to 64 units for a clause of one to four literals.
pub trait ClauseStore {
    /// The prices of clauses of one to four literals. Code over every kind reads them by `price_list`, which returns these and is tied
    /// to `prices`. A ghost twin of each constant would do without it: tried, but the check can't tie the two where the kind's type has
    /// a lifetime.
    const PRICE_1: usize;

    const PRICE_2: usize;

    const PRICE_3: usize;

    const PRICE_4: usize;

    ghost held: { Self → List (List ℤ) };

    ghost units: { Self → ℕ };

    ghost prices: { Prices };

    ghost priced: { Priced prices };

    /// The kind's own relation between a store before and after. `put` promises it; code over every kind only composes it.
    ghost grew: { Self → Self → Type 0 };

    ghost growth: { Growth grew };

    /// The four prices.
    fn price_list() -> [usize; 4]
        ensures { result ≡ prices.one ∷ prices.two ∷ prices.three ∷ prices.four ∷ [] };

    /// The price of a clause of `k` literals, and 0 outside 1 to 4.
    fn price(k: usize) -> usize
        ensures { result ≡ cost prices k }
    {
        let [one, two, three, four] = Self::price_list();
        match k {
            1 => one,
            2 => two,
            3 => three,
            4 => four,
            _ => 0,
        }
    }

    /// Puts a clause at the end, for its price. Refused, the store stays as it was.
    fn put(&mut self, clause: &[i32]) -> Result<(), PutFault>
        ensures puts { Put held units prices self.old self.new clause.now result }
        ensures grows { grew self.old self.new };

    /// How many clauses the store holds.
    fn count(&self) -> usize
        ensures { result ≡ length (held self.now) };

    /// The free units.
    fn free(&self) -> usize
        ensures { result ≡ units self.now };
}

/// Whether the number is a variable or its negative.
fn is_literal(z: i32) -> bool
    ensures { result ≡ is_literal z }
{
    (1..=GREATEST_VARIABLE).contains(&z.unsigned_abs())
}

/// Whether each number is a variable or its negative.
fn all_literals(clause: &[i32]) -> bool
    ensures { result ≡ all_literals clause.now }
{
    clause.iter().all(|z| is_literal(*z))
}

/// Whether the clause is within the limits: one to four literals.
pub fn is_clause(clause: &[i32]) -> bool
    ensures { result ≡ is_clause clause.now }
{
    (1..=LONGEST_CLAUSE).contains(&clause.len()) && all_literals(clause)
}
