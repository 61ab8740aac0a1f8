//! The number store: clauses in lent signed numbers, each as its literals and a 0.

ghost use Rattle.std.specs.Prelude.{◌≡◌, true, ◌+◌, ◌-◌, ◌≤◌, [], ◌∷◌, ◌++◌, length, take, drop};
ghost use Rattle.store.specs.Clauses.{cost, Joined};
ghost use Rattle.store.specs.Growth.{Grown, grown-growth};
ghost use Rattle.store.specs.Numbers.{ended, numbers_of, clauses_in, number_prices, number_priced};

use super::clauses::{ClauseStore, PutFault};
use super::lawful::Lawful;

/// The first `used` of the lent numbers are the clauses. The others are not the store's to change. It is lent memory
/// and a used length, as no heap is used here. No model stands for it as one value: whose memory it is stays in every contract.
#[derive(Drop)]
pub struct NumberStore<'a> {
    numbers: &'a mut [i32],
    used: usize,
    count: usize,
    ghost within: { used ≤ length numbers.now },
    ghost laid: { take used numbers.now ≡ numbers_of (clauses_in (take used numbers.now)) },
    ghost counted: { count ≡ length (clauses_in (take used numbers.now)) },
}

/// Writes the clause's literals at `start`, and a 0. The other numbers stay.
#[tactic(auto, using(crate::proofs::Runs::clause_written))]
fn write_clause(numbers: &mut [i32], start: usize, clause: &[i32])
    requires { start + (length clause.now + 1) ≤ length numbers.old }
    ensures { numbers.new ≡ take start numbers.old ++ (ended clause.now ++ drop (start + (length clause.now + 1)) numbers.old) }
{
    let end = start + clause.len();
    numbers[start..end].copy_from_slice(clause);
    numbers[end] = 0;
}

impl<'a> NumberStore<'a> {
    /// An empty store over the numbers, whatever they are. Each of them is a free unit.
    pub fn new(numbers: &'a mut [i32]) -> NumberStore<'a>
        ensures lent { result.numbers.ghost_name ≡ numbers.entry.ghost_name }
        ensures used { result.used ≡ 0 }
        ensures memory { result.numbers.now ≡ numbers.old }
        ensures empty { clauses_in (take result.used result.numbers.now) ≡ [] }
    {
        NumberStore {
            numbers,
            used: 0,
            count: 0,
        }
    }

    /// The clause joins the end.
    fn join(&mut self, clause: Lawful)
        requires { cost number_prices (length clause.literals.now) ≤ length self.old.numbers.now - self.old.used }
        ensures joins { Joined (cost number_prices (length clause.entry.literals.now))
            (clauses_in (take self.old.used self.old.numbers.now)) (clauses_in (take self.new.used self.new.numbers.now))
            (length self.old.numbers.now - self.old.used) (length self.new.numbers.now - self.new.used) clause.entry.literals.now }
        ensures grows { Grown (λ s. s.numbers.ghost_name) (λ s. s.numbers.now) (λ s. s.used) self.old self.new }
    {
        write_clause(self.numbers, self.used, clause.literals);
        self.used += clause.literals.len() + 1;
        self.count += 1;
    }

    /// The used numbers: each clause as its literals and a 0.
    pub fn numbers(&self) -> &[i32]
        ensures { result.now ≡ numbers_of (clauses_in (take self.now.used self.now.numbers.now)) }
    {
        let numbers = &*self.numbers;
        &numbers[..self.used]
    }
}

impl ClauseStore for NumberStore<'_> {
    const PRICE_1: usize = 2;

    const PRICE_2: usize = 3;

    const PRICE_3: usize = 4;

    const PRICE_4: usize = 5;

    ghost held = { λ s. clauses_in (take s.used s.numbers.now) };

    ghost units = { λ s. length s.numbers.now - s.used };

    ghost prices = { number_prices };

    ghost priced = { number_priced };

    ghost grew = { Grown (λ s. s.numbers.ghost_name) (λ s. s.numbers.now) (λ s. s.used) };

    ghost growth = { grown-growth (λ s. s.numbers.ghost_name) (λ s. s.numbers.now) (λ s. s.used) };

    fn price_list() -> [usize; 4]
        ensures { result ≡ number_prices.one ∷ number_prices.two ∷ number_prices.three ∷ number_prices.four ∷ [] }
    {
        [Self::PRICE_1, Self::PRICE_2, Self::PRICE_3, Self::PRICE_4]
    }

    // Each kind makes both tests before it joins the clause: written once in the trait, they would call a function that asks something
    // of its caller, and none that is open may.
    fn put(&mut self, clause: &[i32]) -> Result<(), PutFault> {
        let clause = Lawful::new(clause).ok_or(PutFault::ClauseOutOfLimits)?;
        let price = Self::price(clause.literals.len());
        if self.free() < price {
            return Err(PutFault::PriceExceedsFree);
        }
        self.join(clause);
        Ok(())
    }

    fn count(&self) -> usize {
        self.count
    }

    fn free(&self) -> usize {
        self.numbers.len() - self.used
    }
}
