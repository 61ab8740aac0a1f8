//! How many clauses of each length a template has, and what they cost.

ghost use Rattle.std.specs.Prelude.{◌≡◌, ◌+◌, ◌*◌, ◌≤◌, map, length};
ghost use Rattle.encoder.specs.Puts.{in_step};
ghost use Rattle.encoding.specs.Counts.{of_length};
ghost use Rattle.formula.specs.Listings.{lits};
ghost use Rattle.formula.specs.Templates.{said};
ghost use Rattle.formula.specs.declared.template.Family.TheVariants.{Start, Goal};

use formula::{Clause, Family, Steps, Template};
use store::ClauseStore;

/// The clauses of one literal, in start and goal together, and those of two and of three in each step. There are no others.
#[derive(Clone, Copy)]
pub(crate) struct Counts {
    ones: usize,
    twos: usize,
    threes: usize,
    ghost few: { (ones ≤ 96) × (twos ≤ 4768) × (threes ≤ 4768) },
}

impl Counts {
    pub(crate) fn of(template: &Template) -> Counts
        ensures ones { result.ones ≡ of_length 1 (said template.now Start) + of_length 1 (said template.now Goal) }
        ensures twos { result.twos ≡ in_step template.now 2 }
        ensures threes { result.threes ≡ in_step template.now 3 }
    {
        let ones = of_length(template.family(Family::Start), 1)
            + of_length(template.family(Family::Goal), 1);
        Counts {
            ones,
            twos: in_step(template, 2),
            threes: in_step(template, 3),
        }
    }

    /// How many clauses n steps have.
    pub(crate) fn clauses(&self, steps: Steps) -> usize
        ensures { result ≡ self.now.ones + steps.count * self.now.twos + steps.count * self.now.threes }
    {
        let n = steps.count as usize;
        self.ones + n * self.twos + n * self.threes
    }

    /// What the clauses of n steps cost in a store of this kind.
    pub(crate) fn price<S: ClauseStore>(&self, steps: Steps) -> usize
        ensures { result ≡ self.now.ones * S.ClauseStore.prices.one + steps.count * self.now.twos * S.ClauseStore.prices.two + steps.count * self.now.threes * S.ClauseStore.prices.three }
    {
        let n = steps.count as usize;
        let [one, two, three, _] = S::price_list();
        self.ones * one + n * self.twos * two + n * self.threes * three
    }
}

// How many clauses of k literals a step has: a loop over a list of the three families is no shorter.
fn in_step(template: &Template, k: usize) -> usize
    ensures count { result ≡ in_step template.now k }
    ensures few { result ≤ 4768 }
{
    of_length(template.family(Family::Agenda), k)
        + of_length(template.family(Family::Kept), k)
        + of_length(template.family(Family::Truth), k)
}

// How many of the clauses have k literals.
fn of_length(clauses: &[Clause], k: usize) -> usize
    ensures count { result ≡ of_length k (map lits clauses.now) }
    ensures few { result ≤ length clauses.now }
{
    clauses.iter().filter(|clause| clause.len() == k).count()
}
