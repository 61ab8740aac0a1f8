//! The header of a text: what it says, and its bytes.

ghost use Rattle.std.specs.Prelude.{◌≡◌, ◌+◌, ◌^◌, ◌<◌, ◌≤◌, true, max, length, fold, unsigned_abs};
ghost use Rattle.store.specs.Clauses.{greatest_variable};
ghost use Rattle.store.specs.Rendering.{header_of, largest_of, width, header_length};

use super::columns::{WIDTH, write_count};
use super::lawful::Lawful;

/// The header's length: `p cnf`, two columns and a line feed.
pub const HEADER: usize = 2 * WIDTH + 6;

/// The largest variable of a text's clauses, 0 where there is none, and how many clauses there are. Both fit their columns.
#[derive(Clone, Copy)]
pub struct Header {
    pub largest: usize,
    pub count: usize,
    ghost named: { largest ≤ greatest_variable },
    ghost few: { count < 10 ^ width },
}

/// The largest variable of a clause, 0 where it has none.
fn largest_of(clause: &[i32]) -> usize
    ensures { result ≡ fold (λ largest z. max largest (unsigned_abs z)) 0 clause.now }
{
    clause
        .iter()
        .fold(0, |largest, z| largest.max(z.unsigned_abs() as usize))
}

impl Header {
    /// The header with one clause more.
    #[tactic(auto, using(crate::proofs::Texts::largest_fold, crate::proofs::Texts::largest_low))]
    pub fn joined(self, clause: Lawful) -> Header
        requires { self.count + 1 < 10 ^ width }
        ensures largest { result.largest ≡ max self.largest (largest_of clause.entry.literals.now) }
        ensures count { result.count ≡ self.count + 1 }
    {
        Header {
            largest: self.largest.max(largest_of(clause.literals)),
            count: self.count + 1,
        }
    }

    /// Writes the header's bytes.
    pub fn write(self, bytes: &mut [u8])
        requires { length bytes.old ≡ header_length }
        ensures { bytes.new ≡ header_of width self.largest self.count }
    {
        bytes[0..5].copy_from_slice(b"p cnf");
        write_count(&mut bytes[5..5 + WIDTH], self.largest);
        write_count(&mut bytes[5 + WIDTH..5 + 2 * WIDTH], self.count);
        bytes[5 + 2 * WIDTH] = b'\n';
    }
}
