//! The text store: clauses in lent bytes, as a text in the DIMACS CNF form.

ghost use Rattle.std.specs.Prelude.{◌≡◌, ◌+◌, ◌-◌, ◌*◌, ◌≤◌, true, min, cond, [], ◌∷◌, length, take, nat_lt};
ghost use Rattle.store.specs.Clauses.{cost, Joined};
ghost use Rattle.store.specs.Growth.{Grown, grown-growth, over};
ghost use Rattle.store.specs.Rendering.{width, header_length, longest_text, largest_in, shown_in, room_in, text_prices, text_priced};
ghost use Rattle.store.specs.ReadBack.{clauses_of};
ghost use Rattle.store.specs.Rewriting.{rewritten};

use super::clauses::{ClauseStore, PutFault};
use super::columns::{LINE_END, WIDTH, write_line};
use super::header::{HEADER, Header};
use super::lawful::Lawful;

/// How many of the lent bytes count: those beyond are neither used nor free.
pub const LONGEST_TEXT: usize = 9_999_999;

/// The first `used` of the lent bytes are the text: the header, true at any time, and a line for each clause. The others are not
/// the store's to change. Where the header has no room, nothing is used. It is lent memory and a used length, as no heap is used here.
/// No model stands for it as one value: whose memory it is stays in every contract.
#[derive(Drop)]
pub struct TextStore<'a> {
    bytes: &'a mut [u8],
    used: usize,
    header: Header,
    ghost within: { used ≤ min (length bytes.now) longest_text },
    ghost shown: { take used bytes.now ≡ shown_in (length bytes.now) (clauses_of (take used bytes.now)) },
    ghost counted: { header.count ≡ length (clauses_of (take used bytes.now)) },
    ghost greatest: { header.largest ≡ largest_in (clauses_of (take used bytes.now)) },
}

/// Writes the clause's line at `start`, and the header anew. The other bytes stay.
#[tactic(auto, using(crate::proofs::Lines::line_and_header))]
fn write_clause(bytes: &mut [u8], start: usize, clause: Lawful, header: Header)
    requires behind { header_length ≤ start }
    requires room { start + (width * length clause.literals.now + 3) ≤ length bytes.old }
    ensures { bytes.new ≡ rewritten bytes.old start clause.entry.literals.now header.largest header.count }
{
    let end = start + WIDTH * clause.literals.len() + LINE_END;
    write_line(&mut bytes[start..end], clause);
    header.write(&mut bytes[..HEADER]);
}

impl<'a> TextStore<'a> {
    /// An empty store over the bytes, whatever they are. The header is written where it has room; the bytes after it are free.
    pub fn new(bytes: &'a mut [u8]) -> TextStore<'a>
        ensures lent { result.bytes.ghost_name ≡ bytes.entry.ghost_name }
        ensures used { result.used ≡ cond (nat_lt (length bytes.old) header_length) 0 header_length }
        ensures memory { result.bytes.now ≡ over (shown_in (length bytes.old) []) bytes.old }
        ensures empty { clauses_of (take result.used result.bytes.now) ≡ [] }
        ensures free { room_in (length result.bytes.now) result.used ≡ min (length bytes.old) longest_text - header_length }
    {
        let header = Header {
            largest: 0,
            count: 0,
        };
        if bytes.len() < HEADER {
            return TextStore {
                bytes,
                used: 0,
                header,
            };
        }
        header.write(&mut bytes[..HEADER]);
        TextStore {
            bytes,
            used: HEADER,
            header,
        }
    }

    /// The clause joins the end, and the header is written anew.
    fn join(&mut self, clause: Lawful)
        requires { cost text_prices (length clause.literals.now) ≤ room_in (length self.old.bytes.now) self.old.used }
        ensures joins { Joined (cost text_prices (length clause.entry.literals.now))
            (clauses_of (take self.old.used self.old.bytes.now)) (clauses_of (take self.new.used self.new.bytes.now))
            (room_in (length self.old.bytes.now) self.old.used) (room_in (length self.new.bytes.now) self.new.used) clause.entry.literals.now }
        ensures grows { Grown (λ s. s.bytes.ghost_name) (λ s. s.bytes.now) (λ s. s.used) self.old self.new }
    {
        let header = self.header.joined(clause);
        write_clause(self.bytes, self.used, clause, header);
        self.used += WIDTH * clause.literals.len() + LINE_END;
        self.header = header;
    }

    /// The text: the header and a line for each clause.
    pub fn text(&self) -> &[u8]
        ensures { result.now ≡ shown_in (length self.now.bytes.now) (clauses_of (take self.now.used self.now.bytes.now)) }
    {
        let bytes = &*self.bytes;
        &bytes[..self.used]
    }
}

impl ClauseStore for TextStore<'_> {
    const PRICE_1: usize = 10;

    const PRICE_2: usize = 17;

    const PRICE_3: usize = 24;

    const PRICE_4: usize = 31;

    ghost held = { λ s. clauses_of (take s.used s.bytes.now) };

    ghost units = { λ s. room_in (length s.bytes.now) s.used };

    ghost prices = { text_prices };

    ghost priced = { text_priced };

    ghost grew = { Grown (λ s. s.bytes.ghost_name) (λ s. s.bytes.now) (λ s. s.used) };

    ghost growth = { grown-growth (λ s. s.bytes.ghost_name) (λ s. s.bytes.now) (λ s. s.used) };

    fn price_list() -> [usize; 4]
        ensures { result ≡ text_prices.one ∷ text_prices.two ∷ text_prices.three ∷ text_prices.four ∷ [] }
    {
        [Self::PRICE_1, Self::PRICE_2, Self::PRICE_3, Self::PRICE_4]
    }

    // Each kind makes both tests before it joins the clause: written once in the trait, they would call a function that asks something
    // of its caller, and none that is open may.
    fn put(&mut self, clause: &[i32]) -> Result<(), PutFault> {
        let clause = Lawful::new(clause).ok_or(PutFault::ClauseOutOfLimits)?;
        let price = Self::price(clause.literals.len());
        if self.free() < price {
            return Err(PutFault::PriceExceedsFree);
        }
        self.join(clause);
        Ok(())
    }

    fn count(&self) -> usize {
        self.header.count
    }

    fn free(&self) -> usize {
        if self.bytes.len() < HEADER {
            return 0;
        }
        self.bytes.len().min(LONGEST_TEXT) - self.used
    }
}
