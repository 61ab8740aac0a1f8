//! The lines of a table text, read one by one: a tag, numbers in columns, a line feed. The hints on inlining, here and in `tags.rt`, spare a
//! tenth of the instructions that reading takes; fewer of them spare nothing.

ghost use Rattle.std.specs.Prelude.{◌≡◌, not, MatchResult};
ghost use Rattle.table.specs.Roles.{actionless, number_of};
ghost use Rattle.text.specs.Documents.{rank_of, steps_from};
ghost use Rattle.text.specs.Numbers.{Number};
ghost use Rattle.text.specs.Reading.{End, LineAt, NoteRest, Read, Refused, Row, RowOf};
ghost use Rattle.text.specs.Tags.{TagAt, rank_in};
ghost use Rattle.text.specs.Texts.{Any};

use crate::cursor::{Malformed, Reader};
use crate::fields::field;
use crate::tags::{Tag, leading_tag};
use table::Role;

/// A line of the document, before the closing one. The action of a note whose role takes none is 0, as the draft's call takes it.
#[derive(Clone, Copy)]
pub enum Line {
    Sizes {
        facts: u16,
        actions: u16,
        steps: u16,
    },
    Note {
        role: Role,
        action: u16,
        fact: u16,
    },
}

impl Line {
    // The role that the lines after this one start from: no role before it may follow.
    pub(crate) fn role(self) -> Role
        ensures { number_of result ≡ rank_of self }
    {
        match self {
            Line::Sizes { .. } => Role::Initial,
            Line::Note { role, .. } => role,
        }
    }

    // The number of steps that this line gives, or the one given before.
    pub(crate) fn steps(self, before: u16) -> u16
        ensures { result ≡ steps_from before self }
    {
        match self {
            Line::Sizes { steps, .. } => steps,
            Line::Note { .. } => before,
        }
    }
}

// Whether the notes of a role name an action.
fn names_action(role: Role) -> bool
    ensures { result ≡ not (actionless role) }
{
    !matches!(role, Role::Initial | Role::Goal)
}

impl<'a> Reader<'a> {
    /// Nothing is read yet.
    pub(crate) fn new(text: &'a [u8]) -> Reader<'a>
        ensures left { result.left.now ≡ text.now }
        ensures at { result.at ≡ 0 }
    {
        Reader { left: text, at: 0 }
    }

    // Passes over the line feed.
    fn end(&mut self) -> Result<(), Malformed>
        ensures { MatchResult result
            (λ _. Read (End tt) self.old self.new)
            (λ e. Refused (Any End) self.old e.at) }
    {
        let [b'\n', rest @ ..] = self.left else {
            return Err(Malformed { at: self.at });
        };
        self.left = rest;
        self.at += 1;
        Ok(())
    }

    // Reads a number: four bytes, and the rest is left.
    // This and `tag` each take the line apart by a slice pattern, of four bytes and of two: a shared reader would hide how many.
    fn number(&mut self) -> Result<u16, Malformed>
        ensures { MatchResult result
            (λ n. Read (Number n) self.old self.new)
            (λ e. Refused (Any Number) self.old e.at) }
    {
        let n = field(self.left).map_err(|k| Malformed { at: self.at + k })?;
        if let [_, _, _, _, rest @ ..] = self.left {
            self.left = rest;
            self.at += 4;
        }
        Ok(n)
    }

    // Reads the tag of a line that may stand after one of this role: two bytes, and the rest is left.
    // The role is a parameter and no field: what may follow is no part of what is left to read.
    #[inline(always)]
    fn tag(&mut self, last: Option<Role>) -> Result<Tag, Malformed>
        ensures { MatchResult result
            (λ t. Read (TagAt (rank_in last) t) self.old self.new)
            (λ e. Refused (Any (TagAt (rank_in last))) self.old e.at) }
    {
        let tag = leading_tag(self.left, last).map_err(|k| Malformed { at: self.at + k })?;
        if let [_, _, rest @ ..] = self.left {
            self.left = rest;
            self.at += 2;
        }
        Ok(tag)
    }

    // Reads numbers and the line's end.
    #[inline(always)]
    fn numbers<const N: usize>(&mut self) -> Result<[u16; N], Malformed>
        ensures { MatchResult result
            (λ ns. Read (Row ns) self.old self.new)
            (λ e. Refused (Any (RowOf N)) self.old e.at) }
    {
        let mut numbers = [0; N];
        for number in &mut numbers {
            *number = self.number()?;
        }
        self.end()?;
        Ok(numbers)
    }

    // Reads the action and the fact of a note, and the line's end.
    #[inline(always)]
    fn note(&mut self, role: Role) -> Result<(u16, u16), Malformed>
        ensures { MatchResult result
            (λ v. Read (NoteRest (actionless role) v) self.old self.new)
            (λ e. Refused (Any (NoteRest (actionless role))) self.old e.at) }
    {
        if names_action(role) {
            let [action, fact] = self.numbers::<2>()?;
            Ok((action, fact))
        } else {
            let [fact] = self.numbers::<1>()?;
            Ok((0, fact))
        }
    }

    /// Reads a line that may stand after one of this role; none, if it closes the text.
    #[inline(always)]
    pub(crate) fn line(&mut self, last: Option<Role>) -> Result<Option<Line>, Malformed>
        ensures { MatchResult result
            (λ o. Read (LineAt (rank_in last) o) self.old self.new)
            (λ e. Refused (Any (LineAt (rank_in last))) self.old e.at) }
    {
        match self.tag(last)? {
            Tag::Sizes => {
                let [facts, actions, steps] = self.numbers::<3>()?;
                Ok(Some(Line::Sizes {
                    facts,
                    actions,
                    steps,
                }))
            }
            Tag::Note(role) => {
                let (action, fact) = self.note(role)?;
                Ok(Some(Line::Note { role, action, fact }))
            }
            Tag::Close => {
                self.end()?;
                Ok(None)
            }
        }
    }
}
