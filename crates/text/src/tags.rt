//! The two letters with which a line begins, and the order of the lines.

ghost use Rattle.std.specs.Prelude.{◌≡◌, ◌≤◌, IfErr, length};
ghost use Rattle.text.specs.Tags.{allows, opens, rank_in, tag_at, tag_of};

use table::Role;

#[derive(Clone, Copy)]
pub(crate) enum Tag {
    Sizes,
    Note(Role),
    Close,
}

// The tag of two letters.
#[inline(always)]
fn tag_of(a: u8, b: u8) -> Option<Tag>
    ensures { result ≡ tag_of a b }
{
    match (a as char, b as char) {
        ('S', 'Z') => Some(Tag::Sizes),
        ('I', 'N') => Some(Tag::Note(Role::Initial)),
        ('G', 'O') => Some(Tag::Note(Role::Goal)),
        ('S', 'N') => Some(Tag::Note(Role::StartNeeds)),
        ('S', 'A') => Some(Tag::Note(Role::StartAdds)),
        ('S', 'D') => Some(Tag::Note(Role::StartDeletes)),
        ('E', 'N') => Some(Tag::Note(Role::EndNeeds)),
        ('E', 'A') => Some(Tag::Note(Role::EndAdds)),
        ('E', 'D') => Some(Tag::Note(Role::EndDeletes)),
        ('H', 'D') => Some(Tag::Note(Role::Held)),
        ('Z', 'Z') => Some(Tag::Close),
        _ => None,
    }
}

// Some tag that may stand after a line of this role begins with `a`.
#[inline(always)]
fn opens_line(a: u8, last: Option<Role>) -> bool
    ensures { result ≡ opens a (rank_in last) }
{
    let Some(role) = last else {
        return a == b'S';
    };
    match a as char {
        'S' => role <= Role::StartDeletes,
        'I' => role == Role::Initial,
        'G' => role <= Role::Goal,
        'E' => role <= Role::EndDeletes,
        'H' | 'Z' => true,
        _ => false,
    }
}

impl Tag {
    // The sizes come first, and then the notes, by their roles.
    #[inline(always)]
    fn allowed(self, last: Option<Role>) -> bool
        ensures { result ≡ allows (rank_in last) self }
    {
        match self {
            Tag::Sizes => last.is_none(),
            Tag::Note(role) => last.is_some_and(|last| last <= role),
            Tag::Close => last.is_some(),
        }
    }
}

/// The tag with which `s` begins, if it may stand there, or the place of the first byte with which none continues.
/// The error is a bare place within `s`; `Malformed` has the place within the text.
#[inline(always)]
pub(crate) fn leading_tag(s: &[u8], last: Option<Role>) -> Result<Tag, usize>
    ensures tag { result ≡ tag_at (rank_in last) s.now }
    ensures place { IfErr result (λ k. k ≤ length s.now) }
{
    let [a, ..] = s else {
        return Err(0);
    };
    if !opens_line(*a, last) {
        return Err(0);
    }
    let [_, b, ..] = s else {
        return Err(1);
    };
    tag_of(*a, *b).filter(|tag| tag.allowed(last)).ok_or(1)
}
