// The lines by which the parts of an entry begin.
ghost use Rattle.std.specs.Prelude.{◌≡◌};
ghost use Rattle.tune_undo.specs.Inside.ItemReading.{IsReadAs};
ghost use Rattle.tune_undo.specs.Inside.EntryLines.{tune_line_at, set_line_at, number_line_at};
ghost use Rattle.tune_undo.specs.Inside.EntryLines.{first_line_at, mark_line_at, old_line_at};
ghost use Rattle.tune_undo.specs.Inside.EntryLines.{old_len_of, first_of_three};

use crate::fields::{after, after_of, field, kind_of, length_of, mark_of, number, number_of};
use crate::old_entries::{After, EntryKind, Mark};

// What the line of a tune says.
#[derive(Clone, Copy)]
pub(crate) struct TuneLine {
    pub(crate) number: u32,
    pub(crate) was: Option<u32>,
    pub(crate) is: After,
}

// What the first line of an entry says.
#[derive(Clone, Copy)]
pub(crate) struct FirstLine {
    pub(crate) kind: EntryKind,
    pub(crate) parts: u32,
    pub(crate) len: u32,
}

// The line of a tune, and what follows it.
pub(crate) fn tune_line(bytes: &[u8]) -> Option<(TuneLine, &[u8])>
    ensures { IsReadAs (λ r. (r.0, r.1.now)) result (tune_line_at bytes.now) }
{
    let bytes = after(bytes, b"% tune ")?;
    let (number, bytes) = number(bytes, b' ')?;
    let bytes = after(bytes, b"was ")?;
    let (word, bytes) = field(bytes, b' ')?;
    let was = length_of(word)?;
    let bytes = after(bytes, b"is ")?;
    let (word, rest) = field(bytes, b'\n')?;
    let is = after_of(word)?;
    Some((TuneLine { number, was, is }, rest))
}

// The `X:` line of a tune: its number, and what follows it.
pub(crate) fn number_line(bytes: &[u8]) -> Option<(u32, &[u8])>
    ensures { IsReadAs (λ r. (r.0, r.1.now)) result (number_line_at bytes.now) }
{
    let bytes = after(bytes, b"X:")?;
    number(bytes, b'\n')
}

// The line of a set list with this word: its name, its numbers as they are written, and what
// follows.
pub(crate) fn set_line<'a>(bytes: &'a [u8], word: &[u8]) -> Option<(&'a [u8], &'a [u8], &'a [u8])>
    ensures { IsReadAs (λ r. (r.0.now, r.1.now, r.2.now)) result
        (set_line_at word.now bytes.now) }
{
    let bytes = after(bytes, b"% set ")?;
    let (name, bytes) = field(bytes, b' ')?;
    let bytes = after(bytes, word)?;
    let (numbers, rest) = field(bytes, b'\n')?;
    Some((name, numbers, rest))
}

// The first line of an entry, and what follows it.
pub(crate) fn first_line(bytes: &[u8]) -> Option<(FirstLine, &[u8])>
    ensures { IsReadAs (λ r. (r.0, r.1.now)) result (first_line_at bytes.now) }
{
    let bytes = after(bytes, b"% tunes-book ")?;
    let (word, bytes) = field(bytes, b' ')?;
    let kind = kind_of(word)?;
    let (parts, bytes) = number(bytes, b' ')?;
    let (len, rest) = number(bytes, b'\n')?;
    Some((FirstLine { kind, parts, len }, rest))
}

// The line of a mark, and what follows it.
pub(crate) fn mark_line(bytes: &[u8]) -> Option<(Mark, &[u8])>
    ensures { IsReadAs (λ r. (r.0, r.1.now)) result (mark_line_at bytes.now) }
{
    let bytes = after(bytes, b"% tunes-book ")?;
    let (word, rest) = field(bytes, b'\n')?;
    let mark = mark_of(word)?;
    Some((mark, rest))
}

// What the first line of an entry of before says.
#[derive(Clone, Copy)]
pub(crate) struct OldLine {
    pub(crate) kind: EntryKind,
    pub(crate) number: u32,
    pub(crate) revision: u32,
    pub(crate) len: u32,
}

// The first line of an entry of before, and what follows it.
pub(crate) fn old_line(bytes: &[u8]) -> Option<(OldLine, &[u8])>
    ensures { IsReadAs (λ r. (r.0, r.1.now)) result (old_line_at bytes.now) }
{
    let bytes = after(bytes, b"% tunes-book ")?;
    let (word, bytes) = field(bytes, b' ')?;
    let kind = kind_of(word)?;
    let (tune, bytes) = number(bytes, b' ')?;
    let (revision, bytes) = number(bytes, b' ')?;
    let (word, rest) = field(bytes, b'\n')?;
    let len = old_len(word)?;
    let line = OldLine {
        kind,
        number: tune,
        revision,
        len,
    };
    Some((line, rest))
}

// A length, alone or before a sum and a length.
fn old_len(word: &[u8]) -> Option<u32>
    ensures { result ≡ old_len_of word.now }
{
    match number_of(word) {
        Some(len) => Some(len),
        None => first_of_three(word),
    }
}

fn first_of_three(word: &[u8]) -> Option<u32>
    ensures { result ≡ first_of_three word.now }
{
    let (len, rest) = number(word, b' ')?;
    let (_, rest) = number(rest, b' ')?;
    let _ = number_of(rest)?;
    Some(len)
}
