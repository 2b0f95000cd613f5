// Fields of a line: bytes up to a space or to the end of the line, and what they say.
ghost use Rattle.std.specs.Prelude.{◌≡◌, ◌≢◌, ℕ, ◌+◌, ◌^◌, ◌<◌, decimal, IfNone, IfSome};
ghost use Rattle.std.specs.Str.{bytes_eq};
ghost use Rattle.tune_undo.specs.Inside.ItemReading.{IsReadAs, bytes_after, field_at, number_read};
ghost use Rattle.tune_undo.specs.Inside.ItemReading.{number_read_at};
ghost use Rattle.tune_undo.specs.Inside.ItemReading.{kind_read, length_of, after_of_word, mark_of};

use crate::old_entries::{After, EntryKind, Mark};
use crate::text_sums::sum_of;
use itoa::Buffer;
use memchr::memchr;
use std::str::from_utf8;

// What follows these bytes, where others begin with them.
pub(crate) fn after<'a>(bytes: &'a [u8], front: &[u8]) -> Option<&'a [u8]>
    ensures { IsReadAs (λ rest. rest.now) result (bytes_after front.now bytes.now) }
{
    if bytes.starts_with(front) {
        Some(&bytes[front.len()..])
    } else {
        None
    }
}

// The bytes before the first of this one, and those after it.
pub(crate) fn field(bytes: &[u8], end: u8) -> Option<(&[u8], &[u8])>
    ensures { IsReadAs (λ r. (r.0.now, r.1.now)) result (field_at end bytes.now) }
{
    let len = memchr(end, bytes)?;
    Some((&bytes[..len], &bytes[len + 1..]))
}

// The number of 32 bits that these digits are, in decimal without leading zeros.
pub(crate) fn number_of(word: &[u8]) -> Option<u32>
    ensures { result ≡ number_read word.now }
{
    let number = parsed(word)?;
    if is_decimal(number, word) {
        Some(number)
    } else {
        None
    }
}

fn parsed(word: &[u8]) -> Option<u32>
    ensures fits { IfSome result (λ n. n < 2 ^ 32) }
    ensures value { (n : ℕ) → n < 2 ^ 32 → word.now ≡ decimal n → result ≡ Some n }
{
    match from_utf8(word) {
        Ok(text) => text.parse::<u32>().ok(),
        Err(_) => None,
    }
}

fn is_decimal(number: u32, word: &[u8]) -> bool
    ensures { result ≡ bytes_eq (decimal number) word.now }
{
    let mut buffer = Buffer::new();
    buffer.format(number).as_bytes() == word
}

// The number before the first of these bytes, and what follows it.
pub(crate) fn number(bytes: &[u8], end: u8) -> Option<(u32, &[u8])>
    ensures { IsReadAs (λ r. (r.0, r.1.now)) result (number_read_at end bytes.now) }
{
    let (word, rest) = field(bytes, end)?;
    let number = number_of(word)?;
    Some((number, rest))
}

// How long a text is, or that there is none.
pub(crate) fn length_of(word: &[u8]) -> Option<Option<u32>>
    ensures { result ≡ length_of word.now }
{
    if word == b"none".as_slice() {
        return Some(None);
    }
    let len = number_of(word)?;
    Some(Some(len))
}

// What a tune is after a change.
pub(crate) fn after_of(word: &[u8]) -> Option<After>
    ensures { result ≡ after_of_word word.now }
{
    if word.len() == 64 {
        let sum = sum_of(word)?;
        return Some(After::Text(sum));
    }
    if word == b"none".as_slice() {
        return Some(After::Nothing);
    }
    let revision = number_of(after(word, b"revision ")?)?;
    Some(After::Revision(revision))
}

// The kind of an entry.
pub(crate) fn kind_of(word: &[u8]) -> Option<EntryKind>
    ensures { result ≡ kind_read word.now }
{
    if word == b"delete".as_slice() {
        Some(EntryKind::Delete)
    } else if word == b"replace".as_slice() {
        Some(EntryKind::Replace)
    } else if word == b"put".as_slice() {
        Some(EntryKind::Put)
    } else if word == b"cut".as_slice() {
        Some(EntryKind::Cut)
    } else if word == b"move".as_slice() {
        Some(EntryKind::Move)
    } else if word == b"drop".as_slice() {
        Some(EntryKind::Drop)
    } else if word == b"add".as_slice() {
        Some(EntryKind::Add)
    } else if word == b"add-more".as_slice() {
        Some(EntryKind::AddMore)
    } else if word == b"load".as_slice() {
        Some(EntryKind::Load)
    } else if word == b"kept".as_slice() {
        Some(EntryKind::Kept)
    } else {
        None
    }
}

// What a mark says. One of before names no greatest number: it is read as 0.
pub(crate) fn mark_of(word: &[u8]) -> Option<Mark>
    ensures { result ≡ mark_of word.now }
{
    if word == b"not done".as_slice() {
        return Some(Mark::NotDone);
    }
    if word == b"undone".as_slice() {
        return Some(Mark::Undone);
    }
    if word == b"undoing".as_slice() {
        return Some(Mark::Undoing(0));
    }
    let greatest = number_of(after(word, b"undoing ")?)?;
    Some(Mark::Undoing(greatest))
}
