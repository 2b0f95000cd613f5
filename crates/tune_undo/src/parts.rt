// The parts of an entry, read.
ghost use Rattle.std.specs.Prelude.{◌≡◌, ◌≢◌, ◌++◌, ◌^◌, ◌<◌, ◌≤◌, ℕ, List, [], length, drop};
ghost use Rattle.std.specs.Prelude.{codes};
ghost use Rattle.std.specs.Prelude.{true};
ghost use Rattle.std.specs.Prelude.{Option, Some, IfOk, IfSome, IfNone};
ghost use Rattle.std.specs.List.{AllByRecursion};
ghost use Rattle.abc_fields.specs.Limits.{longest_tune};
ghost use Rattle.abc_fields.specs.Tunes.{IsTextWithin};
ghost use Rattle.tune_sets.specs.Names.{is_good_name};
ghost use Rattle.tune_undo.specs.OldEntries.{AreNumbers, IsEntryPart};
ghost use Rattle.tune_undo.specs.EntryBytes.{book_tune, numbers_bytes, list_bytes, set_line};
ghost use Rattle.tune_undo.specs.EntryBytes.{part_bytes, parts_bytes};
ghost use Rattle.tune_undo.specs.Inside.ItemReading.{IsReadAs};
ghost use Rattle.tune_undo.specs.Inside.EntryLines.{word_before_space, next_number};
ghost use Rattle.tune_undo.specs.declared.old_entries.After.{After};
ghost use Rattle.tune_undo.specs.declared.old_entries.Part.{Part};
ghost use Rattle.tune_undo.specs.declared.old_entries.Part.TheVariants.{Tune, Set};

use crate::fields::{after, number_of};
use crate::old_entries::Part;
use crate::part_lines::{TuneLine, number_line, set_line, tune_line};
use abc_fields::TuneText;
use memchr::memchr;
use std::alloc::{AllocError, Global};
use tune_sets::{NumberList, SetName};

// How many bytes the text of a tune has at most.
const LONGEST_TUNE: usize = 64_000;

// The text of a tune of this number and this length, after its `X:` line, and what follows it.
pub(crate) fn text_at(
    alloc: Global,
    number: u32,
    len: usize,
    bytes: &[u8],
) -> Result<Option<(TuneText, &[u8])>, AllocError>
    ensures text { IfOk result (λ read. IfSome read (λ r. IsTextWithin longest_tune r.0)) }
    ensures len { IfOk result (λ read. IfSome read (λ r. length r.0 ≡ len)) }
    ensures found { IfOk result (λ read. IfSome read (λ r.
        book_tune number r.0 ++ r.1.now ≡ bytes.now)) }
    ensures none { IfOk result (λ read. IfNone read ((text later : List ℕ)
        → IsTextWithin longest_tune text → length text ≡ len
        → book_tune number text ++ later ≢ bytes.now)) }
{
    let Some((other, rest)) = number_line(bytes) else {
        return Ok(None);
    };
    if other != number {
        return Ok(None);
    }
    if rest.len() < len {
        return Ok(None);
    }
    let (front, later) = rest.split_at(len);
    let mut text = TuneText::shortest(alloc)?;
    if !text.read_stored(front, LONGEST_TUNE)? {
        return Ok(None);
    }
    Ok(Some((text, later)))
}

// The tune at the front of bytes, and what follows it.
fn tune_part(alloc: Global, bytes: &[u8]) -> Result<Option<(Part, &[u8])>, AllocError>
    ensures part { IfOk result (λ read. IfSome read (λ r. IsEntryPart r.0)) }
    ensures found { IfOk result (λ read. IfSome read (λ r.
        part_bytes r.0 ++ r.1.now ≡ bytes.now)) }
    ensures none { IfOk result (λ read. IfNone read ((number : ℕ) (was : Option (List ℕ))
        (is : After) (later : List ℕ) → IsEntryPart (Tune number was is)
        → part_bytes (Tune number was is) ++ later ≢ bytes.now)) }
{
    let Some((line, rest)) = tune_line(bytes) else {
        return Ok(None);
    };
    let TuneLine { number, was, is } = line;
    let Some(len) = was else {
        let was = None;
        return Ok(Some((Part::Tune { number, was, is }, rest)));
    };
    let Some(found) = text_at(alloc, number, len as usize, rest)? else {
        return Ok(None);
    };
    let (text, rest) = found;
    let Some(later) = after(rest, b"\n") else {
        return Ok(None);
    };
    let was = Some(text);
    Ok(Some((Part::Tune { number, was, is }, later)))
}

// A number behind a space, and what follows it, which is nothing or begins with a space.
fn next_number(bytes: &[u8]) -> Option<(u32, &[u8])>
    ensures { IsReadAs (λ r. (r.0, r.1.now)) result (next_number bytes.now) }
{
    let bytes = after(bytes, b" ")?;
    let (word, rest) = word(bytes);
    let number = number_of(word)?;
    Some((number, rest))
}

// The bytes before the first space, and the others.
fn word(bytes: &[u8]) -> (&[u8], &[u8])
    ensures word { result.0.now ≡ word_before_space bytes.now }
    ensures rest { result.1.now ≡ drop (length (word_before_space bytes.now)) bytes.now }
{
    bytes.split_at(word_len(bytes))
}

fn word_len(bytes: &[u8]) -> usize
    ensures len { result ≡ length (word_before_space bytes.now) }
    ensures within { result ≤ length bytes.now }
{
    match memchr(b' ', bytes) {
        Some(len) => len,
        None => bytes.len(),
    }
}

// The numbers of these bytes, each behind a space.
fn numbers(alloc: Global, bytes: &[u8]) -> Result<Option<Vec<u32>>, AllocError>
    ensures narrow { IfOk result (λ read. IfSome read (λ v. AreNumbers v.items)) }
    ensures found { IfOk result (λ read. IfSome read (λ v.
        numbers_bytes v.items ≡ bytes.now)) }
    ensures none { IfOk result (λ read. IfNone read ((numbers : List ℕ) → AreNumbers numbers
        → numbers_bytes numbers ≢ bytes.now)) }
{
    let mut numbers = Vec::new(alloc);
    let mut rest = bytes;
    while !rest.is_empty() {
        let Some((number, later)) = next_number(rest) else {
            return Ok(None);
        };
        numbers.push(number)?;
        rest = later;
    }
    Ok(Some(numbers))
}

// The numbers of a set list, or that there is none.
fn list(alloc: Global, bytes: &[u8]) -> Result<Option<Option<NumberList>>, AllocError>
    ensures narrow { IfOk result (λ read. IfSome read (λ o. IfSome o AreNumbers)) }
    ensures found { IfOk result (λ read. IfSome read (λ o. list_bytes o ≡ bytes.now)) }
    ensures none { IfOk result (λ read. IfNone read ((o : Option (List ℕ))
        → IfSome o AreNumbers → list_bytes o ≢ bytes.now)) }
{
    if bytes == b" none".as_slice() {
        return Ok(Some(None));
    }
    let Some(numbers) = numbers(alloc, bytes)? else {
        return Ok(None);
    };
    Ok(Some(Some(NumberList::from_vec(numbers))))
}

// A line of a set list that was read, and what follows it.
#[derive(Drop)]
struct SetRow<'a> {
    name: SetName,
    numbers: Option<NumberList>,
    rest: &'a [u8],
}

// A line of a set list at the front of bytes: its name and its numbers, and what follows it.
fn set_row<'a>(
    alloc: Global,
    word: &[u8],
    bytes: &'a [u8],
) -> Result<Option<SetRow<'a>>, AllocError>
    ensures name { IfOk result (λ read. IfSome read (λ r. is_good_name r.name ≡ true)) }
    ensures narrow { IfOk result (λ read. IfSome read (λ r. IfSome r.numbers AreNumbers)) }
    ensures found { IfOk result (λ read. IfSome read (λ r.
        set_line r.name (codes " " ++ word.now) r.numbers ++ r.rest.now ≡ bytes.now)) }
    ensures none { IfOk result (λ read. IfNone read ((name : List ℕ) (o : Option (List ℕ))
        (later : List ℕ) → is_good_name name ≡ true → IfSome o AreNumbers
        → set_line name (codes " " ++ word.now) o ++ later ≢ bytes.now)) }
{
    let Some((name, numbers, rest)) = set_line(bytes, word) else {
        return Ok(None);
    };
    let Some(name) = SetName::new(name) else {
        return Ok(None);
    };
    let Some(numbers) = list(alloc, numbers)? else {
        return Ok(None);
    };
    Ok(Some(SetRow {
        name,
        numbers,
        rest,
    }))
}

// The set list at the front of bytes, and what follows it.
fn set_part(alloc: Global, bytes: &[u8]) -> Result<Option<(Part, &[u8])>, AllocError>
    ensures part { IfOk result (λ read. IfSome read (λ r. IsEntryPart r.0)) }
    ensures found { IfOk result (λ read. IfSome read (λ r.
        part_bytes r.0 ++ r.1.now ≡ bytes.now)) }
    ensures none { IfOk result (λ read. IfNone read ((name : List ℕ)
        (was is : Option (List ℕ)) (later : List ℕ) → IsEntryPart (Set name was is)
        → part_bytes (Set name was is) ++ later ≢ bytes.now)) }
{
    let Some(first) = set_row(alloc, b"was", bytes)? else {
        return Ok(None);
    };
    let SetRow {
        name,
        numbers: was,
        rest,
    } = first;
    let Some(second) = set_row(alloc, b"is", rest)? else {
        return Ok(None);
    };
    let SetRow {
        name: other,
        numbers: is,
        rest,
    } = second;
    if other.as_slice() == name.as_slice() {
        Ok(Some((Part::Set { name, was, is }, rest)))
    } else {
        Ok(None)
    }
}

// The part at the front of bytes, and what follows it.
fn part_at(alloc: Global, bytes: &[u8]) -> Result<Option<(Part, &[u8])>, AllocError>
    ensures part { IfOk result (λ read. IfSome read (λ r. IsEntryPart r.0)) }
    ensures found { IfOk result (λ read. IfSome read (λ r.
        part_bytes r.0 ++ r.1.now ≡ bytes.now)) }
    ensures none { IfOk result (λ read. IfNone read ((part : Part) (later : List ℕ)
        → IsEntryPart part → part_bytes part ++ later ≢ bytes.now)) }
{
    if let Some(found) = tune_part(alloc, bytes)? {
        return Ok(Some(found));
    }
    set_part(alloc, bytes)
}

// The parts that these bytes are.
pub(crate) fn parts(alloc: Global, bytes: &[u8]) -> Result<Option<Vec<Part>>, AllocError>
    ensures parts { IfOk result (λ read. IfSome read (λ v. AllByRecursion IsEntryPart v.items)) }
    ensures found { IfOk result (λ read. IfSome read (λ v. parts_bytes v.items ≡ bytes.now)) }
    ensures none { IfOk result (λ read. IfNone read ((parts : List Part)
        → AllByRecursion IsEntryPart parts → parts_bytes parts ≢ bytes.now)) }
{
    let mut parts = Vec::new(alloc);
    let mut rest = bytes;
    while !rest.is_empty() {
        let Some(found) = part_at(alloc, rest)? else {
            return Ok(None);
        };
        let (part, later) = found;
        parts.push(part)?;
        rest = later;
    }
    Ok(Some(parts))
}
