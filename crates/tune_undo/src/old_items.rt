// Entries and marks, read.
ghost use Rattle.std.specs.Prelude.{◌≡◌, ◌≢◌, ◌++◌, ℕ, List, IfOk, IfSome, IfNone};
ghost use Rattle.tune_undo.specs.OldEntries.{EntryValue, entry_value};
ghost use Rattle.tune_undo.specs.EntryBytes.{IsEntry, entry_bytes};
ghost use Rattle.tune_undo.specs.OldItems.{OldEntry, IsOld, old_bytes, entry_of_old, Item};
ghost use Rattle.tune_undo.specs.OldItems.{BeginsWithItem};
ghost use Rattle.tune_undo.specs.OldItems.{IsMarkWritten};
ghost use Rattle.tune_undo.specs.Inside.EntryLines.{after_old_of, text_len_of};
ghost use Rattle.tune_undo.specs.Inside.Found.{found_value, OldRead};
ghost use Rattle.tune_undo.specs.declared.old_entries.Mark.{Mark};

use crate::old_entries::{After, Entry, EntryKind, Mark, Part};
use crate::part_lines::{FirstLine, first_line, mark_line, number_line, old_line};
use crate::parts::{parts, text_at};
use std::alloc::{AllocError, Global};

// What stands at a place of the book.
#[derive(Drop)]
pub(crate) enum Found {
    Entry(Entry),
    Mark(Mark),
}

// The entry that begins here, in the form of today.
fn entry(alloc: Global, bytes: &[u8]) -> Result<Option<Entry>, AllocError>
    ensures found { IfOk result (λ read. IfSome read (λ e. IsEntry (entry_value e)
        × ((rest : List ℕ) × (entry_bytes (entry_value e) ++ rest ≡ bytes.now)))) }
    ensures none { IfOk result (λ read. IfNone read ((e : EntryValue) (rest : List ℕ)
        → IsEntry e → entry_bytes e ++ rest ≢ bytes.now)) }
{
    let Some((line, rest)) = first_line(bytes) else {
        return Ok(None);
    };
    let FirstLine {
        kind,
        parts: count,
        len,
    } = line;
    if rest.len() < len as usize {
        return Ok(None);
    }
    let (body, _) = rest.split_at(len as usize);
    let Some(parts) = parts(alloc, body)? else {
        return Ok(None);
    };
    if parts.as_slice().len() == count as usize {
        Ok(Some(Entry { kind, parts }))
    } else {
        Ok(None)
    }
}

// The entry that begins here, in the form of before.
fn old_entry(alloc: Global, bytes: &[u8]) -> Result<Option<Entry>, AllocError>
    ensures found { IfOk result (λ read. IfSome read (λ e.
        OldRead bytes.now (entry_value e))) }
    ensures none { IfOk result (λ read. IfNone read ((old : OldEntry) (rest : List ℕ)
        → IsOld old → old_bytes old ++ rest ≢ bytes.now)) }
{
    let Some((line, rest)) = old_line(bytes) else {
        return Ok(None);
    };
    let Some(is) = after_old(line.kind, line.revision) else {
        return Ok(None);
    };
    let Some(len) = text_len(line.len as usize, rest) else {
        return Ok(None);
    };
    let Some(found) = text_at(alloc, line.number, len, rest)? else {
        return Ok(None);
    };
    let (text, _) = found;
    let part = Part::Tune {
        number: line.number,
        was: Some(text),
        is,
    };
    let mut parts = Vec::new(alloc);
    parts.push(part)?;
    Ok(Some(Entry {
        kind: line.kind,
        parts,
    }))
}

// What a tune is after a change of before; nothing where the kind is of today, or no revision
// follows.
fn after_old(kind: EntryKind, revision: u32) -> Option<After>
    ensures { result ≡ after_old_of kind revision }
{
    let next = revision.checked_add(1)?;
    match kind {
        EntryKind::Replace => Some(After::Revision(next)),
        EntryKind::Delete | EntryKind::Kept => Some(After::Nothing),
        _ => None,
    }
}

// How long a text is that takes so many bytes with its `X:` line.
fn text_len(len: usize, bytes: &[u8]) -> Option<usize>
    ensures { result ≡ text_len_of len bytes.now }
{
    let (_, rest) = number_line(bytes)?;
    let line_len = bytes.len() - rest.len();
    len.checked_sub(line_len)
}

// What begins here.
pub(crate) fn found_at(alloc: Global, bytes: &[u8]) -> Result<Option<Found>, AllocError>
    ensures found { IfOk result (λ read. IfSome read (λ f.
        BeginsWithItem bytes.now (found_value f))) }
    ensures none { IfOk result
        (λ read. IfNone read ((item : Item) → ¬ BeginsWithItem bytes.now item)) }
{
    if let Some(entry) = entry(alloc, bytes)? {
        return Ok(Some(Found::Entry(entry)));
    }
    if let Some(entry) = old_entry(alloc, bytes)? {
        return Ok(Some(Found::Entry(entry)));
    }
    match mark_line(bytes) {
        Some((mark, _)) => Ok(Some(Found::Mark(mark))),
        None => Ok(None),
    }
}
