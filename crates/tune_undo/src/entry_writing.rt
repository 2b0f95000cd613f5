// Entries and marks as bytes.
ghost use Rattle.std.specs.Prelude.{◌≡◌, ◌++◌, codes, decimal, length, IfOk, OnOk};
ghost use Rattle.std.specs.Option.{option_map};
ghost use Rattle.tune_undo.specs.EntryBytes.{kind_word, after_word, book_tune, tune_line};
ghost use Rattle.tune_undo.specs.EntryBytes.{old_text, numbers_bytes, set_line, part_bytes};
ghost use Rattle.tune_undo.specs.EntryBytes.{parts_bytes, entry_bytes, mark_bytes};
ghost use Rattle.tune_undo.specs.OldEntries.{entry_value};
ghost use Rattle.tune_undo.specs.OldTextLaws.{is_ended, before_piece, made_ready};

use crate::old_entries::{After, Entry, EntryKind, Mark, Part};
use abc_fields::TuneText;
use std::alloc::{AllocError, Global};
use std::io::Write;
use tune_sets::{NumberList, SetName};

/// The bytes of an entry, from its first line on. In the book an empty line stands before them. The
/// error is out of memory.
pub fn written_entry(alloc: Global, entry: &Entry) -> Result<Vec<u8>, AllocError>
    ensures { IfOk result (λ bytes. bytes.items ≡ entry_bytes (entry_value entry.now)) }
{
    let mut parts = Vec::new(alloc);
    put_parts(&mut parts, entry.parts.as_slice())?;
    let body = parts.as_slice();
    let mut bytes = Vec::new(alloc);
    put_first_line(
        &mut bytes,
        entry.kind,
        entry.parts.as_slice().len(),
        body.len(),
    )?;
    bytes.extend_from_slice(body)?;
    Ok(bytes)
}

/// The bytes of a mark. In the book an empty line stands before them. The error is out of memory.
pub fn written_mark(alloc: Global, mark: Mark) -> Result<Vec<u8>, AllocError>
    ensures { IfOk result (λ bytes. bytes.items ≡ mark_bytes mark) }
{
    let mut bytes = Vec::new(alloc);
    match mark {
        Mark::NotDone => bytes.extend_from_slice(b"% tunes-book not done\n")?,
        Mark::Undone => bytes.extend_from_slice(b"% tunes-book undone\n")?,
        Mark::Undoing(greatest) => put_undoing(&mut bytes, greatest as usize)?,
    }
    Ok(bytes)
}

/// Whether the last line of a book is ended: the book is empty, or ends in a line feed.
pub fn is_ended(book: &[u8]) -> bool
    ensures { result ≡ is_ended book.now }
{
    match book.last() {
        None => true,
        Some(byte) => *byte == b'\n',
    }
}

/// Makes a book ready for an entry or a mark: its last line is ended, and an empty line put after
/// it. So it is to be read, too, since the same bytes come to its end before what is put there. The
/// error is out of memory.
pub fn make_ready(book: &mut Vec<u8>) -> Result<(), AllocError>
    ensures { OnOk result (book.new.items ≡ made_ready book.old.items) }
{
    let ended = is_ended(book.as_slice());
    book.extend_from_slice(before_piece(ended))
}

fn before_piece(ended: bool) -> &'static [u8]
    ensures { result.now ≡ before_piece ended }
{
    if ended { b"\n" } else { b"\n\n" }
}

/// The bytes that go to the end of a book of old texts: an entry or a mark, after an empty line,
/// and before that the end of the last line, where it has none. `ended` says that the book is empty
/// or ends in a line feed. The error is out of memory.
pub fn joined(alloc: Global, ended: bool, piece: &[u8]) -> Result<Vec<u8>, AllocError>
    ensures { IfOk result (λ bytes. bytes.items ≡ before_piece ended ++ piece.now) }
{
    let mut bytes = Vec::new(alloc);
    if !ended {
        bytes.push(b'\n')?;
    }
    bytes.push(b'\n')?;
    bytes.extend_from_slice(piece)?;
    Ok(bytes)
}

fn put_undoing(bytes: &mut Vec<u8>, greatest: usize) -> Result<(), AllocError>
    ensures { OnOk result (bytes.new.items ≡ bytes.old.items
        ++ (codes "% tunes-book undoing " ++ (decimal greatest ++ codes "\n"))) }
{
    write!(bytes, "% tunes-book undoing {greatest}\n").map_err(|_| AllocError)
}

fn put_first_line(
    bytes: &mut Vec<u8>,
    kind: EntryKind,
    parts: usize,
    len: usize,
) -> Result<(), AllocError>
    ensures { OnOk result (bytes.new.items ≡ bytes.old.items ++ (codes "% tunes-book "
        ++ (kind_word kind ++ (codes " " ++ (decimal parts ++ (codes " "
        ++ (decimal len ++ codes "\n"))))))) }
{
    let word = kind_word(kind);
    write!(bytes, "% tunes-book {word} {parts} {len}\n").map_err(|_| AllocError)
}

fn kind_word(kind: EntryKind) -> &'static str
    ensures { result.now ≡ kind_word kind }
{
    match kind {
        EntryKind::Delete => "delete",
        EntryKind::Replace => "replace",
        EntryKind::Put => "put",
        EntryKind::Cut => "cut",
        EntryKind::Move => "move",
        EntryKind::Drop => "drop",
        EntryKind::Add => "add",
        EntryKind::AddMore => "add-more",
        EntryKind::Load => "load",
        EntryKind::Kept => "kept",
    }
}

fn put_parts(bytes: &mut Vec<u8>, parts: &[Part]) -> Result<(), AllocError>
    ensures { OnOk result (bytes.new.items ≡ bytes.old.items ++ parts_bytes parts.now) }
{
    for part in parts {
        put_part(bytes, part)?;
    }
    Ok(())
}

fn put_part(bytes: &mut Vec<u8>, part: &Part) -> Result<(), AllocError>
    ensures { OnOk result (bytes.new.items ≡ bytes.old.items ++ part_bytes part.now) }
{
    match part {
        Part::Tune { number, was, is } => put_tune(bytes, *number as usize, was, is),
        Part::Set { name, was, is } => {
            put_set_line(bytes, name, b" was", was)?;
            put_set_line(bytes, name, b" is", is)
        }
    }
}

fn put_tune(
    bytes: &mut Vec<u8>,
    number: usize,
    was: &Option<TuneText>,
    is: &After,
) -> Result<(), AllocError>
    ensures { OnOk result (bytes.new.items ≡ bytes.old.items
        ++ (tune_line number (option_map length was.now) is.now ++ old_text number was.now)) }
{
    match was {
        None => {
            write!(bytes, "% tune {number} was none is ").map_err(|_| AllocError)?;
            put_after(bytes, is)
        }
        Some(text) => {
            let len = text.bytes().len();
            write!(bytes, "% tune {number} was {len} is ").map_err(|_| AllocError)?;
            put_after(bytes, is)?;
            put_text(bytes, number, text)
        }
    }
}

// What a tune is after the change, and the end of the line.
fn put_after(bytes: &mut Vec<u8>, is: &After) -> Result<(), AllocError>
    ensures { OnOk result (bytes.new.items ≡ bytes.old.items
        ++ (after_word is.now ++ codes "\n")) }
{
    match is {
        After::Nothing => bytes.extend_from_slice(b"none")?,
        After::Text(sum) => bytes.extend_from_slice(&sum.digits())?,
        After::Revision(revision) => put_revision(bytes, *revision as usize)?,
    }
    bytes.extend_from_slice(b"\n")
}

fn put_revision(bytes: &mut Vec<u8>, revision: usize) -> Result<(), AllocError>
    ensures { OnOk result (bytes.new.items ≡ bytes.old.items
        ++ (codes "revision " ++ decimal revision)) }
{
    write!(bytes, "revision {revision}").map_err(|_| AllocError)
}

fn put_text(bytes: &mut Vec<u8>, number: usize, text: &TuneText) -> Result<(), AllocError>
    ensures { OnOk result (bytes.new.items ≡ bytes.old.items
        ++ (book_tune number text.now ++ codes "\n")) }
{
    write!(bytes, "X:{number}\n").map_err(|_| AllocError)?;
    bytes.extend_from_slice(text.bytes())?;
    bytes.extend_from_slice(b"\n")
}

fn put_set_line(
    bytes: &mut Vec<u8>,
    name: &SetName,
    word: &[u8],
    numbers: &Option<NumberList>,
) -> Result<(), AllocError>
    ensures { OnOk result (bytes.new.items ≡ bytes.old.items
        ++ set_line name.now word.now numbers.now) }
{
    bytes.extend_from_slice(b"% set ")?;
    bytes.extend_from_slice(name.as_slice())?;
    bytes.extend_from_slice(word)?;
    match numbers {
        None => bytes.extend_from_slice(b" none")?,
        Some(list) => put_numbers(bytes, list.as_slice())?,
    }
    bytes.extend_from_slice(b"\n")
}

fn put_numbers(bytes: &mut Vec<u8>, numbers: &[u32]) -> Result<(), AllocError>
    ensures { OnOk result (bytes.new.items ≡ bytes.old.items ++ numbers_bytes numbers.now) }
{
    for number in numbers {
        put_number(bytes, *number as usize)?;
    }
    Ok(())
}

fn put_number(bytes: &mut Vec<u8>, number: usize) -> Result<(), AllocError>
    ensures { OnOk result (bytes.new.items ≡ bytes.old.items ++ (codes " " ++ decimal number)) }
{
    write!(bytes, " {number}").map_err(|_| AllocError)
}
