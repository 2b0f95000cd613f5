// The book of old texts that is kept beside an archive.
ghost use Rattle.std.specs.Prelude.{None, false, IfOk, IfErr, string_bytes};
ghost use Rattle.tune_desk.specs.Inside.Asks.{Asks};
ghost use Rattle.tune_desk.specs.Inside.Growths.{FindsOld, KnowsOther, KnowsNoArchive};
ghost use Rattle.tune_desk.specs.Inside.Growths.{KnowsNothing};
ghost use Rattle.tune_desk.specs.OldTexts.{Grows, GrowsNot, IsPieceOf};
ghost use Rattle.tune_desk.specs.Results.{SparesFiles, result_places};

use crate::{Desk, DeskFault, Standing};
use memchr::memmem;
use std::alloc::{AllocError, Global};

// The first bytes of every archive.
const ARCHIVE_HEAD: &[u8] = b"ABCTUNE1";

// How every entry of a book of old texts begins, and so the book, but where a stop left less of its
// first one.
const ENTRY_HEAD: &[u8] = b"\n% tunes-book ";

/// Why nothing was put at the end of the book of old texts.
#[derive(Clone, Copy, Debug, PartialEq, Eq)]
pub enum OldTextsFault {
    /// What stands there is no regular file.
    NotFile,
    /// It is FILE by another name, or another archive.
    Archive,
    /// It is no book of old texts.
    NotOldTexts,
    /// It could not be looked at.
    Unasked(DeskFault),
    /// The bytes could not be written there, or the device did not keep them.
    NotGrown(DeskFault),
    /// There was no memory.
    OutOfMemory,
}

/// Puts bytes at the end of the book of old texts of FILE, which is FILE.old.abc, behind an empty
/// line, and has the device keep them. The book is made where nothing stands there; what is no book
/// of old texts is left as it is.
pub fn grow_old_texts<K: Desk>(
    alloc: Global,
    desk: &mut K,
    file: &String,
    bytes: &[u8],
) -> Result<(), OldTextsFault>
    ensures files { SparesFiles (result_places (string_bytes file.now) None false)
        (K.deeds desk.old) (K.deeds desk.new) }
    ensures grown { IfOk result (λ _. Grows (string_bytes file.now) bytes.now
        (K.deeds desk.old) (K.deeds desk.new)) }
    ensures refused { IfErr result (λ _. GrowsNot (string_bytes file.now)
        (K.deeds desk.old) (K.deeds desk.new)) }
{
    let Ok(old) = format!(in alloc; "{file}.old.abc") else {
        return Err(OldTextsFault::OutOfMemory);
    };
    let is_new = find_old(alloc, desk, file, &old)?;
    let Ok(piece) = piece_of(alloc, is_new, bytes) else {
        return Err(OldTextsFault::OutOfMemory);
    };
    match desk.grow(&old, piece.as_slice()) {
        Ok(()) => Ok(()),
        Err(fault) => Err(OldTextsFault::NotGrown(fault)),
    }
}

// The bytes behind an empty line. A book that is there may end within a line.
fn piece_of(alloc: Global, is_new: bool, bytes: &[u8]) -> Result<Vec<u8>, AllocError>
    ensures { IfOk result (λ piece. IsPieceOf bytes.now piece.items) }
{
    let before: &[u8] = if is_new { b"\n" } else { b"\n\n" };
    let mut piece = Vec::new(alloc);
    piece.extend_from_slice(before)?;
    piece.extend_from_slice(bytes)?;
    Ok(piece)
}

// Whether nothing stands in the place of the book, or else a book of old texts.
fn find_old<K: Desk>(
    alloc: Global,
    desk: &mut K,
    file: &String,
    old: &String,
) -> Result<bool, OldTextsFault>
    ensures { Asks (FindsOld (string_bytes file.now) (string_bytes old.now) result)
        (K.deeds desk.old) (K.deeds desk.new) }
{
    match desk.look(old) {
        Ok(Standing::Nothing) => Ok(true),
        Ok(Standing::File) => {
            spare_other(desk, file, old)?;
            spare_unknown(alloc, desk, old)?;
            Ok(false)
        }
        Ok(_) => Err(OldTextsFault::NotFile),
        Err(fault) => Err(OldTextsFault::Unasked(fault)),
    }
}

// That the file is neither FILE nor another archive.
fn spare_other<K: Desk>(desk: &mut K, file: &String, old: &String) -> Result<(), OldTextsFault>
    ensures { Asks (KnowsOther (string_bytes file.now) (string_bytes old.now) result)
        (K.deeds desk.old) (K.deeds desk.new) }
{
    match desk.is_same(old, file) {
        Ok(false) => spare_archive(desk, old),
        Ok(true) => Err(OldTextsFault::Archive),
        Err(fault) => Err(OldTextsFault::Unasked(fault)),
    }
}

fn spare_archive<K: Desk>(desk: &mut K, old: &String) -> Result<(), OldTextsFault>
    ensures { Asks (KnowsNoArchive (string_bytes old.now) result)
        (K.deeds desk.old) (K.deeds desk.new) }
{
    match desk.begins(old, ARCHIVE_HEAD) {
        Ok(false) => Ok(()),
        Ok(true) => Err(OldTextsFault::Archive),
        Err(fault) => Err(OldTextsFault::Unasked(fault)),
    }
}

// That it begins as a book of old texts; or has an entry, behind what a stop left; or has no more
// than the front of one.
fn spare_unknown<K: Desk>(alloc: Global, desk: &mut K, old: &String) -> Result<(), OldTextsFault>
    ensures { Asks KnowsNothing (K.deeds desk.old) (K.deeds desk.new) }
{
    match desk.begins(old, ENTRY_HEAD) {
        Ok(true) => Ok(()),
        Ok(false) => spare_cut(alloc, desk, old),
        Err(fault) => Err(OldTextsFault::Unasked(fault)),
    }
}

fn spare_cut<K: Desk>(alloc: Global, desk: &mut K, old: &String) -> Result<(), OldTextsFault>
    ensures { Asks KnowsNothing (K.deeds desk.old) (K.deeds desk.new) }
{
    match desk.read(alloc, old) {
        Ok(book) => {
            let book = book.as_slice();
            if ENTRY_HEAD.starts_with(book) || memmem::find(book, ENTRY_HEAD).is_some() {
                Ok(())
            } else {
                Err(OldTextsFault::NotOldTexts)
            }
        }
        Err(fault) => Err(OldTextsFault::Unasked(fault)),
    }
}
