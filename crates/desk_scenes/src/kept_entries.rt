// Entries and marks of the book of old texts.
ghost use Rattle.std.specs.Prelude.{None, false, IfOk, IfErr, string_bytes};
ghost use Rattle.tune_undo.specs.OldEntries.{entry_value};
ghost use Rattle.tune_undo.specs.EntryBytes.{entry_bytes, mark_bytes};
ghost use Rattle.tune_desk.specs.OldTexts.{Grows, GrowsNot};
ghost use Rattle.tune_desk.specs.Results.{SparesFiles, result_places};

use tune_desk::{Desk, OldTextsFault, grow_old_texts};
use tune_undo::{Entry, Mark, written_entry, written_mark};

/// Puts an entry at the end of the book of old texts of FILE, and has the device keep it.
pub fn keep_entry<K: AllocGlobal + Desk>(
    desk: &mut K,
    file: &String,
    entry: &Entry,
) -> Result<(), OldTextsFault>
    ensures files { SparesFiles (result_places (string_bytes file.now) None false)
        (K.deeds desk.old) (K.deeds desk.new) }
    ensures kept { IfOk result (λ _. Grows (string_bytes file.now)
        (entry_bytes (entry_value entry.now)) (K.deeds desk.old) (K.deeds desk.new)) }
    ensures refused { IfErr result (λ _. GrowsNot (string_bytes file.now)
        (K.deeds desk.old) (K.deeds desk.new)) }
{
    match written_entry(desk.alloc(), entry) {
        Ok(bytes) => grow_old_texts(desk.alloc(), desk, file, bytes.as_slice()),
        Err(_) => Err(OldTextsFault::OutOfMemory),
    }
}

/// Puts a mark there, of the last entry that stands.
pub fn keep_mark<K: AllocGlobal + Desk>(
    desk: &mut K,
    file: &String,
    mark: Mark,
) -> Result<(), OldTextsFault>
    ensures files { SparesFiles (result_places (string_bytes file.now) None false)
        (K.deeds desk.old) (K.deeds desk.new) }
    ensures kept { IfOk result (λ _. Grows (string_bytes file.now) (mark_bytes mark)
        (K.deeds desk.old) (K.deeds desk.new)) }
    ensures refused { IfErr result (λ _. GrowsNot (string_bytes file.now)
        (K.deeds desk.old) (K.deeds desk.new)) }
{
    match written_mark(desk.alloc(), mark) {
        Ok(bytes) => grow_old_texts(desk.alloc(), desk, file, bytes.as_slice()),
        Err(_) => Err(OldTextsFault::OutOfMemory),
    }
}
