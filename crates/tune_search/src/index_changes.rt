// One index, changed among all other parts of an archive.
ghost use Rattle.std.specs.Prelude.{◌≡◌, ◌+◌, ◌*◌, ◌<◌, true, length, List, IfOk, OnOk};
ghost use Rattle.tune_pages.specs.Editing.{Edits};
ghost use Rattle.tune_pages.specs.Faults.{free_pages, pages_for};
ghost use Rattle.tune_pages.specs.FreePages.{TakesAtMost};
ghost use Rattle.tune_pages.specs.Kept.{HonestAt};
ghost use Rattle.index_keys.specs.Entries.{Entry, IsRising, inserted_all, removed};
ghost use Rattle.index_keys.specs.Entries.{removed_all};
ghost use Rattle.tune_index.specs.Indexes.{KeepsBalance};
ghost use Rattle.tune_index.specs.ListedLeaves.{index_with};
ghost use Rattle.tune_parts.specs.Parts.{Part};
ghost use Rattle.tune_search.specs.IndexParts.{HoldsIndexAmong, HoldsSomeIndex, IndexParts};
ghost use Rattle.tune_search.specs.IndexParts.{LaysIndex};

use tune_disk::Disk;
use tune_index::{Index, IndexKey};
use tune_pages::{Edit, Fault};

/// Puts entries that rise into an index that stands among other parts, which stay.
///
/// # Errors
///
/// `FileFull` only where fewer pages are free than the entries that there would be; `OutOfMemory`;
/// `Device` where the disk failed: the pages are then closed. `Closed`. The index is then to be
/// dropped.
pub fn put_run<D: Disk, const W: usize>(
    edit: &mut Edit<D>,
    index: &mut Index<W>,
    run: &[(IndexKey<W>, u32)],
) -> Result<(), Fault>
    requires index { HonestAt D.honest edit.old.base.disk
        → HoldsSomeIndex W edit.old.next index.old }
    requires rising { IsRising run.now }
    ensures lays { OnOk result (HonestAt D.honest edit.new.base.disk → LaysIndex W
        edit.old.next edit.new.next index.old index.new (λ entries. inserted_all run.now entries)) }
    ensures balance { OnOk result
        (KeepsBalance edit.old.next edit.new.next index.old.pages index.new.pages) }
    ensures edits { Edits D.Disk result (HonestAt D.honest edit.new.base.disk
        → (before after : List Part) (parts : IndexParts) (entries : List Entry)
        → HoldsIndexAmong W edit.old.next (index_with index.old entries) before after parts
        → free_pages edit.old.next.used + length index.old.pages
        < length (inserted_all run.now entries)) edit.old edit.new }
{
    // For the proof.
    edit.law_of_pages();
    match index.insert_all(edit, run) {
        Ok(()) => {
            edit.law_of_pages();
            Ok(())
        }
        Err(fault) => Err(fault),
    }
}

// Takes an entry out of an index that stands among other parts, which stay.
fn take_entry<D: Disk, const W: usize>(
    edit: &mut Edit<D>,
    index: &mut Index<W>,
    key: &IndexKey<W>,
    value: u32,
) -> Result<(), Fault>
    requires index { HonestAt D.honest edit.old.base.disk
        → HoldsSomeIndex W edit.old.next index.old }
    ensures lays { OnOk result (HonestAt D.honest edit.new.base.disk → LaysIndex W edit.old.next
        edit.new.next index.old index.new (λ entries. removed (key.now, value) entries)) }
    ensures balance { OnOk result
        (KeepsBalance edit.old.next edit.new.next index.old.pages index.new.pages) }
    ensures edits { Edits D.Disk result ⊥ edit.old edit.new }
{
    // For the proof.
    edit.law_of_pages();
    match index.remove(edit, key, value) {
        Ok(()) => {
            edit.law_of_pages();
            Ok(())
        }
        Err(fault) => Err(fault),
    }
}

/// Takes entries out of an index that stands among other parts, which stay.
///
/// # Errors
///
/// `OutOfMemory`; `Device` where the disk failed: the pages are then closed. `Closed`. The index is
/// then to be dropped. It never wants a page.
pub fn take_run<D: Disk, const W: usize>(
    edit: &mut Edit<D>,
    index: &mut Index<W>,
    run: &[(IndexKey<W>, u32)],
) -> Result<(), Fault>
    requires index { HonestAt D.honest edit.old.base.disk
        → HoldsSomeIndex W edit.old.next index.old }
    ensures lays { OnOk result (HonestAt D.honest edit.new.base.disk → LaysIndex W
        edit.old.next edit.new.next index.old index.new (λ entries. removed_all run.now entries)) }
    ensures balance { OnOk result
        (KeepsBalance edit.old.next edit.new.next index.old.pages index.new.pages) }
    ensures edits { Edits D.Disk result ⊥ edit.old edit.new }
{
    edit.check()?;
    for entry in run {
        match take_entry(edit, index, &entry.0, entry.1) {
            Ok(()) => {}
            Err(fault) => return Err(fault),
        }
    }
    Ok(())
}

/// Stores the list of an index that stands among other parts, which stay, and gives the first page
/// of its chain: 0 where there is no leaf.
///
/// # Errors
///
/// `FileFull` only where fewer pages are free than the list wants; `OutOfMemory`; `Device` where
/// the disk failed: the pages are then closed. `Closed`. The index is then to be dropped.
pub fn store_list<D: Disk, const W: usize>(
    edit: &mut Edit<D>,
    index: &mut Index<W>,
) -> Result<u32, Fault>
    requires index { HonestAt D.honest edit.old.base.disk
        → HoldsSomeIndex W edit.old.next index.old }
    ensures lays { OnOk result (HonestAt D.honest edit.new.base.disk
        → LaysIndex W edit.old.next edit.new.next index.old index.new (λ entries. entries)) }
    ensures list { IfOk result (λ first. (index.new.first ≡ first)
        × (index.new.listed ≡ true)) }
    ensures leaves { OnOk result (index.new.pages ≡ index.old.pages) }
    ensures takes { HonestAt D.honest edit.new.base.disk
        → TakesAtMost (pages_for (4 * length index.old.pages)) result edit.old.next edit.new.next }
    ensures edits { Edits D.Disk result (Unit {0}) edit.old edit.new }
{
    // For the proof.
    edit.law_of_pages();
    match index.store(edit) {
        Ok(first) => {
            edit.law_of_pages();
            Ok(first)
        }
        Err(fault) => Err(fault),
    }
}
