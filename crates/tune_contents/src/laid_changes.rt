// A change of an archive, laid on its pages.
ghost use Rattle.std.specs.Prelude.{◌≡◌, ◌≢◌, ◌≤◌, ◌+◌, List, All, false, true, length};
ghost use Rattle.std.specs.Prelude.{Err, IfOk, IfErr, OnOk};
ghost use Rattle.tune_journal.specs.FileOffsets.{block_bytes};
ghost use Rattle.tune_pages.specs.FreePages.{TakesAtMost};
ghost use Rattle.tune_pages.specs.Kept.{HonestAt};
ghost use Rattle.tune_pages.specs.declared.fault.Fault.TheVariants.{FileFull, OutOfMemory};
ghost use Rattle.tune_search.specs.SearchPages.{AreListed, firsts_in};
ghost use Rattle.tune_sets.specs.declared.faults.SetFault.TheVariants as set_fault;
ghost use Rattle.tune_sets.specs.declared.set_lists.TuneSet.{TuneSet};
ghost use Rattle.tune_store.specs.Plans.{changed, changed_layout, changed_sets, changed_tunes};
ghost use Rattle.tune_store.specs.Plans.{CanChange};
ghost use Rattle.tune_store.specs.State.{State, IsState};
ghost use Rattle.tune_store.specs.declared.plans.Change.TheVariants.{Upgrade};
ghost use Rattle.tune_store.specs.declared.tune.Tune.{Tune};
ghost use Rattle.tune_pages.specs.Editing.{Edits};
ghost use Rattle.tune_contents.specs.Claimed.{AreRows};
ghost use Rattle.tune_contents.specs.Holds.{labels_in, HoldsContents, HoldsSomeState, LaysMemory};
ghost use Rattle.tune_contents.specs.Most.{enough_pages, most_part_pages};
ghost use Rattle.tune_contents.specs.Next.{FitsRows, memory_after, rows_after};
ghost use Rattle.tune_contents.specs.declared.contents.Contents.{Contents};
ghost use Rattle.tune_contents.specs.Inside.Changes.{RowsAccept, SetsAccept, LaysChange, KeepsRows};
ghost use Rattle.tune_contents.specs.Inside.Changes.{changes_sets};
ghost use Rattle.tune_contents.specs.Inside.Indexed.{HoldsIndexed, HoldsSomeIndexed, LaysIndexed};
ghost use Rattle.tune_contents.specs.Inside.Indexed.{index_pages, keeps_of};
ghost use Rattle.tune_contents.specs.Inside.Laying.{HoldsSomeTunes};
ghost use Rattle.tune_contents.specs.Inside.ChangedRows.{IsMadeOf};
ghost use Rattle.tune_contents.specs.Inside.Searching.{search_pages};
ghost use Rattle.tune_contents.specs.Inside.Takes.{change_pages};

use crate::contents::Contents;
use crate::laid_chains::{lay_added, lay_root, lay_sets_where, put_tune, take_tune};
use crate::next::{Next, RowChange};
use crate::number_index::{change_numbers, number_runs};
use crate::room::Room;
use crate::searching::{change_searches, text_runs};
use crate::tune_rows::{are_rows, move_row};
use crate::upgrading::upgrade;
use tiered_vector::TieredVector;
use tune_disk::Disk;
use tune_format::{Firsts, Row};
use tune_index::Index;
use tune_pages::{Edit, Fault};
use tune_search::{SearchFirsts, SearchIndexes};
use tune_sets::{SetFault, SetLists};
use tune_store::{Change, Layout};

// Whether a change is one of set lists. A tune that none of them names is moved without them.
fn changes_sets(change: &Change, sets: &SetLists) -> bool
    ensures { result ≡ changes_sets change.now sets.now }
{
    match change {
        Change::Add { .. } | Change::Put { .. } | Change::Take { .. } | Change::Upgrade => false,
        Change::Move { number, .. } => sets.holds(*number).is_some(),
        Change::NewSet { .. } | Change::AddPlace { .. } => true,
        Change::CutPlace { .. } | Change::DropSet { .. } => true,
    }
}

// Makes a change of the set lists; one of tunes alone leaves them. The error is out of memory.
fn change_sets(sets: &mut SetLists, change: &Change) -> Result<(), SetFault>
    requires { SetsAccept change.now sets.old }
    ensures sets { OnOk result (sets.new ≡ changed_sets change.now sets.old) }
    ensures err { IfErr result (λ fault. fault ≡ set_fault.OutOfMemory) }
{
    match change {
        Change::Move { number, to } => sets.renumbered(*number, *to),
        Change::NewSet { name } => sets.create(name.as_slice())?,
        Change::AddPlace { name, number } => {
            sets.add(name.as_slice(), *number)?;
        }
        Change::CutPlace { name, place } => sets.cut(name.as_slice(), *place as usize)?,
        Change::DropSet { name } => sets.drop_set(name.as_slice())?,
        Change::Add { .. } | Change::Put { .. } | Change::Take { .. } | Change::Upgrade => {}
    }
    Ok(())
}

// Lays a change of tunes, and gives what becomes of their rows; one of the set lists alone leaves
// them.
fn lay_tunes<D: Disk>(
    room: &mut Room,
    edit: &mut Edit<D>,
    rows: &TieredVector<Row>,
    change: &Change,
) -> Result<RowChange, Fault>
    requires accept { RowsAccept change.now rows.now.items }
    requires holds { HonestAt D.honest edit.old.base.disk
        → HoldsSomeTunes edit.old.next rows.now.items }
    ensures lays { IfOk result (λ made. HonestAt D.honest edit.new.base.disk → LaysChange
        edit.old.next edit.new.next rows.now.items (rows_after made rows.now.items) change.now) }
    ensures made { IfOk result (λ made. IsMadeOf made rows.now.items) }
    ensures rows { IfOk result (λ made.
        KeepsRows change.now rows.now.items (rows_after made rows.now.items)) }
    ensures room { IfOk result (λ made. FitsRows made rows.now.items rows.now.room) }
    ensures edits { Edits D.Disk result (Unit {0}) edit.old edit.new }
    ensures takes { HonestAt D.honest edit.new.base.disk
        → TakesAtMost (change_pages change.now) result edit.old.next edit.new.next }
{
    edit.check()?;
    match change {
        Change::Add { first, texts } => lay_added(room, edit, rows, *first, texts),
        Change::Put { place, tune } => put_tune(edit, rows, *place, tune),
        Change::Take { place } => take_tune(edit, rows, *place),
        Change::Move { number, to } => Ok(move_row(rows, *number, *to)),
        Change::NewSet { .. } | Change::AddPlace { .. } => Ok(RowChange::Stay),
        Change::CutPlace { .. } | Change::DropSet { .. } => Ok(RowChange::Stay),
        Change::Upgrade => Ok(RowChange::Stay),
    }
}

// The indexes of an archive.
#[derive(Drop)]
struct Indexes {
    numbers: Index<32>,
    searches: SearchIndexes,
}

// Lays a change of tunes and that of the indexes that goes with it, and gives what becomes of the
// rows, and where the lists of the indexes begin; a change of the set lists alone leaves all.
fn lay_indexed<D: Disk>(
    room: &mut Room,
    edit: &mut Edit<D>,
    layout: Layout,
    rows: &TieredVector<Row>,
    indexes: &mut Indexes,
    change: &Change,
) -> Result<(RowChange, u32, SearchFirsts), Fault>
    requires accept { RowsAccept change.now rows.now.items }
    requires holds { HonestAt D.honest edit.old.base.disk → HoldsSomeIndexed layout edit.old.next
        (keeps_of indexes.old.numbers indexes.old.searches rows.now.items) }
    ensures lays { IfOk result (λ laid. HonestAt D.honest edit.new.base.disk
        → LaysIndexed layout edit.old.next edit.new.next
        (keeps_of indexes.old.numbers indexes.old.searches rows.now.items) (keeps_of
        indexes.new.numbers indexes.new.searches (rows_after laid.0 rows.now.items)) change.now) }
    ensures lists { IfOk result (λ laid. (indexes.new.numbers.first ≡ laid.1)
        × (indexes.new.numbers.listed ≡ true) × (laid.2 ≡ firsts_in indexes.new.searches)
        × AreListed indexes.new.searches) }
    ensures rows { IfOk result (λ laid.
        KeepsRows change.now rows.now.items (rows_after laid.0 rows.now.items)) }
    ensures room { IfOk result (λ laid. FitsRows laid.0 rows.now.items rows.now.room) }
    ensures notes { OnOk result
        (indexes.new.searches.notes ≡ indexes.old.searches.notes) }
    ensures edits { Edits D.Disk result (Unit {0}) edit.old edit.new }
    ensures takes { HonestAt D.honest edit.new.base.disk → (tunes : List Tune) (sets : List TuneSet)
        → HoldsIndexed layout edit.old.next (keeps_of indexes.old.numbers indexes.old.searches
        rows.now.items) tunes → CanChange change.now layout (labels_in rows.now.items) sets
        → let count = length (changed_tunes change.now tunes) in TakesAtMost (change_pages
        change.now + (index_pages count + search_pages count)) result edit.old.next edit.new.next }
{
    let notes = indexes.searches.notes();
    let texts = text_runs(edit, layout, notes, rows, change)?;
    let made = lay_tunes(room, edit, rows, change)?;
    let Ok(entries) = number_runs(edit.alloc(), rows, &made) else {
        return Err(edit.refuse());
    };
    let numbers = change_numbers(edit, &mut indexes.numbers, &entries)?;
    let searches = change_searches(edit, &mut indexes.searches, &texts)?;
    Ok((made, numbers, searches))
}

// The set lists after a change.
fn sets_after(sets: &SetLists, change: &Change) -> Result<SetLists, Fault>
    requires { SetsAccept change.now sets.now }
    ensures sets { IfOk result (λ next. next ≡ changed_sets change.now sets.now) }
    ensures err { IfErr result (λ fault. fault ≡ OutOfMemory) }
{
    let Ok(mut left) = sets.copy() else {
        return Err(Fault::OutOfMemory);
    };
    match change_sets(&mut left, change) {
        Ok(()) => Ok(left),
        Err(_) => Err(Fault::OutOfMemory),
    }
}

// Lays a change that leaves the layout.
fn lay_change<D: Disk>(
    room: &mut Room,
    edit: &mut Edit<D>,
    contents: &Contents,
    change: &Change,
) -> Result<Next, Fault>
    requires stays { change.now ≢ Upgrade }
    requires possible { CanChange change.now contents.now.layout
        (labels_in contents.now.rows.items) contents.now.sets }
    requires holds { HonestAt D.honest edit.old.base.disk
        → HoldsSomeState edit.old.next contents.now }
    ensures lays { IfOk result (λ next. HonestAt D.honest edit.new.base.disk → LaysMemory
        edit.old.next edit.new.next contents.now (memory_after next contents.now) change.now) }
    ensures rows { AreRows contents.now.layout contents.now.rows.items
        → IfOk result (λ next.
        AreRows next.layout (rows_after next.rows contents.now.rows.items)) }
    ensures layout { IfOk result (λ next. next.layout ≡ contents.now.layout) }
    ensures room { IfOk result (λ next.
        FitsRows next.rows contents.now.rows.items contents.now.rows.room) }
    ensures edits { Edits D.Disk result (Unit {0}) edit.old edit.new }
    ensures takes { HonestAt D.honest edit.new.base.disk
        → (state : State) → HoldsContents edit.old.next contents.now state
        → IsState state → IsState (changed change.now state)
        → TakesAtMost (most_part_pages contents.now.layout) result edit.old.next edit.new.next }
{
    let Ok(numbers) = room.copy_numbers(&contents.numbers) else {
        return Err(edit.refuse());
    };
    let Ok(searches) = room.copy_searches(&contents.searches) else {
        return Err(edit.refuse());
    };
    let mut indexes = Indexes { numbers, searches };
    let Ok(sets) = sets_after(&contents.sets, change) else {
        return Err(edit.refuse());
    };
    let names = changes_sets(change, &contents.sets);
    let layout = contents.layout;
    let was = contents.firsts;
    let (rows, numbers, searches) = lay_indexed(
        room,
        edit,
        layout,
        &contents.rows,
        &mut indexes,
        change,
    )?;
    let sets_first = lay_sets_where(edit, was.sets, &sets, names)?;
    let firsts = Firsts {
        numbers,
        searches,
        sets: sets_first,
    };
    lay_root(edit, layout, was, firsts)?;
    Ok(Next {
        layout,
        rows,
        numbers: indexes.numbers,
        searches: indexes.searches,
        sets,
        firsts,
    })
}

/// Lays a change of an archive on its pages, in an edit that was begun, and gives what `contents`
/// is to accept once the edit is finished. Until then it stays as it is: where the edit ends
/// otherwise, nothing was changed.
///
/// Chains that go are freed before others are put, so that these may take their pages. The leaves
/// of the indexes change that the change concerns; the lists of leaves, where leaves come or go;
/// the set lists, where they change; and the root, where one of these begins elsewhere. `upgrade`
/// says what changes where the archive comes to layout 2.
///
/// - `lays`: where the pages held a state within the limits, they hold the state after the change,
///   and memory has that of it which `accept` keeps.
/// - `rows`, `layout`, of every disk: rows by rising number, within the limits, stay so, and the
///   layout is that after the change.
/// - `room`: there is room for what becomes of the rows, as `accept` asks.
/// - `looks`: no page of the disk changes.
/// - `edits`: the edit goes on where the call went well, and has ended where it was refused.
/// - `takes`: where the state after the change is within the limits, it takes no more free pages
///   than the chains and leaves of a state have at most; the file is full only where fewer are
///   free.
/// - `enough`: the file is never full for it where there may be 640,684 pages in layout 1, or
///   2,801,386 in layout 2: enough for the state before the change and the one after it.
///
/// # Errors
///
/// `FileFull`, where there is no page for a chain or a leaf; `OutOfMemory`; the pages stay open.
/// `Device`, where the device failed: the pages are closed then. `Closed`, where the edit had
/// ended.
pub fn lay<D: Disk>(
    room: &mut Room,
    edit: &mut Edit<D>,
    contents: &Contents,
    change: Change,
) -> Result<Next, Fault>
    requires possible { CanChange change contents.now.layout
        (labels_in contents.now.rows.items) contents.now.sets }
    requires holds { HonestAt D.honest edit.old.base.disk
        → HoldsSomeState edit.old.next contents.now }
    ensures lays { IfOk result (λ next. HonestAt D.honest edit.new.base.disk → LaysMemory
        edit.old.next edit.new.next contents.now (memory_after next contents.now) change) }
    ensures rows { AreRows contents.now.layout contents.now.rows.items
        → IfOk result (λ next.
        AreRows next.layout (rows_after next.rows contents.now.rows.items)) }
    ensures layout { IfOk result (λ next. next.layout
        ≡ changed_layout change contents.now.layout) }
    ensures room { IfOk result (λ next.
        FitsRows next.rows contents.now.rows.items contents.now.rows.room) }
    ensures edits { Edits D.Disk result (Unit {0}) edit.old edit.new }
    ensures takes { HonestAt D.honest edit.new.base.disk
        → (state : State) → HoldsContents edit.old.next contents.now state
        → IsState state → IsState (changed change state)
        → TakesAtMost (most_part_pages contents.now.layout) result edit.old.next edit.new.next }
    ensures enough { HonestAt D.honest edit.new.base.disk
        → (state : State) → HoldsContents edit.old.next contents.now state → IsState state → IsState
        (changed change state) → All (λ page. length page ≡ block_bytes) edit.old.next.pages
        → enough_pages contents.now.layout ≤ length edit.old.next.used → result ≢ Err FileFull }
{
    if let Change::Upgrade = &change {
        // An honest disk has no others.
        if !are_rows(contents.layout, &contents.rows) {
            return Err(edit.close());
        }
        return upgrade(room, edit, contents);
    }
    lay_change(room, edit, contents, &change)
}
