// The search indexes, changed with the texts of tunes.
ghost use Rattle.std.specs.Prelude.{◌≡◌, ◌≤◌, ◌<◌, ◌^◌, ◌+◌, ◌++◌, ℕ, length, List};
ghost use Rattle.std.specs.Prelude.{slice_index_or, IfErr, IfOk, IfSome, IsSome, OnOk, Some};
ghost use Rattle.index_keys.specs.Holdings.{AreSmall};
ghost use Rattle.tune_pages.specs.Editing.{Consults, Edits};
ghost use Rattle.tune_pages.specs.Faults.{free_pages};
ghost use Rattle.tune_pages.specs.FreePages.{TakesAtMost};
ghost use Rattle.tune_pages.specs.Kept.{HonestAt};
ghost use Rattle.tune_pages.specs.declared.fault.Fault.TheVariants.{OutOfMemory};
ghost use Rattle.tune_parts.specs.Parts.{Part};
ghost use Rattle.tune_search.specs.IncipitForms.{note_count};
ghost use Rattle.tune_search.specs.SearchPages.{AreListed, firsts_in, leaf_count};
ghost use Rattle.tune_search.specs.Searches.{HoldsSomeTexts, HoldsTexts, SearchParts};
ghost use Rattle.tune_search.specs.Searches.{texts_numbered};
ghost use Rattle.tune_store.specs.Plans.{CanChange, changed_tunes};
ghost use Rattle.tune_store.specs.State.{IsTunes};
ghost use Rattle.tune_store.specs.declared.tune.Tune.{Tune};
ghost use Rattle.tune_sets.specs.declared.set_lists.TuneSet.{TuneSet};
ghost use Rattle.tune_format.specs.Filed.{numbered_texts};
ghost use Rattle.tune_contents.specs.Holds.{labels_in};
ghost use Rattle.tune_contents.specs.Inside.Changes.{HoldsTunesWithin, RowsAccept};
ghost use Rattle.tune_contents.specs.Inside.Laying.{HoldsTunes};
ghost use Rattle.tune_contents.specs.Inside.Searching.{AreRunsOut, ChangesTexts, HasSmallNumbers};
ghost use Rattle.tune_contents.specs.Inside.Searching.{HoldsTextsWith, IsByNotes, IsFullForTexts};
ghost use Rattle.tune_contents.specs.Inside.Searching.{IsOldPlace};
ghost use Rattle.tune_contents.specs.Inside.Searching.{IsOldTune, IsSomeRun, IsTuneAt, LaysTexts};
ghost use Rattle.tune_contents.specs.Inside.Searching.{PutsIn, PutsTexts, TakesOut, TakesSome};
ghost use Rattle.tune_contents.specs.Inside.Searching.{TakesTexts, coming, search_pages};

use crate::tune_reading::read_tune_where;
use crate::tune_rows::place_of;
use abc_fields::TuneText;
use std::alloc::Global;
use std::slice;
use tiered_vector::TieredVector;
use tune_disk::Disk;
use tune_format::Row;
use tune_pages::{Edit, Fault};
use tune_search::{IncipitNotes, Runs, SearchFirsts, SearchIndexes, law_of_search_pages};
use tune_store::{Change, Layout};

// What goes out of the search indexes with a change, and what comes in.
#[derive(Drop)]
pub(crate) struct TextRuns {
    gone: Option<Runs>,
    come: Option<Runs>,
}

// Where the row stands of a tune that a change replaces, takes out or moves.
fn old_place(rows: &TieredVector<Row>, change: &Change) -> Option<usize>
    requires { RowsAccept change.now rows.now.items }
    ensures within { IfSome result (λ place. place < length rows.now.items) }
    ensures place { IsOldPlace change.now rows.now.items result }
{
    match change {
        Change::Put { place, .. } => Some(*place),
        Change::Take { place } => Some(*place),
        Change::Move { number, .. } => place_of(rows, *number),
        Change::Add { .. } | Change::NewSet { .. } | Change::AddPlace { .. } => None,
        Change::CutPlace { .. } | Change::DropSet { .. } | Change::Upgrade => None,
    }
}

// The number and the text of the tune of the row at a place.
fn tune_at<D: Disk>(
    edit: &mut Edit<D>,
    layout: Layout,
    rows: &TieredVector<Row>,
    place: usize,
) -> Result<(u32, TuneText), Fault>
    requires place { place < length rows.now.items }
    requires holds { HonestAt D.honest edit.old.base.disk
        → HoldsTunesWithin layout edit.old.next rows.now.items }
    ensures number { IfOk result (λ tune. (d : Row)
        → (slice_index_or rows.now.items place d).number ≡ tune.0) }
    ensures tune { IfOk result (λ tune. HonestAt D.honest edit.new.base.disk
        → (ahead : List Part) (tunes : List Tune) → IsTunes layout tunes
        → HoldsTunes edit.old.next ahead tunes rows.now.items → IsTuneAt place tunes (Some tune)) }
    ensures consults { Consults D.Disk result edit.old edit.new }
{
    let row = rows.at(place);
    match read_tune_where(edit, layout, row.first, true) {
        Ok(text) => Ok((row.number, text)),
        Err(fault) => Err(fault),
    }
}

// The number and the text of the tune that a change replaces, takes out or moves, if it is such a
// change and there is such a tune.
fn old_tune<D: Disk>(
    edit: &mut Edit<D>,
    layout: Layout,
    rows: &TieredVector<Row>,
    change: &Change,
) -> Result<Option<(u32, TuneText)>, Fault>
    requires accept { RowsAccept change.now rows.now.items }
    requires holds { HonestAt D.honest edit.old.base.disk
        → HoldsTunesWithin layout edit.old.next rows.now.items }
    ensures tune { IfOk result (λ old. HonestAt D.honest edit.new.base.disk
        → (ahead : List Part) (tunes : List Tune) → IsTunes layout tunes
        → HoldsTunes edit.old.next ahead tunes rows.now.items → IsOldTune change.now tunes old) }
    ensures consults { Consults D.Disk result edit.old edit.new }
{
    edit.check()?;
    match old_place(rows, change) {
        Some(place) => match tune_at(edit, layout, rows, place) {
            Ok(tune) => Ok(Some(tune)),
            Err(fault) => Err(fault),
        },
        None => Ok(None),
    }
}

// The entries of texts, whose numbers are `first` and those after it.
fn runs_of(
    alloc: Global,
    notes: IncipitNotes,
    first: u32,
    texts: &[TuneText],
) -> Result<Option<Runs>, Fault>
    requires { first + length texts.now ≤ 2 ^ 32 }
    ensures notes { IfOk result (λ run. IsByNotes (note_count notes) run) }
    ensures runs { IfOk result (λ run. IsSome run × PutsIn run (texts_numbered first texts.now)) }
    ensures err { IfErr result (λ fault. fault ≡ OutOfMemory) }
{
    match Runs::new(alloc, notes, first, texts) {
        Ok(runs) => Ok(Some(runs)),
        Err(_) => Err(Fault::OutOfMemory),
    }
}

// What goes: the entries of the tune that a change replaces, takes out or moves.
fn runs_out(
    alloc: Global,
    notes: IncipitNotes,
    old: &Option<(u32, TuneText)>,
) -> Result<Option<Runs>, Fault>
    ensures notes { IfOk result (λ gone. IsByNotes (note_count notes) gone) }
    ensures runs { IfOk result (λ gone. AreRunsOut old.now gone) }
    ensures err { IfErr result (λ fault. fault ≡ OutOfMemory) }
{
    match old {
        Some((number, text)) => runs_of(alloc, notes, *number, slice::from_ref(text)),
        None => Ok(None),
    }
}

// What comes: the entries of the new texts, or of the tune that a change moves, by its new number.
fn runs_in(
    alloc: Global,
    notes: IncipitNotes,
    change: &Change,
    old: &Option<(u32, TuneText)>,
) -> Result<Option<Runs>, Fault>
    requires { HasSmallNumbers change.now }
    ensures notes { IfOk result (λ come. IsByNotes (note_count notes) come) }
    ensures runs { IfOk result (λ come. PutsIn come (coming change.now old.now)) }
    ensures err { IfErr result (λ fault. fault ≡ OutOfMemory) }
{
    match (change, old) {
        (Change::Add { first, texts }, _) => runs_of(alloc, notes, *first, texts),
        (Change::Put { tune, .. }, _) => {
            runs_of(alloc, notes, tune.number, slice::from_ref(&tune.text))
        }
        (Change::Move { to, .. }, Some((_, text))) => {
            runs_of(alloc, notes, *to, slice::from_ref(text))
        }
        (Change::Take { .. } | Change::Move { .. }, _) => Ok(None),
        (Change::NewSet { .. } | Change::AddPlace { .. }, _) => Ok(None),
        (Change::CutPlace { .. } | Change::DropSet { .. } | Change::Upgrade, _) => Ok(None),
    }
}

// What goes and what comes with a change of the tunes of these rows. The text of a tune that is
// replaced, taken out or moved is read; nothing is written.
pub(crate) fn text_runs<D: Disk>(
    edit: &mut Edit<D>,
    layout: Layout,
    notes: IncipitNotes,
    rows: &TieredVector<Row>,
    change: &Change,
) -> Result<TextRuns, Fault>
    requires accept { RowsAccept change.now rows.now.items }
    requires holds { HonestAt D.honest edit.old.base.disk
        → HoldsTunesWithin layout edit.old.next rows.now.items }
    ensures gone { IfOk result (λ runs. HonestAt D.honest edit.new.base.disk
        → (ahead : List Part) (tunes : List Tune) → IsTunes layout tunes → HoldsTunes
        edit.old.next ahead tunes rows.now.items → TakesSome runs.gone (numbered_texts tunes)) }
    ensures runs { IfOk result (λ runs. HonestAt D.honest edit.new.base.disk
        → (ahead : List Part) (tunes : List Tune) (sets : List TuneSet)
        → IsTunes layout tunes → HoldsTunes edit.old.next ahead tunes rows.now.items
        → CanChange change.now layout (labels_in rows.now.items) sets → ChangesTexts runs.gone
        runs.come (numbered_texts tunes) (numbered_texts (changed_tunes change.now tunes))) }
    ensures come { IfOk result (λ runs. IsSomeRun runs.come) }
    ensures gone_notes { IfOk result (λ runs. IsByNotes (note_count notes) runs.gone) }
    ensures come_notes { IfOk result (λ runs. IsByNotes (note_count notes) runs.come) }
    ensures consults { Consults D.Disk result edit.old edit.new }
{
    let old = match old_tune(edit, layout, rows, change) {
        Ok(old) => old,
        Err(fault) => return Err(fault),
    };
    let Ok(gone) = runs_out(edit.alloc(), notes, &old) else {
        return Err(edit.refuse());
    };
    let Ok(come) = runs_in(edit.alloc(), notes, change, &old) else {
        return Err(edit.refuse());
    };
    Ok(TextRuns { gone, come })
}

// Takes out of the search indexes what goes, if something does.
fn take_runs<D: Disk>(
    edit: &mut Edit<D>,
    searches: &mut SearchIndexes,
    gone: &Option<Runs>,
) -> Result<(), Fault>
    requires notes { IsByNotes searches.old.notes gone.now }
    requires holds { HonestAt D.honest edit.old.base.disk
        → HoldsSomeTexts edit.old.next searches.old }
    ensures notes { OnOk result (searches.new.notes ≡ searches.old.notes) }
    ensures lays { OnOk result (HonestAt D.honest edit.new.base.disk
        → TakesTexts edit.old.next edit.new.next searches.old searches.new gone.now) }
    ensures balance { OnOk result (free_pages edit.old.next.used + leaf_count searches.old
        ≡ free_pages edit.new.next.used + leaf_count searches.new) }
    ensures edits { Edits D.Disk result ⊥ edit.old edit.new }
{
    edit.check()?;
    let Some(gone) = gone else {
        return Ok(());
    };
    match searches.take(edit, gone) {
        Ok(()) => Ok(()),
        Err(fault) => Err(fault),
    }
}

// Puts into the search indexes what comes, if something does.
fn put_runs<D: Disk>(
    edit: &mut Edit<D>,
    searches: &mut SearchIndexes,
    come: &Option<Runs>,
) -> Result<(), Fault>
    requires holds { HonestAt D.honest edit.old.base.disk
        → HoldsSomeTexts edit.old.next searches.old }
    requires come { IsSomeRun come.now }
    requires notes { IsByNotes searches.old.notes come.now }
    ensures notes { OnOk result (searches.new.notes ≡ searches.old.notes) }
    ensures lays { OnOk result (HonestAt D.honest edit.new.base.disk
        → PutsTexts edit.old.next edit.new.next searches.old searches.new come.now) }
    ensures balance { OnOk result (free_pages edit.old.next.used + leaf_count searches.old
        ≡ free_pages edit.new.next.used + leaf_count searches.new) }
    ensures edits { Edits D.Disk result (HonestAt D.honest edit.new.base.disk
        → IsFullForTexts edit.old.next searches.old come.now) edit.old edit.new }
{
    edit.check()?;
    let Some(come) = come else {
        return Ok(());
    };
    match searches.put(edit, come) {
        Ok(()) => Ok(()),
        Err(fault) => Err(fault),
    }
}

// Takes out of the search indexes what goes and puts in what comes, stores their lists, and gives
// where these begin.
pub(crate) fn change_searches<D: Disk>(
    edit: &mut Edit<D>,
    searches: &mut SearchIndexes,
    runs: &TextRuns,
) -> Result<SearchFirsts, Fault>
    requires holds { HonestAt D.honest edit.old.base.disk
        → HoldsTextsWith edit.old.next searches.old runs.now.gone }
    requires come { IsSomeRun runs.now.come }
    requires gone_notes { IsByNotes searches.old.notes runs.now.gone }
    requires come_notes { IsByNotes searches.old.notes runs.now.come }
    ensures notes { OnOk result (searches.new.notes ≡ searches.old.notes) }
    ensures lays { OnOk result (HonestAt D.honest edit.new.base.disk → LaysTexts
        edit.old.next edit.new.next searches.old searches.new runs.now.gone runs.now.come) }
    ensures firsts { IfOk result (λ firsts. firsts ≡ firsts_in searches.new) }
    ensures listed { OnOk result (AreListed searches.new) }
    ensures takes { HonestAt D.honest edit.new.base.disk
        → (before after : List Part) (parts : SearchParts) (tunes others more : List (ℕ × List ℕ))
        → AreSmall tunes → TakesOut runs.now.gone tunes others
        → PutsIn runs.now.come more → HoldsTexts edit.old.next searches.old before after parts tunes
        → TakesAtMost (search_pages (length (others ++ more))) result edit.old.next edit.new.next }
    ensures edits { Edits D.Disk result (Unit {0}) edit.old edit.new }
{
    match take_runs(edit, searches, &runs.gone) {
        Ok(()) => {}
        Err(fault) => return Err(fault),
    }
    match put_runs(edit, searches, &runs.come) {
        Ok(()) => {}
        Err(fault) => return Err(fault),
    }
    // For the proof.
    law_of_search_pages();
    match searches.store(edit) {
        Ok(firsts) => Ok(firsts),
        Err(fault) => Err(fault),
    }
}
