// Layout 2, laid on the pages of an archive of layout 1.
ghost use Rattle.std.specs.Prelude.{◌≡◌, ℕ, List, false, length, IfOk, OnOk};
ghost use Rattle.tune_pages.specs.FreePages.{TakesAtMost};
ghost use Rattle.tune_pages.specs.Kept.{HonestAt};
ghost use Rattle.tune_pages.specs.Editing.{Consults};
ghost use Rattle.tune_parts.specs.Parts.{Part};
ghost use Rattle.tune_search.specs.IncipitRuns.{AreIncipitsOf, HoldsIncipits};
ghost use Rattle.tune_search.specs.SearchPages.{AreListed, firsts_in};
ghost use Rattle.tune_search.specs.Searches.{HoldsTexts, SearchParts};
ghost use Rattle.tune_store.specs.State.{State, IsState};
ghost use Rattle.tune_store.specs.TuneSteps.{upgraded_state};
ghost use Rattle.tune_store.specs.declared.layout.Layout.TheVariants.{One, Two};
ghost use Rattle.tune_pages.specs.Editing.{Edits};
ghost use Rattle.tune_contents.specs.Claimed.{AreRows};
ghost use Rattle.tune_contents.specs.Holds.{HoldsContents, HoldsMemory, HoldsSomeState};
ghost use Rattle.tune_contents.specs.Most.{most_part_pages};
ghost use Rattle.tune_contents.specs.Next.{FitsRows, memory_after, rows_after};
ghost use Rattle.tune_contents.specs.declared.contents.Contents.{Contents};
ghost use Rattle.tune_contents.specs.Inside.Changes.{HoldsTunesWithin};
ghost use Rattle.tune_contents.specs.Inside.Searching.{search_pages};
ghost use Rattle.tune_contents.specs.Inside.Upgrading.{AreOfTunes, LengthensTexts};

use crate::contents::Contents;
use crate::laid_chains::lay_root;
use crate::next::{Next, RowChange};
use crate::room::Room;
use crate::tune_reading::read_tune_where;
use tiered_vector::TieredVector;
use tune_disk::Disk;
use tune_format::{Firsts, Row};
use tune_pages::{Edit, Fault};
use tune_search::{IncipitNotes, IncipitRun, SearchFirsts, SearchIndexes, law_of_search_pages};
use tune_store::Layout;

// The incipits of the tunes of these rows by twelve notes. Their texts are read one at a time;
// nothing is written.
fn incipits_of<D: Disk>(
    edit: &mut Edit<D>,
    layout: Layout,
    rows: &TieredVector<Row>,
) -> Result<IncipitRun, Fault>
    requires rows { AreRows layout rows.now.items }
    requires holds { HonestAt D.honest edit.old.base.disk
        → HoldsTunesWithin layout edit.old.next rows.now.items }
    ensures some { IfOk result (λ run. (tunes : List (ℕ × List ℕ)) × AreIncipitsOf tunes run) }
    ensures run { IfOk result (λ run. HonestAt D.honest edit.new.base.disk
        → AreOfTunes layout edit.old.next rows.now.items run) }
    ensures consults { Consults D.Disk result edit.old edit.new }
{
    edit.check()?;
    let Ok(mut run) = IncipitRun::with_capacity(edit.alloc(), rows.len()) else {
        return Err(edit.refuse());
    };
    for place in 0..rows.len() {
        let row = rows.at(place);
        let text = match read_tune_where(edit, layout, row.first, false) {
            Ok(text) => text,
            Err(fault) => return Err(fault),
        };
        if run.add(row.number, &text).is_err() {
            return Err(edit.refuse());
        }
    }
    Ok(run.in_order())
}

// Brings the search indexes to incipits by twelve notes, stores their lists, and gives where these
// begin.
fn lengthen<D: Disk>(
    edit: &mut Edit<D>,
    searches: &mut SearchIndexes,
    run: &IncipitRun,
) -> Result<SearchFirsts, Fault>
    requires notes { searches.old.notes ≡ 8 }
    requires run { (tunes : List (ℕ × List ℕ)) × AreIncipitsOf tunes run.now }
    requires holds { HonestAt D.honest edit.old.base.disk
        → HoldsIncipits edit.old.next searches.old run.now }
    ensures notes { OnOk result (searches.new.notes ≡ 12) }
    ensures lays { OnOk result (HonestAt D.honest edit.new.base.disk
        → LengthensTexts edit.old.next edit.new.next searches.old searches.new run.now) }
    ensures firsts { IfOk result (λ firsts. firsts ≡ firsts_in searches.new) }
    ensures listed { OnOk result (AreListed searches.new) }
    ensures takes { HonestAt D.honest edit.new.base.disk → (before after : List Part)
        (parts : SearchParts) (tunes : List (ℕ × List ℕ)) → AreIncipitsOf tunes run.now
        → HoldsTexts edit.old.next searches.old before after parts tunes
        → TakesAtMost (search_pages (length tunes)) result edit.old.next edit.new.next }
    ensures edits { Edits D.Disk result (Unit {0}) edit.old edit.new }
{
    match searches.lengthen_incipits(edit, run) {
        Ok(()) => {}
        Err(fault) => return Err(fault),
    }
    // For the proof.
    law_of_search_pages();
    match searches.store(edit) {
        Ok(firsts) => Ok(firsts),
        Err(fault) => Err(fault),
    }
}

/// Lays layout 2 on the pages of an archive of layout 1, in an edit that was begun, and gives
/// what `contents` is to accept once the edit is finished. Until then it stays as it is: where the
/// edit ends otherwise, nothing was changed.
///
/// The text of each tune is read. The index of incipits by eight notes goes, with no page of it
/// read, its pages are free then, and that by twelve comes in; the root says the new layout and
/// where that begins.
///
/// - `lays`: where the pages held a state within the limits, they hold it in layout 2, and
///   memory has that of it which `accept` keeps.
/// - `rows`, of every disk: rows by rising number, within the limits of layout 2.
/// - `room`: the rows stay, as `accept` may let them.
/// - `looks`: no page of the disk changes.
/// - `edits`: the edit goes on where the call went well, and has ended where it was refused.
/// - `takes`: it takes no more free pages than the chains and leaves of a state of layout 1 have at
///   most; the file is full only where fewer are free.
///
/// # Errors
///
/// `FileFull`, where there is no page for a chain or a leaf; `OutOfMemory`; the pages stay open.
/// `Device`, where the device failed: the pages are closed then. `Closed`, where the edit had
/// ended.
pub fn upgrade<D: Disk>(
    room: &mut Room,
    edit: &mut Edit<D>,
    contents: &Contents,
) -> Result<Next, Fault>
    requires layout { contents.now.layout ≡ One }
    requires rows { AreRows One contents.now.rows.items }
    requires holds { HonestAt D.honest edit.old.base.disk
        → HoldsSomeState edit.old.next contents.now }
    ensures lays { IfOk result (λ next. HonestAt D.honest edit.new.base.disk
        → (state : State) → IsState state → HoldsContents edit.old.next contents.now state
        → HoldsMemory edit.new.next (memory_after next contents.now) (upgraded_state state)) }
    ensures rows { IfOk result (λ next.
        AreRows Two (rows_after next.rows contents.now.rows.items)) }
    ensures layout { IfOk result (λ next. next.layout ≡ Two) }
    ensures room { IfOk result (λ next.
        FitsRows next.rows contents.now.rows.items contents.now.rows.room) }
    ensures edits { Edits D.Disk result (Unit {0}) edit.old edit.new }
    ensures takes { HonestAt D.honest edit.new.base.disk
        → (state : State) → HoldsContents edit.old.next contents.now state
        → IsState state → TakesAtMost (most_part_pages One) result edit.old.next edit.new.next }
{
    edit.check()?;
    let Ok(numbers) = room.copy_numbers(&contents.numbers) else {
        return Err(edit.refuse());
    };
    let Ok(mut searches) = room.copy_searches(&contents.searches) else {
        return Err(edit.refuse());
    };
    let Ok(sets) = contents.sets.copy() else {
        return Err(edit.refuse());
    };
    match contents.searches.notes() {
        IncipitNotes::Eight => {}
        // An honest disk has no others in layout 1.
        IncipitNotes::Twelve => return Err(edit.close()),
    }
    let incipits = incipits_of(edit, Layout::One, &contents.rows)?;
    let was = contents.firsts;
    let firsts = Firsts {
        numbers: was.numbers,
        searches: lengthen(edit, &mut searches, &incipits)?,
        sets: was.sets,
    };
    lay_root(edit, Layout::Two, was, firsts)?;
    Ok(Next {
        layout: Layout::Two,
        rows: RowChange::Stay,
        numbers,
        searches,
        sets,
        firsts,
    })
}
