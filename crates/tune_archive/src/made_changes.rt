// A change of an archive, made on its pages.
ghost use Rattle.std.specs.Prelude.{◌≡◌, ◌≢◌, ◌≤◌, ◌-◌, ◌++◌, false, length, replicate};
ghost use Rattle.std.specs.Prelude.{IfErr, OnErr, OnOk};
ghost use Rattle.tune_contents.specs.Claimed.{AreRows};
ghost use Rattle.tune_contents.specs.Holds.{labels_in, HoldsSomeState};
ghost use Rattle.tune_pages.specs.Kept.{HonestAt, state_at};
ghost use Rattle.tune_pages.specs.declared.fault.Fault.TheVariants.{FileFull, Device};
ghost use Rattle.tune_format.specs.RootOffsets.{most_pages_of};
ghost use Rattle.tune_store.specs.Plans.{CanChange, changed};
ghost use Rattle.tune_store.specs.State.{IsState};
ghost use Rattle.tune_archive.specs.Shelf.{state_of};
ghost use Rattle.tune_archive.specs.Inside.Changing.{CallsWhere, PassesChange, HasLaid, StaysKept};
ghost use Rattle.tune_archive.specs.Inside.Changing.{StaysWithin, refusal_of_pages, closes};
ghost use Rattle.tune_archive.specs.Inside.Changing.{AnswersPages, MakesChange};
ghost use Rattle.tune_pages.specs.Edited.{stand_of};

use crate::archive::Archive;
use tune_contents::{Contents, Room, law_of_state_pages, lay};
use tune_disk::Disk;
use tune_format::most_pages;
use tune_pages::{Edit, Fault};
use tune_store::{Change, Layout, Refusal};

// The refusal that tells of a fault of pages. No archive that a device keeps as it was written
// comes to have too few pages.
fn refusal_of(fault: Fault) -> Refusal
    ensures { result ≡ refusal_of_pages fault }
{
    match fault {
        Fault::OutOfMemory => Refusal::OutOfMemory,
        Fault::Device | Fault::FileFull => Refusal::Device,
        Fault::Closed => Refusal::Closed,
    }
}

// Whether a fault of pages closes the archive.
fn closes(fault: Fault) -> bool
    ensures { result ≡ closes fault }
{
    matches!(fault, Fault::Device | Fault::FileFull)
}

// Lets there be as many pages as an archive of this layout may have, where there were no more.
fn give_pages<D: Disk>(edit: &mut Edit<D>, layout: Layout)
    requires open { edit.old.base.closed ≡ false }
    requires marks { length edit.old.base.used ≤ most_pages_of layout }
    ensures marks { length edit.new.base.used ≡ most_pages_of layout }
    ensures more { edit.new.base.used
        ≡ edit.old.base.used ++ replicate (most_pages_of layout - length edit.old.base.used) false }
    ensures same { (edit.new.base.disk ≡ edit.old.base.disk)
        × (edit.new.base.pages ≡ edit.old.base.pages) × (edit.new.base.closed ≡ false) }
{
    // For the proof: its contract says that there are no more pages than there may be.
    let _limit = edit.limit();
    edit.set_limit(most_pages(layout));
}

// Makes a change in one edit, whole or not at all. What is kept in memory changes once it is made.
fn change_pages<D: Disk>(
    room: &mut Room,
    edit: &mut Edit<D>,
    contents: &mut Contents,
    change: Change,
) -> Result<(), Fault>
    requires open { edit.old.base.closed ≡ false }
    requires possible { CanChange change contents.old.layout
        (labels_in contents.old.rows.items) contents.old.sets }
    requires holds { HonestAt D.honest edit.old.base.disk
        → HoldsSomeState (stand_of edit.old.base) contents.old }
    requires rows { AreRows contents.old.layout contents.old.rows.items }
    requires few { HonestAt D.honest edit.old.base.disk
        → length edit.old.base.pages ≤ length edit.old.base.used }
    requires many { length edit.old.base.used ≡ most_pages_of contents.old.layout }
    requires within { HonestAt D.honest edit.old.base.disk
        → StaysWithin (stand_of edit.old.base) contents.old change }
    ensures calls { CallsWhere D.honest D.failures result edit.old.base.disk edit.new.base.disk }
    ensures moments { HonestAt D.honest edit.new.base.disk
        → PassesChange (state_at D.state edit.old.base.disk)
        (state_at D.state edit.new.base.disk) (stand_of edit.old.base) contents.old change }
    ensures laid { OnOk result (HonestAt D.honest edit.new.base.disk
        → HasLaid D.state edit.old.base edit.new.base contents.old contents.new change) }
    ensures rows { OnOk result (AreRows contents.new.layout contents.new.rows.items) }
    ensures marks { OnOk result (length edit.new.base.used ≡ most_pages_of contents.new.layout) }
    ensures same { OnErr result (contents.new ≡ contents.old) }
    ensures stays { IfErr result (λ fault. fault ≢ Device
        → StaysKept D.honest D.state edit.old.base edit.new.base) }
    ensures answer { AnswersPages result edit.new.base.closed }
    ensures never_full { IfErr result (λ fault. HonestAt D.honest edit.new.base.disk
        → fault ≢ FileFull) }
{
    // For the proof.
    law_of_state_pages();
    // For the proof: its contract says that each page has the bytes of a block.
    let _limit = edit.limit();
    edit.begin()?;
    let next = lay(room, edit, contents, change)?;
    // For the proof.
    edit.law_of_pages();
    edit.finish()?;
    give_pages(edit, next.layout);
    contents.accept(room, next);
    Ok(())
}

impl<D: Disk> Archive<D> {
    // Makes a change, whole or not at all. It closes the archive where the device failed, and where
    // the pages are full, as they never are of a device that keeps what was written.
    pub(crate) fn make_change(&mut self, change: Change) -> Result<(), Refusal>
        requires open { self.old.closed ≡ false }
        requires possible { CanChange change self.old.contents.layout
            (labels_in self.old.contents.rows.items) self.old.contents.sets }
        requires within { HonestAt D.honest self.old.pages.disk
            → IsState (changed change (state_of D.state self.old)) }
        ensures { MakesChange D.Disk result self.old self.new change }
    {
        self.fetched = None;
        match change_pages(&mut self.room, &mut self.edit, &mut self.contents, change) {
            Ok(()) => Ok(()),
            Err(fault) => {
                // Its memory is given back.
                self.edit.end();
                self.closed = closes(fault);
                Err(refusal_of(fault))
            }
        }
    }
}
