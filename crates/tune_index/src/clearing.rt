// All entries of an index taken out.
ghost use Rattle.std.specs.Prelude.{◌≡◌, ◌+◌, [], false, length, IfOk, IsTrue, OnOk};
ghost use Rattle.tune_pages.specs.Faults.{free_pages};
ghost use Rattle.tune_pages.specs.Frame.{TradesPages};
ghost use Rattle.tune_pages.specs.Kept.{HonestAt};
ghost use Rattle.tune_pages.specs.Editing.{AltersEdit, Edits};
ghost use Rattle.tune_index.specs.Indexes.{HasPages, KeepsList, Reshapes};

use crate::edit::drop_leaf;
use crate::index::{Index, leaf_count, leaf_page};
use tune_disk::Disk;
use tune_pages::{Edit, Fault};

// The leaves are taken out, from the last one to the first, and their pages are free. Where the
// page of one is not in use, that one and those before it stay, and the answer is false.
fn drop_leaves<D: Disk, const W: usize>(
    edit: &mut Edit<D>,
    index: &mut Index<W>,
) -> Result<bool, Fault>
    ensures shape { OnOk result (Reshapes
        (HasPages edit.old.next index.old.pages) edit.old.next edit.new.next index.old index.new) }
    ensures all { IfOk result (λ all. HasPages edit.old.next index.old.pages → IsTrue all) }
    ensures leaves { IfOk result (λ all. IsTrue all
        → (index.new.pages ≡ []) × (index.new.heads ≡ [])) }
    ensures alters { AltersEdit result ⊥ edit.old edit.new }
{
    edit.check()?;
    let mut rest = leaf_count(index);
    while rest > 0 {
        let place = rest - 1;
        let page = leaf_page(index, place);
        if page == 0 || !edit.in_use(page) {
            return Ok(false);
        }
        match drop_leaf(edit, index, place) {
            Ok(()) => {}
            Err(fault) => return Err(fault),
        }
        rest = place;
    }
    Ok(true)
}

impl<const W: usize> Index<W> {
    /// Takes out all entries: each leaf goes, and its page is free. No page is read, and none is
    /// written.
    ///
    /// # Errors
    ///
    /// `OutOfMemory`; `Device` where a page is not in use, which an honest disk never shows: the
    /// pages are then closed. `Closed`. The index is then to be dropped.
    pub fn clear<D: Disk>(&mut self, edit: &mut Edit<D>) -> Result<(), Fault>
        requires pages { HonestAt D.honest edit.old.base.disk
            → HasPages edit.old.next self.old.pages }
        ensures list { OnOk result (KeepsList self.old self.new) }
        ensures leaves { OnOk result ((self.new.pages ≡ []) × (self.new.heads ≡ [])) }
        ensures trades { OnOk result (HonestAt D.honest edit.new.base.disk
            → TradesPages self.old.pages self.new.pages edit.old.next edit.new.next) }
        ensures balance { OnOk result (free_pages edit.new.next.used
            ≡ free_pages edit.old.next.used + length self.old.pages) }
        ensures disk { edit.new.base.disk ≡ edit.old.base.disk }
        ensures edits { Edits D.Disk result ⊥ edit.old edit.new }
    {
        match drop_leaves(edit, self) {
            Ok(true) => Ok(()),
            Ok(false) => Err(edit.close()),
            Err(fault) => Err(fault),
        }
    }
}
