// What is looked for in an index, and leaves as they are read.
ghost use Rattle.std.specs.Prelude.{◌≡◌, ◌↔◌, ◌≤◌, ◌<◌, ◌++◌, length, IfOk, IsTrue, OnOk, false};
ghost use Rattle.std.specs.Prelude.{slice_index};
ghost use Rattle.tune_pages.specs.Frame.{InUse, image_at};
ghost use Rattle.tune_pages.specs.Kept.{HonestAt};
ghost use Rattle.tune_pages.specs.Editing.{Consults};
ghost use Rattle.index_keys.specs.Entries.{AllFit, IsRising, rank, values_within};
ghost use Rattle.tune_index.specs.Indexes.{HasPages, IsIndex, entries_of};
ghost use Rattle.tune_index.specs.Leaves.{IsLeaf, leaf_in, slice_entry};

use crate::index::{Index, leaf_count, leaf_for};
use crate::leaf::{add_values_of, is_leaf};
use index_keys::IndexKey;
use tune_disk::Disk;
use tune_journal::PageImage;
use tune_pages::{Edit, Fault};

// Puts the image of a page of an index in the place of `image`. A page that is not in use or is the
// root, which an honest disk does not show, closes the pages.
fn read_leaf_image<D: Disk>(
    edit: &mut Edit<D>,
    page: u32,
    image: &mut PageImage,
) -> Result<(), Fault>
    requires in_use { HonestAt D.honest edit.old.base.disk → InUse edit.old.next page }
    ensures image { OnOk result (HonestAt D.honest edit.new.base.disk
        → image.new.bytes ≡ image_at edit.old.next page) }
    ensures in_use { OnOk result (InUse edit.new.next page) }
    ensures consults { Consults D.Disk result edit.old edit.new }
{
    edit.check()?;
    if page == 0 || !edit.in_use(page) {
        return Err(edit.close());
    }
    edit.read_page_into(page, image)
}

// Puts the image of the leaf in a page in the place of `image`. A page that has none, which an
// honest disk does not show, closes the pages.
pub(crate) fn read_page_leaf<D: Disk, const W: usize>(
    edit: &mut Edit<D>,
    page: u32,
    image: &mut PageImage,
) -> Result<(), Fault>
    requires width { W ≤ 4090 }
    requires in_use { HonestAt D.honest edit.old.base.disk → InUse edit.old.next page }
    requires form { HonestAt D.honest edit.old.base.disk → IsLeaf W (image_at edit.old.next page) }
    ensures leaf { OnOk result (HonestAt D.honest edit.new.base.disk
        → image.new.bytes ≡ image_at edit.old.next page) }
    ensures form { OnOk result (IsLeaf W image.new.bytes) }
    ensures in_use { OnOk result (InUse edit.new.next page) }
    ensures consults { Consults D.Disk result edit.old edit.new }
{
    if let Err(fault) = read_leaf_image(edit, page, image) {
        return Err(fault);
    }
    if !is_leaf::<W>(image) {
        return Err(edit.close());
    }
    Ok(())
}

// The values of the entries of the leaf in a page that are in the range go to the end of the list.
// A page that has no leaf, which an honest disk does not show, closes the pages.
fn add_page_values<D: Disk, const W: usize>(
    edit: &mut Edit<D>,
    page: u32,
    low: &IndexKey<W>,
    high: &IndexKey<W>,
    values: &mut Vec<u32>,
) -> Result<(), Fault>
    requires width { W ≤ 4090 }
    requires in_use { HonestAt D.honest edit.old.base.disk → InUse edit.old.next page }
    requires form { HonestAt D.honest edit.old.base.disk → IsLeaf W (image_at edit.old.next page) }
    ensures values { let leaf = leaf_in W (image_at edit.old.next page) in
        OnOk result (HonestAt D.honest edit.new.base.disk → IsRising leaf → AllFit W leaf
        → values.new.items ≡ values.old.items ++ values_within low.now high.now leaf) }
    ensures consults { Consults D.Disk result edit.old edit.new }
{
    let mut image = PageImage::blank();
    if let Err(fault) = read_leaf_image(edit, page, &mut image) {
        return Err(fault);
    }
    match add_values_of(&image, low, high, values) {
        Ok(true) => Ok(()),
        Ok(false) => Err(edit.close()),
        Err(_) => Err(edit.refuse()),
    }
}

// Whether a leaf begins above the range.
fn begins_above<const W: usize>(index: &Index<W>, place: usize, high: &IndexKey<W>) -> bool
    requires { place < length index.now.pages }
    ensures { IsTrue result
        ↔ (rank (high.now, 0) < rank ((slice_entry index.now.heads place).0, 0)) }
{
    // For the proof.
    let _leaves = leaf_count(index);
    let head = &index.heads.as_slice()[place];
    high.is_before(0, &head.0, 0)
}

// The values of the entries of one leaf that are in the range go to the end of the list.
fn add_leaf_values<D: Disk, const W: usize>(
    edit: &mut Edit<D>,
    index: &Index<W>,
    place: usize,
    low: &IndexKey<W>,
    high: &IndexKey<W>,
    values: &mut Vec<u32>,
) -> Result<(), Fault>
    requires pages { HonestAt D.honest edit.old.base.disk → HasPages edit.old.next index.now.pages }
    requires index { HonestAt D.honest edit.old.base.disk → IsIndex W edit.old.next index.now }
    requires place { place < length index.now.pages }
    ensures values { OnOk result (HonestAt D.honest edit.new.base.disk
        → values.new.items ≡ values.old.items ++ values_within low.now high.now
        (leaf_in W (image_at edit.old.next (slice_index index.now.pages place)))) }
    ensures consults { Consults D.Disk result edit.old edit.new }
{
    let page = index.pages[place];
    match add_page_values(edit, page, low, high, values) {
        Ok(()) => Ok(()),
        Err(fault) => Err(fault),
    }
}

impl<const W: usize> Index<W> {
    /// The values of the entries whose keys are from `low` to `high`, both included, in order. Only
    /// the leaves that may have some of them are read.
    ///
    /// # Errors
    ///
    /// `OutOfMemory`; `Device` where the disk failed: the pages are then closed.
    pub fn candidates<D: Disk>(
        &self,
        edit: &mut Edit<D>,
        low: &IndexKey<W>,
        high: &IndexKey<W>,
    ) -> Result<Vec<u32>, Fault>
        requires pages { HonestAt D.honest edit.old.base.disk
            → HasPages edit.old.next self.now.pages }
        requires index { HonestAt D.honest edit.old.base.disk → IsIndex W edit.old.next self.now }
        ensures values { IfOk result (λ values. HonestAt D.honest edit.new.base.disk → values.items
            ≡ values_within low.now high.now (entries_of W edit.old.next self.now.pages)) }
        ensures consults { Consults D.Disk result edit.old edit.new }
    {
        edit.check()?;
        let mut values = Vec::new(edit.alloc());
        let leaves = leaf_count(self);
        if leaves == 0 {
            return Ok(values);
        }
        let start = leaf_for(self, low, 0);
        for place in start..leaves {
            if begins_above(self, place, high) {
                return Ok(values);
            }
            match add_leaf_values(edit, self, place, low, high, &mut values) {
                Ok(()) => {}
                Err(fault) => return Err(fault),
            }
        }
        Ok(values)
    }
}
