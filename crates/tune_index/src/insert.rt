// Entries put into an index and taken out of it.
ghost use Rattle.std.specs.Prelude.{◌≡◌, false, true, List, [], ◌-◌, ◌≤◌, ◌<◌, ◌+◌, ◌++◌};
ghost use Rattle.std.specs.Prelude.{length, IfOk, OnOk, slice_index, slice_index_or, take, drop};
ghost use Rattle.tune_pages.specs.Faults.{free_pages};
ghost use Rattle.tune_pages.specs.Frame.{InUse};
ghost use Rattle.tune_pages.specs.Kept.{HonestAt};
ghost use Rattle.index_keys.specs.Entries.{AllFit, Entry, FitsLeaf, IsRising, entry_inserted};
ghost use Rattle.index_keys.specs.Entries.{inserted_all, rank, removed};
ghost use Rattle.tune_pages.specs.Editing.{AltersEdit, Edits};
ghost use Rattle.tune_index.specs.Indexes.{AllLeaves, HasPages, IsIndex, Reshapes};
ghost use Rattle.tune_index.specs.Indexes.{entries_of};
ghost use Rattle.tune_index.specs.Inside.LeafLists.{HasLeaves, joined_leaves};
ghost use Rattle.tune_index.specs.Inside.EntryPlaces.{AllBelow};
ghost use Rattle.tune_index.specs.Leaves.{IsLeaf, leaf_in, slice_entry};

use crate::candidates::read_page_leaf;
use crate::edit::{add_leaf, drop_leaf, set_image, spread};
use crate::index::{Index, leaf_count, leaf_for, leaf_page};
use crate::leaf::{Leaf, capacity_of, leaf_entries};
use crate::leaf_edits::{insert_in_image, remove_in_image};
use crate::search::{insert_in, place_of};
use index_keys::IndexKey;
use std::alloc::AllocError;
use tune_disk::Disk;
use tune_journal::PageImage;
use tune_pages::{Edit, Fault};

// The entries go into a leaf, each in its place.
fn insert_each<const W: usize>(
    leaf: &mut Leaf<W>,
    part: &[(IndexKey<W>, u32)],
) -> Result<(), AllocError>
    requires { 1 ≤ length part.now }
    ensures ok { IsRising leaf.old.items
        → OnOk result (leaf.new.items ≡ inserted_all part.now leaf.old.items) }
    ensures some { OnOk result (1 ≤ length leaf.new.items) }
    ensures within { OnOk result
        (length leaf.new.items ≤ length leaf.old.items + length part.now) }
    ensures fit { OnOk result (AllFit W part.now) }
{
    for entry in part {
        // For the proof.
        let _bytes = entry.0.bytes();
        insert_in(leaf, entry.0.copy(), entry.1)?;
    }
    Ok(())
}

// The entries go into a leaf whose image was read, and into new leaves behind it where they want
// those.
fn spread_in_leaf<D: Disk, const W: usize>(
    edit: &mut Edit<D>,
    index: &mut Index<W>,
    place: usize,
    part: &[(IndexKey<W>, u32)],
    image: &PageImage,
) -> Result<(), Fault>
    requires place { place < length index.old.pages }
    requires in_use { InUse edit.old.next (slice_index index.old.pages place) }
    requires some { 1 ≤ length part.now }
    requires form { IsLeaf W image.now.bytes }
    ensures shape { OnOk result (Reshapes
        (HasPages edit.old.next index.old.pages) edit.old.next edit.new.next index.old index.new) }
    ensures some { OnOk result (0 < length index.new.pages) }
    ensures fit { OnOk result (AllFit W part.now) }
    ensures leaves { let leaf = leaf_in W image.now.bytes in
        OnOk result (HasPages edit.old.next index.old.pages
        → IsRising leaf → (leaves : List (List Entry)) → HasLeaves W edit.old.next index.old leaves
        → (more : List (List Entry)) × HasLeaves W edit.new.next index.new more
        × (joined_leaves more ≡ joined_leaves (take place leaves)
        ++ (inserted_all part.now leaf ++ joined_leaves (drop (place + 1) leaves)))) }
    ensures alters { let leaf = leaf_in W image.now.bytes in
        AltersEdit result (IsRising leaf → free_pages edit.old.next.used + 1
        < length (inserted_all part.now leaf)) edit.old edit.new }
{
    // For the proof.
    let _count = leaf_count(index);
    let mut leaf = match leaf_entries(edit.alloc(), image, part.len()) {
        Ok(leaf) => leaf,
        Err(_) => return Err(edit.refuse()),
    };
    if let Err(_) = insert_each(&mut leaf, part) {
        return Err(edit.refuse());
    }
    match spread(edit, index, place, &leaf) {
        Ok(()) => Ok(()),
        Err(fault) => Err(fault),
    }
}

// Entries that are one alone go into the leaf in the image, which changes in its place. Where they
// are more, or there is no room, it stays, and the answer is false.
fn insert_alone<const W: usize>(image: &mut PageImage, part: &[(IndexKey<W>, u32)]) -> bool
    requires width { W ≤ 4090 }
    requires form { IsLeaf W image.old.bytes }
    ensures form { IsLeaf W image.new.bytes }
    ensures entries { result ≡ true → IsRising (leaf_in W image.old.bytes)
        → leaf_in W image.new.bytes ≡ inserted_all part.now (leaf_in W image.old.bytes) }
    ensures fit { result ≡ true → AllFit W part.now }
    ensures full { result ≡ false → image.new.bytes ≡ image.old.bytes }
{
    if part.len() != 1 {
        return false;
    }
    let entry = &part[0];
    // For the proof.
    check_entry(entry);
    insert_in_image(image, &entry.0, entry.1)
}

// The entries go into a leaf whose image was read. Where one alone goes into it, no list is made of
// its entries.
fn insert_in_leaf<D: Disk, const W: usize>(
    edit: &mut Edit<D>,
    index: &mut Index<W>,
    place: usize,
    part: &[(IndexKey<W>, u32)],
    image: &mut PageImage,
) -> Result<(), Fault>
    requires place { place < length index.old.pages }
    requires in_use { InUse edit.old.next (slice_index index.old.pages place) }
    requires some { 1 ≤ length part.now }
    requires form { IsLeaf W image.old.bytes }
    ensures shape { OnOk result (Reshapes
        (HasPages edit.old.next index.old.pages) edit.old.next edit.new.next index.old index.new) }
    ensures some { OnOk result (0 < length index.new.pages) }
    ensures fit { OnOk result (AllFit W part.now) }
    ensures leaves { let leaf = leaf_in W image.old.bytes in
        OnOk result (HasPages edit.old.next index.old.pages
        → IsRising leaf → (leaves : List (List Entry)) → HasLeaves W edit.old.next index.old leaves
        → (more : List (List Entry)) × HasLeaves W edit.new.next index.new more
        × (joined_leaves more ≡ joined_leaves (take place leaves)
        ++ (inserted_all part.now leaf ++ joined_leaves (drop (place + 1) leaves)))) }
    ensures alters { let leaf = leaf_in W image.old.bytes in
        AltersEdit result (IsRising leaf → free_pages edit.old.next.used + 1
        < length (inserted_all part.now leaf)) edit.old edit.new }
{
    // For the proof.
    let _count = leaf_count(index);
    if insert_alone(image, part) {
        match set_image(edit, index, place, image) {
            Ok(()) => return Ok(()),
            Err(fault) => return Err(fault),
        }
    }
    match spread_in_leaf(edit, index, place, part, image) {
        Ok(()) => Ok(()),
        Err(fault) => Err(fault),
    }
}

// The entries of a part of a run go into the leaf where they belong.
fn insert_part<D: Disk, const W: usize>(
    edit: &mut Edit<D>,
    index: &mut Index<W>,
    place: usize,
    part: &[(IndexKey<W>, u32)],
) -> Result<(), Fault>
    requires pages { HonestAt D.honest edit.old.base.disk → HasPages edit.old.next index.old.pages }
    requires form { HonestAt D.honest edit.old.base.disk
        → AllLeaves W edit.old.next index.old.pages }
    requires place { place < length index.old.pages }
    requires some { 1 ≤ length part.now }
    ensures shape { OnOk result (Reshapes
        (HonestAt D.honest edit.new.base.disk) edit.old.next edit.new.next index.old index.new) }
    ensures some { OnOk result (0 < length index.new.pages) }
    ensures fit { OnOk result (AllFit W part.now) }
    ensures leaves { OnOk result (HonestAt D.honest edit.new.base.disk
        → (leaves : List (List Entry))
        → HasLeaves W edit.old.next index.old leaves → IsRising (slice_index_or leaves place [])
        → (more : List (List Entry)) × HasLeaves W edit.new.next index.new more
        × (joined_leaves more ≡ joined_leaves (take place leaves) ++ (inserted_all part.now
        (slice_index_or leaves place []) ++ joined_leaves (drop (place + 1) leaves)))) }
    ensures edits { Edits D.Disk result (HonestAt D.honest edit.new.base.disk
        → (leaves : List (List Entry)) → HasLeaves W edit.old.next index.old leaves
        → IsRising (slice_index_or leaves place []) → free_pages edit.old.next.used + 1
        < length (inserted_all part.now (slice_index_or leaves place []))) edit.old edit.new }
{
    // For the proof.
    let _count = leaf_count(index);
    let page = leaf_page(index, place);
    let mut image = PageImage::blank();
    match read_page_leaf::<D, W>(edit, page, &mut image) {
        Ok(()) => {}
        Err(fault) => return Err(fault),
    }
    match insert_in_leaf(edit, index, place, part, &mut image) {
        Ok(()) => Ok(()),
        Err(fault) => Err(fault),
    }
}

// How many entries of a run stand before another one; one at least.
fn count_below<const W: usize>(run: &[(IndexKey<W>, u32)], key: &IndexKey<W>, value: u32) -> usize
    requires { 0 < length run.now }
    ensures some { 1 ≤ result }
    ensures within { result ≤ length run.now }
    ensures below { IsRising run.now
        → rank (slice_entry run.now 0) < rank (key.now, value)
        → AllBelow (rank (key.now, value)) (take result run.now) }
{
    let count = place_of(run, key, value);
    if count == 0 { 1 } else { count }
}

// Where the entries of a run end that belong into the leaf, which the one at `at` does.
fn part_end<const W: usize>(
    index: &Index<W>,
    place: usize,
    run: &[(IndexKey<W>, u32)],
    at: usize,
) -> usize
    requires place { place < length index.now.pages }
    requires at { at < length run.now }
    ensures later { at < result }
    ensures within { result ≤ length run.now }
    ensures below { IsRising (drop at run.now) → place + 1 < length index.now.heads
        → rank (slice_entry run.now at) < rank (slice_entry index.now.heads (place + 1))
        → AllBelow (rank (slice_entry index.now.heads (place + 1)))
        (take (result - at) (drop at run.now)) }
{
    let leaves = leaf_count(index);
    if place + 1 < leaves {
        let next = &index.heads.as_slice()[place + 1];
        at + count_below(&run[at..], &next.0, next.1)
    } else {
        run.len()
    }
}

// The entries from `at` on that belong into one leaf go into it; the answer is where they end.
fn insert_from<D: Disk, const W: usize>(
    edit: &mut Edit<D>,
    index: &mut Index<W>,
    run: &[(IndexKey<W>, u32)],
    at: usize,
) -> Result<usize, Fault>
    requires pages { HonestAt D.honest edit.old.base.disk → HasPages edit.old.next index.old.pages }
    requires index { HonestAt D.honest edit.old.base.disk → IsIndex W edit.old.next index.old }
    requires some { 0 < length index.old.pages }
    requires rising { IsRising (drop at run.now) }
    requires at { at < length run.now }
    ensures shape { OnOk result (Reshapes
        (HonestAt D.honest edit.new.base.disk) edit.old.next edit.new.next index.old index.new) }
    ensures some { OnOk result (0 < length index.new.pages) }
    ensures later { IfOk result (λ end. at < end) }
    ensures within { IfOk result (λ end. end ≤ length run.now) }
    ensures entries { IfOk result (λ end. HonestAt D.honest edit.new.base.disk → IsIndex
        W edit.new.next index.new × (entries_of W edit.new.next index.new.pages ≡ inserted_all
        (take (end - at) (drop at run.now)) (entries_of W edit.old.next index.old.pages))) }
    ensures edits { Edits D.Disk result (HonestAt D.honest edit.new.base.disk
        → free_pages edit.old.next.used + length index.old.pages < length (inserted_all
        (drop at run.now) (entries_of W edit.old.next index.old.pages))) edit.old edit.new }
{
    let entry = &run[at];
    let place = leaf_for(index, &entry.0, entry.1);
    let end = part_end(index, place, run, at);
    match insert_part(edit, index, place, &run[at..end]) {
        Ok(()) => Ok(end),
        Err(fault) => Err(fault),
    }
}

// How great a key and its value are at most.
fn check_entry<const W: usize>(entry: &(IndexKey<W>, u32))
    ensures { FitsLeaf W entry.now }
{
    // For the proof.
    let _key = entry.0.bytes();
    let _value = entry.1;
}

// How great the keys of a run and their values are at most.
fn check_run<const W: usize>(run: &[(IndexKey<W>, u32)])
    ensures { AllFit W run.now }
{
    // For the proof.
    for entry in run {
        check_entry(entry);
    }
}

// The entries of a run make the leaves, where there is none: a leaf of the first one, in whose
// place they all go, so that no list is made of them. The answer is how many went in.
fn insert_first<D: Disk, const W: usize>(
    edit: &mut Edit<D>,
    index: &mut Index<W>,
    run: &[(IndexKey<W>, u32)],
) -> Result<usize, Fault>
    requires some { 1 ≤ length run.now }
    requires rising { IsRising run.now }
    ensures shape { OnOk result (Reshapes
        (HasPages edit.old.next index.old.pages) edit.old.next edit.new.next index.old index.new) }
    ensures some { OnOk result (0 < length index.new.pages) }
    ensures within { IfOk result (λ at. at ≤ length run.now) }
    ensures entries { IfOk result (λ at. IsIndex W edit.old.next index.old
        → IsIndex W edit.new.next index.new × (entries_of W edit.new.next index.new.pages
        ≡ inserted_all (take at run.now) (entries_of W edit.old.next index.old.pages))) }
    ensures alters { AltersEdit result ((length index.old.pages ≡ 0)
        × (free_pages edit.old.next.used < length run.now)) edit.old edit.new }
{
    edit.check()?;
    let leaves = leaf_count(index);
    if leaves > 0 {
        return Ok(0);
    }
    // For the proof.
    let _room = capacity_of(W);
    check_run(run);
    match add_leaf(edit, index, 0, &run[..1]) {
        Ok(()) => {}
        Err(fault) => return Err(fault),
    }
    match spread(edit, index, 0, run) {
        Ok(()) => Ok(run.len()),
        Err(fault) => Err(fault),
    }
}

impl<const W: usize> Index<W> {
    /// Puts in entries that rise by key and then value, each of which may be there. Every leaf that
    /// gets some of them is read and written once.
    ///
    /// # Errors
    ///
    /// `FileFull` only where fewer pages are free than the new leaves want, which are no more than
    /// the entries that there would be; `OutOfMemory`; `Device` where the disk failed: the pages
    /// are then closed. `Closed`. The index is then to be dropped.
    pub fn insert_all<D: Disk>(
        &mut self,
        edit: &mut Edit<D>,
        run: &[(IndexKey<W>, u32)],
    ) -> Result<(), Fault>
        requires pages { HonestAt D.honest edit.old.base.disk
            → HasPages edit.old.next self.old.pages }
        requires index { HonestAt D.honest edit.old.base.disk → IsIndex W edit.old.next self.old }
        requires rising { IsRising run.now }
        ensures shape { OnOk result (Reshapes
            (HonestAt D.honest edit.new.base.disk) edit.old.next edit.new.next self.old self.new) }
        ensures entries { OnOk result (HonestAt D.honest edit.new.base.disk
            → IsIndex W edit.new.next self.new × (entries_of W edit.new.next self.new.pages
            ≡ inserted_all run.now (entries_of W edit.old.next self.old.pages))) }
        ensures edits { Edits D.Disk result (HonestAt D.honest edit.new.base.disk
            → free_pages edit.old.next.used + length self.old.pages < length
            (inserted_all run.now (entries_of W edit.old.next self.old.pages))) edit.old edit.new }
    {
        edit.check()?;
        if run.is_empty() {
            return Ok(());
        }
        let mut at = match insert_first(edit, self, run) {
            Ok(at) => at,
            Err(fault) => return Err(fault),
        };
        while at < run.len() {
            match insert_from(edit, self, run, at) {
                Ok(end) => at = end,
                Err(fault) => return Err(fault),
            }
        }
        Ok(())
    }

    /// Puts in an entry, unless it is there.
    ///
    /// # Errors
    ///
    /// As of `insert_all`.
    pub fn insert<D: Disk>(
        &mut self,
        edit: &mut Edit<D>,
        key: IndexKey<W>,
        value: u32,
    ) -> Result<(), Fault>
        requires pages { HonestAt D.honest edit.old.base.disk
            → HasPages edit.old.next self.old.pages }
        requires index { HonestAt D.honest edit.old.base.disk → IsIndex W edit.old.next self.old }
        ensures shape { OnOk result (Reshapes
            (HonestAt D.honest edit.new.base.disk) edit.old.next edit.new.next self.old self.new) }
        ensures entries { OnOk result (HonestAt D.honest edit.new.base.disk
            → IsIndex W edit.new.next self.new × (entries_of W edit.new.next self.new.pages
            ≡ entry_inserted (key.entry, value) (entries_of W edit.old.next self.old.pages))) }
        ensures edits { Edits D.Disk result (HonestAt D.honest edit.new.base.disk
            → free_pages edit.old.next.used + length self.old.pages < length (entry_inserted
            (key.entry, value) (entries_of W edit.old.next self.old.pages))) edit.old edit.new }
    {
        let mut run = Vec::new(edit.alloc());
        match run.push((key, value)) {
            Ok(()) => {}
            Err(_) => return Err(edit.refuse()),
        }
        match self.insert_all(edit, &run) {
            Ok(()) => Ok(()),
            Err(fault) => Err(fault),
        }
    }

    /// Takes out an entry, if it is there. A leaf that loses its last entry goes, and its page is
    /// free.
    ///
    /// # Errors
    ///
    /// `OutOfMemory`; `Device` where the disk failed: the pages are then closed. `Closed`. The
    /// index is then to be dropped.
    pub fn remove<D: Disk>(
        &mut self,
        edit: &mut Edit<D>,
        key: &IndexKey<W>,
        value: u32,
    ) -> Result<(), Fault>
        requires pages { HonestAt D.honest edit.old.base.disk
            → HasPages edit.old.next self.old.pages }
        requires index { HonestAt D.honest edit.old.base.disk → IsIndex W edit.old.next self.old }
        ensures shape { OnOk result (Reshapes
            (HonestAt D.honest edit.new.base.disk) edit.old.next edit.new.next self.old self.new) }
        ensures entries { OnOk result (HonestAt D.honest edit.new.base.disk
            → IsIndex W edit.new.next self.new × (entries_of W edit.new.next self.new.pages
            ≡ removed (key.now, value) (entries_of W edit.old.next self.old.pages))) }
        ensures edits { Edits D.Disk result ⊥ edit.old edit.new }
    {
        edit.check()?;
        let leaves = leaf_count(self);
        if leaves == 0 {
            return Ok(());
        }
        let place = leaf_for(self, key, value);
        match remove_at(edit, self, place, key, value) {
            Ok(()) => Ok(()),
            Err(fault) => Err(fault),
        }
    }
}

// The entry goes out of the leaf at the place.
fn remove_at<D: Disk, const W: usize>(
    edit: &mut Edit<D>,
    index: &mut Index<W>,
    place: usize,
    key: &IndexKey<W>,
    value: u32,
) -> Result<(), Fault>
    requires pages { HonestAt D.honest edit.old.base.disk → HasPages edit.old.next index.old.pages }
    requires form { HonestAt D.honest edit.old.base.disk
        → AllLeaves W edit.old.next index.old.pages }
    requires place { place < length index.old.pages }
    ensures shape { OnOk result (Reshapes
        (HonestAt D.honest edit.new.base.disk) edit.old.next edit.new.next index.old index.new) }
    ensures leaves { OnOk result (HonestAt D.honest edit.new.base.disk
        → (leaves : List (List Entry))
        → HasLeaves W edit.old.next index.old leaves → IsRising (slice_index_or leaves place [])
        → (more : List (List Entry)) × HasLeaves W edit.new.next index.new more
        × (joined_leaves more ≡ joined_leaves (take place leaves) ++ (removed (key.now, value)
        (slice_index_or leaves place []) ++ joined_leaves (drop (place + 1) leaves)))) }
    ensures edits { Edits D.Disk result ⊥ edit.old edit.new }
{
    // For the proof.
    let _count = leaf_count(index);
    let page = leaf_page(index, place);
    let mut image = PageImage::blank();
    match read_page_leaf::<D, W>(edit, page, &mut image) {
        Ok(()) => {}
        Err(fault) => return Err(fault),
    }
    if remove_in_image(&mut image, key, value) {
        match set_image(edit, index, place, &image) {
            Ok(()) => return Ok(()),
            Err(fault) => return Err(fault),
        }
    }
    match drop_leaf(edit, index, place) {
        Ok(()) => Ok(()),
        Err(fault) => Err(fault),
    }
}
