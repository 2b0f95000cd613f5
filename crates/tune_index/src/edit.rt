// Leaves written, put in place of others, added and taken out.
ghost use Rattle.std.specs.Prelude.{◌≡◌, false, ℕ, List, ◌≤◌, ◌<◌, ◌+◌, ◌*◌, ◌++◌, length};
ghost use Rattle.std.specs.Prelude.{slice_index, slice_set, take, drop, OnOk};
ghost use Rattle.std.specs.List.{insert, remove};
ghost use Rattle.tune_pages.specs.Faults.{free_pages};
ghost use Rattle.tune_pages.specs.Frame.{InUse, Puts, image_at};
ghost use Rattle.index_keys.specs.Entries.{Entry};
ghost use Rattle.tune_pages.specs.Editing.{AltersEdit};
ghost use Rattle.tune_index.specs.Indexes.{HasPages, KeepsList, Reshapes};
ghost use Rattle.tune_index.specs.Inside.LeafLists.{HasLeaves, joined_leaves};
ghost use Rattle.tune_index.specs.Leaves.{IsLeaf, capacity, leaf_in, slice_entry};

use crate::index::{Index, leaf_count, leaf_page};
use crate::leaf::capacity_of;
use crate::leaf_edits::{first_in_image, write_leaf};
use index_keys::IndexKey;
use std::alloc::AllocError;
use tune_disk::Disk;
use tune_journal::PageImage;
use tune_pages::{Edit, Fault, law_of_frames};

// The image of a leaf goes into a page.
fn put_leaf<D: Disk, const W: usize>(
    edit: &mut Edit<D>,
    page: u32,
    image: &PageImage,
) -> Result<(), Fault>
    requires in_use { InUse edit.old.next page }
    requires form { IsLeaf W image.now.bytes }
    ensures leaf { OnOk result (leaf_in W (image_at edit.new.next page)
        ≡ leaf_in W image.now.bytes) }
    ensures form { OnOk result (IsLeaf W (image_at edit.new.next page)) }
    ensures used { OnOk result (edit.new.next.used ≡ edit.old.next.used) }
    ensures puts { OnOk result
        (Puts edit.old.next edit.new.next page (image_at edit.new.next page)) }
    ensures alters { AltersEdit result ⊥ edit.old edit.new }
{
    // For the proof.
    edit.law_of_pages();
    law_of_frames();
    edit.put_page(page, image)?;
    Ok(())
}

// The leaf goes into a page.
fn write_page_leaf<D: Disk, const W: usize>(
    edit: &mut Edit<D>,
    page: u32,
    leaf: &[(IndexKey<W>, u32)],
) -> Result<(), Fault>
    requires width { W ≤ 4090 }
    requires in_use { InUse edit.old.next page }
    requires some { 1 ≤ length leaf.now }
    requires within { length leaf.now ≤ capacity W }
    ensures leaf { OnOk result (leaf_in W (image_at edit.new.next page) ≡ leaf.now) }
    ensures form { OnOk result (IsLeaf W (image_at edit.new.next page)) }
    ensures used { OnOk result (edit.new.next.used ≡ edit.old.next.used) }
    ensures puts { OnOk result
        (Puts edit.old.next edit.new.next page (image_at edit.new.next page)) }
    ensures alters { AltersEdit result ⊥ edit.old edit.new }
{
    let mut image = PageImage::blank();
    write_leaf(leaf, &mut image);
    put_leaf::<D, W>(edit, page, &image)
}

// The image of a leaf goes into the page of the one at the place, and its first entry into memory.
fn replace_leaf<D: Disk, const W: usize>(
    edit: &mut Edit<D>,
    index: &mut Index<W>,
    place: usize,
    image: &PageImage,
) -> Result<(), Fault>
    requires place { place < length index.old.pages }
    requires in_use { InUse edit.old.next (slice_index index.old.pages place) }
    requires form { IsLeaf W image.now.bytes }
    ensures pages { OnOk result (index.new.pages ≡ index.old.pages) }
    ensures heads { OnOk result (index.new.heads
        ≡ slice_set index.old.heads place (slice_entry (leaf_in W image.now.bytes) 0)) }
    ensures list { OnOk result ((index.new.first ≡ index.old.first)
        × (index.new.listed ≡ index.old.listed)) }
    ensures leaf { OnOk result (leaf_in W
        (image_at edit.new.next (slice_index index.old.pages place)) ≡ leaf_in W image.now.bytes) }
    ensures form { OnOk result
        (IsLeaf W (image_at edit.new.next (slice_index index.old.pages place))) }
    ensures used { OnOk result (edit.new.next.used ≡ edit.old.next.used) }
    ensures puts { let page = slice_index index.old.pages place in
        OnOk result (Puts edit.old.next edit.new.next page (image_at edit.new.next page)) }
    ensures alters { AltersEdit result ⊥ edit.old edit.new }
{
    let page = index.pages[place];
    let head = first_in_image(image);
    put_leaf::<D, W>(edit, page, image)?;
    match index.heads.set(place, head) {
        Ok(()) => Ok(()),
        Err(_) => Err(edit.refuse()),
    }
}

// A page comes into the list of leaves, with the entry that begins it.
fn list_leaf<const W: usize>(
    index: &mut Index<W>,
    place: usize,
    page: u32,
    head: (IndexKey<W>, u32),
) -> Result<(), AllocError>
    requires { place ≤ length index.old.pages }
    ensures pages { OnOk result (index.new.pages ≡ insert index.old.pages place page) }
    ensures heads { OnOk result (index.new.heads ≡ insert index.old.heads place head.entry) }
    ensures list { OnOk result (KeepsList index.old index.new) }
{
    index.pages.reserve(1)?;
    index.heads.insert(place, head)?;
    index.pages.insert(place, page).unwrap();
    index.listed = false;
    Ok(())
}

// A page goes out of the list of leaves.
fn unlist_leaf<const W: usize>(index: &mut Index<W>, place: usize) -> Result<(), AllocError>
    requires { place < length index.old.pages }
    ensures pages { OnOk result (index.new.pages ≡ remove index.old.pages place) }
    ensures heads { OnOk result (index.new.heads ≡ remove index.old.heads place) }
    ensures list { OnOk result (KeepsList index.old index.new) }
{
    index.heads.remove(place)?;
    let _page = index.pages.remove(place);
    index.listed = false;
    Ok(())
}

// The image of a leaf goes in place of the one at the place.
pub(crate) fn set_image<D: Disk, const W: usize>(
    edit: &mut Edit<D>,
    index: &mut Index<W>,
    place: usize,
    image: &PageImage,
) -> Result<(), Fault>
    requires place { place < length index.old.pages }
    requires in_use { InUse edit.old.next (slice_index index.old.pages place) }
    requires form { IsLeaf W image.now.bytes }
    ensures same { OnOk result (index.new.pages ≡ index.old.pages) }
    ensures shape { OnOk result (Reshapes
        (HasPages edit.old.next index.old.pages) edit.old.next edit.new.next index.old index.new) }
    ensures leaves { OnOk result (HasPages edit.old.next index.old.pages
        → (leaves : List (List Entry)) → HasLeaves W edit.old.next index.old leaves → HasLeaves
        W edit.new.next index.new (slice_set leaves place (leaf_in W image.now.bytes))) }
    ensures alters { AltersEdit result ⊥ edit.old edit.new }
{
    replace_leaf(edit, index, place, image)?;
    Ok(())
}

// The leaf goes in place of the one at the place.
fn set_leaf<D: Disk, const W: usize>(
    edit: &mut Edit<D>,
    index: &mut Index<W>,
    place: usize,
    leaf: &[(IndexKey<W>, u32)],
) -> Result<(), Fault>
    requires place { place < length index.old.pages }
    requires in_use { InUse edit.old.next (slice_index index.old.pages place) }
    requires some { 1 ≤ length leaf.now }
    requires within { length leaf.now ≤ capacity W }
    ensures same { OnOk result (index.new.pages ≡ index.old.pages) }
    ensures shape { OnOk result (Reshapes
        (HasPages edit.old.next index.old.pages) edit.old.next edit.new.next index.old index.new) }
    ensures leaves { OnOk result (HasPages edit.old.next index.old.pages
        → (leaves : List (List Entry)) → HasLeaves W edit.old.next index.old leaves
        → HasLeaves W edit.new.next index.new (slice_set leaves place leaf.now)) }
    ensures alters { AltersEdit result ⊥ edit.old edit.new }
{
    // For the proof.
    let _count = leaf_count(index);
    let mut image = PageImage::blank();
    write_leaf(leaf, &mut image);
    set_image(edit, index, place, &image)
}

// The leaf goes into a page of its own, which comes to the place.
pub(crate) fn add_leaf<D: Disk, const W: usize>(
    edit: &mut Edit<D>,
    index: &mut Index<W>,
    place: usize,
    leaf: &[(IndexKey<W>, u32)],
) -> Result<(), Fault>
    requires place { place ≤ length index.old.pages }
    requires some { 1 ≤ length leaf.now }
    requires within { length leaf.now ≤ capacity W }
    ensures shape { OnOk result (Reshapes
        (HasPages edit.old.next index.old.pages) edit.old.next edit.new.next index.old index.new) }
    ensures count { OnOk result (length index.new.pages ≡ length index.old.pages + 1) }
    ensures leaves { OnOk result (HasPages edit.old.next index.old.pages
        → (leaves : List (List Entry)) → HasLeaves W edit.old.next index.old leaves
        → HasLeaves W edit.new.next index.new (insert leaves place leaf.now)) }
    ensures before { OnOk result ((other : ℕ) → other < place
        → slice_index index.new.pages other ≡ slice_index index.old.pages other) }
    ensures kept { OnOk result ((page : ℕ) → InUse edit.old.next page → InUse edit.new.next page) }
    ensures alters { AltersEdit result (free_pages edit.old.next.used ≡ 0) edit.old edit.new }
{
    // For the proof.
    law_of_frames();
    let _count = leaf_count(index);
    let first = &leaf[0];
    let head = (first.0.copy(), first.1);
    let page = match edit.allocate() {
        Ok(page) => page,
        Err(fault) => return Err(fault),
    };
    match write_page_leaf(edit, page, leaf) {
        Ok(()) => {}
        Err(fault) => return Err(fault),
    }
    match list_leaf(index, place, page, head) {
        Ok(()) => Ok(()),
        Err(_) => Err(edit.refuse()),
    }
}

// The leaf at the place is taken out, and its page is free.
pub(crate) fn drop_leaf<D: Disk, const W: usize>(
    edit: &mut Edit<D>,
    index: &mut Index<W>,
    place: usize,
) -> Result<(), Fault>
    requires place { place < length index.old.pages }
    requires in_use { InUse edit.old.next (slice_index index.old.pages place) }
    ensures shape { OnOk result (Reshapes
        (HasPages edit.old.next index.old.pages) edit.old.next edit.new.next index.old index.new) }
    ensures gone { OnOk result ((index.new.pages ≡ remove index.old.pages place)
        × (index.new.heads ≡ remove index.old.heads place)) }
    ensures leaves { OnOk result (HasPages edit.old.next index.old.pages
        → (leaves : List (List Entry)) → HasLeaves W edit.old.next index.old leaves
        → HasLeaves W edit.new.next index.new (remove leaves place)) }
    ensures alters { AltersEdit result ⊥ edit.old edit.new }
{
    // For the proof.
    law_of_frames();
    let page = leaf_page(index, place);
    match edit.free(page) {
        Ok(()) => {}
        Err(fault) => return Err(fault),
    }
    match unlist_leaf(index, place) {
        Ok(()) => Ok(()),
        Err(_) => Err(edit.refuse()),
    }
}

// How many entries go into each leaf where so many are spread over leaves: the fewest that want
// no more leaves than `most` in each do.
fn share_of(count: usize, most: usize) -> usize
    requires count { 1 ≤ count }
    requires most { 1 ≤ most }
    ensures some { 1 ≤ result }
    ensures within { result ≤ most }
    ensures enough { (leaves : ℕ) → count ≤ leaves * most → count ≤ leaves * result }
    ensures even { (share : ℕ) → ((leaves : ℕ) → count ≤ leaves * most → count ≤ leaves * share)
        → result ≤ share }
{
    let leaves = count.div_ceil(most);
    count.div_ceil(leaves)
}

// The entries go in place of those of the leaf at the place, into that leaf and as many new ones
// behind it as they need.
pub(crate) fn spread<D: Disk, const W: usize>(
    edit: &mut Edit<D>,
    index: &mut Index<W>,
    place: usize,
    entries: &[(IndexKey<W>, u32)],
) -> Result<(), Fault>
    requires place { place < length index.old.pages }
    requires in_use { InUse edit.old.next (slice_index index.old.pages place) }
    requires some { 1 ≤ length entries.now }
    ensures shape { OnOk result (Reshapes
        (HasPages edit.old.next index.old.pages) edit.old.next edit.new.next index.old index.new) }
    ensures some { OnOk result (0 < length index.new.pages) }
    ensures leaves { OnOk result (HasPages edit.old.next index.old.pages
        → (leaves : List (List Entry)) → HasLeaves W edit.old.next index.old leaves
        → (more : List (List Entry)) × HasLeaves W edit.new.next index.new more
        × (joined_leaves more ≡ joined_leaves (take place leaves)
        ++ (entries.now ++ joined_leaves (drop (place + 1) leaves)))) }
    ensures alters { AltersEdit result (free_pages edit.old.next.used + 1
        < length entries.now) edit.old edit.new }
{
    // For the proof.
    let _count = leaf_count(index);
    let next = place + 1;
    let share = share_of(entries.len(), capacity_of(W));
    let mut rest = entries.len();
    while rest > share {
        let from = rest - share;
        match add_leaf(edit, index, next, &entries[from..rest]) {
            Ok(()) => {}
            Err(fault) => return Err(fault),
        }
        rest = from;
    }
    match set_leaf(edit, index, place, &entries[..rest]) {
        Ok(()) => Ok(()),
        Err(fault) => Err(fault),
    }
}
