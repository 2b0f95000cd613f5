// An index that is opened: its leaves are claimed, and read.
ghost use Rattle.std.specs.Prelude.{◌≡◌, ◌+◌, ◌*◌, ◌^◌, ◌<◌, ◌≤◌, ◌++◌, [], ◌∷◌, true, false};
ghost use Rattle.std.specs.Prelude.{length, drop, slice_set, ℕ, IfOk, IfErr, IfSome, None, OnOk};
ghost use Rattle.tune_journal.specs.Pages.{page_at};
ghost use Rattle.tune_pages.specs.Claim.{IsChainFault, LooksOpening};
ghost use Rattle.tune_pages.specs.Stand.{IsFree};
ghost use Rattle.index_keys.specs.Entries.{AllFit, IsRising};
ghost use Rattle.tune_index.specs.Inside.Loading.{LoadsLeaf};
ghost use Rattle.tune_index.specs.Leaves.{leaf_in, value_in, IsLeaf};
ghost use Rattle.tune_index.specs.ListedLeaves.{IsStored, LoadsIndex, index_with, listed_bytes};
ghost use Rattle.tune_index.specs.ListedLeaves.{numbers_in, pages_claimed};

use crate::index::Index;
use crate::leaf::{capacity_of, entry_at, is_leaf, leaf_length, page_bytes, read_value};
use crate::leaf_edits::first_in_image;
use index_keys::{EntryList, IndexKey};
use std::alloc::{AllocError, Global};
use tune_disk::Disk;
use tune_journal::PageImage;
use tune_pages::{ClaimFault, Opening, pages_for};

// How many numbers are listed in the bytes, where these are such a list.
fn count_numbers(bytes: &[u8]) -> Option<usize>
    ensures size { IfSome result (λ count. length bytes.now ≡ count * 4) }
    ensures listed { IfSome result (λ count.
        listed_bytes (numbers_in count bytes.now) ≡ bytes.now) }
    ensures none { result ≡ None → (count : ℕ) → length bytes.now ≡ count * 4 → ⊥ }
{
    if bytes.len() % 4 == 0 {
        Some(bytes.len() / 4)
    } else {
        None
    }
}

// The number at a place of a list, from 0 on.
fn number_at(bytes: &[u8], place: usize) -> u32
    requires { 4 * (place + 1) ≤ length bytes.now }
    ensures { result ≡ value_in (drop (4 * place) bytes.now) }
{
    read_value(&bytes[4 * place..])
}

// The entries of a leaf come behind the others, where all rise; otherwise false.
fn join_leaf<L: EntryList<W>, const W: usize>(
    entries: &mut L,
    image: &PageImage,
) -> Result<bool, AllocError>
    requires width { W ≤ 4090 }
    requires form { IsLeaf W image.now.bytes }
    requires rising { IsRising (L.entries entries.old) }
    requires room { length (L.entries entries.old) + length (leaf_in W image.now.bytes) < 2 ^ 32 }
    ensures yes { IfOk result (λ joined. joined ≡ true
        → (L.entries entries.new ≡ L.entries entries.old ++ leaf_in W image.now.bytes)
        × IsRising (L.entries entries.new)) }
    ensures fit { IfOk result (λ joined. joined ≡ true → AllFit W (leaf_in W image.now.bytes)) }
    ensures no { IfOk result (λ joined. joined ≡ false
        → IsRising (L.entries entries.old ++ leaf_in W image.now.bytes) → ⊥) }
{
    let count = leaf_length::<W>(image);
    let mut rest = &page_bytes(image)[2..];
    for done in 0..count {
        let (key, value) = entry_at(rest);
        if !entries.put_behind(key, value)? {
            return Ok(false);
        }
        rest = &rest[W + 4..];
    }
    Ok(true)
}

// A page comes to the end of the list of leaves, with the entry that begins it.
fn push_leaf<const W: usize>(
    index: &mut Index<W>,
    page: u32,
    head: (IndexKey<W>, u32),
) -> Result<(), AllocError>
    ensures pages { OnOk result (index.new.pages ≡ index.old.pages ++ page ∷ []) }
    ensures heads { OnOk result (index.new.heads ≡ index.old.heads ++ head.entry ∷ []) }
    ensures list { OnOk result ((index.new.first ≡ index.old.first)
        × (index.new.listed ≡ index.old.listed)) }
{
    index.pages.reserve(1)?;
    index.heads.push(head)?;
    index.pages.push(page).unwrap();
    Ok(())
}

// How many entries so many leaves have at most, for which memory is made ready.
fn most_entries(leaves: usize, width: usize) -> usize
    requires { width ≤ 4090 }
{
    leaves.saturating_mul(capacity_of(width))
}

// Claims the page of the next leaf, and adds its entries to those before it. The image is where the
// page is read.
fn load_leaf<D: Disk, L: EntryList<W>, const W: usize>(
    opening: &mut Opening<D>,
    page: u32,
    most: u32,
    image: &mut PageImage,
    index: &mut Index<W>,
    entries: &mut L,
) -> Result<(), ClaimFault>
    requires width { W ≤ 4090 }
    requires rising { IsRising (L.entries entries.old) }
    requires few { length (L.entries entries.old) ≤ most }
    ensures free { OnOk result (IsFree opening.old.claimed page
        × (opening.new.claimed ≡ slice_set opening.old.claimed page true)) }
    ensures leaf { OnOk result (D.honest opening.new.disk → LoadsLeaf W opening.old.pages page
        (index_with index.old (L.entries entries.old))
        (index_with index.new (L.entries entries.new))) }
    ensures rising { OnOk result (IsRising (L.entries entries.new)) }
    ensures few { OnOk result (length (L.entries entries.new) ≤ most) }
    ensures damaged { IfErr result (λ fault. D.honest opening.new.disk → IsChainFault fault
        (IsFree opening.old.claimed page × IsLeaf W (page_at opening.old.pages page)
        × IsRising (L.entries entries.old ++ leaf_in W (page_at opening.old.pages page))
        × (length (L.entries entries.old ++ leaf_in W (page_at opening.old.pages page)) ≤ most))) }
    ensures looks { LooksOpening D.honest D.failures D.state result opening.old opening.new }
{
    opening.claim_page_into(page, image)?;
    if !is_leaf::<W>(image) {
        return Err(ClaimFault::Damaged);
    }
    if entries.len() + leaf_length::<W>(image) > most as usize {
        return Err(ClaimFault::Damaged);
    }
    match join_leaf(entries, image) {
        Ok(true) => {}
        Ok(false) => return Err(ClaimFault::Damaged),
        Err(_) => return Err(ClaimFault::OutOfMemory),
    }
    match push_leaf(index, page, first_in_image(image)) {
        Ok(()) => Ok(()),
        Err(_) => Err(ClaimFault::OutOfMemory),
    }
}

impl<const W: usize> Index<W> {
    /// Claims the pages of the index whose leaves are listed on the chain that begins at `first`,
    /// and gives it with its entries, in order, in a list of the kind that is wanted. Of an index
    /// of more than `most` entries it claims no more pages than one of so many may have.
    ///
    /// # Errors
    ///
    /// `Damaged` exactly where no index of at most `most` entries is stored there on pages that
    /// are all still to be claimed; `OutOfMemory`; `Device` where the disk failed.
    pub fn load<D: Disk, L: EntryList<W>>(
        alloc: Global,
        opening: &mut Opening<D>,
        first: u32,
        most: u32,
    ) -> Result<(Index<W>, L), ClaimFault>
        requires { W ≤ 4090 }
        ensures loads { IfOk result (λ loaded. D.honest opening.new.disk → LoadsIndex W most
            (pages_claimed opening.old.pages opening.old.claimed) opening.new.claimed first
            (index_with loaded.0 (L.entries loaded.1))) }
        ensures damaged { IfErr result (λ fault. D.honest opening.new.disk → IsChainFault fault
            (IsStored W most opening.old.pages opening.old.claimed first)) }
        ensures looks { LooksOpening D.honest D.failures D.state result opening.old opening.new }
    {
        // For the proof.
        let _count = opening.count();
        let bytes = match opening.claim_chain_within(first, pages_for(most as usize * 4)) {
            Ok(bytes) => bytes,
            Err(fault) => return Err(fault),
        };
        let count = match count_numbers(&bytes) {
            Some(count) => count,
            None => return Err(ClaimFault::Damaged),
        };
        let mut index = Index::at(alloc, first);
        let mut entries = match L::with_room(alloc, most_entries(count, W).min(most as usize)) {
            Ok(entries) => entries,
            Err(_) => return Err(ClaimFault::OutOfMemory),
        };
        let mut image = PageImage::blank();
        for place in 0..count {
            let page = number_at(&bytes, place);
            match load_leaf(opening, page, most, &mut image, &mut index, &mut entries) {
                Ok(()) => {}
                Err(fault) => return Err(fault),
            }
        }
        Ok((index, entries))
    }
}
