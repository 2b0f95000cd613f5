// The list of an index's leaves, on a chain.
ghost use Rattle.std.specs.Prelude.{◌≡◌, ◌*◌, length, true, IfOk, OnOk};
ghost use Rattle.tune_pages.specs.Faults.{pages_for};
ghost use Rattle.tune_pages.specs.FreePages.{TakesAtMost};
ghost use Rattle.tune_pages.specs.Kept.{HonestAt};
ghost use Rattle.tune_pages.specs.Editing.{Edits};
ghost use Rattle.tune_index.specs.ListedLeaves.{HasList, StoresList, listed_bytes};

use crate::index::Index;
use crate::leaf::push_value;
use std::alloc::{AllocError, Global};
use tune_disk::Disk;
use tune_pages::{Edit, Fault, law_of_chains};

// The bytes of numbers, four for each.
fn write_numbers(alloc: Global, numbers: &[u32]) -> Result<Vec<u8>, AllocError>
    ensures { IfOk result (λ bytes. bytes.items ≡ listed_bytes numbers.now) }
{
    let mut bytes = Vec::with_capacity(alloc, numbers.len().saturating_mul(4))?;
    for number in numbers {
        push_value(&mut bytes, *number)?;
    }
    Ok(bytes)
}

// The bytes that list the leaves of an index.
fn write_list<const W: usize>(alloc: Global, index: &Index<W>) -> Result<Vec<u8>, AllocError>
    ensures { IfOk result (λ bytes. bytes.items ≡ listed_bytes index.now.pages) }
{
    write_numbers(alloc, &index.pages)
}

// The list of the leaves is now on the chain that begins at `first`.
fn list_at<const W: usize>(index: &mut Index<W>, first: u32)
    ensures leaves { (index.new.pages ≡ index.old.pages) × (index.new.heads ≡ index.old.heads) }
    ensures list { (index.new.first ≡ first) × (index.new.listed ≡ true) }
{
    index.first = first;
    index.listed = true;
}

// The first page of the chain that lists the leaves, where it does.
fn list_of<const W: usize>(index: &Index<W>) -> (u32, bool)
    ensures { (result.0 ≡ index.now.first) × (result.1 ≡ index.now.listed) }
{
    (index.first, index.listed)
}

// Copies of the index share the heads from now on.
fn share_heads<const W: usize>(index: &mut Index<W>) -> Result<(), AllocError>
    ensures { index.new ≡ index.old }
{
    index.heads.share()
}

impl<const W: usize> Index<W> {
    /// Puts the list of the leaves on a chain in the place of the one that was stored last, and
    /// gives its first page: 0 where there is no leaf. Where no leaf came or went since, it stays.
    ///
    /// # Errors
    ///
    /// `FileFull` only where fewer pages are free than the list wants; `OutOfMemory`; `Device`
    /// where the disk failed: the pages are then closed. `Closed`. The index is then to be dropped.
    pub fn store<D: Disk>(&mut self, edit: &mut Edit<D>) -> Result<u32, Fault>
        requires list { HonestAt D.honest edit.old.base.disk → HasList edit.old.next self.old }
        ensures leaves { OnOk result ((self.new.pages ≡ self.old.pages)
            × (self.new.heads ≡ self.old.heads)) }
        ensures list { IfOk result (λ first.
            (self.new.first ≡ first) × (self.new.listed ≡ true)) }
        ensures stores { IfOk result (λ first. HonestAt D.honest edit.new.base.disk
            → StoresList edit.old.next edit.new.next self.old.first first self.old.pages) }
        ensures takes { HonestAt D.honest edit.new.base.disk → TakesAtMost
            (pages_for (4 * length self.old.pages)) result edit.old.next edit.new.next }
        ensures edits { Edits D.Disk result (Unit {0}) edit.old edit.new }
    {
        // For the proof.
        law_of_chains();
        edit.check()?;
        match share_heads(self) {
            Ok(()) => {}
            Err(_) => return Err(edit.refuse()),
        }
        let (first, listed) = list_of(self);
        if listed {
            return Ok(first);
        }
        let bytes = match write_list(edit.alloc(), self) {
            Ok(bytes) => bytes,
            Err(_) => return Err(edit.refuse()),
        };
        match edit.free_chain(first) {
            Ok(()) => {}
            Err(fault) => return Err(fault),
        }
        let next = match edit.put_chain(&bytes) {
            Ok(next) => next,
            Err(fault) => return Err(fault),
        };
        list_at(self, next);
        Ok(next)
    }
}
