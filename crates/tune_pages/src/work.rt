// A change of pages that is not made yet.
ghost use Rattle.std.specs.Prelude.{◌≡◌, ◌<◌, ◌≤◌, ◌+◌, ◌++◌, ℕ, length, max, OnOk, OnErr};
ghost use Rattle.std.specs.Prelude.{◌↔◌, slice_index_or, All, Contains, IsTrue};
ghost use Rattle.std.specs.VecDeque.{deque_len};
ghost use Rattle.tune_journal.specs.ChangeList.{padded_image, with_change};
ghost use Rattle.tune_journal.specs.FileOffsets.{block_bytes, most_pages};
ghost use Rattle.tune_pages.specs.Inside.Freed.{Unfrees, IsEnd, IsPutIn};
ghost use Rattle.tune_pages.specs.Work.{Falls};

use std::alloc::{AllocError, Global};
use std::collections::VecDeque;
use tune_journal::Changes;

/// A change of pages that is not made yet: images of pages, pages that come into use, and pages
/// that are freed. Dropped, it changes nothing.
#[derive(Drop)]
pub struct Work {
    // by rising page
    pub(crate) changes: Changes,
    // all pages below it are in use, but the freed ones
    pub(crate) frontier: u32,
    // by falling page; a page at either end moves none of the others
    pub(crate) freed: VecDeque<u32>,
}

impl Work {
    // No change of any pages. It takes no memory.
    pub(crate) fn none(alloc: Global) -> Work {
        Work {
            changes: Changes::new(alloc),
            frontier: 0,
            freed: VecDeque::new(alloc),
        }
    }

    // The least of the freed pages; the limit where none is freed.
    pub(crate) fn end(&self, limit: u32) -> u32
        ensures { IsEnd result limit self.now.freed.items }
    {
        match self.freed.back() {
            Some(least) => *least,
            None => limit,
        }
    }

    // The least of the freed pages and of this one.
    pub(crate) fn lowest(&self, page: u32) -> u32
        ensures page { result ≤ page }
        ensures freed { Falls self.now.freed.items → All (λ q. result ≤ q) self.now.freed.items }
    {
        self.end(page).min(page)
    }

    // Puts a page among the freed ones.
    pub(crate) fn give(&mut self, page: u32) -> Result<(), AllocError>
        requires { Falls self.old.freed.items }
        ensures freed { OnOk result (IsPutIn page self.old.freed.items self.new.freed.items) }
        ensures others { (self.new.changes ≡ self.old.changes)
            × (self.new.frontier ≡ self.old.frontier) }
    {
        let at = place_in(&self.freed, page);
        self.freed.insert(at, page)?;
        Ok(())
    }

    // Whether a page is among the freed ones.
    pub(crate) fn has_freed(&self, page: u32) -> bool
        requires { Falls self.now.freed.items }
        ensures { IsTrue result ↔ Contains self.now.freed.items page }
    {
        let at = place_in(&self.freed, page);
        at < self.freed.len() && self.freed[at] == page
    }

    // Takes the next free page, with the bytes of `head` on it, those of `rest` behind them, and
    // zeros behind both. Where there is no memory nothing changes.
    pub(crate) fn take(&mut self, page: u32, head: &[u8], rest: &[u8]) -> Result<(), AllocError>
        requires page { page < most_pages }
        requires size { length head.now + length rest.now ≤ block_bytes }
        ensures changes { let image = padded_image (head.now ++ rest.now) in OnOk result
            (self.new.changes ≡ with_change page image self.old.changes) }
        ensures frontier { OnOk result (self.new.frontier ≡ max self.old.frontier (page + 1)) }
        ensures freed { OnOk result (Unfrees page self.old.freed.items self.new.freed.items) }
        ensures err { OnErr result (self.new ≡ self.old) }
    {
        self.changes.put_front(page, head, rest)?;
        if self.freed.back() == Some(&page) {
            let _ = self.freed.pop_back();
        }
        self.frontier = self.frontier.max(page + 1);
        Ok(())
    }
}

// The place behind all that are above the page.
fn place_in(freed: &VecDeque<u32>, page: u32) -> usize
    requires { Falls freed.now.items }
    ensures range { result ≤ deque_len freed.now }
    ensures above { (k : ℕ) → k < result → page < slice_index_or freed.now.items k 0 }
    ensures below { result < length freed.now.items
        → slice_index_or freed.now.items result 0 ≤ page }
{
    freed.partition_point(|other| *other > page)
}
