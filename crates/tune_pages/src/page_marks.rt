// Marks of pages: which of them are in use.
ghost use Rattle.std.specs.Prelude.{◌≡◌, ◌↔◌, ◌<◌, ◌≤◌, ◌-◌, ◌++◌, ℕ, true, false, All, IsTrue};
ghost use Rattle.std.specs.Prelude.{length, replicate, take};
ghost use Rattle.std.specs.Vec.{vec_capacity};
ghost use Rattle.tune_journal.specs.FileOffsets.{most_pages};
ghost use Rattle.tune_pages.specs.Inside.HeldPages.{AllUsedBelow};
ghost use Rattle.tune_pages.specs.Stand.{IsUsed, IsFree, AllUsed, marked};
ghost use Rattle.tune_pages.specs.Work.{front_in_use};

use std::collections::VecDeque;
use std::marker::Model;

// A mark for each of so many pages. Those behind the last that is written are not in use, so what
// the marks take of memory goes by the pages that were in use, and not by how many there may be.
#[derive(Drop)]
pub(crate) struct PageMarks {
    // with room for a mark of each page of a file
    written: Vec<bool>,
    count: u32,
}

impl Model for PageMarks {
    ghost use Rattle.std.specs.Prelude.{◌≤◌, ◌-◌, ◌++◌, List, Bool, false, length, replicate};
    ghost use Rattle.std.specs.Vec.{vec_capacity};
    ghost use Rattle.tune_journal.specs.FileOffsets.{most_pages};

    ghost Value = { List Bool };

    ghost view = { λ m.
        m.written.items ++ replicate (m.count - length m.written.items) false };

    ghost invariant = { λ m. (length m.written.items ≤ m.count) × (m.count ≤ most_pages)
        × (most_pages ≤ vec_capacity m.written) };
}

impl PageMarks {
    // The marks of so many pages, of which these are the first.
    pub(crate) fn over(written: Vec<bool>, count: u32) -> PageMarks
        requires count { (length written.items ≤ count) × (count ≤ most_pages) }
        requires room { most_pages ≤ vec_capacity written }
        ensures { result ≡ written.items ++ replicate (count - length written.items) false }
    {
        PageMarks { written, count }
    }

    // How many pages are marked.
    pub(crate) fn len(&self) -> usize
        ensures { result ≡ length self.now }
    {
        self.count as usize
    }

    // Whether a page is in use.
    pub(crate) fn is_used(&self, page: u32) -> bool
        ensures { IsTrue result ↔ IsUsed self.now page }
    {
        self.written.get(page as usize) == Some(&true)
    }

    // The first page from `from` on that is not in use; `end` where none before it is free.
    pub(crate) fn first_free(&self, from: u32, end: u32) -> u32
        requires { (from ≤ end) × (end ≤ length self.now) }
        ensures range { (from ≤ result) × (result ≤ end) }
        ensures full { (q : ℕ) → from ≤ q → q < result → IsUsed self.now q }
        ensures free { result < end → IsFree self.now result }
    {
        let stop = end.min(self.written.len() as u32);
        for page in from..stop {
            if !self.written[page as usize] {
                return page;
            }
        }
        from.max(stop)
    }

    // Marks all pages below the frontier as in use, where those below `low` are. It takes no
    // memory.
    pub(crate) fn take_front(&mut self, low: u32, frontier: u32)
        requires range { (low ≤ frontier) × (frontier ≤ length self.old) }
        requires low { AllUsedBelow low self.old }
        ensures { self.new ≡ front_in_use frontier self.old }
    {
        let most = self.written.len().max(frontier as usize);
        self.written.resize(most, false).unwrap();
        mark_front(&mut self.written, low as usize, frontier as usize);
    }

    // Marks these pages as free.
    pub(crate) fn give_back(&mut self, freed: &VecDeque<u32>)
        requires { AllUsed freed.now.items self.old }
        ensures { self.new ≡ marked false freed.now.items self.old }
    {
        unmark_all(&mut self.written, freed);
    }

    // Changes how many pages are marked; those that are new are free. It takes no memory.
    pub(crate) fn resize(&mut self, count: u32)
        requires { count ≤ most_pages }
        ensures { self.new ≡ take count (self.old ++ replicate (count - length self.old) false) }
    {
        self.written.truncate(count as usize);
        self.count = count;
    }
}

// Marks all pages below the frontier as in use, where those below `low` are.
fn mark_front(written: &mut Vec<bool>, low: usize, frontier: usize)
    requires range { (low ≤ frontier) × (frontier ≤ length written.old.items) }
    requires low { AllUsedBelow low written.old.items }
    ensures marks { written.new.items ≡ front_in_use frontier written.old.items }
    ensures room { vec_capacity written.new ≡ vec_capacity written.old }
{
    for page in low..frontier {
        written[page] = true;
    }
}

// Marks these pages as free.
fn unmark(written: &mut Vec<bool>, freed: &[u32])
    requires { All (λ p. p < length written.old.items) freed.now }
    ensures marks { written.new.items ≡ marked false freed.now written.old.items }
    ensures room { vec_capacity written.new ≡ vec_capacity written.old }
{
    for page in freed {
        written[*page as usize] = false;
    }
}

// The same of pages in two pieces.
fn unmark_all(written: &mut Vec<bool>, freed: &VecDeque<u32>)
    requires { All (λ p. p < length written.old.items) freed.now.items }
    ensures marks { written.new.items ≡ marked false freed.now.items written.old.items }
    ensures room { vec_capacity written.new ≡ vec_capacity written.old }
{
    let (above, below) = freed.as_slices();
    unmark(written, above);
    unmark(written, below);
}
