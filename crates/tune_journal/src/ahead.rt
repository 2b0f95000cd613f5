// Pages that were read by one call with one that was asked for, since they stand behind it.
ghost use Rattle.std.specs.Prelude.{◌≡◌, ◌<◌, ◌≤◌, ◌+◌, ◌*◌, [], length, take};
ghost use Rattle.std.specs.Prelude.{IfOk, IfSome, OnOk, OnErr, true, false};
ghost use Rattle.tune_disk.specs.Disk.{Looks};
ghost use Rattle.tune_journal.specs.FileOffsets.{block_bytes, most_pages};
ghost use Rattle.tune_journal.specs.Image.{page_offset, window};
ghost use Rattle.tune_journal.specs.Inside.ReadAhead.{HasNone, HoldsPage};

use crate::file_offsets::{BLOCK_BYTES, page_offset};
use std::alloc::Global;
use std::marker::Model;
use tune_disk::{DeviceFault, Disk};

// The most pages of a run, and their bytes.
const MOST_PAGES_AHEAD: u32 = 32;

const BYTES_AHEAD: usize = 131_072;

// A page no further behind another one is near it: what lies between may be in other hands.
const MOST_STEP: u32 = 4;

// After so many pages that were read alone, each near behind the one before it, pages are taken for
// ones that are asked for one after another.
const FEW_PAGES: u32 = 4;

// A run of pages, as the disk showed them by one call: the first of them was asked for, and those
// behind it were not yet. A commit empties it.
#[derive(Drop)]
pub(crate) struct PagesAhead {
    // the pages stand at its front; none before a run was read, so that a journal takes no memory
    buffer: Option<Vec<u8>>,
    first: u32,
    count: u32,
    // the page that was read alone last, and how many were so, each near behind the one before it,
    // up to `FEW_PAGES`
    last: u32,
    near: u32,
}

impl Model for PagesAhead {
    ghost use Rattle.std.specs.Prelude.{◌≤◌, ◌*◌, length, take};
    ghost use Rattle.tune_journal.specs.FileOffsets.{block_bytes};
    ghost use Rattle.tune_journal.specs.Inside.ReadAhead.{AheadPages, ahead_code, buffer_in};
    ghost use Rattle.tune_journal.specs.Inside.ReadAhead.{HasBuffer};

    ghost Value = { AheadPages };

    ghost coded = { ahead_code };

    ghost view = { λ a. record {
      first = a.first;
      count = a.count;
      bytes = take (block_bytes * a.count) (buffer_in a.buffer);
    } };

    ghost invariant = { λ a.
        (block_bytes * a.count ≤ length (buffer_in a.buffer)) × HasBuffer a.buffer };
}

impl PagesAhead {
    // No pages. It takes no memory.
    pub(crate) fn new() -> PagesAhead
        ensures { HasNone result }
    {
        PagesAhead {
            buffer: None,
            first: 0,
            count: 0,
            last: 0,
            near: 0,
        }
    }

    // None of these pages, and their memory.
    pub(crate) fn emptied(self) -> PagesAhead
        ensures { HasNone result }
    {
        let PagesAhead {
            buffer,
            first: _,
            count: _,
            last: _,
            near: _,
        } = self;
        PagesAhead {
            buffer,
            first: 0,
            count: 0,
            last: 0,
            near: 0,
        }
    }

    // The bytes of a page, where it is one of these.
    pub(crate) fn page(&self, page: u32) -> Option<&[u8]>
        ensures { IfSome result (λ bytes. HoldsPage self.now page bytes.now) }
    {
        if page < self.first || page - self.first >= self.count {
            return None;
        }
        Some(self.page_at(page - self.first))
    }

    // The bytes of the first page.
    pub(crate) fn front(&self) -> &[u8]
        requires { 0 < self.now.count }
        ensures { HoldsPage self.now self.now.first result.now }
    {
        self.page_at(0)
    }

    // The bytes of the page at this place.
    fn page_at(&self, place: u32) -> &[u8]
        requires { place < self.now.count }
        ensures { HoldsPage self.now (self.now.first + place) result.now }
    {
        let from = place as usize * BLOCK_BYTES;
        match &self.buffer {
            Some(buffer) => &buffer[from..from + BLOCK_BYTES],
            None => unreachable!(),
        }
    }

    // Takes the memory, where it is not there.
    fn take_buffer(&mut self, alloc: Global)
        ensures { HasNone self.new }
    {
        self.count = 0;
        if self.buffer.is_none() {
            self.buffer = buffer_of(alloc);
        }
    }

    // Reads a run of so many pages that begins with this one, by one call, in the place of these.
    // False where there is no memory for it: nothing is read then. There are no pages then, nor
    // after a fault.
    pub(crate) fn fill<D: Disk>(
        &mut self,
        alloc: Global,
        disk: &mut D,
        page: u32,
        count: u32,
    ) -> Result<bool, DeviceFault>
        requires { (1 ≤ count) × (count ≤ 32) × (page + count ≤ most_pages) }
        ensures run { IfOk result (λ read. read ≡ true
            → (self.new.first ≡ page) × (self.new.count ≡ count)) }
        ensures shows { let file = (D.state disk.old).seen in let size = block_bytes * count in
            IfOk result (λ read. read ≡ true → D.honest disk.new
            → page_offset page + size ≤ length file
            → self.new.bytes ≡ window (page_offset page) size file) }
        ensures none { IfOk result (λ read. read ≡ false → HasNone self.new) }
        ensures err { OnErr result (HasNone self.new) }
        ensures looks { Looks D.honest D.failures D.state result disk.old disk.new }
    {
        self.take_buffer(alloc);
        self.read_run(disk, page, count)
    }

    // Reads so many pages from this one on, where there is memory for them.
    fn read_run<D: Disk>(
        &mut self,
        disk: &mut D,
        page: u32,
        count: u32,
    ) -> Result<bool, DeviceFault>
        requires none { HasNone self.old }
        requires count { (1 ≤ count) × (count ≤ 32) × (page + count ≤ most_pages) }
        ensures run { IfOk result (λ read. read ≡ true
            → (self.new.first ≡ page) × (self.new.count ≡ count)) }
        ensures shows { let file = (D.state disk.old).seen in let size = block_bytes * count in
            IfOk result (λ read. read ≡ true → D.honest disk.new
            → page_offset page + size ≤ length file
            → self.new.bytes ≡ window (page_offset page) size file) }
        ensures none { IfOk result (λ read. read ≡ false → HasNone self.new) }
        ensures err { OnErr result (HasNone self.new) }
        ensures looks { Looks D.honest D.failures D.state result disk.old disk.new }
    {
        match &mut self.buffer {
            Some(buffer) => {
                read_front(disk, page, count, buffer)?;
                self.first = page;
                self.count = count;
                Ok(true)
            }
            None => Ok(false),
        }
    }

    // How many pages are to be read together from this one on, of those below `end`, for a page
    // that is none of these: where it is near behind them, four times as many; one alone, where few
    // pages in a row were near each other, since then the next one may stand anywhere.
    pub(crate) fn next_run(&mut self, page: u32, end: u32) -> u32
        requires { page < end }
        ensures run { (1 ≤ result) × (result ≤ 32) × (page + result ≤ end) }
        ensures same { self.new ≡ self.old }
    {
        let most = (end - page).min(MOST_PAGES_AHEAD);
        let held = self.count.min(MOST_PAGES_AHEAD);
        if held != 0 && is_near(self.first.saturating_add(held), page) {
            return (held * 4).min(most);
        }
        let is_next = is_near(self.last, page);
        self.last = page;
        if !is_next {
            self.near = 0;
            return 1;
        }
        if self.near < FEW_PAGES {
            self.near += 1;
            return 1;
        }
        MOST_STEP.min(most)
    }
}

// Whether a page is this one, or stands near behind it.
fn is_near(page: u32, next: u32) -> bool {
    next >= page && next - page <= MOST_STEP
}

// Reads so many pages from this one on to the front of the memory of a run.
fn read_front<D: Disk>(
    disk: &mut D,
    page: u32,
    count: u32,
    buffer: &mut [u8],
) -> Result<(), DeviceFault>
    requires count { (count ≤ 32) × (page + count ≤ most_pages) }
    requires size { length buffer.old ≡ 131072 }
    ensures shows { let file = (D.state disk.old).seen in let size = block_bytes * count in
        OnOk result (D.honest disk.new → page_offset page + size ≤ length file
        → take size buffer.new ≡ window (page_offset page) size file) }
    ensures size { length buffer.new ≡ 131072 }
    ensures looks { Looks D.honest D.failures D.state result disk.old disk.new }
{
    disk.read(
        page_offset(page),
        &mut buffer[..count as usize * BLOCK_BYTES],
    )
}

// Memory for a run, where there is any.
fn buffer_of(alloc: Global) -> Option<Vec<u8>>
    ensures { IfSome result (λ buffer. length buffer.items ≡ 131072) }
{
    vec![in alloc; 0; BYTES_AHEAD].ok()
}
