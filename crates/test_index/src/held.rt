// What a case has in hand, and the calls that change what it is.
ghost use Rattle.std.specs.Prelude.{◌≤◌, ◌↔◌, IsTrue};

use crate::calls::{Call, DiskCall, KeepCall};
use crate::disks::InMemory;
use crate::edits::call_edit;
use crate::indexes::call_index;
use crate::openings::{call_opening, end_opening};
use std::alloc::Global;
use std::mem;
use test_cases::{Answer, Words};
use tune_index::Index;
use tune_journal::PageImage;
use tune_pages::{Edit, Fault, Opening, Pages};

/// The most pages that there may be.
const MOST_PAGES: u32 = 4_000_000;

/// What a case has in hand: the index that calls go to, and another one.
#[derive(Drop)]
pub(crate) struct Held<const W: usize> {
    file: File,
    index: Index<W>,
    other: Index<W>,
}

/// What was made of the file.
#[derive(Drop)]
pub(crate) enum File {
    Disk(InMemory),
    Opening(Opening<InMemory>),
    Edit(Edit<InMemory>),
}

impl File {
    // The disk of the file.
    fn into_disk(self) -> InMemory {
        match self {
            File::Disk(disk) => disk,
            File::Opening(opening) => opening.into_disk(),
            File::Edit(edit) => edit.into_pages().into_disk(),
        }
    }
}

impl<const W: usize> Held<W> {
    // A file without a byte, and two indexes without an entry.
    pub(crate) fn new(alloc: Global) -> Held<W>
        requires { W ≤ 4090 }
    {
        Held {
            file: File::Disk(InMemory::empty(alloc)),
            index: Index::new(alloc),
            other: Index::new(alloc),
        }
    }

    // Makes the call of a name, and writes its answer; false where there is no such call.
    pub(crate) fn call(
        &mut self,
        alloc: Global,
        name: &str,
        words: Words<'_>,
        answer: &mut Answer,
    ) -> bool
        requires { W ≤ 4090 }
    {
        if let Some(call) = KeepCall::read(name) {
            keep(alloc, &mut self.index, &mut self.other, call, answer);
            return true;
        }
        match Call::read(name, words) {
            Some(call) => {
                call_file(alloc, &mut self.file, &mut self.index, call, answer);
                true
            }
            None => false,
        }
    }
}

// Whether there may be so many pages.
pub(crate) fn is_limit(limit: u32) -> bool
    ensures { IsTrue result ↔ ((1 ≤ limit) × (limit ≤ 4000000)) }
{
    1 <= limit && limit <= MOST_PAGES
}

// Makes a call of a file, which is taken for it and put back.
fn call_file<const W: usize>(
    alloc: Global,
    file: &mut File,
    index: &mut Index<W>,
    call: Call<'_>,
    answer: &mut Answer,
)
    requires { W ≤ 4090 }
{
    let taken = mem::replace(file, File::Disk(InMemory::empty(alloc)));
    *file = make_call(alloc, taken, index, call, answer);
}

// What there is of a file behind a call.
fn make_call<const W: usize>(
    alloc: Global,
    file: File,
    index: &mut Index<W>,
    call: Call<'_>,
    answer: &mut Answer,
) -> File
    requires { W ≤ 4090 }
{
    match (file, call) {
        (file, Call::Close) => {
            answer.say("done");
            File::Disk(file.into_disk())
        }
        (File::Disk(disk), Call::Disk(call)) => call_disk(alloc, disk, call, answer),
        (File::Opening(opening), Call::Opening(call)) => {
            call_opening(alloc, opening, index, call, answer)
        }
        (File::Opening(opening), Call::Done(limit)) => end_opening(opening, limit, answer),
        (File::Edit(mut edit), call) => {
            call_pages(alloc, &mut edit, index, call, answer);
            File::Edit(edit)
        }
        (file, _) => {
            answer.say("not in hand");
            file
        }
    }
}

// Makes a call of pages, of a change of them, or of the index.
fn call_pages<const W: usize>(
    alloc: Global,
    edit: &mut Edit<InMemory>,
    index: &mut Index<W>,
    call: Call<'_>,
    answer: &mut Answer,
)
    requires { W ≤ 4090 }
{
    match call {
        Call::Begin => show_done(edit.begin(), answer),
        Call::Finish => show_done(edit.finish(), answer),
        Call::Edit(call) => call_edit::<W>(alloc, edit, call, answer),
        Call::Index(call) => call_index(alloc, edit, index, call, answer),
        _ => answer.say("not in hand"),
    }
}

fn show_done(done: Result<(), Fault>, answer: &mut Answer) {
    match done {
        Ok(()) => answer.say("done"),
        Err(fault) => answer.name(fault),
    }
}

// Makes one of the two indexes anew.
fn keep<const W: usize>(
    alloc: Global,
    index: &mut Index<W>,
    other: &mut Index<W>,
    call: KeepCall,
    answer: &mut Answer,
)
    requires { W ≤ 4090 }
{
    match call {
        KeepCall::New => *index = Index::new(alloc),
        KeepCall::Copy => copy(alloc, index, other, answer),
        KeepCall::CopyFrom => {
            if other.copy_from(index).is_err() {
                answer.name(Fault::OutOfMemory);
            }
        }
        KeepCall::Swap => mem::swap(index, other),
        KeepCall::InPlace => *index = in_place_of(alloc, index),
    }
    answer.say("done");
}

// Makes another index a copy of one.
fn copy<const W: usize>(
    alloc: Global,
    index: &Index<W>,
    other: &mut Index<W>,
    answer: &mut Answer,
) {
    match index.copy(alloc) {
        Ok(copy) => *other = copy,
        Err(_) => answer.name(Fault::OutOfMemory),
    }
}

// An index in the place of another, by way of one of keys of seven bytes.
fn in_place_of<const W: usize>(alloc: Global, index: &Index<W>) -> Index<W>
    requires { W ≤ 4090 }
{
    let between: Index<7> = Index::in_place_of(alloc, index);
    Index::in_place_of(alloc, &between)
}

fn call_disk(alloc: Global, disk: InMemory, call: DiskCall, answer: &mut Answer) -> File {
    match call {
        DiskCall::Failing(call) => put_disk(disk.failing(call), answer),
        DiskCall::Lying(call, byte) => put_disk(disk.lying(call, byte), answer),
        DiskCall::Make(limit) => make(alloc, disk, limit, answer),
        DiskCall::Open => open(alloc, disk, answer),
    }
}

fn put_disk(disk: InMemory, answer: &mut Answer) -> File {
    answer.say("done");
    File::Disk(disk)
}

// Pages with a root of zeros.
fn make(alloc: Global, disk: InMemory, limit: u32, answer: &mut Answer) -> File {
    if !is_limit(limit) {
        answer.say("no limit");
        return File::Disk(disk);
    }
    match Pages::make(alloc, disk, &PageImage::blank(), limit) {
        Ok(pages) => {
            answer.say("done");
            File::Edit(Edit::over(pages))
        }
        Err(refused) => {
            answer.name(refused.why);
            File::Disk(refused.disk)
        }
    }
}

fn open(alloc: Global, disk: InMemory, answer: &mut Answer) -> File {
    match Pages::open(alloc, disk) {
        Ok(opening) => {
            answer.say("done");
            File::Opening(opening)
        }
        Err(refused) => {
            answer.name(refused.why);
            File::Disk(refused.disk)
        }
    }
}
