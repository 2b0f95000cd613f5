// What a case has in hand, and the calls that change what it is.
ghost use Rattle.std.specs.Prelude.{◌≤◌, ◌↔◌, IsTrue};

use crate::calls::{Call, DiskCall, EditCall};
use crate::disks::InMemory;
use crate::edits::call_edit;
use crate::openings::{call_opening, end_opening};
use crate::works::{call_work, finish, page_of};
use std::alloc::Global;
use std::marker::Model;
use std::{io, mem};
use test_cases::{Answer, Bench, Bytes, Words, no_data};
use tune_disk::{Disk, StopChoice};
use tune_pages::{Edit, Fault, Opening, Pages, Work};

/// The most pages that there may be.
const MOST_PAGES: u32 = 4_000_000;

/// What a case has in hand, from one call to the next.
#[derive(Drop)]
pub(crate) struct Hand {
    alloc: Global,
    held: Held,
}

/// What a case has in hand.
#[derive(Drop)]
pub(crate) enum Held {
    Disk(InMemory),
    Opening(Opening<InMemory>),
    Pages(Pages<InMemory>),
    Begun(Begun),
    Edit(Edit<InMemory>),
}

/// Pages, and a work that was begun on them.
#[derive(Drop)]
pub(crate) struct Begun {
    pub(crate) pages: Pages<InMemory>,
    pub(crate) work: Work,
}

// The work fits the pages. No contract sees more of them.
impl Model for Begun {
    ghost use Rattle.tune_pages.specs.Work.{Fits};

    ghost Value = { Unit {0} };

    ghost view = { λ _. tt {0} };

    ghost invariant = { λ begun. Fits begun.pages begun.work };
}

impl Hand {
    // With a file without a byte.
    pub(crate) fn new(alloc: Global) -> Hand {
        Hand {
            alloc,
            held: Held::Disk(InMemory::empty(alloc)),
        }
    }

    // Makes a call, and writes its answer.
    fn make_call(&mut self, call: Call<'_>, answer: &mut Answer) {
        let none = Held::Disk(InMemory::empty(self.alloc));
        let held = mem::replace(&mut self.held, none);
        self.held = make_call(self.alloc, held, call, answer);
    }
}

impl Bench for Hand {
    fn begin(&mut self, _given: &str) -> io::Result<()> {
        self.held = Held::Disk(InMemory::empty(self.alloc));
        Ok(())
    }

    fn call(&mut self, name: &str, words: Words<'_>, answer: &mut Answer) -> io::Result<()> {
        match Call::read(name, words) {
            Some(call) => {
                self.make_call(call, answer);
                Ok(())
            }
            None => Err(no_data()),
        }
    }
}

impl Held {
    // The disk of what is in hand.
    fn into_disk(self) -> InMemory {
        match self {
            Held::Disk(disk) => disk,
            Held::Opening(opening) => opening.into_disk(),
            Held::Pages(pages) => pages.into_disk(),
            Held::Begun(Begun { pages, work: _ }) => pages.into_disk(),
            Held::Edit(edit) => edit.into_pages().into_disk(),
        }
    }
}

// Whether there may be so many pages.
pub(crate) fn is_limit(limit: u32) -> bool
    ensures { IsTrue result ↔ ((1 ≤ limit) × (limit ≤ 4000000)) }
{
    1 <= limit && limit <= MOST_PAGES
}

// What is in hand behind a call.
fn make_call(alloc: Global, held: Held, call: Call<'_>, answer: &mut Answer) -> Held {
    match (held, call) {
        (Held::Disk(disk), Call::Disk(call)) => call_disk(alloc, disk, call, answer),
        (Held::Opening(opening), Call::Opening(call)) => call_opening(opening, call, answer),
        (Held::Opening(opening), Call::Done(limit)) => end_opening(opening, limit, answer),
        (Held::Pages(pages), Call::Limit(limit)) => set_limit(pages, limit, answer),
        (Held::Begun(Begun { pages, work: _ }), Call::Limit(limit)) => {
            set_limit(pages, limit, answer)
        }
        (Held::Pages(pages), Call::Begin) => begin(pages, answer),
        (Held::Begun(Begun { pages, work: _ }), Call::Begin) => begin(pages, answer),
        (Held::Begun(begun), Call::Work(call)) => call_work(alloc, begun, call, answer),
        (Held::Begun(begun), Call::Finish) => finish(begun, answer),
        (held, Call::Close) => {
            answer.say("done");
            Held::Disk(held.into_disk())
        }
        (Held::Pages(pages), Call::Edit(EditCall::Over)) => {
            answer.say("done");
            Held::Edit(Edit::over(pages))
        }
        (Held::Edit(mut edit), call) => {
            call_edit(alloc, &mut edit, call, answer);
            Held::Edit(edit)
        }
        (held, _) => {
            answer.say("not in hand");
            held
        }
    }
}

fn begin(pages: Pages<InMemory>, answer: &mut Answer) -> Held {
    match pages.begin() {
        Ok(work) => {
            answer.say("done");
            Held::Begun(Begun { pages, work })
        }
        Err(fault) => {
            answer.name(fault);
            Held::Pages(pages)
        }
    }
}

// Changes how many pages there may be, to as many as before or more.
fn set_limit(mut pages: Pages<InMemory>, limit: u32, answer: &mut Answer) -> Held {
    // Of pages that are closed nobody knows how many there are.
    if let Err(fault) = pages.begin() {
        answer.name(fault);
    } else if limit < pages.limit() || !is_limit(limit) {
        answer.say("no limit");
    } else {
        pages.set_limit(limit);
        answer.say("done");
    }
    Held::Pages(pages)
}

fn call_disk(alloc: Global, disk: InMemory, call: DiskCall<'_>, answer: &mut Answer) -> Held {
    match call {
        DiskCall::Passing(calls) => put_disk(disk.passing(calls), answer),
        DiskCall::Failing(call) => put_disk(disk.failing(call), answer),
        DiskCall::Stop(choice) => stop(disk, choice, answer),
        DiskCall::Magic => write_magic(disk, answer),
        DiskCall::Size => size(disk, answer),
        DiskCall::Make(limit, root) => make(alloc, disk, limit, root, answer),
        DiskCall::Open => open(alloc, disk, answer),
    }
}

fn put_disk(disk: InMemory, answer: &mut Answer) -> Held {
    answer.say("done");
    Held::Disk(disk)
}

// Goes on with one of the files that a stop may leave.
fn stop(disk: InMemory, choice: StopChoice, answer: &mut Answer) -> Held {
    let memory = disk.into_memory();
    match memory.stopped(choice) {
        Ok(file) => put_disk(InMemory::over(file), answer),
        Err(_) => {
            answer.name(Fault::OutOfMemory);
            Held::Disk(InMemory::over(memory))
        }
    }
}

fn write_magic(mut disk: InMemory, answer: &mut Answer) -> Held {
    match disk.write_at(0, b"ABCTUNE1") {
        Ok(()) => answer.say("done"),
        Err(fault) => answer.name(fault),
    }
    Held::Disk(disk)
}

fn size(mut disk: InMemory, answer: &mut Answer) -> Held {
    match disk.len() {
        Ok(size) => answer.show(size),
        Err(fault) => answer.name(fault),
    }
    Held::Disk(disk)
}

fn make(alloc: Global, disk: InMemory, limit: u32, root: Bytes<'_>, answer: &mut Answer) -> Held {
    if !is_limit(limit) {
        answer.say("no limit");
        return Held::Disk(disk);
    }
    let root = match page_of(alloc, root) {
        Ok(root) => root,
        Err(fault) => {
            answer.name(fault);
            return Held::Disk(disk);
        }
    };
    match Pages::make(alloc, disk, &root, limit) {
        Ok(pages) => {
            answer.say("done");
            Held::Pages(pages)
        }
        Err(refused) => {
            answer.name(refused.why);
            Held::Disk(refused.disk)
        }
    }
}

fn open(alloc: Global, disk: InMemory, answer: &mut Answer) -> Held {
    match Pages::open(alloc, disk) {
        Ok(opening) => {
            answer.say("done");
            Held::Opening(opening)
        }
        Err(refused) => {
            answer.name(refused.why);
            Held::Disk(refused.disk)
        }
    }
}
