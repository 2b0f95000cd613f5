// The stand on which the calls of a case are made.
use crate::change_lists::change;
use crate::commits::commit;
use crate::disks::{
    FaultyDisk, NEVER, calls_of_making, calls_of_opening, faulty, memory_of, show_ahead, show_left,
    show_page, show_pages, show_run, show_runs,
};
use crate::files::forge;
use crate::images::image_of;
use crate::words::{Numbers, first_word};
use std::alloc::{AllocError, Global};
use std::{io, mem};
use test_cases::{Answer, Bench, Words, no_data};
use tune_disk::{MemoryDisk, StopChoice};
use tune_journal::{Changes, Journal, Refused};

/// A disk, or the journal on it.
#[derive(Drop)]
pub(crate) enum Held {
    Disk(FaultyDisk),
    Open(Journal<FaultyDisk>),
}

/// A file, the disk or the journal that calls are made of, a list of changes, and what numbers are.
#[derive(Drop)]
pub(crate) struct Stand {
    alloc: Global,
    file: Vec<u8>,
    held: Held,
    changes: Changes,
    numbers: Numbers,
}

impl Bench for Stand {
    fn begin(&mut self, _given: &str) -> io::Result<()> {
        self.file.clear();
        self.held = no_journal(self.alloc);
        self.changes = Changes::new(self.alloc);
        self.numbers = Numbers { n: 0, calls: 0 };
        Ok(())
    }

    fn call(&mut self, name: &str, words: Words<'_>, answer: &mut Answer) -> io::Result<()> {
        self.numbers.n = words.at();
        match self.make_call(name, words.rest(), answer) {
            Some(()) => Ok(()),
            None => Err(no_data()),
        }
    }

    fn number(&self, word: &str) -> Option<u64> {
        self.numbers.number(word)
    }
}

// A disk without a byte.
fn no_journal(alloc: Global) -> Held {
    Held::Disk(faulty(MemoryDisk::new(alloc), NEVER, NEVER))
}

impl Stand {
    /// With a file and a disk that have no byte.
    pub(crate) fn new(alloc: Global) -> Stand {
        Stand {
            alloc,
            file: Vec::new(alloc),
            held: no_journal(alloc),
            changes: Changes::new(alloc),
            numbers: Numbers { n: 0, calls: 0 },
        }
    }

    // Makes the call of a name. None where there is no such call, or it cannot be made.
    fn make_call(&mut self, name: &str, rest: &str, answer: &mut Answer) -> Option<()> {
        match name {
            "file" | "raw" | "mark" | "cut" | "uneven" | "fill" | "set" | "xor" => {
                forge(self.alloc, &mut self.file, self.numbers, name, rest)?;
                answer.say("ok");
                Some(())
            }
            "put" | "get" | "size" | "is-empty" => {
                change(
                    self.alloc,
                    &mut self.changes,
                    self.numbers,
                    name,
                    rest,
                    answer,
                )
            }
            "disk" | "fused-disk" | "faulty-disk" => self.new_disk(name, rest, answer),
            "make" => self.make(rest, answer),
            "open" => self.open(answer),
            "commit" | "commit-by-parts" => self.commit(name, rest, answer),
            "count" | "page" | "pages" | "run" | "runs" | "ahead" => self.read(name, rest, answer),
            "count-calls" => self.count_calls(rest, answer),
            "file-length" => {
                answer.show(self.file.len());
                Some(())
            }
            _ => self.look(name, rest, answer),
        }
    }

    // What is held; a new disk without a byte is held in its place.
    fn take(&mut self) -> Held {
        let none = no_journal(self.alloc);
        mem::replace(&mut self.held, none)
    }

    // A disk over the file.
    fn new_disk(&mut self, name: &str, rest: &str, answer: &mut Answer) -> Option<()> {
        let (calls, fault) = match name {
            "fused-disk" => (self.numbers.number(rest)?, NEVER),
            "faulty-disk" => (NEVER, self.numbers.number(rest)?),
            _ => (NEVER, NEVER),
        };
        let disk = MemoryDisk::from_bytes(self.alloc, &self.file).ok()?;
        self.held = Held::Disk(faulty(disk, calls, fault));
        answer.say("ok");
        Some(())
    }

    // Makes a journal on the disk.
    fn make(&mut self, rest: &str, answer: &mut Answer) -> Option<()> {
        let image = image_of(self.numbers, rest)?;
        let disk = into_disk(self.take());
        self.held = stood_up(Journal::make(disk, &image), answer);
        Some(())
    }

    // Opens the journal that is there.
    fn open(&mut self, answer: &mut Answer) -> Option<()> {
        let disk = into_disk(self.take());
        self.held = stood_up(Journal::open(disk), answer);
        Some(())
    }

    fn commit(&mut self, name: &str, rest: &str, answer: &mut Answer) -> Option<()> {
        let (count, list) = first_word(rest);
        let count = self.numbers.short(count)?;
        let list = self.numbers.entries(self.alloc, list)?;
        let by_parts = name == "commit-by-parts";
        self.held = match self.take() {
            Held::Open(journal) => commit(self.alloc, journal, count, &list, by_parts, answer),
            Held::Disk(disk) => {
                answer.say("no journal");
                Held::Disk(disk)
            }
        };
        Some(())
    }

    // Reads the journal.
    fn read(&mut self, name: &str, rest: &str, answer: &mut Answer) -> Option<()> {
        let Held::Open(journal) = &mut self.held else {
            answer.say("no journal");
            return Some(());
        };
        match name {
            "count" => answer.show(journal.count()),
            "pages" => show_pages(journal, answer),
            "run" => show_run(self.alloc, journal, self.numbers.short(rest)?, answer),
            "runs" => show_runs(self.alloc, journal, answer),
            "ahead" => show_ahead(journal, self.numbers.short(rest)?, answer),
            _ => show_page(journal, self.numbers.short(rest)?, answer),
        }
        Some(())
    }

    fn count_calls(&mut self, rest: &str, answer: &mut Answer) -> Option<()> {
        self.numbers.calls = match rest {
            "make" => calls_of_making(self.alloc)?,
            "open" => calls_of_opening(self.alloc, &self.file)?,
            _ => return None,
        };
        answer.say("ok");
        Some(())
    }

    // Looks at the disk in memory. From then on it is without faults.
    fn look(&mut self, name: &str, rest: &str, answer: &mut Answer) -> Option<()> {
        let disk = memory_of(into_disk(self.take()));
        let looked = self.look_at(&disk, name, rest, answer);
        self.held = Held::Disk(faulty(disk, NEVER, NEVER));
        looked
    }

    fn look_at(
        &mut self,
        disk: &MemoryDisk,
        name: &str,
        rest: &str,
        answer: &mut Answer,
    ) -> Option<()> {
        match name {
            "lost" => show_left(disk, StopChoice::Lost, answer),
            "kept" => show_left(disk, StopChoice::Kept, answer),
            "holds" => answer.show(self.is_file_of(disk).ok()?),
            "length" => answer.show(disk.bytes().len()),
            "number" => show_number(disk, self.numbers.number(rest)?, answer),
            "take" => {
                self.file = disk.bytes().to_vec(self.alloc).ok()?;
                answer.say("ok");
            }
            _ => return None,
        }
        Some(())
    }

    // Whether a disk has the bytes of the file, and a stop leaves them.
    fn is_file_of(&self, disk: &MemoryDisk) -> Result<bool, AllocError> {
        let lost = disk.stopped(StopChoice::Lost)?;
        Ok(disk.bytes() == self.file.as_slice() && lost.bytes() == self.file.as_slice())
    }
}

// The disk of what is held.
fn into_disk(held: Held) -> FaultyDisk {
    match held {
        Held::Disk(disk) => disk,
        Held::Open(journal) => journal.into_disk(),
    }
}

// What is held of a journal that was to stand up.
fn stood_up(
    journal: Result<Journal<FaultyDisk>, Refused<FaultyDisk>>,
    answer: &mut Answer,
) -> Held {
    match journal {
        Ok(journal) => {
            answer.say("ok");
            Held::Open(journal)
        }
        Err(refused) => {
            answer.name(refused.why);
            Held::Disk(refused.disk)
        }
    }
}

// Shows the number that four bytes of a disk say.
fn show_number(disk: &MemoryDisk, offset: u64, answer: &mut Answer) {
    let offset = offset as usize;
    match disk.bytes().get(offset..offset.saturating_add(4)) {
        Some([a, b, c, d]) => answer.show(u32::from_be_bytes([*a, *b, *c, *d])),
        _ => answer.say("none"),
    }
}
