// Calls on an archive in a file, which is a disk in memory:
//
//     script PIECE         nothing; adds to the script (pieces.rt)
//     replies PIECE        nothing; adds to the replies that it has to give
//     next                 nothing; script and replies are empty again
//     file LEN AT BYTES .. nothing; the file has so many bytes, each 0 but for these, each from its
//                          place on; the places rise
//     make, check, upgrade the status of the program's action on the file, and what it writes
//     run                  the status of a run of the script on the file
//     keep                 nothing; the bytes of the file are kept
//     is-kept              whether the file has the bytes that were kept
//
// Where the replies of a run are not those that are wanted, the answer says from which byte on.
use crate::escapes::{bytes_of, is_meant, size};
use crate::pieces::add_piece;
use std::alloc::Global;
use std::{io, mem};
use test_cases::{Answer, Bench, Words, no_data};
use tune_cli::{Done, StreamConsole, check_on, make_on, run_on, upgrade_on};
use tune_disk::MemoryDisk;

/// A file has no more bytes than this.
const MOST_BYTES: usize = 1_000_000;

/// And is told in fewer parts than these.
const MOST_PARTS: usize = 1_000;

/// A file, the bytes that it had, a script, and the replies that it has to give.
#[derive(Drop)]
pub(crate) struct Files {
    alloc: Global,
    disk: MemoryDisk,
    kept: Vec<u8>,
    script: Vec<u8>,
    replies: Vec<u8>,
}

impl Bench for Files {
    fn begin(&mut self, _given: &str) -> io::Result<()> {
        *self = Files::new(self.alloc);
        Ok(())
    }

    fn call(&mut self, name: &str, words: Words<'_>, answer: &mut Answer) -> io::Result<()> {
        match name {
            "script" => return add_piece(self.alloc, &mut self.script, words),
            "replies" => return add_piece(self.alloc, &mut self.replies, words),
            "next" => {
                self.script = Vec::new(self.alloc);
                self.replies = Vec::new(self.alloc);
            }
            "file" => return self.put(words),
            "keep" => self.kept = self.disk.bytes().to_vec(self.alloc)?,
            "is-kept" => answer.show(self.disk.bytes() == self.kept.as_slice()),
            "make" | "check" | "upgrade" => self.act(name, answer),
            "run" => self.run(answer),
            _ => return Err(no_data()),
        }
        Ok(())
    }

    fn is_wanted(&self, answer: &Answer, written: &str) -> io::Result<bool> {
        is_meant(self.alloc, answer, written)
    }
}

impl Files {
    pub(crate) fn new(alloc: Global) -> Files {
        Files {
            alloc,
            disk: MemoryDisk::new(alloc),
            kept: Vec::new(alloc),
            script: Vec::new(alloc),
            replies: Vec::new(alloc),
        }
    }

    // The disk, in whose place one without a byte is.
    fn take_disk(&mut self) -> MemoryDisk {
        mem::replace(&mut self.disk, MemoryDisk::new(self.alloc))
    }

    // Puts a file on the disk.
    fn put(&mut self, mut words: Words<'_>) -> io::Result<()> {
        let count = size(&mut words)?;
        let mut file = Vec::new(self.alloc);
        for _ in 0..MOST_PARTS {
            if words.rest().is_empty() {
                break;
            }
            fill(&mut file, size(&mut words)?)?;
            file.extend_from_slice(&bytes_of(self.alloc, words.word())?)?;
        }
        if !words.rest().is_empty() {
            return Err(no_data());
        }
        fill(&mut file, count)?;
        self.disk = MemoryDisk::from_bytes(self.alloc, &file)?;
        Ok(())
    }

    // Does what the program does on the file, and says its status and what it writes.
    fn act(&mut self, action: &str, answer: &mut Answer) {
        let disk = self.take_disk();
        let mut written = Vec::new(self.alloc);
        let mut console = StreamConsole::new(b"".as_slice(), &mut written);
        let Done { status, disk } = match action {
            "make" => make_on(self.alloc, &mut console, disk),
            "check" => check_on(self.alloc, &mut console, disk),
            _ => upgrade_on(self.alloc, &mut console, disk),
        };
        self.disk = disk;
        answer.show(format_args!("{status} "));
        answer.add(&written);
    }

    // Runs the script on the file, and says its status.
    fn run(&mut self, answer: &mut Answer) {
        let disk = self.take_disk();
        let mut written = Vec::new(self.alloc);
        let mut console = StreamConsole::new(self.script.as_slice(), &mut written);
        let Done { status, disk } = run_on(self.alloc, &mut console, disk);
        self.disk = disk;
        answer.show(status);
        answer.tell_difference(&written, &self.replies);
    }
}

// Puts zeros behind a text, up to this length.
fn fill(text: &mut Vec<u8>, len: usize) -> io::Result<()> {
    if len < text.len() || len > MOST_BYTES {
        return Err(no_data());
    }
    text.resize(len, 0)?;
    Ok(())
}
