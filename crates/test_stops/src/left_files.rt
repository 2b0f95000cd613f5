// Files that stops left, each once.
use crate::scripts::held;
use std::alloc::Global;
use std::collections::BTreeSet;
use std::io;
use tune_disk::{MemoryDisk, StopChoice};

/// The files are compared, and kept, by parts of so many bytes: they differ in few of them.
const PART: usize = 4_096;

/// A file that a stop left.
#[derive(Drop)]
pub(crate) struct LeftFile {
    pub(crate) bytes: Vec<u8>,
    /// How many openings were stopped, one after another, before it was left.
    pub(crate) openings: usize,
}

/// A list of files that stops left, in which none stands twice.
#[derive(Drop)]
pub(crate) struct LeftFiles {
    alloc: Global,
    // At each place of a file the parts that stand there in any of them, each once.
    parts: Vec<Vec<Vec<u8>>>,
    // Of each file, which of these its parts are.
    files: Vec<Numbered>,
    known: BTreeSet<Vec<usize>>,
}

// A file as the numbers of its parts.
#[derive(Drop)]
struct Numbered {
    parts: Vec<usize>,
    openings: usize,
}

impl LeftFiles {
    /// Without a file.
    pub(crate) fn new(alloc: Global) -> LeftFiles {
        LeftFiles {
            alloc,
            parts: Vec::new(alloc),
            files: Vec::new(alloc),
            known: BTreeSet::new(alloc),
        }
    }

    /// Whether there are more files than one.
    pub(crate) fn has_several(&self) -> bool {
        self.files.len() > 1
    }

    /// Puts at the end of the list what a stop leaves, where it is not there yet: all that was
    /// written since the last sync is lost, or kept, and where a stop fills, each byte of it is A7,
    /// or 0.
    pub(crate) fn add_left(
        &mut self,
        disk: &MemoryDisk,
        fills: bool,
        openings: usize,
    ) -> io::Result<()> {
        self.add_stopped(disk, StopChoice::Lost, openings)?;
        self.add_stopped(disk, StopChoice::Kept, openings)?;
        if fills {
            self.add_stopped(disk, StopChoice::Fill(0xA7), openings)?;
            self.add_stopped(disk, StopChoice::Fill(0), openings)?;
        }
        Ok(())
    }

    fn add_stopped(
        &mut self,
        disk: &MemoryDisk,
        choice: StopChoice,
        openings: usize,
    ) -> io::Result<()> {
        let stopped = disk.stopped(choice)?;
        self.add(stopped.bytes(), openings)
    }

    // Puts a file at the end of the list, where it is not there yet.
    fn add(&mut self, bytes: &[u8], openings: usize) -> io::Result<()> {
        let mut parts = Vec::new(self.alloc);
        for (place, part) in bytes.chunks(PART).enumerate() {
            parts.push(self.number_of(place, part)?)?;
        }
        if self.known.insert(parts.clone()?)? {
            self.files.push(Numbered { parts, openings })?;
        }
        Ok(())
    }

    // The number of a part among those that stand at its place.
    fn number_of(&mut self, place: usize, part: &[u8]) -> io::Result<usize> {
        if place >= self.parts.len() {
            self.parts.push(Vec::new(self.alloc))?;
        }
        let Some(known) = self.parts.get_mut(place) else {
            return Err(io::ErrorKind::Other.into());
        };
        if let Some(number) = known.iter().position(|one| one.as_slice() == part) {
            return Ok(number);
        }
        let number = known.len();
        known.push(part.to_vec(self.alloc)?)?;
        Ok(number)
    }

    /// Whether each file holds one of these states, or none, where that may be.
    pub(crate) fn all_hold(
        &self,
        alloc: Global,
        states: &[Vec<u8>],
        may_be_none: bool,
    ) -> io::Result<bool> {
        for number in 0..self.files.len() {
            if let Some(file) = self.file(number)? {
                if !file.holds(alloc, states, may_be_none)? {
                    return Ok(false);
                }
            }
        }
        Ok(true)
    }

    /// The file of this number, if there are more files than that.
    pub(crate) fn file(&self, number: usize) -> io::Result<Option<LeftFile>> {
        let Some(file) = self.files.get(number) else {
            return Ok(None);
        };
        let mut bytes = Vec::new(self.alloc);
        for (place, part) in file.parts.iter().enumerate() {
            if let Some(part) = self.parts.get(place).and_then(|known| known.get(*part)) {
                bytes.extend_from_slice(part)?;
            }
        }
        Ok(Some(LeftFile {
            bytes,
            openings: file.openings,
        }))
    }
}

impl LeftFile {
    /// Whether an archive is opened in it that holds one of these states, or none is, where that
    /// may be.
    pub(crate) fn holds(
        &self,
        alloc: Global,
        states: &[Vec<u8>],
        may_be_none: bool,
    ) -> io::Result<bool> {
        match held(alloc, MemoryDisk::from_bytes(alloc, &self.bytes)?)? {
            Some(state) => Ok(is_among(&state, states)),
            None => Ok(may_be_none),
        }
    }
}

/// Whether a state is one of these.
pub(crate) fn is_among(state: &[u8], states: &[Vec<u8>]) -> bool {
    states.iter().any(|one| one.as_slice() == state)
}
