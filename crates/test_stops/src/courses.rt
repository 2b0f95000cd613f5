// Steps that an archive carries out, and what it may hold by then.
use crate::scripts::{replies_of, state_of};
use std::alloc::Global;
use std::fs::Files;
use std::{fs, io};
use tune_archive::{Archive, TuneStore};
use tune_disk::{FuseDisk, MemoryDisk};
use tune_store::ListArchive;

pub(crate) const CLOSED: &[u8] = b"refused 23 Closed\n";

/// Steps, the file from which on they are carried out, and what an archive in memory answers them.
#[derive(Drop)]
pub(crate) struct Course {
    /// The file at the start.
    pub(crate) start: Vec<u8>,
    /// Scripts, most of one command.
    pub(crate) steps: Vec<Vec<u8>>,
    /// The replies to each.
    pub(crate) replies: Vec<Vec<u8>>,
    /// What is held after none of them, after one, and so on.
    pub(crate) states: Vec<Vec<u8>>,
}

/// What a stop left, and how many of the steps were answered by then.
#[derive(Drop)]
pub(crate) struct Stopped {
    pub(crate) disk: MemoryDisk,
    pub(crate) answered: usize,
    /// After a fault a command was not refused as one over a closed archive.
    pub(crate) is_open_after_fault: bool,
}

impl Course {
    /// The steps of a file of data, between which a line `--` stands. The file at the start holds
    /// what a script makes of an empty archive of layout 1.
    pub(crate) fn read<R: Files + AllocGlobal>(
        rt: &R,
        name: &str,
        start: &[u8],
        script: &[u8],
    ) -> io::Result<Course> {
        let alloc = rt.alloc();
        let text = fs::read_to_string(rt, name)?;
        let mut course = Course {
            start: start.to_vec(alloc)?,
            steps: parts_of(alloc, &text)?,
            replies: Vec::new(alloc),
            states: Vec::new(alloc),
        };
        let mut archive = ListArchive::new(alloc);
        let _ = replies_of(alloc, script, &mut archive)?;
        course.foretell(alloc, &mut archive)?;
        Ok(course)
    }

    // Notes what an archive answers and holds that carries the steps out.
    fn foretell(&mut self, alloc: Global, archive: &mut ListArchive) -> io::Result<()> {
        self.states.push(state_of(alloc, archive)?)?;
        for step in &self.steps {
            self.replies.push(replies_of(alloc, step, archive)?)?;
            self.states.push(state_of(alloc, archive)?)?;
        }
        Ok(())
    }

    /// What is held at the start.
    pub(crate) fn at_start(&self) -> &[Vec<u8>] {
        &self.states[..self.states.len().min(1)]
    }

    /// What may be held after so many steps, or after one more.
    pub(crate) fn in_progress(&self, step: usize) -> &[Vec<u8>] {
        let from = step.min(self.states.len());
        let to = from.saturating_add(2).min(self.states.len());
        &self.states[from..to]
    }

    /// Carries the first steps out, on a disk that fails after so many calls.
    pub(crate) fn carry_out(&self, alloc: Global, count: usize, calls: u64) -> io::Result<Stopped> {
        let disk = FuseDisk::new(MemoryDisk::from_bytes(alloc, &self.start)?, calls);
        let steps = &self.steps[..count.min(self.steps.len())];
        match Archive::open(alloc, disk) {
            Ok(mut archive) => {
                let (answered, is_open_after_fault) = answered_of(alloc, steps, &mut archive)?;
                Ok(Stopped {
                    disk: archive.into_disk().into_inner(),
                    answered,
                    is_open_after_fault,
                })
            }
            Err(refused) => Ok(Stopped {
                disk: refused.disk.into_inner(),
                answered: 0,
                is_open_after_fault: false,
            }),
        }
    }
}

// How many of these steps are answered before one is answered that the device failed, and whether
// the archive answers the next command as if it were open.
fn answered_of<S: TuneStore>(
    alloc: Global,
    steps: &[Vec<u8>],
    archive: &mut S,
) -> io::Result<(usize, bool)> {
    for (answered, step) in steps.iter().enumerate() {
        let replies = replies_of(alloc, step, archive)?;
        if replies.as_slice().starts_with(b"refused 22") {
            let replies = replies_of(alloc, b"show 1\n", archive)?;
            return Ok((answered, replies.as_slice() != CLOSED));
        }
    }
    Ok((steps.len(), false))
}

// The parts of a text, between which a line `--` stands.
fn parts_of(alloc: Global, text: &str) -> io::Result<Vec<Vec<u8>>> {
    let mut parts = Vec::new(alloc);
    let mut part = Vec::new(alloc);
    for line in text.lines() {
        if line == "--" {
            parts.push(part)?;
            part = Vec::new(alloc);
        } else {
            part.extend_from_slice(line.as_bytes())?;
            part.push(b'\n')?;
        }
    }
    parts.push(part)?;
    Ok(parts)
}
