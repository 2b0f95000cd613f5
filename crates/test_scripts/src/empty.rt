// Empty archives, over which scripts run.
use crate::archives::{run_over_disk, run_over_list, run_over_made};
use crate::old_disks::old_disk;
use std::alloc::Global;
use std::fs::Files;
use std::io;
use test_cases::{Answer, Bench, Words, read_bytes};
use tune_scripts::RunEnd;

/// Where an archive keeps its tunes.
#[derive(Clone, Copy, Debug, PartialEq, Eq)]
pub(crate) enum Kept {
    InMemory,
    /// In a file of layout 1, which is a disk in memory.
    InOldFile,
    /// In a file that is made.
    InMadeFile,
}

impl Kept {
    /// What is printed of it, and the list of the scripts that run over such archives alone.
    pub(crate) fn names(self) -> (&'static str, &'static str) {
        match self {
            Kept::InMemory => ("in memory", "cases-of-layout-1"),
            Kept::InOldFile => ("in a file of layout 1", "cases-of-layout-1"),
            Kept::InMadeFile => ("in a made file", "cases-of-layout-2"),
        }
    }
}

/// A call is the name of a script, which runs over an empty archive.
#[derive(Drop)]
pub(crate) struct Empty<'a, R> {
    pub(crate) rt: &'a R,
    pub(crate) kept: Kept,
}

impl<'a, R: Files + AllocGlobal> Bench for Empty<'a, R> {
    fn begin(&mut self, _given: &str) -> io::Result<()> {
        Ok(())
    }

    fn call(&mut self, name: &str, _words: Words<'_>, answer: &mut Answer) -> io::Result<()> {
        let script = read_bytes(self.rt, name, "script")?;
        let wanted = read_bytes(self.rt, name, "replies")?;
        let mut replies = Vec::new(self.rt.alloc());
        match run_on_empty(self.rt.alloc(), self.kept, &script, &mut replies)? {
            Some(end) => answer.name(end),
            None => answer.say("no archive"),
        }
        answer.tell_difference(&replies, &wanted);
        Ok(())
    }
}

// How the run of a script over an empty archive ends, whose replies go behind others; nothing where
// there is no archive.
fn run_on_empty(
    alloc: Global,
    kept: Kept,
    script: &[u8],
    replies: &mut Vec<u8>,
) -> io::Result<Option<RunEnd>> {
    let ran = match kept {
        Kept::InMemory => return Ok(Some(run_over_list(alloc, script, replies))),
        Kept::InOldFile => run_over_disk(alloc, old_disk(alloc)?, script, replies),
        Kept::InMadeFile => run_over_made(alloc, script, replies),
    };
    Ok(ran.map(|ran| ran.end))
}
