// What the calls of the data answer.
use crate::disks::show_disk;
use crate::faulty_catalog::show_decided;
use crate::records::{show_import, show_record};
use std::alloc::Global;
use std::fs::Files;
use std::io;
use test_cases::{Answer, Bench, Words, no_data};
use tune_cli::status;
use tune_scripts::{StreamConsole, run};
use tune_store::TuneStore;

/// Each call has a store of its own, so nothing is in hand but the way to the files.
#[derive(Drop)]
pub(crate) struct Fakes<'a, R> {
    pub(crate) rt: &'a R,
}

impl<'a, R: Files + AllocGlobal> Bench for Fakes<'a, R> {
    fn begin(&mut self, _given: &str) -> io::Result<()> {
        Ok(())
    }

    fn call(&mut self, name: &str, words: Words<'_>, answer: &mut Answer) -> io::Result<()> {
        match name {
            "import" => show_import(self.rt.alloc(), answer),
            "recorded" => show_record(self.rt, words, answer),
            "disk" => show_disk(self.rt, words, answer),
            "device" => show_decided(self.rt.alloc(), words.rest(), true, answer),
            "memory" => show_decided(self.rt.alloc(), words.rest(), false, answer),
            _ => Err(no_data()),
        }
    }
}

/// Adds how the run of a script over a store ends, and the program's status then; and whether the
/// replies are others than those that are wanted.
pub(crate) fn show_end<S: TuneStore>(
    alloc: Global,
    store: &mut S,
    script: &[u8],
    wanted: &[u8],
    answer: &mut Answer,
) {
    let mut replies = Vec::new(alloc);
    let end = run(alloc, &mut StreamConsole::new(script, &mut replies), store);
    let status = status(end);
    answer.show(format_args!("{end:?} {status}"));
    answer.tell_difference(&replies, wanted);
}
