// Calls on scripts over an archive in memory:
//
//     script PIECE         nothing; adds to the script (pieces.rt)
//     replies PIECE        nothing; adds to the replies that it has to give
//     cut LEN              nothing; the script is its first bytes, so many
//     next                 nothing; script and replies are empty again
//     anew                 nothing; the archive is empty again
//     run                  how the run ends, and how many bytes of the script are left
//     reader-fails READ WRITTEN
//                          how a run ends over an empty archive, of the first bytes of the script,
//                          where the reader fails after these; so many bytes of replies are wanted
//     reader-fails-each COUNT
//                          nothing, where each run over an empty archive ends as it has to, its
//                          replies are those to all that was read, and the archive is that of
//                          these, where the reader fails in call 0, 1 and so on, below so many, and
//                          works again; the last one is past the input's end. Each piece of the
//                          replies answers the piece of the script before it
//     writer-fails CALLS   how a run ends where the writer fails after so many calls
//     writer-fails-each COUNT
//                          nothing, where each run over an empty archive ends as it has to, and
//                          leaves tune 1, where the writer fails after 0 calls, 1 call and so on
//     in-turn              how a run ends, and how many replies were flushed; whether a command,
//                          or the end, was asked for before the replies to those before it were
//                          flushed. The lines of a book begin with capitals
//     status, status-reader-fails, status-writer-fails CALLS
//                          the status of the program's `list`; a reader that fails does so behind
//                          the script
//     file-status ACTION   the status of the program's action make, run, check or upgrade on a file
//                          that cannot be opened, and what it writes
//     tune NUMBER          a tune's number, revision and text, and those of its copy
//     wear                 the number of the last tune, when the archive was filled over and over
//
// Where the replies of a run are not those that are wanted, the answer says from which byte on.
use crate::escapes::{is_meant, number, size};
use crate::no_files::NoFiles;
use crate::pieces::add_piece;
use crate::pipes::{
    AskingReader, CountingWriter, FailingReader, FailingWriter, Flushes, OnceFailingReader,
};
use crate::wear::wear;
use std::alloc::Global;
use std::cell::Cell;
use std::io;
use test_cases::{Answer, Bench, Words, no_data};
use tune_cli::{Action, RunEnd, StreamConsole, act, run};
use tune_store::{Command, ListArchive, Reply, Tune, TuneStore};

/// An archive, a script, and the replies that it has to give.
#[derive(Drop)]
pub(crate) struct Scripts {
    alloc: Global,
    archive: ListArchive,
    script: Vec<u8>,
    replies: Vec<u8>,
    /// Up to where the script and the replies stood after each piece of the replies.
    ends: Vec<(usize, usize)>,
}

impl Bench for Scripts {
    fn begin(&mut self, _given: &str) -> io::Result<()> {
        *self = Scripts::new(self.alloc);
        Ok(())
    }

    fn call(&mut self, name: &str, words: Words<'_>, answer: &mut Answer) -> io::Result<()> {
        match name {
            "script" | "replies" | "next" | "anew" | "cut" => self.write(name, words),
            "run"
            | "in-turn"
            | "reader-fails"
            | "reader-fails-each"
            | "writer-fails"
            | "writer-fails-each" => self.run(name, words, answer),
            "status" | "status-reader-fails" | "status-writer-fails" => {
                self.list(name, words, answer)
            }
            "file-status" => self.act_on_file(words, answer),
            "tune" => self.show_tune(words, answer),
            "wear" => {
                answer.name(wear(self.alloc, &mut self.archive));
                Ok(())
            }
            _ => Err(no_data()),
        }
    }

    fn is_wanted(&self, answer: &Answer, written: &str) -> io::Result<bool> {
        is_meant(self.alloc, answer, written)
    }
}

impl Scripts {
    pub(crate) fn new(alloc: Global) -> Scripts {
        Scripts {
            alloc,
            archive: ListArchive::new(alloc),
            script: Vec::new(alloc),
            replies: Vec::new(alloc),
            ends: Vec::new(alloc),
        }
    }

    // Calls that write the script and the replies.
    fn write(&mut self, call: &str, mut words: Words<'_>) -> io::Result<()> {
        match call {
            "script" => add_piece(self.alloc, &mut self.script, words)?,
            "replies" => {
                add_piece(self.alloc, &mut self.replies, words)?;
                self.ends.push((self.script.len(), self.replies.len()))?;
            }
            "cut" => self.script.truncate(size(&mut words)?),
            "anew" => self.archive = ListArchive::new(self.alloc),
            _ => {
                self.script = Vec::new(self.alloc);
                self.replies = Vec::new(self.alloc);
                self.ends = Vec::new(self.alloc);
            }
        }
        Ok(())
    }

    // Calls that run the script.
    fn run(&mut self, call: &str, mut words: Words<'_>, answer: &mut Answer) -> io::Result<()> {
        match call {
            "run" => self.run_whole(answer),
            "reader-fails" => {
                let (read, wanted) = (size(&mut words)?, size(&mut words)?);
                self.run_failing_reader(read, wanted, answer);
            }
            "reader-fails-each" => self.run_failing_readers(number(&mut words)?, answer),
            "writer-fails" => {
                let (end, _) = self.run_failing_writer(number(&mut words)?);
                answer.name(end);
            }
            "writer-fails-each" => self.run_failing_writers(number(&mut words)?, answer),
            _ => self.run_in_turn(answer),
        }
        Ok(())
    }

    // Runs the script, and says how it ends, and how many bytes are left.
    fn run_whole(&mut self, answer: &mut Answer) {
        let mut reader = self.script.as_slice();
        let mut written = Vec::new(self.alloc);
        let end = run(
            self.alloc,
            &mut StreamConsole::new(&mut reader, &mut written),
            &mut self.archive,
        );
        let left = reader.len();
        answer.show(format_args!("{end:?} {left}"));
        answer.tell_difference(&written, &self.replies);
    }

    // Runs the first bytes of the script over an empty archive with a reader that fails after them;
    // the first bytes of the replies are wanted.
    fn run_failing_reader(&mut self, read: usize, wanted: usize, answer: &mut Answer) {
        let text = first(&self.script, read);
        let wanted = first(&self.replies, wanted);
        let mut reader = FailingReader { text };
        let mut written = Vec::new(self.alloc);
        self.archive = ListArchive::new(self.alloc);
        let end = run(
            self.alloc,
            &mut StreamConsole::new(&mut reader, &mut written),
            &mut self.archive,
        );
        answer.name(end);
        answer.tell_difference(&written, wanted);
    }

    // Runs the script over empty archives, with readers that fail once, in call 0, 1 and so on,
    // below so many. Says in which call the run is another than it has to be.
    fn run_failing_readers(&mut self, most: u32, answer: &mut Answer) {
        for call in 0..most {
            if !self.run_failing_once(call, answer) {
                return;
            }
        }
        answer.say("each failed");
    }

    // The same with one of them, and whether it failed.
    fn run_failing_once(&mut self, call: u32, answer: &mut Answer) -> bool {
        let mut reader = OnceFailingReader::new(&self.script, call);
        let mut written = Vec::new(self.alloc);
        self.archive = ListArchive::new(self.alloc);
        let end = run(
            self.alloc,
            &mut StreamConsole::new(&mut reader, &mut written),
            &mut self.archive,
        );
        let (left, unread) = (reader.left, reader.text.len());
        if !self.is_read_to(end, left, unread, &written) {
            answer.space();
            answer.show(format_args!("{end:?} in {call}"));
        }
        left.is_some()
    }

    // Whether a run of a reader that failed with so many bytes left, or did not, has ended so, read
    // no byte behind, answered all that it had read, and left the archive of that.
    fn is_read_to(
        &mut self,
        end: RunEnd,
        left: Option<usize>,
        unread: usize,
        written: &[u8],
    ) -> bool {
        let wanted_end = if left.is_some() {
            RunEnd::ReaderFault
        } else {
            RunEnd::Ended
        };
        let left = left.unwrap_or(0);
        let (script, replies) = self.answered_of(self.script.len().saturating_sub(left));
        let is_answered = written == first(&self.replies, replies);
        let wanted = held_after(self.alloc, first(&self.script, script));
        let is_held = all_of(self.alloc, &mut self.archive) == wanted;
        is_held && is_answered && end == wanted_end && unread == left
    }

    // How far the script and the replies go of the pieces within its first bytes, so many.
    fn answered_of(&self, read: usize) -> (usize, usize) {
        let mut answered = (0, 0);
        for end in &self.ends {
            if end.0 <= read {
                answered = *end;
            }
        }
        answered
    }

    // Runs the script with a writer that fails after so many calls, and says whether it failed.
    fn run_failing_writer(&mut self, calls: u32) -> (RunEnd, bool) {
        let mut reader = self.script.as_slice();
        let mut writer = FailingWriter::new(calls);
        let end = run(
            self.alloc,
            &mut StreamConsole::new(&mut reader, &mut writer),
            &mut self.archive,
        );
        (end, writer.has_failed)
    }

    // The same over empty archives, with writers that fail after 0 calls and more, below so many.
    // Says after which calls the run ends in another way than by its writer or its input, or tune 1
    // is not there.
    fn run_failing_writers(&mut self, most: u32, answer: &mut Answer) {
        for calls in 0..most {
            self.archive = ListArchive::new(self.alloc);
            let (end, has_failed) = self.run_failing_writer(calls);
            let is_shown = self.archive.apply(&Command::Show(1)).is_ok();
            if end != end_of(has_failed) || !is_shown {
                answer.space();
                answer.show(format_args!("{end:?} after {calls}"));
            }
        }
    }

    // Runs the script with a reader that notices whether it is asked for a command, or the end,
    // before the replies to all commands before it were flushed.
    fn run_in_turn(&mut self, answer: &mut Answer) {
        let flushes = Flushes {
            flushed: Cell::new(0),
            asked_early: Cell::new(false),
        };
        let mut reader = AskingReader {
            text: self.script.as_slice(),
            turns: 0,
            flushes: &flushes,
        };
        let mut writer = CountingWriter {
            has_more: false,
            flushes: &flushes,
        };
        let end = run(
            self.alloc,
            &mut StreamConsole::new(&mut reader, &mut writer),
            &mut self.archive,
        );
        let flushed = flushes.flushed.get();
        answer.show(format_args!("{end:?} {flushed}"));
        if flushes.asked_early.get() {
            answer.say(" asked early");
        }
    }

    // The status of the program's `list`, for the script.
    fn list(&self, call: &str, mut words: Words<'_>, answer: &mut Answer) -> io::Result<()> {
        let mut drive = NoFiles::new(self.alloc);
        let text = self.script.as_slice();
        if call == "status-writer-fails" {
            let writer = FailingWriter::new(number(&mut words)?);
            let mut console = StreamConsole::new(text, writer);
            answer.show(act(&mut drive, &Action::List, &mut console));
            return Ok(());
        }
        let mut written = Vec::new(self.alloc);
        let status = if call == "status" {
            let mut console = StreamConsole::new(text, &mut written);
            act(&mut drive, &Action::List, &mut console)
        } else {
            let mut console = StreamConsole::new(FailingReader { text }, &mut written);
            act(&mut drive, &Action::List, &mut console)
        };
        answer.show(status);
        answer.tell_difference(&written, &self.replies);
        Ok(())
    }

    // The status of an action on a file that cannot be opened, and what is written.
    fn act_on_file(&self, mut words: Words<'_>, answer: &mut Answer) -> io::Result<()> {
        let file = String::from_str(self.alloc, "tunes.abcx")?;
        let action = match words.word() {
            "make" => Action::Make(file),
            "run" => Action::Run(file),
            "check" => Action::Check(file),
            "upgrade" => Action::Upgrade(file),
            _ => return Err(no_data()),
        };
        let mut written = Vec::new(self.alloc);
        let mut console = StreamConsole::new(self.script.as_slice(), &mut written);
        let status = act(&mut NoFiles::new(self.alloc), &action, &mut console);
        answer.show(format_args!("{status} "));
        answer.add(&written);
        Ok(())
    }

    // The number of a tune, its revision, its text and that of its copy.
    fn show_tune(&mut self, mut words: Words<'_>, answer: &mut Answer) -> io::Result<()> {
        match self.archive.apply(&Command::Show(number(&mut words)?)) {
            Ok(Reply::Shown(tune)) => {
                show_tune(&tune, answer);
                answer.space();
                show_tune(&tune.copy(self.alloc)?, answer);
                Ok(())
            }
            _ => Err(no_data()),
        }
    }
}

// The first bytes of a text, so many.
fn first(text: &[u8], count: usize) -> &[u8] {
    text.get(..count).unwrap_or(text)
}

fn show_tune(tune: &Tune, answer: &mut Answer) {
    answer.show(format_args!("{} {} ", tune.number, tune.revision));
    answer.add(tune.text.bytes());
}

// What an archive holds that began empty, and carried out a script.
fn held_after(alloc: Global, script: &[u8]) -> Vec<u8> {
    let mut reader = script;
    let mut archive = ListArchive::new(alloc);
    let mut replies = Vec::new(alloc);
    let _ = run(
        alloc,
        &mut StreamConsole::new(&mut reader, &mut replies),
        &mut archive,
    );
    all_of(alloc, &mut archive)
}

// What an archive answers who asks for all that it holds.
fn all_of(alloc: Global, archive: &mut ListArchive) -> Vec<u8> {
    let mut questions: &[u8] = b"export\ntitles\nsets\nset-show friday\nshow 1\nshow 2\n";
    let mut replies = Vec::new(alloc);
    let _ = run(
        alloc,
        &mut StreamConsole::new(&mut questions, &mut replies),
        archive,
    );
    replies
}

// How a run ends where the writer has failed, or has not.
fn end_of(has_failed: bool) -> RunEnd {
    if has_failed {
        RunEnd::WriterFault
    } else {
        RunEnd::Ended
    }
}
