// Runs a script.
ghost use Rattle.std.specs.Prelude.{◌≡◌, ◌+◌, ◌<◌, ◌≤◌, length, true, None, Some, Err};
ghost use Rattle.tune_scripts.specs.Limits.{longest_line, most_lines};
ghost use Rattle.tune_scripts.specs.Replies.{answer_bytes, bad_line_bytes};
ghost use Rattle.tune_scripts.specs.Scripts.{line_text};
ghost use Rattle.tune_scripts.specs.ScriptRuns.{RunsScript};
ghost use Rattle.tune_store.specs.Stores.{standing_of};
ghost use Rattle.tune_scripts.specs.Looks.{TellsFaults, reader_faults_of, writer_faults_of};
ghost use Rattle.tune_scripts.specs.Looks.{LooksBehind, LooksPromptly, LooksFlushed, IsPartOfTurn};
ghost use Rattle.tune_scripts.specs.Streams.{streams_in};
ghost use Rattle.tune_scripts.specs.Inside.Turns.{Turns, TurnsBook, TurnsOver, bytes_in};
ghost use Rattle.tune_scripts.specs.Inside.Turns.{WritesOut, IsCarriedOut, next_of};

use crate::console::Console;
use crate::replies::{write_answer, write_bad_line};
use crate::script_lines::{BookUse, ScriptLine, meaning};
use crate::script_reading::{BookRead, LINE_ROOM, LineRead, read_book, read_line};
use abc_fields::LONGEST_BOOK;
use std::alloc::Global;
use tune_store::{Command, Refusal, Reply, TuneStore};

/// How a run ended.
#[derive(Clone, Copy, Debug, PartialEq, Eq)]
pub enum RunEnd {
    /// At the input's end.
    Ended,
    /// After `MOST_LINES` lines, with no look at what follows.
    LineBound,
    /// At a line of more than `LONGEST_LINE` bytes, which is answered as a bad one.
    LongLine,
    /// The reader failed.
    ReaderFault,
    /// The writer failed. The command before it took place.
    WriterFault,
    /// A command was answered that the device failed, in it or before.
    DeviceFault,
    /// Out of memory before the first line, so that nothing was read.
    OutOfMemory,
}

/// How many lines of a script are read at most (this archive's script language).
pub const MOST_LINES: u32 = 1_000_000;

/// Carries out the commands of a script, and writes and flushes the reply to each before the next
/// line is looked at.
///
/// `console` gives the script, a line and directly after it the book that it asks for, and takes
/// the replies. No more is read than they need, however little is there at a time. `alloc` is for
/// the texts that commands hold (a book, a query's text, or the name of a set list): where there is
/// no memory for one, a book is read and dropped, and the reply says so. No other command is so
/// answered here.
///
/// The clause `runs` speaks of a store whose device has answered as a device does, at every end. It
/// gives one list, of the commands that the store carried out (`carried`), and says of it:
///
/// - `carries_out`, `ends`, of every console: each command was carried out by one call and answered
///   by the rules, and the run ended with `DeviceFault` exactly where the last was answered that
///   the device failed, unless the writer failed in that very answer.
/// - `script`, of a console that tells its bytes (standard input tells none): these are the
///   commands of the script and no others, and what was written is their replies.
/// - `stops`, of every console, where the store was open: a stop since the run began leaves the
///   state after a prefix of the commands; since some of them were answered, and so since their
///   replies were written, a prefix that holds these; and at the end the state after all, or after
///   all but the last where the device failed in that.
///
/// Where the store's device is honest, and the console tells its bytes, `prompt` says that whenever
/// the input was looked at the lines that had been taken whole were answered, and that was flushed.
///
/// Four more clauses hold of every device. Whenever the input was looked at, all that was written
/// had been flushed (`looks`). The run ends with `ReaderFault`, or with `WriterFault`, exactly
/// where a fault of the reader, or of the writer, was counted; else all is flushed at its end
/// (`faults`). A store that was closed is left as it was (`idle`), and after the end `DeviceFault`
/// the store is closed (`fault`).
pub fn run<C: Console, S: TuneStore>(alloc: Global, console: &mut C, store: &mut S) -> RunEnd
    ensures runs { S.honest store.new → RunsScript S.TuneStore most_lines
        (streams_in C.Console console.old console.new) store.old store.new result }
    ensures prompt { S.honest store.new → (C.output console.old).flushed ≡ true
        → LooksPromptly (standing_of S.TuneStore store.old)
        (streams_in C.Console console.old console.new) }
    ensures looks { (C.output console.old).flushed ≡ true
        → LooksFlushed (streams_in C.Console console.old console.new) }
    ensures faults { TellsFaults (streams_in C.Console console.old console.new) (Some result) }
    ensures idle { S.closed store.old ≡ true → store.new ≡ store.old }
    ensures fault { result ≡ RunEnd.DeviceFault → S.closed store.new ≡ true }
{
    let mut line = [0u8; LINE_ROOM];
    for lines in 0..MOST_LINES {
        if let Some(end) = turn(alloc, console, store, &mut line) {
            return end;
        }
    }
    RunEnd::LineBound
}

// One line of a script, with its book.
fn turn<C: Console, S: TuneStore>(
    alloc: Global,
    console: &mut C,
    store: &mut S,
    line: &mut [u8],
) -> Option<RunEnd>
    requires { length line.old ≡ longest_line + 1 }
    ensures was_honest { S.honest store.new → S.honest store.old }
    ensures idle { S.closed store.old ≡ true → store.new ≡ store.old }
    ensures fault { result ≡ Some RunEnd.DeviceFault → S.closed store.new ≡ true }
    ensures turns { S.honest store.new → TurnsOver S.TuneStore
        (bytes_in C.Console console.old console.new) store.old store.new result
        (λ work. Turns (C.input console.old).left (C.input console.new).left work result) }
    ensures faults { TellsFaults (streams_in C.Console console.old console.new) result }
    ensures looks { LooksBehind (streams_in C.Console console.old console.new)
        IsPartOfTurn }
{
    match read_line(console, line) {
        LineRead::Fault => Some(RunEnd::ReaderFault),
        LineRead::End => Some(RunEnd::Ended),
        LineRead::Long => bad_line(console, Some(RunEnd::LongLine)),
        LineRead::Line(len, fed) => {
            let line = without_return(&line[..len], fed);
            match meaning(alloc, line) {
                Err(_) => refuse(console, Refusal::OutOfMemory),
                Ok(ScriptLine::Blank) => None,
                Ok(ScriptLine::Bad) => bad_line(console, None),
                Ok(ScriptLine::Whole(command)) => carry_out(console, store, &command),
                Ok(ScriptLine::Book(book_use, len)) => {
                    with_book(alloc, console, store, book_use, len)
                }
            }
        }
    }
}

// The line without the carriage return before its line feed.
fn without_return(line: &[u8], fed: bool) -> &[u8]
    ensures text { result.now ≡ line_text fed line.now }
    ensures size { length result.now ≤ length line.now }
{
    match line {
        [rest @ .., b'\r'] if fed => rest,
        _ => line,
    }
}

// Reads a book, and carries out the command over it.
fn with_book<C: Console, S: TuneStore>(
    alloc: Global,
    console: &mut C,
    store: &mut S,
    book_use: BookUse,
    len: u32,
) -> Option<RunEnd>
    ensures was_honest { S.honest store.new → S.honest store.old }
    ensures idle { S.closed store.old ≡ true → store.new ≡ store.old }
    ensures fault { result ≡ Some RunEnd.DeviceFault → S.closed store.new ≡ true }
    ensures turns { S.honest store.new → TurnsOver S.TuneStore
        (bytes_in C.Console console.old console.new) store.old store.new result
        (λ work. TurnsBook book_use len (C.input console.old).left (C.input console.new).left
        work result) }
    ensures faults { TellsFaults (streams_in C.Console console.old console.new) result }
    ensures looks { LooksBehind (streams_in C.Console console.old console.new)
        (λ taken. length taken < len) }
{
    let len = len as usize;
    let is_wanted = len <= LONGEST_BOOK;
    match read_book(alloc, console, len, is_wanted) {
        BookRead::Fault => Some(RunEnd::ReaderFault),
        BookRead::Cut => bad_line(console, Some(RunEnd::Ended)),
        BookRead::Dropped if is_wanted => refuse(console, Refusal::OutOfMemory),
        BookRead::Dropped => refuse(console, Refusal::BookTooLong),
        BookRead::Whole(book) => carry_out(console, store, &book_use.command(book)),
    }
}

// Carries out a command, and writes its answer.
fn carry_out<C: Console, S: TuneStore>(
    console: &mut C,
    store: &mut S,
    command: &Command,
) -> Option<RunEnd>
    ensures was_honest { S.honest store.new → S.honest store.old }
    ensures idle { S.closed store.old ≡ true → store.new ≡ store.old }
    ensures fault { result ≡ Some RunEnd.DeviceFault → S.closed store.new ≡ true }
    ensures carries { S.honest store.new → IsCarriedOut S.TuneStore
        (bytes_in C.Console console.old console.new)
        store.old store.new command.now result }
    ensures faults { TellsFaults (streams_in C.Console console.old console.new) result }
    ensures input { C.input console.new ≡ C.input console.old }
{
    let answer = store.apply(command);
    match write_answer(console, &answer) {
        Ok(()) => next_after(&answer),
        Err(_) => Some(RunEnd::WriterFault),
    }
}

// How a run goes on after an answer.
fn next_after(answer: &Result<Reply, Refusal>) -> Option<RunEnd>
    ensures { result ≡ next_of answer.now }
{
    match answer {
        Err(Refusal::Device | Refusal::Closed) => Some(RunEnd::DeviceFault),
        _ => None,
    }
}

// Answers a command that does not reach the store.
fn refuse<C: Console>(console: &mut C, refusal: Refusal) -> Option<RunEnd>
    ensures written { let bytes = answer_bytes (Err refusal) in
        WritesOut (C.output console.old).bytes (C.output console.new).bytes bytes None result }
    ensures faults { TellsFaults (streams_in C.Console console.old console.new) result }
    ensures input { C.input console.new ≡ C.input console.old }
{
    match write_answer(console, &Err(refusal)) {
        Ok(()) => None,
        Err(_) => Some(RunEnd::WriterFault),
    }
}

// Answers a line that is no command, or a book that was cut.
fn bad_line<C: Console>(console: &mut C, next: Option<RunEnd>) -> Option<RunEnd>
    ensures written { WritesOut (C.output console.old).bytes (C.output console.new).bytes
        bad_line_bytes next result }
    ensures faults { reader_faults_of next ≡ 0 → writer_faults_of next ≡ 0
        → TellsFaults (streams_in C.Console console.old console.new) result }
    ensures input { C.input console.new ≡ C.input console.old }
{
    match write_bad_line(console) {
        Ok(()) => next,
        Err(_) => Some(RunEnd::WriterFault),
    }
}
