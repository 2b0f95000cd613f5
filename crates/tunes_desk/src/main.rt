//! The program `tunes-desk`, which asks archives of tunes in ABC notation, changes them, and writes
//! results to files: `tunes-book` hands its commands over to it.
#![tactic(auto)]

use desk_files::{FileDesk, NOTHING, ProgressLine, Voice};
use desk_orders::carry_out;
use desk_scenes::{Progress, StandardStreams};
use desk_words::{Order, Words, report, words_of};
use std::env::VarError;
use std::fs::{File, Files};
use std::io::{BufReader, BufWriter, IsTerminal, Write};
use std::process::ExitCode;
use std::rt::Runtime;
use std::{env, io};
use tune_cli::StreamConsole;
use tune_disk::UnknownHistory;

/// How many bytes are read at once, and how many of a list are written at once.
const BUFFER: usize = 65_536;

/// How many bytes are taken at the start and given back at once. The allocator of glibc then serves
/// each smaller request from memory that it keeps, where it would ask the system for fresh pages
/// each time. Nothing but time depends on it, and it may be refused.
const KEPT_BYTES: usize = 2_097_152;

const FAILED: u8 = 1;

const BAD_WORDS: u8 = 2;

const NOT_TOLD: &str = "no archive is told: write -f FILE, or set TUNES_BOOK";

const NOT_TEXT: &str = "TUNES_BOOK is not UTF-8; name the file otherwise";

fn main(rt: HostRuntime) -> ExitCode {
    let _ = Vec::<u8>::with_capacity(rt.alloc(), KEPT_BYTES);
    let line = ProgressLine::new(&rt, rt.stderr().is_terminal());
    let answer = start(&rt, &line, Voice::new(&line, rt.stderr()));
    line.clear();
    let status = match answer {
        Ok(status) => status,
        Err(error) => say_failure(&rt, &error),
    };
    ExitCode::from(status)
}

// Tells why nothing was done. The status tells it also where that cannot be written.
fn say_failure<R: Eprint>(rt: &R, error: &io::Error) -> u8 {
    match error.kind() {
        io::ErrorKind::OutOfMemory => {
            let _ = eprintln!(rt;
                "tunes-book: there is not memory enough; end other programs, and try again"
            );
            FAILED
        }
        io::ErrorKind::InvalidData => {
            let _ = eprintln!(rt;
                "tunes-book: a word of the command is not UTF-8; name the file otherwise, or hand \
                 its bytes over on standard input by -"
            );
            BAD_WORDS
        }
        _ => {
            let _ = eprintln!(rt; "tunes-book: {error}");
            FAILED
        }
    }
}

// Reads the words of the command, does what they ask for, and gives the status.
fn start<R: Runtime + AllocGlobal + Files<File = File>, E: Write + Progress + Drop>(
    rt: &R,
    line: &ProgressLine<R>,
    errors: E,
) -> io::Result<u8> {
    let words: Vec<String> = env::args(rt)?.collect(rt.alloc())?;
    match words_of(rt.alloc(), words.as_slice(), chance(rt)) {
        Ok(words) => on_archive(rt, line, &words, errors),
        Err(fault) => match report(rt, &fault) {
            Ok(status) => Ok(status),
            Err(error) => Ok(unwritten(line, &error)),
        },
    }
}

// Where help could not be written: that is no fault where its reader went away.
fn unwritten<R: Eprint>(line: &ProgressLine<R>, error: &io::Error) -> u8 {
    if error.kind() == io::ErrorKind::BrokenPipe {
        return 0;
    }
    line.tell("standard output", error);
    FAILED
}

// What chooses the tune of `random`: the nanoseconds of the second that it is.
fn chance<R: Runtime>(rt: &R) -> u64 {
    match rt.since_1970() {
        Ok(time) => u64::from(time.subsec_nanos()),
        Err(_) => 0,
    }
}

// Finds out which archive is meant, and carries the order out.
fn on_archive<R: Runtime + AllocGlobal + Files<File = File>, E: Write + Progress + Drop>(
    rt: &R,
    line: &ProgressLine<R>,
    words: &Words,
    errors: E,
) -> io::Result<u8> {
    match &words.file {
        Some(file) => perform(rt, line, file, words, errors),
        None => match env::var(rt, "TUNES_BOOK") {
            Ok(file) if !file.is_empty() => perform(rt, line, &file, words, errors),
            Err(VarError::OutOfMemory) => Err(io::ErrorKind::OutOfMemory.into()),
            Err(VarError::NotUnicode) => without_archive(rt, line, NOT_TEXT, words, errors),
            _ => without_archive(rt, line, NOT_TOLD, words, errors),
        },
    }
}

// No archive is told, for this reason: there are orders that want none.
fn without_archive<R: Runtime + AllocGlobal + Files<File = File>, E: Write + Progress + Drop>(
    rt: &R,
    line: &ProgressLine<R>,
    why: &str,
    words: &Words,
    errors: E,
) -> io::Result<u8> {
    if let Order::CheckBooks(_) | Order::CheckCopy(_) = &words.order {
        return perform(rt, line, &String::new(rt.alloc()), words, errors);
    }
    let _ = eprintln!(rt; "tunes-book: {why}");
    Ok(BAD_WORDS)
}

// Does what is asked, over standard input, output and error, and files.
fn perform<R: Runtime + AllocGlobal + Files<File = File>, E: Write + Progress + Drop>(
    rt: &R,
    line: &ProgressLine<R>,
    file: &String,
    words: &Words,
    errors: E,
) -> io::Result<u8> {
    let mut desk = match FileDesk::new(rt, line, words.wait, &UnknownHistory) {
        Ok(desk) => desk,
        Err(error) => {
            line.tell(NOTHING, &error);
            return Ok(FAILED);
        }
    };
    let reader = BufReader::with_capacity(rt.alloc(), BUFFER, rt.reader())?;
    let output = Voice::new(line, io::writer(rt));
    let writer = BufWriter::with_capacity(rt.alloc(), BUFFER, output)?;
    let console = StreamConsole::new(reader, writer);
    let mut standard = StandardStreams { console, errors };
    Ok(carry_out(&mut desk, file, &words.order, &mut standard))
}
