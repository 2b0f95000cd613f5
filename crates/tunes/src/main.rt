//! The program `tunes`, which keeps tunes in ABC notation: `tunes make FILE` makes an empty archive
//! in a file, `tunes run FILE` runs the script of standard input on it, `tunes check FILE` tells
//! how much it holds, and `tunes upgrade FILE` brings it to layout 2; `tunes list` runs the script
//! on an empty archive in memory.
#![tactic(auto)]

mod file_drive;

use file_drive::{FileDrive, NOTHING, tell};
use std::fs::{File, Files};
use std::io::{BufReader, BufWriter};
use std::process::ExitCode;
use std::rt::Runtime;
use std::{env, io};
use tune_cli::{Action, StreamConsole, act, action, report};
use tune_disk::{FileHistory, UnknownHistory};

/// How many bytes are read at once, and how many of a reply are written at once.
const BUFFER: usize = 65_536;

/// How many bytes are taken at the start and given back at once. The allocator of glibc then serves
/// each smaller request from memory that it keeps, where it would ask the system for fresh pages
/// each time. Nothing but time depends on it, and it may be refused.
const KEPT_BYTES: usize = 2_097_152;

const FAILED: u8 = 1;

const BAD_WORDS: u8 = 2;

fn main(rt: HostRuntime) -> ExitCode {
    let _ = Vec::<u8>::with_capacity(rt.alloc(), KEPT_BYTES);
    let status = match start(&rt) {
        Ok(status) => status,
        Err(error) => say_failure(&rt, &error),
    };
    ExitCode::from(status)
}

// Tells why nothing was done. The status tells it also where that cannot be written.
fn say_failure<R: Print + Eprint>(rt: &R, error: &io::Error) -> u8 {
    match error.kind() {
        io::ErrorKind::OutOfMemory => {
            let _ = println!(rt; "refused 21 OutOfMemory");
            FAILED
        }
        io::ErrorKind::InvalidData => {
            let _ = eprintln!(rt; "tunes: a word of the command is not UTF-8");
            BAD_WORDS
        }
        _ => {
            let _ = eprintln!(rt; "tunes: {error}");
            FAILED
        }
    }
}

// Reads the words of the command, does what they ask for, and gives the status.
fn start<R: Runtime + AllocGlobal + Files<File = File>>(rt: &R) -> io::Result<u8> {
    let words: Vec<String> = env::args(rt)?.collect(rt.alloc())?;
    match action(rt.alloc(), words.as_slice()) {
        Ok(action) => perform(rt, &action, &UnknownHistory),
        Err(fault) => match report(rt, &fault) {
            Ok(status) => Ok(status),
            Err(error) => {
                tell(rt, "standard output", &error);
                Ok(FAILED)
            }
        },
    }
}

// Does what is asked, over standard input and output, and files, whatever their history is.
fn perform<R: Runtime + AllocGlobal + Files<File = File>, H: FileHistory>(
    rt: &R,
    action: &Action,
    history: &H,
) -> io::Result<u8> {
    let mut drive = match FileDrive::new(rt, history) {
        Ok(drive) => drive,
        Err(error) => {
            tell(rt, NOTHING, &error);
            return Ok(FAILED);
        }
    };
    let reader = BufReader::with_capacity(rt.alloc(), BUFFER, rt.reader())?;
    let writer = BufWriter::with_capacity(rt.alloc(), BUFFER, io::writer(rt))?;
    Ok(act(&mut drive, action, &mut StreamConsole::new(reader, writer)))
}
