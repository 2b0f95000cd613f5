//! The program `test_memory`: carries out the commands of standard input where memory may be
//! refused, and tells what came of them.
//!
//! ```sh
//! test_memory list                        # over an archive in memory
//! test_memory make                        # over one that is made in a file, on a disk in memory
//! test_memory open FILE CALLS lost|kept   # over that of a file, up to a stop after so many calls
//! ```
//!
//! The input has pieces, each of one command and a line `--` behind it, and behind a line `==`
//! others, which ask. Each piece is a script of its own; its line `--` is a bad one, and is
//! answered so where the text before it was read. Room for all that is told is taken first. Then
//! come the pieces in front. What they leave in a file is then opened, once more where that is
//! refused; and then come those that ask.
//!
//! The replies to a piece are told, and a line `== END LEFT`: how its run ended, and how many bytes
//! of it are left. `== refused WHY` stands where an archive was not made, or not opened; behind the
//! pieces in front with how many bytes the file has, and `== layout N` where it was opened.
//!
//! All is printed at the end, with the status 0. The status is 1 where memory was refused for what
//! this program itself does, and 4 where the words name nothing. No allocation is refused by
//! itself: `checks/refuse_memory.py` runs it again and again, with another one refused each time,
//! and judges what it tells.
#![tactic(auto)]

mod archives;

use archives::{Script, Stop, over_file, over_list, over_made};
use std::fs::Files;
use std::io::{Read, Write};
use std::process::ExitCode;
use std::{env, fs, io};
use tune_disk::StopChoice;

/// Room for all that is told.
const ROOM: usize = 1_000_000;

/// The status where the words of the command name nothing.
const BAD_WORDS: u8 = 4;

fn main(rt: HostRuntime) -> io::Result<ExitCode> {
    let words: Vec<String> = env::args(&rt)?.collect(rt.alloc())?;
    let mut input = String::new(rt.alloc());
    rt.reader().read_to_string(&mut input)?;
    let mut told = Vec::new(rt.alloc());
    told.reserve(ROOM)?;
    if carry_out(&rt, words.as_slice(), Script::of(&input), &mut told)? {
        io::writer(&rt).write_all(&told)?;
        return Ok(ExitCode::SUCCESS);
    }
    eprintln!(&rt; "usage: test_memory list | make | open FILE CALLS lost|kept")?;
    Ok(ExitCode::from(BAD_WORDS))
}

// Carries a script out over the archive that the words name. The answer is whether they name one.
fn carry_out<R: Files + AllocGlobal>(
    rt: &R,
    words: &[String],
    script: Script<'_>,
    told: &mut Vec<u8>,
) -> io::Result<bool> {
    match words {
        [_, what] if what.as_str() == "list" => over_list(rt.alloc(), script, told)?,
        [_, what] if what.as_str() == "make" => over_made(rt.alloc(), script, told)?,
        [_, what, path, calls, choice] if what.as_str() == "open" => {
            let Some(stop) = stop(calls, choice) else {
                return Ok(false);
            };
            let file = fs::read(rt, path.as_str())?;
            over_file(rt.alloc(), script, &file, stop, told)?;
        }
        _ => return Ok(false),
    }
    Ok(true)
}

// The stop that two words name.
fn stop(calls: &str, choice: &str) -> Option<Stop> {
    let choice = match choice {
        "lost" => StopChoice::Lost,
        "kept" => StopChoice::Kept,
        _ => return None,
    };
    Some(Stop {
        calls: calls.parse().ok()?,
        choice,
    })
}
