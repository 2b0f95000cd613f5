//! The program `test_reading`: reads each case of `data/`, asks the crates that read ABC what its
//! text comes to, and compares that with what is written there.
//!
//! A line of a data file is a case, in columns with a tab between them: its NAME, a CALL, the texts
//! that the call is asked about, and what has to come out. The module of a file's name says which
//! calls it has, and carries them out by its `answer`. In a text `\n`, `\t`, `\r`, `\\` and `\xNN`
//! are bytes, and what stands between `\N(` and `\)` stands there N times.
//!
//! The program prints a line for each case, and how many came out as written; where one did not, it
//! ends with status 1.
#![tactic(auto)]

mod cases;
mod fields;
mod incipits;
mod items;
mod keys;
mod letters;
mod notes;
mod order;
mod queries;
mod titles;
mod tune_keys;
mod tunes;

use cases::Case;
use std::alloc::Global;
use std::fs::Files;
use std::process::ExitCode;
use std::{fs, io};
use test_cases::{Answer, Tally};

const FILES: [&str; 11] = [
    "fields",
    "keys",
    "letters",
    "items",
    "notes",
    "tunes",
    "incipits",
    "titles",
    "order",
    "queries",
    "tune_keys",
];

fn main(rt: HostRuntime) -> io::Result<ExitCode> {
    let mut tally = Tally::NONE;
    let mut answer = Answer::new(rt.alloc());
    for file in FILES {
        try_file(&rt, file, &mut answer, &mut tally)?;
    }
    tally.tell_count(&rt, "cases")?;
    Ok(tally.exit_code())
}

fn try_file<R: Files + Print + AllocGlobal>(
    rt: &R,
    file: &str,
    answer: &mut Answer,
    tally: &mut Tally,
) -> io::Result<()> {
    let lines = fs::read_to_string(rt, file)?;
    for line in lines.lines() {
        try_line(rt, file, line, answer, tally)?;
    }
    Ok(())
}

fn try_line<R: Print + AllocGlobal>(
    rt: &R,
    file: &str,
    line: &str,
    answer: &mut Answer,
    tally: &mut Tally,
) -> io::Result<()> {
    let case = Case::of_line(rt.alloc(), line)?;
    answer.clear();
    if ask(rt.alloc(), file, &case, answer).is_none() {
        answer.say(" cannot be asked");
    }
    let is_as_written = answer.is_whole() && answer.as_slice() == case.wanted.as_slice();
    tally.tell(rt, case.name, is_as_written, answer)
}

// Writes what a case comes to, by the module of its file.
fn ask(alloc: Global, file: &str, case: &Case, out: &mut Answer) -> Option<()> {
    match file {
        "fields" => fields::answer(alloc, case, out),
        "keys" => keys::answer(alloc, case, out),
        "letters" => letters::answer(alloc, case, out),
        "items" => items::answer(case, out),
        "notes" => notes::answer(alloc, case, out),
        "tunes" => tunes::answer(alloc, case, out),
        "incipits" => incipits::answer(alloc, case, out),
        "titles" => titles::answer(alloc, case, out),
        "order" => order::answer(alloc, case, out),
        "queries" => queries::answer(alloc, case, out),
        "tune_keys" => tune_keys::answer(alloc, case, out),
        _ => None,
    }
}
