//! The program `test_format`: the bytes of an archive on its pages, and which of them are one.
//!
//! `data/bytes` has a line for each call of the format, `NAME: CALL = ANSWER`. Bytes stand between
//! double quotes, with escapes as `bstr` has them; a call that finds none answers `none`:
//!
//! - `write-root LAYOUT NUMBERS TITLES RHYTHMS SCALES INCIPITS SETS`, what a page begins with, up
//!   to the zeros; and `read-root BYTES`.
//! - `key-of-number NUMBER`, and `number-of-key BYTES`, behind which zeros stand.
//! - `write-text REVISION BYTES`, and `read-text BYTES`.
//!
//! `data/archives` has cases, between which an empty line stands: `case NAME`; `root BYTES`, which
//! the root begins with; a line `chain BYTES` for each chain, and a line `leaf KEY VALUE, ..` for
//! each leaf of keys of 32 bytes, or `wide KEY VALUE, ..` of 48, which have zeros at their ends,
//! put on the next pages from page 1 on; `claims ANSWER`, what is claimed of these pages; and
//! `opens ANSWER`, what comes of opening an archive of them. A tune is shown by its number, its
//! revision and its first page. Lines that begin with `#` are passed over, in both.
//!
//! The program prints a line for each case, and how many came out as written; where one did not, it
//! ends with status 1.
#![tactic(auto)]

mod archives;
mod calls;

use archives::{claim_pages, open_archive};
use calls::Calls;
use std::fs::Files;
use std::process::ExitCode;
use std::{fs, io};
use test_cases::{Answer, Form, Tally, line_of, try_lines};

const FORM: Form = Form {
    separator: " = ",
    unwritten: "",
    counts_each_file: false,
};

fn main(rt: HostRuntime) -> io::Result<ExitCode> {
    let mut calls = Calls::new(rt.alloc());
    let tally = try_lines(&rt, "bytes", FORM, &mut calls)?.with(try_archives(&rt)?);
    tally.tell_count(&rt, "cases")?;
    Ok(tally.exit_code())
}

// Claims and opens the archives.
fn try_archives<R: Files + Print + AllocGlobal>(rt: &R) -> io::Result<Tally> {
    let text = fs::read_to_string(rt, "archives")?;
    let mut answer = Answer::new(rt.alloc());
    try_blocks(rt, &text, &mut answer)
}

fn try_blocks<R: Print + AllocGlobal>(
    rt: &R,
    text: &str,
    answer: &mut Answer,
) -> io::Result<Tally> {
    let mut tally = Tally::NONE;
    for block in text.split("\n\n") {
        answer.clear();
        claim_pages(rt.alloc(), block, answer);
        tell(rt, block, "claims", answer, &mut tally)?;
        answer.clear();
        open_archive(rt.alloc(), block, answer);
        tell(rt, block, "opens", answer, &mut tally)?;
    }
    Ok(tally)
}

// Compares an answer with what stands in a block behind a word, if the block is a case.
fn tell<R: Print + AllocGlobal>(
    rt: &R,
    block: &str,
    word: &str,
    answer: &Answer,
    tally: &mut Tally,
) -> io::Result<()> {
    let Some(name) = line_of(block, "case ") else {
        return Ok(());
    };
    let wanted = match line_of(block, word) {
        Some(wanted) => wanted.trim_start(),
        None => "",
    };
    let name = format!(in rt.alloc(); "{name} {word}")?;
    tally.tell(rt, &name, answer.is(wanted), answer)
}
