//! The program `benches`, by which parts of the archive are timed; the scripts of `bench/` call it.
//! Its first word says which part:
//!
//! - `disk FILE ROUNDS` writes 4,096 bytes at an offset that moves on over 256 pages, and syncs, so
//!   many times, and prints how long the file then is.
//! - `pages PLACE CHAINS WORKS [times]` makes new pages, and puts so many chains of 200 bytes in
//!   one work and finishes it; opens what it made and claims the chains; and makes so many works of
//!   one chain each.
//! - `index PLACE FEW MANY ROUNDS [times | calls]` has keys of 32 bytes. It builds an index of FEW
//!   entries from a run of them, without a disk; makes new pages and puts an index of MANY entries
//!   into them; loads it; looks ROUNDS times for 100 values in it; puts in ROUNDS entries, each in
//!   a change of its own; and copies five indexes of FEW entries over others, ROUNDS times.
//! - `reading LAYER PASSES [BOOK]` reads each tune of a book so many times, and prints what one
//!   pass came to. LAYER is `split` (the tunes alone), `fields`, `keys`, `notes` or `steps`.
//! - `titles KIND PASSES [TITLES]` puts titles, one a line, so many times in the order of an index,
//!   and prints how many there are, and the number of the first. KIND is `rows`, for rows of titles
//!   that stay where they are, or `shown`, for rows that hold what an index shows, as the command
//!   `titles` makes them.
//!
//! PLACE is `memory`, or `file PATH` for a new file. Of pages and indexes it prints what each part
//! came to; asked for times, the microseconds of each part too; asked for calls, those of the disk.
//! BOOK and TITLES are files; without them standard input is read.
//!
//! `benches each` takes such words from standard input, one call a line, and prints the first word
//! of each above what the call prints.
#![tactic(auto)]

mod disk;
mod entries;
mod index;
mod noted;
mod pages;
mod part;
mod reading;
mod titles;
mod words;

use anyhow::{Result, bail};
use std::env;
use std::fs::{File, Files};
use std::rt::Clock;

fn main(rt: HostRuntime) -> Result<()> {
    let given: Vec<String> = env::args(&rt)?.collect(rt.alloc())?;
    let words: Vec<&str> = given.iter().map(|word| word.as_str()).collect(rt.alloc())?;
    match words.as_slice() {
        [_, "each"] => run_each(&rt),
        [_, words @ ..] => run(&rt, words),
        [] => Ok(()),
    }
}

// Runs the benches that the lines of standard input ask for, each under its name.
fn run_each<R>(rt: &R) -> Result<()>
where
    R: Files<File = File> + Clock + Input + Print + AllocGlobal,
{
    for line in rt.lines(rt.alloc()) {
        run_line(rt, &line?)?;
    }
    Ok(())
}

fn run_line<R>(rt: &R, line: &str) -> Result<()>
where
    R: Files<File = File> + Clock + Input + Print + AllocGlobal,
{
    let words: Vec<&str> = line.split_whitespace().collect(rt.alloc())?;
    let name = words.first().copied().unwrap_or("");
    println!(rt; "{name}")?;
    run(rt, &words)
}

// Runs one bench.
fn run<R>(rt: &R, words: &[&str]) -> Result<()>
where
    R: Files<File = File> + Clock + Input + Print + AllocGlobal,
{
    match words {
        ["disk", words @ ..] => disk::run(rt, words),
        ["pages", words @ ..] => pages::run(rt, words),
        ["index", words @ ..] => index::run(rt, words),
        ["reading", words @ ..] => reading::run(rt, words),
        ["titles", words @ ..] => titles::run(rt, words),
        _ => bail!(
            "usage: benches (disk | pages | index | reading | titles) WORD.. | benches each"
        ),
    }
}
