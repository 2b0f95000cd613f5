// Lists of scripts, each over archives of one kind.
use crate::counted::Counted;
use crate::empty::{Empty, Kept};
use crate::kept::{exports_as_in_memory, finds_without_reading_all};
use crate::tunes::{file_of_tunes, old_file_of_tunes};
use std::fs::Files;
use std::io;
use test_cases::{Form, Tally, try_lines};

const FORM: Form = Form {
    separator: " ",
    unwritten: "",
    counts_each_file: false,
};

const COUNTED_FORM: Form = Form {
    separator: ": ",
    unwritten: "",
    counts_each_file: false,
};

// Runs all scripts over empty archives.
pub(crate) fn try_empty<R: Files + Print + AllocGlobal>(rt: &R) -> io::Result<Tally> {
    let mut tally = Tally::NONE;
    for kept in [Kept::InMemory, Kept::InOldFile, Kept::InMadeFile] {
        let (name, own) = kept.names();
        println!(rt; "{name}")?;
        tally = tally.with(try_over_empty(rt, kept, "cases")?);
        tally = tally.with(try_over_empty(rt, kept, own)?);
    }
    Ok(tally)
}

// Runs the scripts of a list, and prints how many came out as written.
fn try_over_empty<R: Files + Print + AllocGlobal>(
    rt: &R,
    kept: Kept,
    list: &str,
) -> io::Result<Tally> {
    let tally = try_lines(rt, list, FORM, &mut Empty { rt, kept })?;
    tally.tell_count(rt, "scripts")?;
    Ok(tally)
}

// Runs all scripts over 2,000 tunes.
pub(crate) fn try_counted<R: Files + Print + AllocGlobal>(rt: &R) -> io::Result<Tally> {
    let tally = try_old(rt)?.with(try_made(rt)?);
    let finds = finds_without_reading_all(rt.alloc())?;
    let finds = say(rt, "finds-within-50-calls-and-exports-with-more", finds)?;
    Ok(tally.with(finds))
}

// The scripts over layout 1.
fn try_old<R: Files + Print + AllocGlobal>(rt: &R) -> io::Result<Tally> {
    let file = old_file_of_tunes(rt.alloc())?;
    try_over_tunes(rt, &file, "counted-of-layout-1")
}

// The scripts over a made file, and its exports.
fn try_made<R: Files + Print + AllocGlobal>(rt: &R) -> io::Result<Tally> {
    let file = file_of_tunes(rt.alloc())?;
    let tally = try_over_tunes(rt, &file, "counted")?;
    let exports = exports_as_in_memory(rt.alloc(), &file)?;
    Ok(tally.with(say(rt, "exports-twice-as-in-memory", exports)?))
}

// Runs the scripts of a list over the archive of a file, and prints how many came out as written.
fn try_over_tunes<R: Files + Print + AllocGlobal>(
    rt: &R,
    file: &[u8],
    list: &str,
) -> io::Result<Tally> {
    let tally = try_lines(rt, list, COUNTED_FORM, &mut Counted::over(rt, file)?)?;
    tally.tell_count(rt, "scripts")?;
    Ok(tally)
}

// Prints whether replies are as they should be, and counts them.
fn say<R: Print>(rt: &R, name: &str, is_as_wanted: bool) -> io::Result<Tally> {
    let mut tally = Tally::NONE;
    tally.count(is_as_wanted);
    if is_as_wanted {
        println!(rt; "{name}: as wanted")?;
    } else {
        println!(rt; "{name}: other replies")?;
    }
    Ok(tally)
}
