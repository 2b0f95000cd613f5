// What is said of books that are taken in.
ghost use Rattle.std.specs.Prelude.{◌≢◌};

use crate::checked_books::put_lost;
use crate::stocks::NewTunes;
use abc_fields::TuneFault;
use chosen_books::CarriedLines;
use desk_scenes::{DONE, Progress, REFUSED, StandardStreams, print, say};
use std::alloc::{AllocError, Global};
use std::io::Write;
use tune_scripts::Console;
use tune_store::Refusal;

/// What became of a book.
#[derive(Clone, Copy)]
pub(crate) struct Tally<'a> {
    // The path of the book.
    pub(crate) path: &'a str,
    // The number of the first of its tunes that were taken in, and of the last.
    first: u32,
    last: u32,
    // How many tunes were taken in.
    tunes: usize,
    // In how many parts it comes, and which of these comes now, counted from 1.
    parts: usize,
    part: usize,
    // How many of its tunes were there.
    pub(crate) there: usize,
    // How many of its tunes are left out, since they are refused.
    pub(crate) left_out: usize,
    // The lines between its tunes that go into tunes behind them.
    pub(crate) carried: CarriedLines,
    // How many of its lines are not kept.
    pub(crate) lost: usize,
    // The status: that of its part that was not taken in, or 0.
    pub(crate) status: u8,
}

impl<'a> Tally<'a> {
    /// That of a book of so many parts, of which none was taken in.
    pub(crate) fn of_parts(path: &'a str, parts: usize) -> Tally<'a> {
        Tally {
            path,
            first: 0,
            last: 0,
            tunes: 0,
            parts,
            part: 0,
            there: 0,
            left_out: 0,
            carried: CarriedLines { lines: 0, tunes: 0 },
            lost: 0,
            status: DONE,
        }
    }

    /// The next part comes.
    pub(crate) fn begin_part(&mut self) {
        self.part = self.part.saturating_add(1);
    }

    /// These tunes were taken in.
    pub(crate) fn take(&mut self, brought: &NewTunes) {
        if self.tunes == 0 {
            self.first = brought.first;
        }
        self.tunes = self.tunes.saturating_add(brought.texts.len());
        self.last = brought.last;
    }

    /// Tells how many parts came, where there are several.
    pub(crate) fn tell_part<E: Progress>(&self, errors: &mut E) {
        tell_progress(errors, "parts", self.part, self.parts);
    }
}

/// Tells how many of these are done, where there are several.
pub(crate) fn tell_progress<E: Progress>(errors: &mut E, what: &str, done: usize, all: usize) {
    if all > 1 {
        errors.progress(what, done as u64, all as u64);
    }
}

/// Why a part of a book was not taken in.
#[derive(Drop)]
pub(crate) enum Untaken {
    /// It is refused.
    Refused(Refusal),
    /// What it brings could not be kept.
    Unkept,
    /// The device failed within its import.
    Failed,
}

/// Says why the part of a book that comes now was not taken into FILE, and gives the status.
pub(crate) fn say_untaken<E: Write>(errors: &mut E, file: &str, tally: &Tally, why: &Untaken) -> u8
    ensures { result ≢ 0 }
{
    match why {
        Untaken::Refused(refusal) => say_part_refused(errors, tally, refusal),
        Untaken::Unkept => {
            say(errors, tally.path, NOT_KEPT);
            REFUSED
        }
        Untaken::Failed => {
            say(errors, file, FAILED);
            REFUSED
        }
    }
}

const NOT_KEPT: &str =
    "what it brings could not be noted beside the archive; nothing of it is taken in";

const FAILED: &str =
    "the device failed, and what was asked may have been done or not. Look at the disk and at the \
     permissions, and let the system give up its cached pages before you go on: USING.md, \"The \
     file cannot be used\", has the steps";

/// Prints what became of a book, and gives the status.
pub(crate) fn tell_taken<C: Console, E: Write>(
    alloc: Global,
    tally: &Tally,
    dry: bool,
    standard: &mut StandardStreams<C, E>,
) -> u8 {
    match taken_line(alloc, tally, dry) {
        Ok(line) => print(standard, line.as_slice()),
        Err(_) => {
            say(&mut standard.errors, tally.path, NO_MEMORY);
            REFUSED
        }
    }
}

const NO_MEMORY: &str = "there is not memory enough; end other programs, and try again";

fn taken_line(alloc: Global, tally: &Tally, dry: bool) -> Result<Vec<u8>, AllocError> {
    let path = tally.path;
    let mut line = Vec::new(alloc);
    if tally.tunes == 0 {
        if tally.there > 0 {
            let there = tally.there;
            write!(line, "{path}: all its tunes are there already, {there}\n").map_err(
                |_| AllocError,
            )?;
        }
        return Ok(line);
    }
    write!(line, "{path}: ").map_err(|_| AllocError)?;
    put_tunes(&mut line, tally, dry)?;
    put_rest(&mut line, tally)?;
    line.push(b'\n')?;
    Ok(line)
}

// Which tunes were taken in; where they were only tried, how many.
fn put_tunes(line: &mut Vec<u8>, tally: &Tally, dry: bool) -> Result<(), AllocError> {
    let Tally {
        first,
        last,
        tunes,
        ..
    } = *tally;
    if dry {
        let plural = if tunes == 1 { "" } else { "s" };
        write!(line, "{tunes} tune{plural}").map_err(|_| AllocError)
    } else if first == last {
        write!(line, "tune {first}").map_err(|_| AllocError)
    } else {
        write!(line, "tunes {first} to {last}").map_err(|_| AllocError)
    }
}

// In how many parts they came, and what was left out, carried or lost.
fn put_rest(line: &mut Vec<u8>, tally: &Tally) -> Result<(), AllocError> {
    let Tally {
        parts,
        there,
        left_out,
        carried,
        lost,
        ..
    } = *tally;
    if parts > 1 {
        write!(line, ", in {parts} parts").map_err(|_| AllocError)?;
    }
    if there > 0 {
        write!(line, "; {there} of its tunes are there already").map_err(|_| AllocError)?;
    }
    if left_out > 0 {
        write!(line, "; {left_out} of its tunes are left out").map_err(|_| AllocError)?;
    }
    put_carried(line, carried)?;
    put_lost(line, lost)
}

fn put_carried(line: &mut Vec<u8>, carried: CarriedLines) -> Result<(), AllocError> {
    let CarriedLines { lines, tunes } = carried;
    if lines == 0 {
        return Ok(());
    }
    let (are, go) = if lines == 1 {
        ("line between its tunes", "goes")
    } else {
        ("lines between its tunes", "go")
    };
    write!(line, "; {lines} {are} {go} into {tunes} of them").map_err(|_| AllocError)
}

/// Says why a book is not taken in, and gives the status.
pub(crate) fn say_refused<E: Write>(errors: &mut E, path: &str, refusal: &Refusal) -> u8
    ensures { result ≢ 0 }
{
    say_part_refused(errors, &Tally::of_parts(path, 1), refusal)
}

/// Says why the part of a book that comes now is not taken in, and gives the status.
pub(crate) fn say_part_refused<E: Write>(errors: &mut E, tally: &Tally, refusal: &Refusal) -> u8
    ensures { result ≢ 0 }
{
    let Tally {
        path,
        part,
        parts,
        ..
    } = *tally;
    let _ = write!(errors, "tunes-book: {path}: ");
    if parts > 1 {
        let _ = write!(errors, "part {part} of {parts}: ");
    }
    write_reason(errors, refusal);
    let _ = write!(errors, "; nothing of it is taken in\n");
    let _ = errors.flush();
    REFUSED
}

fn write_reason<E: Write>(errors: &mut E, refusal: &Refusal) {
    let _ = match refusal {
        Refusal::BadTune { place, fault } => match fault {
            TuneFault::NoKey => write!(
                errors,
                "its tune number {place} has no K: line; give it one, K:none will do"
            ),
            TuneFault::TooLong => write!(
                errors,
                "its tune number {place} is too long; cut it in two, or, where `tunes-book check` \
                 says layout 1, let tunes have 64,000 bytes in place of 16,000 by \
                 `tunes-book upgrade`"
            ),
        },
        _ => errors.write_all(reason(refusal).as_bytes()),
    };
}

fn reason(refusal: &Refusal) -> &'static str {
    match refusal {
        Refusal::NoTune => "there is no tune in it: no line begins with X:",
        Refusal::BookTooLong => {
            "it has more than 4,000,000 bytes; `tunes-book add --split` takes it in by parts"
        }
        Refusal::ArchiveFull => {
            "the archive would have too many tunes; make a second one, or, where \
             `tunes-book check` says layout 1, let it have 50,000 in place of 20,000 by \
             `tunes-book upgrade`"
        }
        Refusal::NumbersSpent => {
            "the numbers to 999,999 are spent; add the book of an `export` to a new archive"
        }
        _ => NO_MEMORY,
    }
}

/// Says that a book could not be read, and gives the status.
pub(crate) fn say_unread<E: Write>(errors: &mut E, path: &str) -> u8
    ensures { result ≢ 0 }
{
    say(errors, path, "it cannot be read; nothing of it is taken in");
    REFUSED
}

/// Says that a book was not tried, since one before it failed, and gives the status.
pub(crate) fn say_untried<E: Write>(errors: &mut E, path: &str) -> u8
    ensures { result ≢ 0 }
{
    say(
        errors,
        path,
        "it was not tried, since one before it failed; nothing of it is taken in",
    );
    REFUSED
}
