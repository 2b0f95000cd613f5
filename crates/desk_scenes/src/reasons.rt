// Refusals in words, on standard error. Where these cannot be written, the status says enough.
ghost use Rattle.std.specs.Prelude.{◌≢◌};

use crate::file_opening::Unopened;
use crate::unanswered::Unanswered;
use abc_fields::TuneFault;
use std::io::Write;
use tune_desk::{DeskFault, OldTextsFault, ResultFault, ResultRefusal};
use tune_journal::OpenFault;
use tune_sets::SetName;
use tune_store::Refusal;

pub const DONE: u8 = 0;

pub const REFUSED: u8 = 1;

pub const BAD_WORDS: u8 = 2;

const NO_ARCHIVE: u8 = 3;

/// Says what is wrong with something.
pub fn say<E: Write>(errors: &mut E, what: &str, reason: &str) {
    let _ = write!(errors, "tunes-book: {what}: {reason}\n");
    let _ = errors.flush();
}

/// Says why a question on FILE, about `what`, is not answered, and gives the status: 3 where there
/// is no archive that can be read, and else 1.
pub fn say_unanswered<E: Write>(errors: &mut E, file: &str, what: &str, why: &Unanswered) -> u8
    ensures { result ≢ 0 }
{
    match why {
        Unanswered::Unopened(why) => say_unopened(errors, file, *why),
        Unanswered::Refused(refusal) => {
            say_refusal(errors, file, what, refusal);
            REFUSED
        }
    }
}

/// Says why FILE was not opened.
pub fn say_unopened<E: Write>(errors: &mut E, file: &str, why: Unopened) -> u8
    ensures { result ≢ 0 }
{
    match why {
        Unopened::Unread(fault) => {
            say(errors, file, desk_reason(fault));
            REFUSED
        }
        Unopened::Unmended(fault) => {
            say(errors, file, unmended_reason(fault));
            REFUSED
        }
        Unopened::Archive(fault) => {
            say(errors, file, archive_reason(fault));
            archive_status(fault)
        }
    }
}

// Why a file is not opened to read it, and what to do.
pub fn desk_reason(fault: DeskFault) -> &'static str {
    match fault {
        DeskFault::Missing => {
            "there is no such file; look at the path, or make it by `tunes-book new`"
        }
        DeskFault::NotFile => "it is no regular file; look at the path",
        DeskFault::Busy => {
            "another program has it open; wait until that ends, or say --wait SECONDS"
        }
        DeskFault::OutOfMemory => NO_MEMORY,
        _ => "the file cannot be read; look at its permissions, and at the disk",
    }
}

// Why a file is not opened to change it.
fn unmended_reason(fault: DeskFault) -> &'static str {
    match fault {
        DeskFault::Busy => {
            "a stop left it within a change, and another program has it open now; try again"
        }
        DeskFault::OutOfMemory => NO_MEMORY,
        _ => {
            "a stop left it within a change, or the device failed; let one who may write to it \
             open it once, by `tunes-book check`"
        }
    }
}

const NO_MEMORY: &str = "there is not memory enough; end other programs, and try again";

fn archive_reason(fault: OpenFault) -> &'static str {
    match fault {
        OpenFault::OutOfMemory => NO_MEMORY,
        OpenFault::Device => "the device failed; look at the disk, and try again",
        OpenFault::NotArchive => "the file is no archive; look at the path",
        OpenFault::Damaged => {
            "the archive is damaged; `tunes-book restore COPY` puts a backup in its place"
        }
        OpenFault::NotEmpty => "the file is not empty; choose another path",
    }
}

fn archive_status(fault: OpenFault) -> u8
    ensures { result ≢ 0 }
{
    match fault {
        OpenFault::OutOfMemory | OpenFault::Device => REFUSED,
        OpenFault::NotArchive | OpenFault::Damaged | OpenFault::NotEmpty => NO_ARCHIVE,
    }
}

/// Says why the archive refused something that is about `what`, and what to do.
pub fn say_refusal<E: Write>(errors: &mut E, file: &str, what: &str, refusal: &Refusal) {
    match refusal {
        Refusal::Unknown { number } => {
            let _ = write!(
                errors,
                "tunes-book: tune {number}: no tune has the number {number}; \
                 `tunes-book titles` lists the tunes\n"
            );
        }
        Refusal::BadTune { place, fault } => say_bad_tune(errors, what, *place, *fault),
        Refusal::InSet { name } => say_held(errors, what, name),
        Refusal::OutOfMemory => say(errors, file, NO_MEMORY),
        Refusal::Device | Refusal::Closed => {
            say(errors, file, DEVICE_FAILED);
        }
        other => say(errors, what, plain_reason(other)),
    }
    let _ = errors.flush();
}

const DEVICE_FAILED: &str = "the device failed, and what was asked may have been done or not. \
     Look at the disk and at the permissions, and let the system give up its cached pages before \
     you go on: USING.md, \"The file cannot be used\", has the steps";

fn say_bad_tune<E: Write>(errors: &mut E, what: &str, place: usize, fault: TuneFault) {
    let _ = match fault {
        TuneFault::NoKey => write!(
            errors,
            "tunes-book: {what}: its tune number {place} has no K: line; give it one, K:none will \
             do\n"
        ),
        TuneFault::TooLong => write!(
            errors,
            "tunes-book: {what}: its tune number {place} is too long; cut it in two, or, where \
             `tunes-book check` says\nlayout 1, let tunes have 64,000 bytes in place of 16,000 by \
             `tunes-book upgrade`\n"
        ),
    };
}

/// Says that a set list has the tune of a number, which is to go.
pub fn say_held_tune<E: Write>(errors: &mut E, number: u32, name: &SetName) {
    let _ = write!(errors, "tunes-book: tune {number}: the set list ");
    say_held_by(errors, name);
    let _ = errors.flush();
}

// A set list names the tune.
fn say_held<E: Write>(errors: &mut E, what: &str, name: &SetName) {
    let _ = write!(errors, "tunes-book: {what}: the set list ");
    say_held_by(errors, name);
}

fn say_held_by<E: Write>(errors: &mut E, name: &SetName) {
    let _ = errors.write_all(name.as_slice());
    let _ = errors.write_all(b" has it; `tunes-book set ");
    let _ = errors.write_all(name.as_slice());
    let _ = errors.write_all(
        b"` shows where, `cut` takes it out of it, and\n`delete` then takes the tune away\n",
    );
}

// The words of a refusal that carries nothing to be told.
fn plain_reason(refusal: &Refusal) -> &'static str {
    match refusal {
        Refusal::NoTune => "there is no tune in it: no line begins with X:",
        Refusal::NotOne { .. } => "it has more tunes than one",
        Refusal::Stale { .. } => "it was replaced meanwhile",
        Refusal::Worn => { "it was replaced 9,998 times, and no more; add it as a new tune" }
        Refusal::Taken { .. } => "another tune has the number",
        Refusal::ArchiveFull => {
            "the archive would have too many tunes; make a second one, or, where\n\
             `tunes-book check` says layout 1, let it have 50,000 in place of 20,000 by \
             `tunes-book upgrade`"
        }
        Refusal::NumbersSpent => {
            "the numbers to 999,999 are spent; add the book of an `export` to a new archive"
        }
        Refusal::NoSuchSet => "there is no such set list; `tunes-book sets` lists them",
        Refusal::SetTaken => "there is a set list of that name",
        Refusal::SetFull => "the set list has 200 places, and no more; begin a second one",
        Refusal::SetsFull => {
            "there are 500 set lists, and no more; `tunes-book drop` takes one away"
        }
        Refusal::NoSuchPlace => {
            "the set list has no such place; `tunes-book set` shows its places"
        }
        Refusal::BadName => "a set list is named by 1 to 40 letters, digits, - and _",
        Refusal::BadNumber => "a tune has a number from 1 to 999,999",
        Refusal::BadQuery => {
            "nothing is asked for: a title or a rhythm has a letter, a key is written as D, Bm or \
             Edor, and notes are two or more, as in GABc"
        }
        Refusal::BookTooLong => {
            "it has more than 4,000,000 bytes; `tunes-book add --split` takes it in by parts"
        }
        _ => DEVICE_FAILED,
    }
}

/// Says why FILE was not opened to change it.
pub fn say_unopened_to_change<E: Write>(errors: &mut E, file: &str, why: Unopened) -> u8
    ensures { result ≢ 0 }
{
    match why {
        Unopened::Unmended(fault) => {
            say(errors, file, change_reason(fault));
            REFUSED
        }
        other => say_unopened(errors, file, other),
    }
}

fn change_reason(fault: DeskFault) -> &'static str {
    match fault {
        DeskFault::Missing | DeskFault::NotFile | DeskFault::Busy | DeskFault::OutOfMemory => {
            desk_reason(fault)
        }
        _ => "the file cannot be changed; look at its permissions, and at the disk",
    }
}

/// Says why an entry was not kept beside FILE, so that nothing is changed.
pub fn say_unkept<E: Write>(errors: &mut E, file: &str, why: OldTextsFault) {
    let reason = match why {
        OldTextsFault::NotFile => "it is no regular file",
        OldTextsFault::Archive | OldTextsFault::NotOldTexts =>
            "it is no book of old texts; move it away",
        OldTextsFault::Unasked(_) => "it cannot be looked at",
        OldTextsFault::NotGrown(_) => "is the disk full, or the file closed to you?",
        OldTextsFault::OutOfMemory => NO_MEMORY,
    };
    let _ = write!(
        errors,
        "tunes-book: what is changed could not be kept in {file}.old.abc, so nothing is changed: \
         {reason}\n"
    );
    let _ = errors.flush();
}

/// Says why a result is not written to OUT, and gives the status: 2 for a folder, and else 1.
pub fn say_unwritten<E: Write>(errors: &mut E, file: &str, out: &str, fault: &ResultFault) -> u8
    ensures { result ≢ 0 }
{
    let target = match &fault.target {
        Some(target) => target.as_str(),
        None => out,
    };
    let _ = match fault.why {
        ResultRefusal::Archive => write!(
            errors,
            "tunes-book: {out} is the archive itself; name another file\n"
        ),
        ResultRefusal::OtherArchive => write!(
            errors,
            "tunes-book: {out} is an archive, and is not written over\n"
        ),
        ResultRefusal::Companion => write!(
            errors,
            "tunes-book: {out} belongs to the archive {file}; name another file\n"
        ),
        ResultRefusal::Standing => write!(
            errors,
            "tunes-book: {out} is there; name another file, or --force writes over it\n"
        ),
        ResultRefusal::Folder => write!(errors, "tunes-book: {out} is a folder\n"),
        ResultRefusal::NotFile => write!(
            errors,
            "tunes-book: {out} is no regular file, and is not written over\n"
        ),
        ResultRefusal::NoFolder => write!(
            errors,
            "tunes-book: {out} could not be written: there is no folder for {target}\n"
        ),
        ResultRefusal::Unasked(_) => write!(
            errors,
            "tunes-book: {out} cannot be looked at, or is a link that leads nowhere\n"
        ),
        ResultRefusal::OutOfMemory => write!(errors, "tunes-book: {out}: {NO_MEMORY}\n"),
        ResultRefusal::NewStands => write!(
            errors,
            "tunes-book: {target}.new is there, from a run that broke off or of your own; \
             move it away first\n"
        ),
        ResultRefusal::NotMade(_) => write!(
            errors,
            "tunes-book: {out} could not be written; is the disk full, or its folder closed to \
             you?\n"
        ),
        ResultRefusal::NotNamed(DeskFault::Taken) => write!(
            errors,
            "tunes-book: {out} was made by another program meanwhile, and stays as it is\n"
        ),
        ResultRefusal::NotNamed(_) => write!(
            errors,
            "tunes-book: {out} could not be written; what was there is as before\n"
        ),
        ResultRefusal::Left(_) => write!(
            errors,
            "tunes-book: {out} could not be written; {target}.new has it, and could not be taken \
             away\n"
        ),
        ResultRefusal::Unkept => write!(
            errors,
            "tunes-book: {out} is written, but the device failed to keep it; write it again\n"
        ),
    };
    let _ = errors.flush();
    match fault.why {
        ResultRefusal::Folder => BAD_WORDS,
        _ => REFUSED,
    }
}
