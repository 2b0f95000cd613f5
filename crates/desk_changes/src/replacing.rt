// The order that puts the tune of a book in the place of a tune.
ghost use Rattle.std.specs.Prelude.{◌≡◌, ◌≢◌, ◌++◌, None, Some, false, IfOk, codes, decimal};
ghost use Rattle.std.specs.Prelude.{string_bytes};
ghost use Rattle.tune_asking.specs.AskingCalls.{Call};
ghost use Rattle.tune_scripts.specs.Streams.{streams_in};
ghost use Rattle.tune_desk.specs.Results.{SparesFiles, result_places};
ghost use Rattle.desk_changes.specs.ReplacedTunes.{ReplacesText, ReplacesTune};
ghost use Rattle.desk_changes.specs.ReplacedTunes.{replaced_line, replacing_by};
ghost use Rattle.desk_changes.specs.Inside.Replacing.{told_turns, ReplacesIn, ReplacesInFile};

use crate::one_tune_books::read_text;
use crate::turning::carry;
use crate::words::{Unchanged, say_unchanged};
use abc_fields::{TuneFault, TuneText};
use desk_scenes::{REFUSED, StandardStreams, open_once, print};
use std::alloc::{AllocError, Global};
use std::io::Write;
use tune_archive::Archive;
use tune_asking::tune_of;
use tune_changes::{Turn, planned_replace};
use tune_desk::Desk;
use tune_disk::{Access, Disk};
use tune_scripts::Console;
use tune_store::{Catalog, Refusal, Tune, TuneStore};
use tune_undo::EntryKind;

/// What is asked for: that the tune of a book comes in the place of the tune of a number, where it
/// has the revision that is given, if one is.
#[derive(Clone, Copy)]
pub struct AskedReplacement<'a> {
    /// The number of the tune.
    pub number: u32,
    /// The revision that it is to have.
    pub revision: Option<u32>,
    /// The path of the book; `-` is standard input.
    pub book: &'a String,
}

/// Puts the tune of a book in the place of the tune of a number, where that has the revision that
/// is given, if one is; prints the revision that it has then, and gives the status: 0 done; 1
/// refused, or a device failed; 3 no archive, or a damaged one. What is wrong is said to `errors`.
///
/// The book is read before FILE is opened: at a path, or from standard input for `-`. It has to
/// have one tune, and each of its lines has to be kept: an empty line ends a tune.
pub fn replace<C: Console, E: Write, D: Disk, K: AllocGlobal + Desk<Disk = D>>(
    desk: &mut K,
    file: &String,
    asked: &AskedReplacement,
    standard: &mut StandardStreams<C, E>,
) -> u8
    ensures files { SparesFiles (result_places (string_bytes file.now) None false)
        (K.deeds desk.old) (K.deeds desk.new) }
    ensures replaces { ReplacesTune D.Disk (string_bytes file.now) (replacing_by asked.now)
        (record {
          streams = streams_in C.Console standard.old.console standard.new.console;
          was = K.deeds desk.old;
          now = K.deeds desk.new;
          status = result;
        }) }
{
    match read_text(desk, asked.book, standard) {
        Some(text) => {
            let what = Replacement {
                number: asked.number,
                revision: asked.revision,
                text,
            };
            replace_by(desk, file, what, asked.book, standard)
        }
        None => REFUSED,
    }
}

/// A text that is to be that of the tune of a number, where this has the revision that is given, if
/// one is.
#[derive(Drop)]
pub(crate) struct Replacement {
    number: u32,
    revision: Option<u32>,
    text: TuneText,
}

// Changes FILE, and prints what is told of it.
fn replace_by<C: Console, E: Write, D: Disk, K: AllocGlobal + Desk<Disk = D>>(
    desk: &mut K,
    file: &String,
    what: Replacement,
    book: &String,
    standard: &mut StandardStreams<C, E>,
) -> u8
    ensures files { SparesFiles (result_places (string_bytes file.now) None false)
        (K.deeds desk.old) (K.deeds desk.new) }
    ensures replaces { ReplacesText D.Disk (string_bytes file.now) what (record {
      streams = streams_in C.Console standard.old.console standard.new.console;
      was = K.deeds desk.old;
      now = K.deeds desk.new;
      status = result;
    }) }
    ensures input { C.input standard.new.console ≡ C.input standard.old.console }
{
    let number = what.number;
    match replace_in_file(desk, file, what) {
        Ok(line) => print(standard, line.as_slice()),
        Err(why) => say_unreplaced(
            &mut standard.errors,
            file.as_str(),
            number,
            book.as_str(),
            &why,
        ),
    }
}

// Says why a tune was not replaced, and gives the status.
fn say_unreplaced<E: Write>(
    errors: &mut E,
    file: &str,
    number: u32,
    book: &str,
    why: &Unchanged,
) -> u8
    ensures { result ≢ 0 }
{
    let _ = match why {
        Unchanged::Refused(Refusal::Stale { revision: _ }) => write!(
            errors,
            "tunes-book: tune {number} was replaced meanwhile; `tunes-book show {number}` prints \
             the other\n"
        ),
        Unchanged::Refused(Refusal::Worn) => write!(
            errors,
            "tunes-book: tune {number} was replaced 9,998 times, and no more; add it as a new \
             tune\n"
        ),
        _ => return say_unchanged(errors, file, book, why),
    };
    let _ = errors.flush();
    REFUSED
}

// Gives the line that tells of it.
fn replace_in_file<D: Disk, K: AllocGlobal + Desk<Disk = D>>(
    desk: &mut K,
    file: &String,
    what: Replacement,
) -> Result<Vec<u8>, Unchanged>
    ensures files { SparesFiles (result_places (string_bytes file.now) None false)
        (K.deeds desk.old) (K.deeds desk.new) }
    ensures replaces { ReplacesInFile D.Disk (string_bytes file.now) what result (record {
      was = K.deeds desk.old;
      now = K.deeds desk.new;
    }) }
{
    match open_once(desk, file, Access::Change) {
        Err(why) => Err(Unchanged::Unopened(why)),
        Ok(mut archive) => {
            let done = replace_in_archive(desk, file, &mut archive, what);
            desk.close(file, archive.into_disk());
            done
        }
    }
}

// Looks first; then keeps the text that is taken away, and puts the other one in its place.
fn replace_in_archive<D: Disk, K: AllocGlobal + Desk<Disk = D>>(
    desk: &mut K,
    file: &String,
    archive: &mut Archive<D>,
    what: Replacement,
) -> Result<Vec<u8>, Unchanged>
    ensures files { SparesFiles (result_places (string_bytes file.now) None false)
        (K.deeds desk.old) (K.deeds desk.new) }
    ensures replaces { archive.old.closed ≡ false
        → ReplacesIn D.Disk (string_bytes file.now) what result (record {
          start = archive.old;
          finish = archive.new;
          was = K.deeds desk.old;
          now = K.deeds desk.new;
        }) }
{
    if what.text.bytes().len() > archive.layout().longest_text() {
        return Err(Unchanged::Refused(Refusal::BadTune {
            place: 1,
            fault: TuneFault::TooLong,
        }));
    }
    match told_turns(desk.alloc(), archive, what) {
        Ok(told) => match carry(
            desk,
            file,
            archive,
            EntryKind::Replace,
            told.turns.as_slice(),
        ) {
            Ok(()) => Ok(told.line),
            Err(why) => Err(why),
        },
        Err(refusal) => Err(Unchanged::Refused(refusal)),
    }
}

// Turns, and the line that tells of them.
#[derive(Drop)]
struct ToldTurns {
    turns: Vec<Turn>,
    line: Vec<u8>,
}

// What a replacement comes to. The store is only asked.
fn told_turns<S: TuneStore>(
    alloc: Global,
    store: &mut S,
    what: Replacement,
) -> Result<ToldTurns, Refusal>
    ensures { Call S.TuneStore store.old store.new (told_turns what) result }
{
    let tune = tune_of(store, what.number)?;
    let line = line_of(alloc, &what, &tune)?;
    let Replacement {
        number,
        revision,
        text,
    } = what;
    let turns = planned_replace(alloc, store, number, revision, text)?;
    Ok(ToldTurns { turns, line })
}

// The line that tells of a tune which gets a text.
fn line_of(alloc: Global, what: &Replacement, tune: &Tune) -> Result<Vec<u8>, AllocError>
    ensures { IfOk result (λ line. line.items ≡ replaced_line what.now (Some tune.now)) }
{
    if tune.text.bytes() == what.text.bytes() {
        return unchanged_line(alloc, what.number);
    }
    revised_line(alloc, what.number, u32::from(tune.revision) + 1)
}

fn unchanged_line(alloc: Global, number: u32) -> Result<Vec<u8>, AllocError>
    ensures { IfOk result (λ line. line.items
        ≡ codes "tune " ++ decimal number ++ codes " is not changed\n") }
{
    let mut line = Vec::new(alloc);
    write!(line, "tune {number} is not changed\n").map_err(|_| AllocError)?;
    Ok(line)
}

fn revised_line(alloc: Global, number: u32, revision: u32) -> Result<Vec<u8>, AllocError>
    ensures { IfOk result (λ line. line.items ≡ codes "tune " ++ decimal number
        ++ codes " has revision " ++ decimal revision ++ codes " now\n") }
{
    let mut line = Vec::new(alloc);
    write!(line, "tune {number} has revision {revision} now\n").map_err(|_| AllocError)?;
    Ok(line)
}
