// Why nothing was changed, in words.
ghost use Rattle.std.specs.Prelude.{◌≢◌};

use desk_scenes::{
    REFUSED, Unopened, say_held_tune, say_refusal, say_unkept, say_unopened_to_change,
};
use std::alloc::AllocError;
use std::io::Write;
use tune_desk::{DeskFault, OldTextsFault};
use tune_sets::SetName;
use tune_store::Refusal;

/// Why an order changed nothing, or not all of it.
#[derive(Clone, Copy)]
pub(crate) enum Unchanged {
    /// FILE was not opened.
    Unopened(Unopened),
    /// The archive refused it.
    Refused(Refusal),
    /// The set list of this name has the tune of this number, which was to go.
    Held(u32, SetName),
    /// Its entry was not kept.
    Unkept(OldTextsFault),
}

/// Says why, and gives the status: 3 where there is no archive that can be read, and else 1.
pub(crate) fn say_unchanged<E: Write>(errors: &mut E, file: &str, what: &str, why: &Unchanged) -> u8
    ensures { result ≢ 0 }
{
    match why {
        Unchanged::Unopened(why) => say_unopened_to_change(errors, file, *why),
        Unchanged::Refused(refusal) => {
            say_refusal(errors, file, what, refusal);
            REFUSED
        }
        Unchanged::Held(number, name) => {
            say_held_tune(errors, *number, name);
            REFUSED
        }
        Unchanged::Unkept(why) => {
            say_unkept(errors, file, *why);
            REFUSED
        }
    }
}

/// Why a change was not taken back.
#[derive(Clone, Copy)]
pub(crate) enum NotUndone {
    /// FILE was not opened.
    Unopened(Unopened),
    /// There is no book of old texts.
    NoBook,
    /// It could not be read.
    Unread(DeskFault),
    /// No change is left in it.
    NothingLeft,
    /// The tune of this number was changed since.
    ChangedTune(u32),
    /// The set list of this name was.
    ChangedSet(SetName),
    /// The set list of this name has the tune of this number, which would be out again.
    Held(u32, SetName),
    /// The archive refused it.
    Refused(Refusal),
    /// An entry or a mark was not kept.
    Unkept(OldTextsFault),
    /// There was no memory.
    OutOfMemory,
}

impl From<Refusal> for NotUndone {
    fn from(refusal: Refusal) -> NotUndone {
        NotUndone::Refused(refusal)
    }
}

impl From<OldTextsFault> for NotUndone {
    fn from(why: OldTextsFault) -> NotUndone {
        NotUndone::Unkept(why)
    }
}

impl From<AllocError> for NotUndone {
    fn from(_e: AllocError) -> NotUndone {
        NotUndone::OutOfMemory
    }
}

/// Says why, and gives the status: 3 where there is no archive that can be read, and else 1.
pub(crate) fn say_not_undone<E: Write>(errors: &mut E, file: &str, why: &NotUndone) -> u8
    ensures { result ≢ 0 }
{
    match why {
        NotUndone::Unopened(why) => return say_unopened_to_change(errors, file, *why),
        NotUndone::NoBook => {
            let _ = write!(
                errors,
                "tunes-book: nothing is to be undone: there is no {file}.old.abc\n"
            );
        }
        NotUndone::Unread(_) => {
            let _ = write!(errors, "tunes-book: {file}.old.abc: it cannot be read\n");
        }
        NotUndone::NothingLeft => {
            let _ = write!(
                errors,
                "tunes-book: nothing is left to be undone in {file}.old.abc\n"
            );
        }
        NotUndone::ChangedTune(number) => {
            let _ = write!(
                errors,
                "tunes-book: tune {number} was changed since by another program, so it stays; its \
                 old text is in {file}.old.abc\n"
            );
        }
        NotUndone::ChangedSet(name) => {
            let _ = errors.write_all(b"tunes-book: the set list ");
            let _ = errors.write_all(name.as_slice());
            let _ = write!(
                errors,
                " was changed since by another program, so it stays; {file}.old.abc has what it \
                 was\n"
            );
        }
        NotUndone::Held(number, name) => say_held_tune(errors, *number, name),
        NotUndone::Refused(refusal) => say_refusal(errors, file, "undo", refusal),
        NotUndone::Unkept(why) => say_unkept(errors, file, *why),
        NotUndone::OutOfMemory => say_refusal(errors, file, "undo", &Refusal::OutOfMemory),
    }
    let _ = errors.flush();
    REFUSED
}
