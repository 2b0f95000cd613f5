// Refusals in words, on standard error. Where these cannot be written, the status says enough.
ghost use Rattle.std.specs.Prelude.{◌≢◌};

use desk_copies::{SumFault, Uncopied, say_sum, say_uncopied, say_unread};
use desk_scenes::{BAD_WORDS, REFUSED, Unopened, desk_reason, say, say_unopened, say_unwritten};
use std::io::Write;
use tune_desk::{DeskFault, ResultFault};
use tune_journal::OpenFault;

/// Why the archive was not copied.
#[derive(Drop)]
pub(crate) enum Unbacked {
    /// FILE was not opened, to bring it to rest.
    Unopened(Unopened),
    /// It could not be found out what stands there.
    Unasked(DeskFault),
    /// `sha256sum -c` reads no such name.
    Name,
    /// Something stands where the sum of this copy is to stand.
    SumStands(String),
    /// FILE was not opened.
    Unread(DeskFault),
    /// The copy was not begun, or not named.
    File(ResultFault),
    /// FILE was not copied.
    Uncopied(Uncopied),
    /// The copy has its name, and its sum was not written.
    Unsummed(ResultFault),
    /// The copy and its sum are there, and old copies were not all taken away.
    Unthinned(DeskFault),
    /// There was no memory.
    OutOfMemory,
}

/// Why a copy does not hold what it should.
#[derive(Drop)]
pub(crate) enum Unchecked {
    /// COPY was not opened.
    Unread(DeskFault),
    /// It was not read to its end.
    Unsummed(Uncopied),
    /// It has not the sum that is told beside it.
    Sum(SumFault),
    /// It is no archive that can be read.
    Archive(OpenFault),
}

/// Says why the archive was not copied, and gives the status.
pub(crate) fn say_unbacked<E: Write>(errors: &mut E, file: &str, copy: &str, why: &Unbacked) -> u8
    ensures { result ≢ 0 }
{
    match why {
        Unbacked::Unopened(why) => say_unopened(errors, file, *why),
        Unbacked::Unasked(_) => {
            say(
                errors,
                copy,
                "it cannot be looked at, nor the folder that it is to stand in",
            );
            REFUSED
        }
        Unbacked::Name => {
            say(
                errors,
                copy,
                "sha256sum reads no such name; choose one on one line, without \\",
            );
            BAD_WORDS
        }
        Unbacked::SumStands(path) => say_standing_sum(errors, path.as_str()),
        Unbacked::Unread(fault) => say_unread(errors, file, *fault),
        Unbacked::File(fault) => say_unwritten(errors, file, copy, fault),
        Unbacked::Uncopied(why) => say_uncopied(errors, copy, file, *why),
        Unbacked::Unsummed(fault) => say_unsummed(errors, file, copy, fault),
        Unbacked::Unthinned(_) => {
            say(
                errors,
                copy,
                "the copy is made, and old ones could not be taken away; look at the folder",
            );
            REFUSED
        }
        Unbacked::OutOfMemory => {
            say(errors, copy, desk_reason(DeskFault::OutOfMemory));
            REFUSED
        }
    }
}

fn say_standing_sum<E: Write>(errors: &mut E, path: &str) -> u8
    ensures { result ≢ 0 }
{
    let _ = write!(
        errors,
        "tunes-book: {path}.sha256 is there, and would tell another sum; move it away first\n"
    );
    let _ = errors.flush();
    REFUSED
}

fn say_unsummed<E: Write>(errors: &mut E, file: &str, copy: &str, fault: &ResultFault) -> u8
    ensures { result ≢ 0 }
{
    say(
        errors,
        copy,
        "it is there, whole, and its sum could not be written beside it",
    );
    say_unwritten(errors, file, copy, fault)
}

/// Says why a copy does not hold what it should, and gives the status.
pub(crate) fn say_unchecked<E: Write>(errors: &mut E, copy: &str, why: &Unchecked) -> u8
    ensures { result ≢ 0 }
{
    match why {
        Unchecked::Unread(fault) => say_unread(errors, copy, *fault),
        Unchecked::Unsummed(why) => say_uncopied(errors, copy, copy, *why),
        Unchecked::Sum(why) => say_sum(errors, copy, *why),
        Unchecked::Archive(fault) => say_unopened(errors, copy, Unopened::Archive(*fault)),
    }
}
