// Refusals in words, on standard error. Where these cannot be written, the status says enough.
ghost use Rattle.std.specs.Prelude.{◌≢◌};

use crate::archive_copies::Uncopied;
use crate::disk_copies::CopyFault;
use crate::restores::Unrestored;
use crate::sum_files::SumFault;
use desk_scenes::{REFUSED, Unopened, desk_reason, say, say_unopened, say_unwritten};
use std::io::Write;
use tune_desk::{DeskFault, ResultFault, ResultRefusal};
use tune_journal::OpenFault;

pub(crate) const NO_ARCHIVE: u8 = 3;

/// Why a new archive was not made.
#[derive(Drop)]
pub(crate) enum Unmade {
    /// Its file was not made, or not named.
    File(ResultFault),
    /// The archive was not made in it.
    Archive(OpenFault),
}

/// Says why a new archive was not made, and gives the status.
pub(crate) fn say_unmade<E: Write>(errors: &mut E, file: &str, why: &Unmade) -> u8
    ensures { result ≢ 0 }
{
    match why {
        Unmade::File(
            ResultFault {
                target: _,
                why: ResultRefusal::Standing,
            },
        ) => {
            say(
                errors,
                file,
                "there is such a file, empty or not empty; choose another path",
            );
            NO_ARCHIVE
        }
        Unmade::File(fault) => say_unwritten(errors, file, file, fault),
        Unmade::Archive(OpenFault::OutOfMemory) => {
            say(
                errors,
                file,
                "there is not memory enough; end other programs, and try again",
            );
            REFUSED
        }
        Unmade::Archive(_) => {
            say(
                errors,
                file,
                "it cannot be made; look at the path, the permissions and the disk",
            );
            REFUSED
        }
    }
}

/// Says why a copy was not restored, and gives the status.
pub(crate) fn say_unrestored<E: Write>(
    errors: &mut E,
    file: &str,
    copy: &str,
    why: &Unrestored,
) -> u8
    ensures { result ≢ 0 }
{
    match why {
        Unrestored::Unread(fault) => say_unread(errors, copy, *fault),
        Unrestored::File(fault) => say_unwritten(errors, file, file, fault),
        Unrestored::Uncopied(why) => say_uncopied(errors, file, copy, *why),
        Unrestored::Sum(why) => say_sum(errors, copy, *why),
        Unrestored::Unheld(fault) => {
            say(errors, file, desk_reason(*fault));
            REFUSED
        }
        Unrestored::NoArchive => {
            let _ = write!(
                errors,
                "tunes-book: {file} is no archive; --force puts the copy in its place, and keeps \
                 what is there\n"
            );
            let _ = errors.flush();
            REFUSED
        }
        Unrestored::NotAside(_) | Unrestored::Unnamed(_) => {
            let _ = write!(
                errors,
                "tunes-book: {file} could not be written; is the disk full? It is as before\n"
            );
            let _ = errors.flush();
            REFUSED
        }
    }
}

/// Says why a copy was not opened, and gives the status.
pub fn say_unread<E: Write>(errors: &mut E, copy: &str, fault: DeskFault) -> u8
    ensures { result ≢ 0 }
{
    let reason = match fault {
        DeskFault::Missing => "there is no such file",
        _ => desk_reason(fault),
    };
    say(errors, copy, reason);
    REFUSED
}

/// Says why an archive was not copied, and gives the status.
pub fn say_uncopied<E: Write>(errors: &mut E, out: &str, from: &str, why: Uncopied) -> u8
    ensures { result ≢ 0 }
{
    match why {
        Uncopied::Archive(fault) => return say_unopened(errors, from, Unopened::Archive(fault)),
        Uncopied::Bytes(CopyFault::Source) => {
            say(errors, from, desk_reason(DeskFault::Device));
        }
        Uncopied::Bytes(CopyFault::OutOfMemory) => {
            say(errors, from, desk_reason(DeskFault::OutOfMemory));
        }
        Uncopied::Bytes(CopyFault::Target) | Uncopied::Other => {
            let _ = write!(
                errors,
                "tunes-book: {out} could not be written; is the disk full, or its folder closed to \
                 you?\n"
            );
            let _ = errors.flush();
        }
    }
    REFUSED
}

/// Says why a copy does not agree with the sum beside it, and gives the status.
pub fn say_sum<E: Write>(errors: &mut E, copy: &str, why: SumFault) -> u8
    ensures { result ≢ 0 }
{
    let reason = match why {
        SumFault::Differs => {
            "its bytes are not those whose sum is beside it: it is damaged, or was changed since"
        }
        SumFault::NoSum => {
            "what stands beside it, with the ending .sha256, tells no sum; move that away first"
        }
        SumFault::Unread(_) => {
            "what stands beside it, with the ending .sha256, cannot be read; look at it"
        }
        SumFault::OutOfMemory => desk_reason(DeskFault::OutOfMemory),
    };
    say(errors, copy, reason);
    REFUSED
}
