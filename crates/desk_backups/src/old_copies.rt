// Old copies, which are taken away.
ghost use Rattle.std.specs.Prelude.{◌≡◌, ◌≤◌, ◌⊎◌, List, ℕ, IfOk, string_bytes};
ghost use Rattle.tune_desk.specs.DeskDeeds.{DeskDeed};
ghost use Rattle.desk_copies.specs.SumFiles.{sum_path};
ghost use Rattle.desk_backups.specs.CopyNames.{numbered_copy};
ghost use Rattle.desk_backups.specs.OldCopies.{Thinning, ThinsOut, thinning_by};
ghost use Rattle.desk_backups.specs.Inside.Thinned.{IsThinned, IsOldCopy, ThinsOn};

use crate::backup_reasons::Unbacked;
use crate::copy_names::{numbered, numbers_there};
use desk_copies::sum_path;
use tune_desk::{Desk, DeskFault};

// The first bytes of every archive.
const ARCHIVE_HEAD: &[u8] = b"ABCTUNE1";

// How far the copies were walked, from the newest on: the number of the last that was found, and
// how many were, the newest too, up to as many as are to stay.
#[derive(Clone, Copy)]
pub(crate) struct Walked {
    pub(crate) last: u32,
    pub(crate) found: u32,
}

/// What is asked for: that of COPY and each COPY.N the newest stay, so many of them; the one of the
/// number `newest` was just made, and is the newest. FILE is the archive.
#[derive(Clone, Copy)]
pub(crate) struct AskedThinning<'a> {
    pub(crate) file: &'a String,
    pub(crate) copy: &'a String,
    pub(crate) newest: u32,
    pub(crate) keep: u32,
}

/// Takes old copies away, so that of COPY and each COPY.N the newest stay, so many of them; the one
/// of this number was just made, and is the newest.
pub(crate) fn thin_out<K: AllocGlobal + Desk>(
    desk: &mut K,
    asked: &AskedThinning,
) -> Result<(), Unbacked>
    requires { 1 ≤ asked.now.keep }
    ensures { ThinsOut (thinning_by asked.now) (K.deeds desk.old) (K.deeds desk.new) }
{
    match numbers_there(desk, asked.copy) {
        Ok(numbers) => thin_each(desk, asked, numbers.as_slice()),
        Err(why) => Err(why),
    }
}

// Walks the copies of these numbers, the greatest first, and then COPY.
fn thin_each<K: AllocGlobal + Desk>(
    desk: &mut K,
    asked: &AskedThinning,
    numbers: &[u32],
) -> Result<(), Unbacked>
    requires { 1 ≤ asked.now.keep }
    ensures { (was : List (DeskDeed K.Disk)) → ThinsOut (thinning_by asked.now) was
        (K.deeds desk.old) → ThinsOut (thinning_by asked.now) was (K.deeds desk.new) }
{
    let mut walked = Walked {
        last: asked.newest,
        found: 1,
    };
    for number in numbers.iter().rev() {
        walked = thin_at(desk, asked, *number, walked)?;
    }
    match thin_at(desk, asked, 0, walked) {
        Ok(_) => Ok(()),
        Err(why) => Err(why),
    }
}

// Looks at COPY of this number, and takes it away where it is an old one.
fn thin_at<K: AllocGlobal + Desk>(
    desk: &mut K,
    asked: &AskedThinning,
    number: u32,
    walked: Walked,
) -> Result<Walked, Unbacked>
    requires { walked.found ≤ asked.now.keep }
    ensures found { IfOk result (λ next. next.found ≤ asked.now.keep) }
    ensures thins { (was : List (DeskDeed K.Disk)) → IsThinned (thinning_by asked.now) walked was
        (K.deeds desk.old) → ThinsOn (thinning_by asked.now) result was (K.deeds desk.new) }
{
    if number >= walked.last {
        return Ok(walked);
    }
    let Ok(path) = numbered(desk.alloc(), asked.copy, number) else {
        return Err(Unbacked::OutOfMemory);
    };
    match desk.begins(&path, ARCHIVE_HEAD) {
        Ok(true) => {
            if walked.found < asked.keep {
                Ok(Walked {
                    last: number,
                    found: walked.found + 1,
                })
            } else {
                take_away(desk, asked.file, &path)?;
                Ok(Walked {
                    last: number,
                    found: walked.found,
                })
            }
        }
        Ok(false) | Err(DeskFault::Missing | DeskFault::NotFile) => Ok(walked),
        Err(fault) => Err(Unbacked::Unthinned(fault)),
    }
}

// Takes an old copy away, and first the sum beside it.
fn take_away<K: AllocGlobal + Desk>(
    desk: &mut K,
    file: &String,
    path: &String,
) -> Result<(), Unbacked>
    ensures { (thinning : Thinning) (number : ℕ) (was : List (DeskDeed K.Disk))
        → thinning.file ≡ string_bytes file.now
        → string_bytes path.now ≡ numbered_copy thinning.copy number
        → IsOldCopy thinning number was (K.deeds desk.old)
        → IsOldCopy thinning number was (K.deeds desk.new) }
{
    let Ok(beside) = sum_path(desk.alloc(), path) else {
        return Err(Unbacked::OutOfMemory);
    };
    take_one(desk, file, &beside)?;
    take_one(desk, file, path)
}

// Takes a file away, if it is there, and is not FILE by any name.
fn take_one<K: Desk>(desk: &mut K, file: &String, path: &String) -> Result<(), Unbacked>
    ensures { (thinning : Thinning) (number : ℕ) (was : List (DeskDeed K.Disk))
        → thinning.file ≡ string_bytes file.now
        → (string_bytes path.now ≡ numbered_copy thinning.copy number)
        ⊎ (string_bytes path.now ≡ sum_path (numbered_copy thinning.copy number))
        → IsOldCopy thinning number was (K.deeds desk.old)
        → IsOldCopy thinning number was (K.deeds desk.new) }
{
    match desk.is_same(path, file) {
        Ok(false) => match desk.remove(path) {
            Ok(()) => Ok(()),
            Err(fault) => Err(Unbacked::Unthinned(fault)),
        },
        Ok(true) | Err(DeskFault::Missing) => Ok(()),
        Err(fault) => Err(Unbacked::Unthinned(fault)),
    }
}
