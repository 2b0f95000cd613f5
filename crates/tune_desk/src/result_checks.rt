// Whether a result may be written: what is asked before, which changes nothing.
ghost use Rattle.std.specs.Prelude.{ℕ, Bool, List, Option, string_bytes};
ghost use Rattle.tune_desk.specs.Inside.Asks.{Asks, Judges, KnowsStanding, MayBeWritten};
ghost use Rattle.tune_desk.specs.Inside.Asks.{TellsSame, TellsNames, TellsHeld};
ghost use Rattle.tune_desk.specs.KeptNames.{folder_of};
ghost use Rattle.tune_desk.specs.Results.{Places, result_places, SparesArchive};

use crate::kept_names::{Kinship, folder_of, kinship_of};
use crate::{Desk, DeskFault, ResultRefusal, Standing};
use std::alloc::Global;

// The first bytes of every archive.
const ARCHIVE_HEAD: &[u8] = b"ABCTUNE1";

// Whether what stands at TARGET is to be written over, or else nothing stands there.
pub(crate) fn may_be_written<K: Desk>(
    alloc: Global,
    desk: &mut K,
    file: &String,
    target: &String,
    force: bool,
) -> Result<bool, ResultRefusal>
    ensures { (out : Option (List ℕ)) → let target = string_bytes target.now in
        let places = result_places (string_bytes file.now) out force in
        Asks (Judges places target (MayBeWritten places target) result)
        (K.deeds desk.old) (K.deeds desk.new) }
{
    let stands = find_standing(alloc, desk, target)?;
    spare_archive(alloc, desk, file, target)?;
    if stands {
        spare_standing(desk, file, target, force)?;
        Ok(true)
    } else {
        Ok(false)
    }
}

// Whether a file stands at TARGET, or else nothing in a folder that is there.
fn find_standing<K: Desk>(
    alloc: Global,
    desk: &mut K,
    target: &String,
) -> Result<bool, ResultRefusal>
    ensures { (places : Places) → let target = string_bytes target.now in
        Asks (Judges places target (KnowsStanding target) result)
        (K.deeds desk.old) (K.deeds desk.new) }
{
    match desk.look(target) {
        Ok(Standing::File) => Ok(true),
        Ok(Standing::Nothing) => find_folder(alloc, desk, target),
        Ok(Standing::Folder) => Err(ResultRefusal::Folder),
        Ok(Standing::Other) => Err(ResultRefusal::NotFile),
        Err(fault) => Err(ResultRefusal::Unasked(fault)),
    }
}

// That the folder of TARGET is there.
fn find_folder<K: Desk>(alloc: Global, desk: &mut K, target: &String) -> Result<bool, ResultRefusal>
    ensures { (places : Places) → let target = string_bytes target.now in
        Asks (Judges places target (KnowsStanding target) result)
        (K.deeds desk.old) (K.deeds desk.new) }
{
    let Ok(folder) = folder_of(alloc, target) else {
        return Err(ResultRefusal::OutOfMemory);
    };
    match desk.look(&folder) {
        Ok(Standing::Folder) => Ok(false),
        Ok(_) => Err(ResultRefusal::NoFolder),
        Err(fault) => Err(ResultRefusal::Unasked(fault)),
    }
}

// That TARGET has no name that is kept for FILE, or for what FILE leads to.
fn spare_archive<K: Desk>(
    alloc: Global,
    desk: &mut K,
    file: &String,
    target: &String,
) -> Result<(), ResultRefusal>
    ensures { (out : Option (List ℕ)) (force : Bool) → let target = string_bytes target.now in
        let places = result_places (string_bytes file.now) out force in
        Asks (Judges places target (λ _ since. SparesArchive places target since) result)
        (K.deeds desk.old) (K.deeds desk.new) }
{
    let there = match desk.follow(alloc, file) {
        Ok(there) => there,
        Err(fault) => return Err(ResultRefusal::Unasked(fault)),
    };
    spare_names(alloc, desk, file, target)?;
    spare_names(alloc, desk, &there, target)
}

// That TARGET has neither the name of a file nor one that is kept for it, or is in another folder.
fn spare_names<K: Desk>(
    alloc: Global,
    desk: &mut K,
    file: &String,
    target: &String,
) -> Result<(), ResultRefusal>
    ensures { Asks (TellsNames (string_bytes target.now) (string_bytes file.now) result)
        (K.deeds desk.old) (K.deeds desk.new) }
{
    let refusal = match kinship_of(target, file) {
        Kinship::Other => return Ok(()),
        Kinship::Namesake => ResultRefusal::Archive,
        Kinship::Kept => ResultRefusal::Companion,
    };
    if are_neighbours(alloc, desk, target, file)? {
        Err(refusal)
    } else {
        Ok(())
    }
}

// Whether two paths are in one folder.
fn are_neighbours<K: Desk>(
    alloc: Global,
    desk: &mut K,
    path: &String,
    other: &String,
) -> Result<bool, ResultRefusal>
    ensures { let folder = folder_of (string_bytes path.now) in
        let other_folder = folder_of (string_bytes other.now) in
        Asks (TellsSame folder other_folder result)
        (K.deeds desk.old) (K.deeds desk.new) }
{
    let Ok(folder) = folder_of(alloc, path) else {
        return Err(ResultRefusal::OutOfMemory);
    };
    let Ok(other_folder) = folder_of(alloc, other) else {
        return Err(ResultRefusal::OutOfMemory);
    };
    are_same(desk, &folder, &other_folder)
}

// Whether two paths lead to one file or folder; not, where either leads to nothing.
fn are_same<K: Desk>(desk: &mut K, path: &String, other: &String) -> Result<bool, ResultRefusal>
    ensures { Asks (TellsSame (string_bytes path.now) (string_bytes other.now) result)
        (K.deeds desk.old) (K.deeds desk.new) }
{
    match desk.is_same(path, other) {
        Ok(same) => Ok(same),
        Err(DeskFault::Missing) => Ok(false),
        Err(fault) => Err(ResultRefusal::Unasked(fault)),
    }
}

// That the file at TARGET may be written over.
fn spare_standing<K: Desk>(
    desk: &mut K,
    file: &String,
    target: &String,
    force: bool,
) -> Result<(), ResultRefusal>
    ensures { (out : Option (List ℕ)) → let target = string_bytes target.now in
        let places = result_places (string_bytes file.now) out force in
        Asks (TellsHeld places target result) (K.deeds desk.old) (K.deeds desk.new) }
{
    if are_same(desk, target, file)? {
        return Err(ResultRefusal::Archive);
    }
    if !force {
        return Err(ResultRefusal::Standing);
    }
    match desk.begins(target, ARCHIVE_HEAD) {
        Ok(false) => Ok(()),
        Ok(true) => Err(ResultRefusal::OtherArchive),
        Err(fault) => Err(ResultRefusal::Unasked(fault)),
    }
}
