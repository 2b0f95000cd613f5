// An archive that is put where FILE leads.
ghost use Rattle.std.specs.Prelude.{◌≡◌, false, List, ℕ, IfOk, MatchResult, string_bytes};
ghost use Rattle.tune_desk.specs.ArchiveFiles.{Keeping, IsBegunArchive, IsBegunArchiveBy};
ghost use Rattle.tune_desk.specs.ArchiveFiles.{MakesArchiveBy, MakesNone, MakesNoneBy};
ghost use Rattle.tune_desk.specs.ArchiveFiles.{PutsArchiveAfter};
ghost use Rattle.tune_desk.specs.DeskDeeds.{DeskDeed};
ghost use Rattle.tune_desk.specs.Results.{new_of};
ghost use Rattle.desk_copies.specs.Inside.Beginnings.{IsFollowed, BeginsFile};

use tune_desk::{
    BegunResult, Desk, DeskFault, ResultFault, ResultPlace, ResultRefusal, Standing, finish_result,
};
use tune_disk::Disk;

/// Begins an archive where FILE leads: makes TARGET.new, as a disk. A file that stands at TARGET is
/// refused, but where it may stand.
pub fn begin_archive<D: Disk, K: AllocGlobal + Desk<Disk = D>>(
    desk: &mut K,
    file: &String,
    may_stand: bool,
) -> Result<BegunResult<D>, ResultFault>
    ensures begun { MatchResult result
        (λ begun. IsBegunArchive (string_bytes file.now) (string_bytes begun.place.target)
        (K.deeds desk.old) (K.deeds desk.new))
        (λ _. MakesNone (string_bytes file.now) (K.deeds desk.old) (K.deeds desk.new)) }
    ensures new { IfOk result (λ begun. string_bytes begun.place.new
        ≡ new_of (string_bytes begun.place.target)) }
    ensures over { IfOk result (λ begun. may_stand ≡ false → begun.place.over ≡ false) }
{
    let target = match desk.follow(desk.alloc(), file) {
        Ok(target) => target,
        Err(fault) => {
            return Err(ResultFault {
                target: None,
                why: ResultRefusal::Unasked(fault),
            });
        }
    };
    match begin_at(desk, &target, may_stand) {
        Ok(NewFile { new, over, disk }) => Ok(BegunResult {
            place: ResultPlace { target, new, over },
            disk,
        }),
        Err(why) => Err(ResultFault {
            target: Some(target),
            why,
        }),
    }
}

// TARGET.new, as a disk, and whether a file stands at TARGET.
#[derive(Drop)]
pub(crate) struct NewFile<D: Disk> {
    pub(crate) new: String,
    pub(crate) over: bool,
    pub(crate) disk: D,
}

// Makes TARGET.new.
fn begin_at<D: Disk, K: AllocGlobal + Desk<Disk = D>>(
    desk: &mut K,
    target: &String,
    may_stand: bool,
) -> Result<NewFile<D>, ResultRefusal>
    ensures begins { (file : List ℕ) (was : List (DeskDeed D))
        → IsFollowed file (string_bytes target.now) was (K.deeds desk.old)
        → BeginsFile file (string_bytes target.now) result was (K.deeds desk.new) }
    ensures new { IfOk result (λ begun. string_bytes begun.new
        ≡ new_of (string_bytes target.now)) }
    ensures over { IfOk result (λ begun. may_stand ≡ false → begun.over ≡ false) }
{
    let over = find_standing(desk, target, may_stand)?;
    let Ok(new) = format!(in desk.alloc(); "{target}.new") else {
        return Err(ResultRefusal::OutOfMemory);
    };
    match desk.create(&new) {
        Ok(disk) => Ok(NewFile { new, over, disk }),
        Err(fault) => Err(refusal_of(fault)),
    }
}

// Why a new file is not made.
fn refusal_of(fault: DeskFault) -> ResultRefusal {
    match fault {
        DeskFault::Taken => ResultRefusal::NewStands,
        DeskFault::Missing => ResultRefusal::NoFolder,
        fault => ResultRefusal::NotMade(fault),
    }
}

// Whether a file stands at TARGET, where one may.
fn find_standing<K: Desk>(
    desk: &mut K,
    target: &String,
    may_stand: bool,
) -> Result<bool, ResultRefusal>
    ensures asks { (file : List ℕ) (was : List (DeskDeed K.Disk))
        → IsFollowed file (string_bytes target.now) was (K.deeds desk.old)
        → IsFollowed file (string_bytes target.now) was (K.deeds desk.new) }
    ensures over { IfOk result (λ over. may_stand ≡ false → over ≡ false) }
{
    let found = desk.look(target);
    stands(found, may_stand)
}

fn stands(found: Result<Standing, DeskFault>, may_stand: bool) -> Result<bool, ResultRefusal>
    ensures { IfOk result (λ over. may_stand ≡ false → over ≡ false) }
{
    match found {
        Ok(Standing::Nothing) => Ok(false),
        Ok(Standing::File) if may_stand => Ok(true),
        Ok(Standing::File) => Err(ResultRefusal::Standing),
        Ok(Standing::Folder) => Err(ResultRefusal::Folder),
        Ok(Standing::Other) => Err(ResultRefusal::NotFile),
        Err(fault) => Err(ResultRefusal::Unasked(fault)),
    }
}

/// Closes the disk of TARGET.new, and names it TARGET, where nothing stands; or takes it away.
pub fn put_archive<D: Disk, K: Desk<Disk = D>>(
    desk: &mut K,
    place: &ResultPlace,
    disk: D,
) -> Result<(), ResultRefusal>
    requires { string_bytes place.now.new ≡ new_of (string_bytes place.now.target) }
    ensures { (keeping : Keeping) (file : List ℕ) (was : List (DeskDeed D))
        → IsBegunArchiveBy keeping file (string_bytes place.now.target) was (K.deeds desk.old)
        → place.now.over ≡ false → MatchResult result
        (λ _. MakesArchiveBy keeping file was (K.deeds desk.new)
        × PutsArchiveAfter keeping file disk was (K.deeds desk.old) (K.deeds desk.new))
        (λ _. MakesNoneBy keeping file was (K.deeds desk.new)) }
{
    desk.close(&place.new, disk);
    finish_result(desk, place)
}

/// Closes the disk of TARGET.new, and takes it away.
pub fn leave_archive<D: Disk, K: Desk<Disk = D>>(desk: &mut K, place: &ResultPlace, disk: D)
    requires { string_bytes place.now.new ≡ new_of (string_bytes place.now.target) }
    ensures { (keeping : Keeping) (file : List ℕ) (was : List (DeskDeed D))
        → IsBegunArchiveBy keeping file (string_bytes place.now.target) was (K.deeds desk.old)
        → MakesNoneBy keeping file was (K.deeds desk.new) }
{
    desk.close(&place.new, disk);
    let _ = desk.remove(&place.new);
}
