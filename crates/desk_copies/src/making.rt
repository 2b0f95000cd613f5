// New archives.
ghost use Rattle.std.specs.Prelude.{◌≡◌, false, List, ℕ, MatchResult, string_bytes};
ghost use Rattle.tune_desk.specs.ArchiveFiles.{IsBegunArchive, MakesNone};
ghost use Rattle.tune_desk.specs.DeskDeeds.{DeskDeed};
ghost use Rattle.tune_desk.specs.Results.{new_of};
ghost use Rattle.desk_copies.specs.Made.{MakesEmpty, PutsEmpty};

use crate::archive_files::{begin_archive, leave_archive, put_archive};
use crate::copy_reasons::{Unmade, say_unmade};
use desk_scenes::DONE;
use std::io::Write;
use tune_archive::Archive;
use tune_desk::{BegunResult, Desk, ResultFault};
use tune_disk::Disk;

/// Makes an archive in which nothing is yet, where FILE leads and nothing stands, and gives the
/// status: 0; 2 for a folder; 3 where a file stands there; and else 1.
pub fn make<E: Write, D: Disk, K: AllocGlobal + Desk<Disk = D>>(
    desk: &mut K,
    file: &String,
    errors: &mut E,
) -> u8
    ensures { MakesEmpty D.Disk (string_bytes file.now) (K.deeds desk.old) (K.deeds desk.new)
        result }
{
    match make_file(desk, file) {
        Ok(()) => DONE,
        Err(why) => say_unmade(errors, file.as_str(), &why),
    }
}

fn make_file<D: Disk, K: AllocGlobal + Desk<Disk = D>>(
    desk: &mut K,
    file: &String,
) -> Result<(), Unmade>
    ensures { MatchResult result
        (λ _. PutsEmpty D.Disk (string_bytes file.now) (K.deeds desk.old) (K.deeds desk.new))
        (λ _. MakesNone (string_bytes file.now) (K.deeds desk.old) (K.deeds desk.new)) }
{
    match begin_archive(desk, file, false) {
        Ok(begun) => fill_new(desk, begun),
        Err(fault) => Err(Unmade::File(fault)),
    }
}

// Makes an archive on a disk that was begun, and puts it in its place.
fn fill_new<D: Disk, K: AllocGlobal + Desk<Disk = D>>(
    desk: &mut K,
    begun: BegunResult<D>,
) -> Result<(), Unmade>
    requires { string_bytes begun.place.new ≡ new_of (string_bytes begun.place.target) }
    ensures { (file : List ℕ) (was : List (DeskDeed D))
        → IsBegunArchive file (string_bytes begun.place.target) was (K.deeds desk.old)
        → begun.place.over ≡ false → MatchResult result
        (λ _. PutsEmpty D.Disk file was (K.deeds desk.new))
        (λ _. MakesNone file was (K.deeds desk.new)) }
{
    let BegunResult { place, disk } = begun;
    match Archive::make(desk.alloc(), disk) {
        Ok(archive) => match put_archive(desk, &place, archive.into_disk()) {
            Ok(()) => Ok(()),
            Err(why) => Err(Unmade::File(ResultFault {
                target: Some(place.target),
                why,
            })),
        },
        Err(refused) => {
            leave_archive(desk, &place, refused.disk);
            Err(Unmade::Archive(refused.why))
        }
    }
}
