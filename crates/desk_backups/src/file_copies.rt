// FILE, copied to a new file.
ghost use Rattle.std.specs.Prelude.{◌≡◌, List, ℕ, string_bytes};
ghost use Rattle.tune_desk.specs.BegunResults.{IsBegun};
ghost use Rattle.tune_desk.specs.DeskDeeds.{DeskDeed};
ghost use Rattle.tune_desk.specs.Results.{Places, new_of};
ghost use Rattle.desk_copies.specs.Copies.{IsLookedAt};
ghost use Rattle.desk_backups.specs.Backups.{CopiesFile, PutsOrSpares};
ghost use Rattle.desk_backups.specs.CopyNames.{copy_places};

use crate::backup_reasons::Unbacked;
use desk_copies::{Copied, Copying, copy_archive};
use desk_scenes::Progress;
use tune_desk::{BegunResult, Desk, ResultFault, begin_result, finish_result};
use tune_disk::{Access, Disk};

/// Copies FILE, opened to read alone, to a new file.
pub(crate) fn copy_file<D: Disk, E: Progress, K: AllocGlobal + Desk<Disk = D>>(
    desk: &mut K,
    file: &String,
    path: &String,
    teller: &mut E,
) -> Result<Copied, Unbacked>
    ensures { CopiesFile D.Disk (string_bytes file.now) (string_bytes path.now) result
        (K.deeds desk.old) (K.deeds desk.new) }
{
    match desk.open(file, Access::Read) {
        Ok(mut source) => {
            let outcome = copy_from(desk, file, path, &mut source, teller);
            desk.close(file, source);
            outcome
        }
        Err(fault) => Err(Unbacked::Unread(fault)),
    }
}

// Copies what is open.
fn copy_from<D: Disk, E: Progress, K: AllocGlobal + Desk<Disk = D>>(
    desk: &mut K,
    file: &String,
    path: &String,
    source: &mut D,
    teller: &mut E,
) -> Result<Copied, Unbacked>
    ensures copies { PutsOrSpares D.Disk
        (copy_places (string_bytes file.now) (string_bytes path.now))
        (record { source = source.old; after = source.new }) result
        (K.deeds desk.old) (K.deeds desk.new) }
    ensures source { IsLookedAt D.honest D.state source.old source.new }
{
    match begin_result(desk.alloc(), desk, file, path, false) {
        Ok(begun) => fill_copy(desk, file, source, begun, teller),
        Err(fault) => Err(Unbacked::File(fault)),
    }
}

// Copies what is open to the disk that was begun, lets those read it who may read FILE, and names
// it.
fn fill_copy<D: Disk, E: Progress, K: AllocGlobal + Desk<Disk = D>>(
    desk: &mut K,
    file: &String,
    source: &mut D,
    begun: BegunResult<D>,
    teller: &mut E,
) -> Result<Copied, Unbacked>
    requires { string_bytes begun.place.new ≡ new_of (string_bytes begun.place.target) }
    ensures copies { (places : Places) (was : List (DeskDeed D))
        → IsBegun places (string_bytes begun.place.target) begun.place.over was (K.deeds desk.old)
        → PutsOrSpares D.Disk places (record { source = source.old; after = source.new }) result
        was (K.deeds desk.new) }
    ensures source { IsLookedAt D.honest D.state source.old source.new }
{
    let BegunResult { place, disk } = begun;
    let _ = desk.share(&place.new, file);
    let Copying { disk, outcome } = copy_archive(desk.alloc(), source, disk, teller);
    desk.close(&place.new, disk);
    match outcome {
        Ok(copied) => match finish_result(desk, &place) {
            Ok(()) => Ok(copied),
            Err(why) => Err(Unbacked::File(ResultFault {
                target: Some(place.target),
                why,
            })),
        },
        Err(why) => {
            let _ = desk.remove(&place.new);
            Err(Unbacked::Uncopied(why))
        }
    }
}
