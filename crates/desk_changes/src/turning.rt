// Turns, brought about behind their entry.
ghost use Rattle.std.specs.Prelude.{None, false, string_bytes};
ghost use Rattle.tune_desk.specs.Results.{SparesFiles, result_places};
ghost use Rattle.desk_changes.specs.Inside.Turning.{TurnsBehindEntry};

use crate::entries::entry_of;
use crate::words::Unchanged;
use desk_scenes::keep_entry;
use tune_archive::Archive;
use tune_changes::{Turn, bring_about};
use tune_desk::Desk;
use tune_disk::Disk;
use tune_store::Refusal;
use tune_undo::EntryKind;

/// Keeps an entry of these turns, and brings them about.
pub(crate) fn carry<D: Disk, K: AllocGlobal + Desk<Disk = D>>(
    desk: &mut K,
    file: &String,
    archive: &mut Archive<D>,
    kind: EntryKind,
    turns: &[Turn],
) -> Result<(), Unchanged>
    ensures files { SparesFiles (result_places (string_bytes file.now) None false)
        (K.deeds desk.old) (K.deeds desk.new) }
    ensures turns { TurnsBehindEntry D.Disk (string_bytes file.now) kind turns.now result (record {
      start = archive.old;
      finish = archive.new;
      was = K.deeds desk.old;
      now = K.deeds desk.new;
    }) }
{
    let Ok(entry) = entry_of(desk.alloc(), kind, turns) else {
        return Err(Unchanged::Refused(Refusal::OutOfMemory));
    };
    match keep_entry(desk, file, &entry) {
        Ok(()) => match bring_about(desk.alloc(), archive, turns) {
            Ok(()) => Ok(()),
            Err(refusal) => Err(Unchanged::Refused(refusal)),
        },
        Err(why) => Err(Unchanged::Unkept(why)),
    }
}
