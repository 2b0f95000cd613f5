// FILE, opened to read alone.
ghost use Rattle.std.specs.Prelude.{string_bytes, MatchResult};
ghost use Rattle.tune_disk.specs.declared.file.Access.TheVariants.{Change};
ghost use Rattle.desk_scenes.specs.FileAnswers.{Did, IsUnasked};
ghost use Rattle.desk_scenes.specs.Visits.{Visits, ComesToNothing};
ghost use Rattle.desk_scenes.specs.OpenedFile.{Opens, OpensToRead};

use tune_archive::Archive;
use tune_desk::{Desk, DeskFault};
use tune_disk::{Access, Disk};
use tune_journal::OpenFault;

/// Why FILE was not opened.
#[derive(Clone, Copy)]
pub enum Unopened {
    /// The desk gave no disk for it, to read alone.
    Unread(DeskFault),
    /// A stop left it within a change, and the desk gave no disk to change it.
    Unmended(DeskFault),
    /// There is no archive that can be read.
    Archive(OpenFault),
}

/// The archive of the file at a path, opened once.
pub fn open_once<D: Disk, K: AllocGlobal + Desk<Disk = D>>(
    desk: &mut K,
    file: &String,
    access: Access,
) -> Result<Archive<D>, Unopened>
    ensures { MatchResult result
        (λ archive. Opens D.Disk (string_bytes file.now) access archive
        (K.deeds desk.old) (K.deeds desk.new))
        (λ _. Did (K.deeds desk.old) (K.deeds desk.new)
        (Visits D.Disk (string_bytes file.now) access)) }
{
    match desk.open(file, access) {
        Ok(disk) => match Archive::open(desk.alloc(), disk) {
            Ok(archive) => Ok(archive),
            Err(refused) => {
                desk.close(file, refused.disk);
                Err(Unopened::Archive(refused.why))
            }
        },
        Err(fault) => match access {
            Access::Read => Err(Unopened::Unread(fault)),
            Access::Change => Err(Unopened::Unmended(fault)),
        },
    }
}

// Opens the file to change it, which brings it to rest where a stop left it within a change, and
// closes it.
fn mend<D: Disk, K: AllocGlobal + Desk<Disk = D>>(
    desk: &mut K,
    file: &String,
) -> Result<(), Unopened>
    ensures { Did (K.deeds desk.old) (K.deeds desk.new)
        (Visits D.Disk (string_bytes file.now) Change) }
{
    let archive = open_once(desk, file, Access::Change)?;
    desk.close(file, archive.into_disk());
    Ok(())
}

// The archive of the file at a path, opened to read alone.
pub fn open_to_read<D: Disk, K: AllocGlobal + Desk<Disk = D>>(
    desk: &mut K,
    file: &String,
) -> Result<Archive<D>, Unopened>
    ensures { MatchResult result
        (λ archive. OpensToRead D.Disk (string_bytes file.now) archive
        (K.deeds desk.old) (K.deeds desk.new))
        (λ _. Did (K.deeds desk.old) (K.deeds desk.new)
        (ComesToNothing D.Disk (string_bytes file.now))) }
{
    match open_once(desk, file, Access::Read) {
        Err(Unopened::Archive(OpenFault::Device)) => {
            mend(desk, file)?;
            open_once(desk, file, Access::Read)
        }
        answer => answer,
    }
}

// Opens the file at a path to read it alone, and closes it: it is at rest then.
pub fn bring_to_rest<D: Disk, K: AllocGlobal + Desk<Disk = D>>(
    desk: &mut K,
    file: &String,
) -> Result<(), Unopened>
    ensures { Did (K.deeds desk.old) (K.deeds desk.new)
        (IsUnasked D.Disk (string_bytes file.now)) }
{
    let archive = open_to_read(desk, file)?;
    desk.close(file, archive.into_disk());
    Ok(())
}
