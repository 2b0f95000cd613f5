// A store over any disk.
ghost use Rattle.std.specs.Prelude.{◌≡◌, ◌≤◌, false, OnErr};
ghost use Rattle.tune_store.specs.State.{State, empty_state};
ghost use Rattle.tune_store.specs.StoreStops.{HasFailed};
ghost use Rattle.tune_archive.specs.Media.{moment_of, LeftAt, LeftFrom};
ghost use Rattle.test_stores.specs.Marks.{IsMarkFile, IsMarked};
ghost use Rattle.test_stores.specs.Inside.Marks.{LeavesMarks};

use crate::keeping::changes_nothing;
use std::alloc::Global;
use tune_disk::{DeviceFault, Disk};
use tune_store::{Catalog, Command, ListArchive, Refusal, Reply, TuneStore};

/// A fake store over any disk: an archive in memory, which writes a mark of one byte on the disk at
/// each accepted command that changes something. Any file of at most one byte stands for any state:
/// it keeps no tunes, and shows that what the trait of stores says can be met over a disk that
/// fails.
#[derive(Drop)]
pub struct DiskStore<D: Disk> {
    archive: ListArchive,
    disk: D,
    closed: bool,
}

impl<D: Disk> DiskStore<D> {
    /// A store without a tune over a disk, of which a stop leaves at most one byte.
    pub fn new(alloc: Global, disk: D) -> DiskStore<D>
        requires { D.honest disk → (D.state disk).now.reach ≤ 1 }
        ensures state { ⟦<DiskStore<D> as TuneStore>⟧.state result ≡ empty_state }
        ensures is_open { ⟦<DiskStore<D> as TuneStore>⟧.closed result ≡ false }
        ensures sound { ⟦<DiskStore<D> as TuneStore>⟧.sound result }
    {
        DiskStore {
            archive: ListArchive::new(alloc),
            disk,
            closed: false,
        }
    }
}

impl<D: Disk> TuneStore for DiskStore<D> {
    ghost use Rattle.std.proofs.Math.Nat.{le_trans};
    ghost use Rattle.tune_archive.proofs.Media.{left_now, left_then, left_before};

    ghost state = { λ store. store.archive };

    ghost closed = { λ store. store.closed };

    ghost honest = { λ store. D.Disk.honest store.disk };

    ghost sound = { λ store.
        IsMarked (D.Disk.honest store.disk) (D.Disk.state store.disk) store.archive };

    ghost failures = { λ store. D.Disk.failures store.disk };

    ghost moment = { λ store. moment_of (D.Disk.state store.disk) };

    ghost left_at = { λ store. LeftAt (D.Disk.state store.disk) };

    ghost left_since = { λ store. LeftFrom (D.Disk.state store.disk) };

    ghost stands_for = { IsMarkFile };

    ghost settled = { λ store file sound honest is_open left.
        le_trans (left_now (D.Disk.state store.disk) file left).no_longer (sound.mark honest) };

    ghost within = { λ store sound honest. sound.within };

    ghost since_at = { λ store at since file le left.
        left_then (D.Disk.state store.disk) at since file le left };

    ghost since_earlier = { λ store since earlier file le left.
        left_before (D.Disk.state store.disk) since earlier file le left };

    fn apply(&mut self, command: &Command) -> Result<Reply, Refusal> {
        if self.closed {
            return Err(Refusal::Closed);
        }
        let layout = self.archive.layout();
        let reply = self.archive.apply(command)?;
        if changes_nothing(layout, command) {
            return Ok(reply);
        }
        match mark(&mut self.disk) {
            Ok(()) => Ok(reply),
            Err(_) => {
                self.closed = true;
                Err(Refusal::Device)
            }
        }
    }
}

// Writes the mark, and makes it stable.
fn mark<D: Disk>(disk: &mut D) -> Result<(), DeviceFault>
    ensures was_honest { D.honest disk.new → D.honest disk.old }
    ensures marks { D.honest disk.new → LeavesMarks (D.state disk.old) (D.state disk.new) }
    ensures failed { OnErr result (HasFailed (D.failures disk.old) (D.failures disk.new)) }
{
    disk.write_at(0, &[1])?;
    disk.sync()
}
