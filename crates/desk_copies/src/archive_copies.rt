// Archives that are copied from disk to disk.
ghost use Rattle.std.specs.Prelude.{◌≡◌, IfOk};
ghost use Rattle.sha2.specs.Sha256.{sha256};
ghost use Rattle.desk_copies.specs.Copies.{CopiesArchive, IsLookedAt};
ghost use Rattle.desk_copies.specs.Inside.Checks.{ChecksCopy};

use crate::disk_copies::{CopyFault, copy_disk, sum_of_disk};
use desk_scenes::Progress;
use std::alloc::Global;
use tune_archive::{Archive, Counts};
use tune_disk::Disk;
use tune_journal::OpenFault;

/// An archive that was copied.
#[derive(Clone, Copy)]
pub struct Copied {
    /// How much it holds.
    pub counts: Counts,
    /// The SHA-256 of its bytes.
    pub sum: [u8; 32],
}

/// Why an archive was not copied.
#[derive(Clone, Copy)]
pub enum Uncopied {
    /// Its bytes were not.
    Bytes(CopyFault),
    /// What was copied is no archive that can be read.
    Archive(OpenFault),
    /// The copy gave back other bytes than were written.
    Other,
}

/// What came of a copy, with its disk.
#[derive(Drop)]
pub struct Copying<D: Disk> {
    /// The disk that was written.
    pub disk: D,
    /// What came of it.
    pub outcome: Result<Copied, Uncopied>,
}

/// Copies an archive to a disk on which nothing stands, opens the copy to check it, and reads it
/// once more.
pub fn copy_archive<D: Disk, E: Progress>(
    alloc: Global,
    from: &mut D,
    to: D,
    teller: &mut E,
) -> Copying<D>
    ensures copied { IfOk result.outcome (λ copied. D.honest from.new → D.honest result.disk
        → CopiesArchive (D.state from.old) (D.state result.disk) copied) }
    ensures from { IsLookedAt D.honest D.state from.old from.new }
    ensures to { D.honest result.disk → D.honest to }
{
    let mut disk = to;
    match copy_disk(alloc, from, &mut disk, teller) {
        Ok(sum) => checked_copy(alloc, disk, sum, teller),
        Err(fault) => Copying {
            disk,
            outcome: Err(Uncopied::Bytes(fault)),
        },
    }
}

// Opens a copy of this sum to check it, and reads it once more.
fn checked_copy<D: Disk, E: Progress>(
    alloc: Global,
    disk: D,
    sum: [u8; 32],
    teller: &mut E,
) -> Copying<D>
    ensures checked { IfOk result.outcome (λ copied. D.honest result.disk
        → ChecksCopy (D.state disk) (D.state result.disk) sum copied) }
    ensures disk { D.honest result.disk → D.honest disk }
{
    match Archive::open(alloc, disk) {
        Ok(archive) => {
            let counts = archive.counts();
            let mut disk = archive.into_disk();
            match counts {
                Ok(counts) => {
                    let outcome = read_again(alloc, &mut disk, counts, sum, teller);
                    Copying { disk, outcome }
                }
                Err(_) => Copying {
                    disk,
                    outcome: Err(Uncopied::Archive(OpenFault::Device)),
                },
            }
        }
        Err(refused) => Copying {
            disk: refused.disk,
            outcome: Err(Uncopied::Archive(refused.why)),
        },
    }
}

// Compares what a disk shows with a sum.
fn read_again<D: Disk, E: Progress>(
    alloc: Global,
    disk: &mut D,
    counts: Counts,
    sum: [u8; 32],
    teller: &mut E,
) -> Result<Copied, Uncopied>
    ensures same { IfOk result (λ copied. D.honest disk.new
        → (sum ≡ sha256 (D.state disk.old).seen)) }
    ensures copied { IfOk result (λ copied. (copied.counts ≡ counts) × (copied.sum ≡ sum)) }
    ensures disk { IsLookedAt D.honest D.state disk.old disk.new }
{
    match sum_of_disk(alloc, disk, teller) {
        Ok(found) if found == sum => Ok(Copied { counts, sum }),
        Ok(_) => Err(Uncopied::Other),
        Err(fault) => Err(Uncopied::Bytes(fault)),
    }
}
