// Copies that are checked.
ghost use Rattle.std.specs.Prelude.{◌≡◌, IfOk, string_bytes};
ghost use Rattle.tune_scripts.specs.Streams.{streams_in};
ghost use Rattle.desk_scenes.specs.FileAnswers.{HeldState};
ghost use Rattle.desk_scenes.specs.OpenedFile.{CountsOf};
ghost use Rattle.desk_scenes.specs.Scenes.{IsQuiet};
ghost use Rattle.desk_backups.specs.CheckedCopies.{ChecksFile, TellsCopy};
ghost use Rattle.desk_backups.specs.Inside.Checking.{ChecksDisk};

use crate::backup_reasons::{Unchecked, say_unchecked};
use desk_copies::{Uncopied, compare_sum, sum_of_disk};
use desk_scenes::{Progress, StandardStreams, print_counts};
use std::alloc::Global;
use std::io::Write;
use tune_archive::{Archive, Counts};
use tune_desk::Desk;
use tune_disk::{Access, Disk};
use tune_journal::OpenFault;
use tune_scripts::Console;

/// Opens COPY to read it alone, compares it with the sum beside it, where that stands, and prints
/// how much it holds. Gives the status: 3 where it is no archive, or a damaged one, and 1 where it
/// has another sum.
pub fn check_copy<C: Console, E: Write + Progress, D: Disk, K: AllocGlobal + Desk<Disk = D>>(
    desk: &mut K,
    copy: &String,
    standard: &mut StandardStreams<C, E>,
) -> u8
    ensures files { IsQuiet (K.deeds desk.old) (K.deeds desk.new) }
    ensures tells { TellsCopy D.Disk (string_bytes copy.now) (record {
      streams = streams_in C.Console standard.old.console standard.new.console;
      was = K.deeds desk.old;
      now = K.deeds desk.new;
      status = result;
    }) }
{
    match check_file(desk, copy, &mut standard.errors) {
        Ok(counts) => print_counts(desk.alloc(), standard, counts),
        Err(why) => say_unchecked(&mut standard.errors, copy.as_str(), &why),
    }
}

// How much COPY holds.
fn check_file<D: Disk, E: Progress, K: AllocGlobal + Desk<Disk = D>>(
    desk: &mut K,
    copy: &String,
    teller: &mut E,
) -> Result<Counts, Unchecked>
    ensures quiet { IsQuiet (K.deeds desk.old) (K.deeds desk.new) }
    ensures checks { ChecksFile D.Disk (string_bytes copy.now) result
        (K.deeds desk.old) (K.deeds desk.new) }
{
    match desk.open(copy, Access::Read) {
        Ok(source) => {
            let Checking { disk, outcome } = check_disk(desk, copy, source, teller);
            desk.close(copy, disk);
            outcome
        }
        Err(fault) => Err(Unchecked::Unread(fault)),
    }
}

// What came of a check, with the disk of COPY.
#[derive(Drop)]
pub(crate) struct Checking<D: Disk> {
    pub(crate) disk: D,
    pub(crate) outcome: Result<Counts, Unchecked>,
}

// Compares what a disk shows with the sum beside it, and opens it as an archive.
fn check_disk<D: Disk, E: Progress, K: AllocGlobal + Desk<Disk = D>>(
    desk: &mut K,
    copy: &String,
    source: D,
    teller: &mut E,
) -> Checking<D>
    ensures { ChecksDisk D.Disk (string_bytes copy.now) source result
        (K.deeds desk.old) (K.deeds desk.new) }
{
    let mut disk = source;
    match sum_of_disk(desk.alloc(), &mut disk, teller) {
        Ok(sum) => match compare_sum(desk, copy, &sum) {
            Ok(()) => counts_on(desk.alloc(), disk),
            Err(why) => Checking {
                disk,
                outcome: Err(Unchecked::Sum(why)),
            },
        },
        Err(fault) => Checking {
            disk,
            outcome: Err(Unchecked::Unsummed(Uncopied::Bytes(fault))),
        },
    }
}

// How much the archive of a disk holds.
fn counts_on<D: Disk>(alloc: Global, disk: D) -> Checking<D>
    ensures told { IfOk result.outcome (λ counts.
        HeldState D.Disk (CountsOf counts) disk result.disk) }
    ensures disk { D.honest result.disk → D.honest disk }
{
    match Archive::open(alloc, disk) {
        Ok(archive) => {
            let counts = archive.counts();
            let disk = archive.into_disk();
            match counts {
                Ok(counts) => Checking {
                    disk,
                    outcome: Ok(counts),
                },
                Err(_) => Checking {
                    disk,
                    outcome: Err(Unchecked::Archive(OpenFault::Device)),
                },
            }
        }
        Err(refused) => Checking {
            disk: refused.disk,
            outcome: Err(Unchecked::Archive(refused.why)),
        },
    }
}
