// Copies that are put where FILE leads.
ghost use Rattle.std.specs.Prelude.{◌≡◌, ◌++◌, true, List, ℕ, IfOk, string_bytes};
ghost use Rattle.tune_desk.specs.ArchiveFiles.{IsBegunArchive};
ghost use Rattle.tune_desk.specs.DeskDeeds.{DeskDeed};
ghost use Rattle.tune_desk.specs.Results.{new_of};
ghost use Rattle.tune_scripts.specs.Streams.{streams_in};
ghost use Rattle.desk_scenes.specs.Printing.{PrintsOrNot};
ghost use Rattle.desk_copies.specs.Copies.{IsLookedAt};
ghost use Rattle.desk_copies.specs.Restored.{AgreesAndRestores, Restores, RestoresFile};
ghost use Rattle.desk_copies.specs.Restored.{RestoresFrom, aside_told, restored_bytes};
ghost use Rattle.desk_copies.specs.Inside.HeldFiles.{Ends, HoldsArchive};

use crate::archive_copies::{Copying, Uncopied, copy_archive};
use crate::archive_files::{begin_archive, leave_archive, put_archive};
use crate::copy_reasons::say_unrestored;
use crate::disk_copies::sum_of_disk;
use crate::put_aside::put_aside;
use crate::sum_files::{SumFault, compare_sum};
use desk_scenes::{Progress, REFUSED, StandardStreams, print, say};
use std::alloc::{AllocError, Global};
use std::io::Write;
use tune_archive::Counts;
use tune_desk::{
    BegunResult, Desk, DeskFault, ResultFault, ResultPlace, ResultRefusal, finish_result,
};
use tune_disk::{Access, Disk};
use tune_scripts::Console;

// The first bytes of every archive.
const ARCHIVE_HEAD: &[u8] = b"ABCTUNE1";

/// What was restored.
#[derive(Clone, Copy)]
pub(crate) struct Restored {
    /// How much the archive holds now.
    pub(crate) counts: Counts,
    /// Under which number the archive that was there was put aside.
    pub(crate) aside: Option<u32>,
}

/// Why a copy was not restored.
#[derive(Drop)]
pub(crate) enum Unrestored {
    /// COPY was not opened.
    Unread(DeskFault),
    /// TARGET.new was not made, or not named.
    File(ResultFault),
    /// COPY was not copied.
    Uncopied(Uncopied),
    /// COPY has not the sum that is told beside it.
    Sum(SumFault),
    /// FILE was not opened, to hold it.
    Unheld(DeskFault),
    /// FILE is no archive, and there is no leave to put a copy in its place.
    NoArchive,
    /// FILE was not put aside.
    NotAside(DeskFault),
    /// The copy was not named over FILE.
    Unnamed(ResultRefusal),
}

// What is asked for: that COPY comes where FILE leads, by `force` also where that is no archive.
#[derive(Clone, Copy)]
struct AskedRestore<'a> {
    file: &'a String,
    copy: &'a String,
    force: bool,
}

/// Puts a copy where FILE leads, and gives the status. What stands there is first given the name
/// FILE.N.old too, the first that is free; where it is no archive, only by `force`.
pub fn restore<C: Console, E: Write + Progress, D: Disk, K: AllocGlobal + Desk<Disk = D>>(
    desk: &mut K,
    file: &String,
    copy: &String,
    force: bool,
    standard: &mut StandardStreams<C, E>,
) -> u8
    ensures { Restores D.Disk (string_bytes file.now) (string_bytes copy.now) (record {
      streams = streams_in C.Console standard.old.console standard.new.console;
      was = K.deeds desk.old;
      now = K.deeds desk.new;
      status = result;
    }) }
{
    let asked = AskedRestore { file, copy, force };
    match restore_file(desk, &asked, &mut standard.errors) {
        Ok(restored) => print_restored(desk.alloc(), standard, file, restored),
        Err(why) => say_unrestored(&mut standard.errors, file.as_str(), copy.as_str(), &why),
    }
}

fn restore_file<D: Disk, E: Progress, K: AllocGlobal + Desk<Disk = D>>(
    desk: &mut K,
    asked: &AskedRestore,
    teller: &mut E,
) -> Result<Restored, Unrestored>
    ensures { RestoresFile D.Disk
        (string_bytes asked.now.file.now) (string_bytes asked.now.copy.now) result
        (K.deeds desk.old) (K.deeds desk.new) }
{
    match desk.open(asked.copy, Access::Read) {
        Ok(mut source) => {
            let outcome = restore_agreed(desk, asked, &mut source, teller);
            desk.close(asked.copy, source);
            outcome
        }
        Err(fault) => Err(Unrestored::Unread(fault)),
    }
}

// Restores what is open, where it agrees with the sum beside it.
fn restore_agreed<D: Disk, E: Progress, K: AllocGlobal + Desk<Disk = D>>(
    desk: &mut K,
    asked: &AskedRestore,
    source: &mut D,
    teller: &mut E,
) -> Result<Restored, Unrestored>
    ensures restores { AgreesAndRestores D.Disk (string_bytes asked.now.file.now) (record {
      path = string_bytes asked.now.copy.now;
      source = source.old;
      after = source.new;
    }) result (K.deeds desk.old) (K.deeds desk.new) }
    ensures source { IsLookedAt D.honest D.state source.old source.new }
{
    let sum = match sum_of_disk(desk.alloc(), source, teller) {
        Ok(sum) => sum,
        Err(fault) => return Err(Unrestored::Uncopied(Uncopied::Bytes(fault))),
    };
    match compare_sum(desk, asked.copy, &sum) {
        Ok(()) => restore_from(desk, asked, source, teller),
        Err(why) => Err(Unrestored::Sum(why)),
    }
}

// Copies what is open to TARGET.new, and puts that in its place.
fn restore_from<D: Disk, E: Progress, K: AllocGlobal + Desk<Disk = D>>(
    desk: &mut K,
    asked: &AskedRestore,
    source: &mut D,
    teller: &mut E,
) -> Result<Restored, Unrestored>
    ensures restores { RestoresFrom D.Disk (string_bytes asked.now.file.now) (record {
      path = string_bytes asked.now.copy.now;
      source = source.old;
      after = source.new;
    }) result (K.deeds desk.old) (K.deeds desk.new) }
    ensures source { IsLookedAt D.honest D.state source.old source.new }
{
    match begin_archive(desk, asked.file, true) {
        Ok(begun) => fill_copy(desk, asked, source, begun, teller),
        Err(fault) => Err(Unrestored::File(fault)),
    }
}

fn fill_copy<D: Disk, E: Progress, K: AllocGlobal + Desk<Disk = D>>(
    desk: &mut K,
    asked: &AskedRestore,
    source: &mut D,
    begun: BegunResult<D>,
    teller: &mut E,
) -> Result<Restored, Unrestored>
    requires { string_bytes begun.place.new ≡ new_of (string_bytes begun.place.target) }
    ensures restores { (file : List ℕ) (was : List (DeskDeed D))
        → IsBegunArchive file (string_bytes begun.place.target) was (K.deeds desk.old)
        → RestoresFrom D.Disk file (record {
          path = string_bytes asked.now.copy.now;
          source = source.old;
          after = source.new;
        }) result was (K.deeds desk.new) }
    ensures source { IsLookedAt D.honest D.state source.old source.new }
{
    let BegunResult { place, disk } = begun;
    let _ = desk.share(&place.new, asked.copy);
    let Copying { disk, outcome } = copy_archive(desk.alloc(), source, disk, teller);
    match outcome {
        Ok(copied) => match put_copy(desk, place, disk, asked.force) {
            Ok(aside) => Ok(Restored {
                counts: copied.counts,
                aside,
            }),
            Err(why) => Err(why),
        },
        Err(why) => {
            leave_archive(desk, &place, disk);
            Err(Unrestored::Uncopied(why))
        }
    }
}

// Puts the disk of TARGET.new in its place; where something stands there, it is put aside first,
// under this number.
fn put_copy<D: Disk, K: AllocGlobal + Desk<Disk = D>>(
    desk: &mut K,
    place: ResultPlace,
    disk: D,
    force: bool,
) -> Result<Option<u32>, Unrestored>
    requires { string_bytes place.new ≡ new_of (string_bytes place.target) }
    ensures { (file : List ℕ) (was : List (DeskDeed D))
        → IsBegunArchive file (string_bytes place.target) was (K.deeds desk.old)
        → Ends file disk result was (K.deeds desk.new) }
{
    if place.over {
        put_over(desk, &place, disk, force)
    } else {
        match put_archive(desk, &place, disk) {
            Ok(()) => Ok(None),
            Err(why) => Err(Unrestored::File(ResultFault {
                target: Some(place.target),
                why,
            })),
        }
    }
}

// Holds what stands at TARGET, while it is put aside and the copy is named over it.
fn put_over<D: Disk, K: AllocGlobal + Desk<Disk = D>>(
    desk: &mut K,
    place: &ResultPlace,
    disk: D,
    force: bool,
) -> Result<Option<u32>, Unrestored>
    requires new { string_bytes place.now.new ≡ new_of (string_bytes place.now.target) }
    requires over { place.now.over ≡ true }
    ensures { (file : List ℕ) (was : List (DeskDeed D))
        → IsBegunArchive file (string_bytes place.now.target) was (K.deeds desk.old)
        → Ends file disk result was (K.deeds desk.new) }
{
    match desk.open(&place.target, Access::Change) {
        Ok(mut held) => {
            let outcome = put_over_held(desk, place, disk, force, &mut held);
            desk.close(&place.target, held);
            outcome
        }
        Err(fault) => {
            leave_archive(desk, place, disk);
            Err(Unrestored::Unheld(fault))
        }
    }
}

fn put_over_held<D: Disk, K: AllocGlobal + Desk<Disk = D>>(
    desk: &mut K,
    place: &ResultPlace,
    disk: D,
    force: bool,
    held: &mut D,
) -> Result<Option<u32>, Unrestored>
    requires new { string_bytes place.now.new ≡ new_of (string_bytes place.now.target) }
    requires over { place.now.over ≡ true }
    ensures { (file : List ℕ) (was : List (DeskDeed D))
        → HoldsArchive file (string_bytes place.now.target) was (K.deeds desk.old)
        → Ends file disk result was (K.deeds desk.new) }
{
    match replaceable(desk, &place.target, force, held) {
        Ok(()) => put_in_place(desk, place, disk),
        Err(why) => {
            leave_archive(desk, place, disk);
            Err(why)
        }
    }
}

// That what is held is an archive, or empty, or there is leave to put it aside.
fn replaceable<D: Disk, K: Desk<Disk = D>>(
    desk: &mut K,
    target: &String,
    force: bool,
    held: &mut D,
) -> Result<(), Unrestored>
    ensures { (file : List ℕ) (was : List (DeskDeed D))
        → HoldsArchive file (string_bytes target.now) was (K.deeds desk.old)
        → HoldsArchive file (string_bytes target.now) was (K.deeds desk.new) }
{
    if force {
        return Ok(());
    }
    match held.len() {
        Ok(0) => Ok(()),
        Ok(_) => begins_as_archive(desk, target),
        Err(_) => Err(Unrestored::Unheld(DeskFault::Device)),
    }
}

fn begins_as_archive<K: Desk>(desk: &mut K, target: &String) -> Result<(), Unrestored>
    ensures { (file : List ℕ) (was : List (DeskDeed K.Disk))
        → HoldsArchive file (string_bytes target.now) was (K.deeds desk.old)
        → HoldsArchive file (string_bytes target.now) was (K.deeds desk.new) }
{
    let begins = desk.begins(target, ARCHIVE_HEAD);
    match begins {
        Ok(true) => Ok(()),
        Ok(false) => Err(Unrestored::NoArchive),
        Err(fault) => Err(Unrestored::Unheld(fault)),
    }
}

fn put_in_place<D: Disk, K: AllocGlobal + Desk<Disk = D>>(
    desk: &mut K,
    place: &ResultPlace,
    disk: D,
) -> Result<Option<u32>, Unrestored>
    requires new { string_bytes place.now.new ≡ new_of (string_bytes place.now.target) }
    requires over { place.now.over ≡ true }
    ensures { (file : List ℕ) (was : List (DeskDeed D))
        → HoldsArchive file (string_bytes place.now.target) was (K.deeds desk.old)
        → Ends file disk result was (K.deeds desk.new) }
{
    match put_aside(desk, &place.target) {
        Ok(number) => {
            desk.close(&place.new, disk);
            match finish_result(desk, place) {
                Ok(()) => Ok(Some(number)),
                Err(why) => Err(Unrestored::Unnamed(why)),
            }
        }
        Err(fault) => {
            leave_archive(desk, place, disk);
            Err(Unrestored::NotAside(fault))
        }
    }
}

// Prints how much the archive holds now, and where the one that was there is.
fn print_restored<C: Console, E: Write>(
    alloc: Global,
    standard: &mut StandardStreams<C, E>,
    file: &String,
    restored: Restored,
) -> u8
    ensures { PrintsOrNot (streams_in C.Console standard.old.console standard.new.console)
        (restored_bytes (string_bytes file.now) restored) result }
{
    match restored_lines(alloc, file, restored) {
        Ok(lines) => print(standard, lines.as_slice()),
        Err(_) => {
            say(
                &mut standard.errors,
                file.as_str(),
                "it is restored, and there is no memory to say more",
            );
            REFUSED
        }
    }
}

fn restored_lines(alloc: Global, file: &String, restored: Restored) -> Result<Vec<u8>, AllocError>
    ensures { IfOk result (λ lines. lines.items
        ≡ restored_bytes (string_bytes file.now) restored) }
{
    let Restored {
        counts: Counts {
            layout,
            tunes,
            sets,
        },
        aside,
    } = restored;
    let mut lines = Vec::new(alloc);
    write!(lines, "layout {layout} tunes {tunes} sets {sets}\n").map_err(|_| AllocError)?;
    with_aside(lines, file, aside)
}

fn with_aside(mut lines: Vec<u8>, file: &String, aside: Option<u32>) -> Result<Vec<u8>, AllocError>
    ensures { IfOk result (λ all. all.items
        ≡ lines.items ++ aside_told (string_bytes file.now) aside) }
{
    match aside {
        Some(number) => {
            write!(
                lines,
                "the archive that was there is {file}.{number}.old now\n"
            )
            .map_err(|_| AllocError)?;
            Ok(lines)
        }
        None => Ok(lines),
    }
}
