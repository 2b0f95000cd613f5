// Archives that are made of scripts.
ghost use Rattle.std.specs.Prelude.{◌≡◌, None, false, List, ℕ, IfOk, IfErr, MatchResult};
ghost use Rattle.std.specs.Prelude.{string_bytes};
ghost use Rattle.tune_desk.specs.ArchiveFiles.{IsBegunArchive, KeepsEntry, MakesNoneBy};
ghost use Rattle.tune_desk.specs.DeskDeeds.{DeskDeed};
ghost use Rattle.tune_desk.specs.OldTexts.{GrowsNot};
ghost use Rattle.tune_desk.specs.Results.{SparesFiles, new_of, result_places};
ghost use Rattle.tune_scripts.specs.Streams.{streams_in};
ghost use Rattle.desk_scenes.specs.Scenes.{IsQuiet};
ghost use Rattle.desk_loads.specs.LoadedScripts.{HoldsScript, KeepsLoad, Loads, PutsScript};
ghost use Rattle.desk_loads.specs.LoadedScripts.{ReadsScript};

use crate::filling::{Filled, Filling, Unfilled, fill_disk};
use crate::load_reasons::{say_script_unread, say_unloaded};
use abc_fields::ByteText;
use desk_copies::{begin_archive, leave_archive, put_archive};
use desk_scenes::{StandardStreams, keep_entry, print_counts, read_input};
use std::io::Write;
use tune_archive::Counts;
use tune_desk::{
    BegunResult, Desk, DeskFault, OldTextsFault, ResultFault, ResultPlace, ResultRefusal, Standing,
};
use tune_disk::Disk;
use tune_scripts::Console;
use tune_undo::{Entry, EntryKind, Part};

/// Why a script was not loaded.
#[derive(Drop)]
pub(crate) enum Unloaded {
    /// Its file was not made, or not named.
    File(ResultFault),
    /// The archive was not made.
    Unfilled(Unfilled),
    /// The entry of what it holds was not kept.
    Unkept(OldTextsFault),
}

/// Makes an archive of a script, where FILE leads and nothing stands, prints how much it holds, and
/// gives the status: 0; 2 for a folder; and else 1. The script is that of the file at a path, or
/// standard input for `-`. Each of its commands has to be accepted: the first that is refused is
/// said to `errors`, and no archive is made. Before the archive gets its name, an entry of all that
/// it holds is kept in the book of old texts of FILE, by which the load can be taken back.
pub fn load<C: Console, E: Write, D: Disk, K: AllocGlobal + Desk<Disk = D>>(
    desk: &mut K,
    file: &String,
    script: &String,
    standard: &mut StandardStreams<C, E>,
) -> u8
    ensures { Loads D.Disk (string_bytes file.now) (string_bytes script.now) (record {
      streams = streams_in C.Console standard.old.console standard.new.console;
      was = K.deeds desk.old;
      now = K.deeds desk.new;
      status = result;
    }) }
{
    match read_script(desk, script, &mut standard.console) {
        Ok(bytes) => match load_bytes(desk, file, bytes.as_slice()) {
            Ok(counts) => print_counts(desk.alloc(), standard, counts),
            Err(why) => say_unloaded(&mut standard.errors, file.as_str(), script.as_str(), &why),
        },
        Err(fault) => say_script_unread(&mut standard.errors, script.as_str(), fault),
    }
}

// The bytes of a script.
fn read_script<C: Console, K: AllocGlobal + Desk>(
    desk: &mut K,
    script: &String,
    console: &mut C,
) -> Result<ByteText, DeskFault>
    ensures reads { MatchResult result
        (λ bytes. ReadsScript (string_bytes script.now) bytes
        (streams_in C.Console console.old console.new) (K.deeds desk.old) (K.deeds desk.new))
        (λ _. (file : List ℕ)
        → MakesNoneBy KeepsEntry file (K.deeds desk.old) (K.deeds desk.new)) }
    ensures output { C.output console.new ≡ C.output console.old }
{
    if script.as_str() == "-" {
        return match read_input(desk.alloc(), console) {
            Some(bytes) => Ok(ByteText::from_vec(bytes)),
            None => Err(DeskFault::Device),
        };
    }
    desk.read(desk.alloc(), script)
}

// Puts the archive of a script where FILE leads.
fn load_bytes<D: Disk, K: AllocGlobal + Desk<Disk = D>>(
    desk: &mut K,
    file: &String,
    script: &[u8],
) -> Result<Counts, Unloaded>
    ensures { MatchResult result
        (λ counts. PutsScript D.Disk (string_bytes file.now) script.now counts
        (K.deeds desk.old) (K.deeds desk.new))
        (λ _. MakesNoneBy KeepsEntry (string_bytes file.now)
        (K.deeds desk.old) (K.deeds desk.new)) }
{
    match begin_archive(desk, file, false) {
        Ok(begun) => fill_new(desk, file, begun, script),
        Err(fault) => Err(Unloaded::File(fault)),
    }
}

// Fills the archive of a disk that was begun, and puts it in its place.
fn fill_new<D: Disk, K: AllocGlobal + Desk<Disk = D>>(
    desk: &mut K,
    file: &String,
    begun: BegunResult<D>,
    script: &[u8],
) -> Result<Counts, Unloaded>
    requires { string_bytes begun.place.new ≡ new_of (string_bytes begun.place.target) }
    ensures { (was : List (DeskDeed D))
        → IsBegunArchive (string_bytes file.now) (string_bytes begun.place.target) was
        (K.deeds desk.old) → begun.place.over ≡ false → MatchResult result
        (λ counts. PutsScript D.Disk (string_bytes file.now) script.now counts was
        (K.deeds desk.new))
        (λ _. MakesNoneBy KeepsEntry (string_bytes file.now) was (K.deeds desk.new)) }
{
    let BegunResult { place, disk } = begun;
    let Filling { disk, outcome } = fill_disk(desk.alloc(), disk, script);
    match outcome {
        Ok(filled) => put_filled(desk, file, place, disk, filled),
        Err(why) => {
            leave_archive(desk, &place, disk);
            Err(Unloaded::Unfilled(why))
        }
    }
}

// Keeps the entry of an archive that was filled, and puts it in its place.
fn put_filled<D: Disk, K: AllocGlobal + Desk<Disk = D>>(
    desk: &mut K,
    file: &String,
    place: ResultPlace,
    disk: D,
    filled: Filled,
) -> Result<Counts, Unloaded>
    requires { string_bytes place.new ≡ new_of (string_bytes place.target) }
    ensures { (was : List (DeskDeed D)) (script : List ℕ)
        → IsBegunArchive (string_bytes file.now) (string_bytes place.target) was
        (K.deeds desk.old) → place.over ≡ false
        → (D.honest disk → HoldsScript script (D.state disk).now filled.counts
        filled.parts.items) → MatchResult result
        (λ counts. PutsScript D.Disk (string_bytes file.now) script counts was
        (K.deeds desk.new))
        (λ _. MakesNoneBy KeepsEntry (string_bytes file.now) was (K.deeds desk.new)) }
{
    let Filled { counts, parts } = filled;
    match keep_load(desk, file, &place.target, parts) {
        Ok(()) => match put_archive(desk, &place, disk) {
            Ok(()) => Ok(counts),
            Err(why) => Err(Unloaded::File(ResultFault {
                target: Some(place.target),
                why,
            })),
        },
        Err(why) => {
            leave_archive(desk, &place, disk);
            Err(why)
        }
    }
}

// Keeps the entry of a load of these parts, where there are any; unless something stands at TARGET
// by now: then another program put it there before TARGET.new was made, with an entry of its own.
fn keep_load<K: AllocGlobal + Desk>(
    desk: &mut K,
    file: &String,
    target: &String,
    parts: Vec<Part>,
) -> Result<(), Unloaded>
    ensures files { SparesFiles (result_places (string_bytes file.now) None false)
        (K.deeds desk.old) (K.deeds desk.new) }
    ensures kept { IfOk result (λ _. KeepsLoad (string_bytes file.now) parts.items
        (K.deeds desk.old) (K.deeds desk.new)) }
    ensures refused { IfErr result (λ _. GrowsNot (string_bytes file.now)
        (K.deeds desk.old) (K.deeds desk.new)) }
{
    if parts.is_empty() {
        return Ok(());
    }
    look_again(desk, target)?;
    let entry = Entry {
        kind: EntryKind::Load,
        parts,
    };
    match keep_entry(desk, file, &entry) {
        Ok(()) => Ok(()),
        Err(why) => Err(Unloaded::Unkept(why)),
    }
}

// That nothing stands at TARGET yet.
fn look_again<K: Desk>(desk: &mut K, target: &String) -> Result<(), Unloaded>
    ensures { IsQuiet (K.deeds desk.old) (K.deeds desk.new) }
{
    let why = match desk.look(target) {
        Ok(Standing::Nothing) => return Ok(()),
        Ok(_) => ResultRefusal::Standing,
        Err(fault) => ResultRefusal::Unasked(fault),
    };
    Err(Unloaded::File(ResultFault { target: None, why }))
}
