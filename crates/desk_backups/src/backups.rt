// The archive, copied.
ghost use Rattle.std.specs.Prelude.{◌≡◌, ◌≢◌, ◌++◌, codes, List, ℕ, Some, IfOk, OnOk, string_bytes};
ghost use Rattle.tune_scripts.specs.Streams.{streams_in};
ghost use Rattle.desk_backups.specs.BackupFiles.{SparesCopies, SparesCopy};
ghost use Rattle.desk_backups.specs.Backups.{Backs, BacksUp, CopiesWhole, TellsCopyName};
ghost use Rattle.desk_backups.specs.CopyNames.{numbered_copy};
ghost use Rattle.desk_backups.specs.Inside.Copying.{SparesSum, SumsWhole};
ghost use Rattle.desk_backups.specs.OldCopies.{ThinsBy};

use crate::backup_reasons::{Unbacked, say_unbacked};
use crate::copy_names::{NamedCopy, find_name};
use crate::file_copies::copy_file;
use crate::old_copies::{AskedThinning, thin_out};
use crate::sums_beside::write_sum;
use desk_scenes::{BAD_WORDS, DONE, Progress, REFUSED, StandardStreams, bring_to_rest, print, say};
use std::alloc::{AllocError, Global};
use std::io::Write;
use tune_desk::Desk;
use tune_disk::Disk;
use tune_scripts::Console;

/// Copies FILE to COPY, checks the copy, and writes its sum to COPY.sha256, as `sha256sum -c` reads
/// it. Where COPY or a COPY.N is there, the copy is COPY.N with the next number, and that is
/// printed. Where it is told how many are to stay, older copies are taken away then. Gives the
/// status.
pub fn backup<C: Console, E: Write + Progress, D: Disk, K: AllocGlobal + Desk<Disk = D>>(
    desk: &mut K,
    file: &String,
    copy: &String,
    keep: Option<u32>,
    standard: &mut StandardStreams<C, E>,
) -> u8
    ensures files { SparesCopies (string_bytes file.now) (string_bytes copy.now) keep
        (K.deeds desk.old) (K.deeds desk.new) }
    ensures backs_up { Backs D.Disk (string_bytes file.now) (string_bytes copy.now) keep (record {
      streams = streams_in C.Console standard.old.console standard.new.console;
      was = K.deeds desk.old;
      now = K.deeds desk.new;
      status = result;
    }) }
{
    if keep == Some(0) {
        say(
            &mut standard.errors,
            "backup",
            "--keep takes a number from 1",
        );
        return BAD_WORDS;
    }
    let asked = AskedBackup { file, copy, keep };
    match back_up(desk, &asked, &mut standard.errors) {
        Ok(named) => tell_name(desk.alloc(), standard, &named),
        Err(why) => say_unbacked(&mut standard.errors, file.as_str(), copy.as_str(), &why),
    }
}

// What is asked for: a copy of FILE at COPY, or behind it, and how many copies stay, if that is.
#[derive(Clone, Copy)]
struct AskedBackup<'a> {
    file: &'a String,
    copy: &'a String,
    keep: Option<u32>,
}

// Copies FILE, once it is at rest.
fn back_up<D: Disk, E: Progress, K: AllocGlobal + Desk<Disk = D>>(
    desk: &mut K,
    asked: &AskedBackup,
    teller: &mut E,
) -> Result<NamedCopy, Unbacked>
    requires { asked.now.keep ≢ Some 0 }
    ensures files { SparesCopies (string_bytes asked.now.file.now)
        (string_bytes asked.now.copy.now) asked.now.keep (K.deeds desk.old) (K.deeds desk.new) }
    ensures backs_up { IfOk result (λ named. let file = string_bytes asked.now.file.now in
        (done : BacksUp D.Disk file (string_bytes asked.now.copy.now) asked.now.keep
        (K.deeds desk.old) (K.deeds desk.new)) × (done.number ≡ named.number)) }
    ensures named { IfOk result (λ named. string_bytes named.path
        ≡ numbered_copy (string_bytes asked.now.copy.now) named.number) }
{
    match bring_to_rest(desk, asked.file) {
        Ok(()) => match find_name(desk, asked.file, asked.copy) {
            Ok(named) => match copy_as(desk, asked, &named, teller) {
                Ok(()) => Ok(named),
                Err(why) => Err(why),
            },
            Err(why) => Err(why),
        },
        Err(why) => Err(Unbacked::Unopened(why)),
    }
}

// Copies FILE to the file that was found, and goes on.
fn copy_as<D: Disk, E: Progress, K: AllocGlobal + Desk<Disk = D>>(
    desk: &mut K,
    asked: &AskedBackup,
    named: &NamedCopy,
    teller: &mut E,
) -> Result<(), Unbacked>
    requires { asked.now.keep ≢ Some 0 }
    ensures spares { let file = string_bytes asked.now.file.now in
        SparesCopy file (string_bytes named.now.path)
        (ThinsBy file (string_bytes asked.now.copy.now) named.now.number asked.now.keep)
        (K.deeds desk.old) (K.deeds desk.new) }
    ensures copies { let file = string_bytes asked.now.file.now in
        OnOk result (CopiesWhole D.Disk file (string_bytes named.now.path)
        (ThinsBy file (string_bytes asked.now.copy.now) named.now.number asked.now.keep)
        (K.deeds desk.old) (K.deeds desk.new)) }
{
    match copy_file(desk, asked.file, &named.path, teller) {
        Ok(copied) => sum_copy(desk, asked, named, &copied.sum),
        Err(why) => Err(why),
    }
}

// Writes the sum of a copy beside it, and then takes old copies away.
fn sum_copy<K: AllocGlobal + Desk>(
    desk: &mut K,
    asked: &AskedBackup,
    named: &NamedCopy,
    sum: &[u8; 32],
) -> Result<(), Unbacked>
    requires { asked.now.keep ≢ Some 0 }
    ensures spares { let file = string_bytes asked.now.file.now in
        SparesSum file (string_bytes named.now.path)
        (ThinsBy file (string_bytes asked.now.copy.now) named.now.number asked.now.keep)
        (K.deeds desk.old) (K.deeds desk.new) }
    ensures sums { let file = string_bytes asked.now.file.now in
        OnOk result (SumsWhole file (string_bytes named.now.path) sum.now
        (ThinsBy file (string_bytes asked.now.copy.now) named.now.number asked.now.keep)
        (K.deeds desk.old) (K.deeds desk.new)) }
{
    match write_sum(desk, asked.file, &named.path, sum) {
        Ok(()) => thin_by(desk, asked, named.number),
        Err(why) => Err(why),
    }
}

// Takes old copies away, where it is told how many are to stay.
fn thin_by<K: AllocGlobal + Desk>(
    desk: &mut K,
    asked: &AskedBackup,
    number: u32,
) -> Result<(), Unbacked>
    requires { asked.now.keep ≢ Some 0 }
    ensures { ThinsBy (string_bytes asked.now.file.now) (string_bytes asked.now.copy.now) number
        asked.now.keep (K.deeds desk.old) (K.deeds desk.new) }
{
    match asked.keep {
        Some(keep) => {
            let thinning = AskedThinning {
                file: asked.file,
                copy: asked.copy,
                newest: number,
                keep,
            };
            thin_out(desk, &thinning)
        }
        None => Ok(()),
    }
}

// Prints which name the copy got, where that is not COPY.
fn tell_name<C: Console, E: Write>(
    alloc: Global,
    standard: &mut StandardStreams<C, E>,
    named: &NamedCopy,
) -> u8
    ensures { (copy : List ℕ) → string_bytes named.now.path ≡ numbered_copy copy named.now.number
        → TellsCopyName copy named.now.number
        (streams_in C.Console standard.old.console standard.new.console) result }
{
    if named.number == 0 {
        return DONE;
    }
    match name_line(alloc, &named.path) {
        Ok(line) => print(standard, line.as_bytes()),
        Err(_) => {
            say(
                &mut standard.errors,
                named.path.as_str(),
                "the copy is made, and there is no memory to say more",
            );
            REFUSED
        }
    }
}

fn name_line(alloc: Global, path: &String) -> Result<String, AllocError>
    ensures { IfOk result (λ line. string_bytes line
        ≡ codes "the copy is " ++ string_bytes path.now ++ codes "\n") }
{
    format!(in alloc; "the copy is {path}\n")
}
