// FILE, brought to layout 2.
ghost use Rattle.std.specs.Prelude.{◌≡◌, ◌≢◌, true, None, false, string_bytes, IfOk};
ghost use Rattle.tune_pages.specs.Kept.{HonestAt};
ghost use Rattle.tune_store.specs.declared.layout.Layout.TheVariants.{Two};
ghost use Rattle.tune_archive.specs.Shelf.{state_of};
ghost use Rattle.tune_desk.specs.Results.{SparesFiles, result_places};
ghost use Rattle.tune_scripts.specs.Streams.{streams_in};
ghost use Rattle.desk_loads.specs.Inside.LayoutChanges.{UpgradesBy, UpgradesFile};
ghost use Rattle.desk_loads.specs.Upgraded.{AnswersUpgrade, Upgrades};

use desk_scenes::{
    REFUSED, StandardStreams, Unanswered, open_once, print, say_refusal, say_unopened_to_change,
};
use std::io::Write;
use tune_archive::{Archive, TuneStore};
use tune_desk::Desk;
use tune_disk::{Access, Disk};
use tune_scripts::Console;
use tune_store::{Command, Refusal, Reply};

/// Since when an archive is of layout 2.
#[derive(Clone, Copy)]
pub(crate) enum LayoutTwo {
    /// It was of it before.
    Already,
    /// It was brought to it.
    Now,
}

/// Brings FILE to layout 2, prints that it is, and gives the status: 0; 1 refused, or a device
/// failed; 3 no archive, or a damaged one. That there is no way back but a copy is said to `errors`
/// before.
pub fn upgrade<C: Console, E: Write, D: Disk, K: AllocGlobal + Desk<Disk = D>>(
    desk: &mut K,
    file: &String,
    standard: &mut StandardStreams<C, E>,
) -> u8
    ensures files { SparesFiles (result_places (string_bytes file.now) None false)
        (K.deeds desk.old) (K.deeds desk.new) }
    ensures upgrades { Upgrades D.Disk (string_bytes file.now) (record {
      streams = streams_in C.Console standard.old.console standard.new.console;
      was = K.deeds desk.old;
      now = K.deeds desk.new;
      status = result;
    }) }
{
    match upgrade_file(desk, file, &mut standard.errors) {
        Ok(LayoutTwo::Already) => print(
            standard,
            b"it is of layout 2 already, and stays as it is\n",
        ),
        Ok(LayoutTwo::Now) => print(standard, b"it is of layout 2 now\n"),
        Err(why) => say_not_upgraded(&mut standard.errors, file.as_str(), &why),
    }
}

fn upgrade_file<E: Write, D: Disk, K: AllocGlobal + Desk<Disk = D>>(
    desk: &mut K,
    file: &String,
    errors: &mut E,
) -> Result<LayoutTwo, Unanswered>
    ensures files { SparesFiles (result_places (string_bytes file.now) None false)
        (K.deeds desk.old) (K.deeds desk.new) }
    ensures upgrades { UpgradesFile D.Disk (string_bytes file.now) result
        (K.deeds desk.old) (K.deeds desk.new) }
{
    match open_once(desk, file, Access::Change) {
        Err(why) => Err(Unanswered::Unopened(why)),
        Ok(mut archive) => {
            let done = upgrade_archive(&mut archive, errors);
            desk.close(file, archive.into_disk());
            match done {
                Ok(since) => Ok(since),
                Err(refusal) => Err(Unanswered::Refused(refusal)),
            }
        }
    }
}

// Looks first; then asks for the upgrade, where it is needed.
fn upgrade_archive<E: Write, D: Disk>(
    archive: &mut Archive<D>,
    errors: &mut E,
) -> Result<LayoutTwo, Refusal>
    ensures { UpgradesBy D.Disk result archive.old archive.new }
{
    if is_of_two(archive) {
        return Ok(LayoutTwo::Already);
    }
    say_no_way_back(errors);
    match ask_upgrade(archive) {
        Ok(reply) => {
            drop(reply);
            Ok(LayoutTwo::Now)
        }
        Err(refusal) => Err(refusal),
    }
}

fn ask_upgrade<D: Disk>(archive: &mut Archive<D>) -> Result<Reply, Refusal>
    ensures answers { AnswersUpgrade D.Disk result archive.old archive.new }
    ensures closes { IfOk result (λ _. archive.new.closed ≡ false) }
{
    archive.apply(&Command::Upgrade)
}

// Whether an archive is known to be of layout 2.
fn is_of_two<D: Disk>(archive: &Archive<D>) -> bool
    ensures { result ≡ true → HonestAt D.honest archive.now.pages.disk
        → (state_of D.state archive.now).layout ≡ Two }
{
    match archive.counts() {
        Ok(counts) => counts.layout == 2,
        Err(_) => false,
    }
}

fn say_no_way_back<E: Write>(errors: &mut E) {
    let _ = errors.write_all(
        b"tunes-book: there is no way back from layout 2 but a copy, and programs that know layout \
          1 alone\ncannot open the archive then; `tunes-book backup COPY` makes a copy, \
          `tunes-book restore COPY` puts\nit back\n",
    );
    let _ = errors.flush();
}

// Says why FILE was not brought to layout 2, and gives the status.
fn say_not_upgraded<E: Write>(errors: &mut E, file: &str, why: &Unanswered) -> u8
    ensures { result ≢ 0 }
{
    match why {
        Unanswered::Unopened(why) => say_unopened_to_change(errors, file, *why),
        Unanswered::Refused(refusal) => {
            say_refusal(errors, file, "upgrade", refusal);
            let _ = errors.write_all(
                b"tunes-book: all of it is there, in layout 1 or 2; `tunes-book check` tells in \
                  which\n",
            );
            let _ = errors.flush();
            REFUSED
        }
    }
}
