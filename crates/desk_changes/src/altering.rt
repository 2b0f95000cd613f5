// Orders that change tunes or set lists of FILE.
ghost use Rattle.std.specs.Prelude.{◌≡◌, None, false, Ok, string_bytes};
ghost use Rattle.tune_pages.specs.Kept.{HonestAt};
ghost use Rattle.tune_archive.specs.Shelf.{state_of};
ghost use Rattle.tune_changes.specs.Planning.{planned_by};
ghost use Rattle.tune_desk.specs.Results.{SparesFiles, result_places};
ghost use Rattle.desk_changes.specs.ChangedFiles.{ChangesFile};
ghost use Rattle.desk_changes.specs.Inside.Turning.{Alters, AltersFile};
ghost use Rattle.desk_changes.specs.Kinds.{kind_of_alteration};

use crate::held_tunes::held_number;
use crate::turning::carry;
use crate::words::{Unchanged, say_unchanged};
use desk_scenes::{DONE, open_once};
use desk_terms::Alteration;
use std::io::Write;
use tune_archive::Archive;
use tune_changes::planned;
use tune_desk::Desk;
use tune_disk::{Access, Disk};
use tune_store::{Catalog, Refusal};
use tune_undo::EntryKind;

/// Changes what FILE holds, and gives the status: 0 done; 1 refused, or a device failed; 3 no
/// archive, or a damaged one. What is wrong is said to `errors`.
pub fn alter<E: Write, D: Disk, K: AllocGlobal + Desk<Disk = D>>(
    desk: &mut K,
    file: &String,
    change: &Alteration,
    errors: &mut E,
) -> u8
    ensures files { SparesFiles (result_places (string_bytes file.now) None false)
        (K.deeds desk.old) (K.deeds desk.new) }
    ensures changes { ChangesFile D.Disk (string_bytes file.now) (kind_of_alteration change.now)
        (λ state turns. planned_by change.now state ≡ Ok turns) (record {
          was = K.deeds desk.old;
          now = K.deeds desk.new;
          status = result;
        }) }
{
    let done = alter_file(desk, file, change);
    match done {
        Ok(()) => DONE,
        Err(why) => say_unchanged(errors, file.as_str(), subject(change), &why),
    }
}

fn alter_file<D: Disk, K: AllocGlobal + Desk<Disk = D>>(
    desk: &mut K,
    file: &String,
    change: &Alteration,
) -> Result<(), Unchanged>
    ensures files { SparesFiles (result_places (string_bytes file.now) None false)
        (K.deeds desk.old) (K.deeds desk.new) }
    ensures alters { AltersFile D.Disk (string_bytes file.now) (kind_of_alteration change.now)
        (λ state turns. planned_by change.now state ≡ Ok turns) result (record {
          was = K.deeds desk.old;
          now = K.deeds desk.new;
        }) }
{
    match open_once(desk, file, Access::Change) {
        Err(why) => Err(Unchanged::Unopened(why)),
        Ok(mut archive) => {
            // For the proof.
            archive.law_of_sets();
            let done = alter_archive(desk, file, &mut archive, change);
            desk.close(file, archive.into_disk());
            done
        }
    }
}

// Looks first; then keeps what the turns take away, and brings them about.
fn alter_archive<D: Disk, K: AllocGlobal + Desk<Disk = D>>(
    desk: &mut K,
    file: &String,
    archive: &mut Archive<D>,
    change: &Alteration,
) -> Result<(), Unchanged>
    ensures files { SparesFiles (result_places (string_bytes file.now) None false)
        (K.deeds desk.old) (K.deeds desk.new) }
    ensures alters { archive.old.closed ≡ false
        → (HonestAt D.honest archive.old.pages.disk
        → archive.old.contents.sets ≡ (state_of D.state archive.old).sets)
        → Alters D.Disk (string_bytes file.now) (kind_of_alteration change.now)
        (λ state turns. planned_by change.now state ≡ Ok turns) result (record {
          start = archive.old;
          finish = archive.new;
          was = K.deeds desk.old;
          now = K.deeds desk.new;
        }) }
{
    match planned(desk.alloc(), archive, change) {
        Ok(turns) => carry(desk, file, archive, kind_of(change), turns.as_slice()),
        Err(refusal) => Err(why_unchanged(archive, change, refusal)),
    }
}

// With the tune that a set list has, where that is why.
fn why_unchanged<D: Disk>(
    archive: &Archive<D>,
    change: &Alteration,
    refusal: Refusal,
) -> Unchanged {
    let Alteration::Delete(numbers) = change else {
        return Unchanged::Refused(refusal);
    };
    let Refusal::InSet { name } = refusal else {
        return Unchanged::Refused(refusal);
    };
    match held_number(archive.sets().as_slice(), &name, numbers.as_slice()) {
        Some(number) => Unchanged::Held(number, name),
        None => Unchanged::Refused(refusal),
    }
}

fn kind_of(change: &Alteration) -> EntryKind
    ensures { result ≡ kind_of_alteration change.now }
{
    match change {
        Alteration::Delete(_) => EntryKind::Delete,
        Alteration::Put { .. } => EntryKind::Put,
        Alteration::Cut { .. } => EntryKind::Cut,
        Alteration::Move { .. } => EntryKind::Move,
        Alteration::Drop(_) => EntryKind::Drop,
    }
}

// What a refusal is about.
fn subject(change: &Alteration) -> &str {
    match change {
        Alteration::Delete(_) => "delete",
        Alteration::Put { name, numbers: _ } => name.as_str(),
        Alteration::Cut { name, places: _ } => name.as_str(),
        Alteration::Move {
            name,
            place: _,
            to: _,
        } => name.as_str(),
        Alteration::Drop(name) => name.as_str(),
    }
}
