// The order that takes changes back.
ghost use Rattle.std.specs.Prelude.{◌≡◌, ◌<◌, ◌||◌, IfOk, IfErr, MatchResult, Err, None};
ghost use Rattle.std.specs.Prelude.{true, false};
ghost use Rattle.std.specs.Prelude.{length, string_bytes};
ghost use Rattle.std.specs.List.{list_any};
ghost use Rattle.tune_archive.specs.AsStore.{store_on};
ghost use Rattle.tune_asking.specs.Asking.{IsOnlyAsked};
ghost use Rattle.tune_changes.specs.Judging.{verdict_on};
ghost use Rattle.tune_changes.specs.declared.judging.Verdict.TheVariants.{Before};
ghost use Rattle.tune_desk.specs.declared.desk.DeskFault.TheVariants.{Missing};
ghost use Rattle.tune_desk.specs.Results.{SparesFiles, result_places};
ghost use Rattle.tune_scripts.specs.Streams.{streams_in};
ghost use Rattle.tune_undo.specs.OldEntries.{entry_value, step_value};
ghost use Rattle.desk_scenes.specs.Scenes.{IsQuiet};
ghost use Rattle.desk_changes.specs.Inside.HeldTunes.{holds_back};
ghost use Rattle.desk_changes.specs.Inside.TriedUndoings.{AreStanding, EndsFrom, FindsSteps};
ghost use Rattle.desk_changes.specs.Inside.TriedUndoings.{FinishesEntry, TriesEntry};
ghost use Rattle.desk_changes.specs.Inside.TriedUndoings.{TriesEntries, TriesChange, TriesTimes};
ghost use Rattle.desk_changes.specs.Inside.TriedUndoings.{TriesByBook, TriesWithin, steps_of};
ghost use Rattle.desk_changes.specs.declared.words.NotUndone.TheVariants.{NoBook};
ghost use Rattle.desk_changes.specs.ToldChanges.{LacksBook};
ghost use Rattle.desk_changes.specs.OldChanges.{ReadsSteps, is_further};
ghost use Rattle.desk_changes.specs.TakenBack.{AreUnchanged, BeginsUndoing, IsUnchanged, KeepsGone};
ghost use Rattle.desk_changes.specs.TakenBack.{Stood};
ghost use Rattle.desk_changes.specs.TakenBack.{IsBeginning, KeepsTextsOrNot, MarksOrNot};
ghost use Rattle.desk_changes.specs.TakenBack.{RenumbersOne};
ghost use Rattle.desk_changes.specs.Undone.{Undoes, UndoesFile};
ghost use Rattle.desk_changes.specs.Inside.Works.{WorksBeside};

use crate::change_lists::list_changes;
use crate::held_tunes::spare_held;
use crate::telling::tell_undone;
use crate::undone::{greatest_number, number_stray, restore, taken_by};
use crate::words::{NotUndone, say_not_undone};
use abc_fields::ByteText;
use desk_scenes::{StandardStreams, keep_entry, keep_mark, open_once, print};
use desk_terms::Undoing;
use std::alloc::{AllocError, Global};
use std::io::Write;
use tune_archive::Archive;
use tune_changes::{Verdict, judged};
use tune_desk::{Desk, DeskFault};
use tune_disk::{Access, Disk};
use tune_scripts::Console;
use tune_store::{Catalog, TuneStore};
use tune_undo::{Entry, EntryKind, Mark, Part, Step, make_ready, standing_steps};

/// Takes the last changes of FILE back, or lists those that can be, and gives the status. What was
/// taken back is printed.
pub fn undo<C: Console, E: Write, D: Disk, K: AllocGlobal + Desk<Disk = D>>(
    desk: &mut K,
    file: &String,
    undoing: &Undoing,
    standard: &mut StandardStreams<C, E>,
) -> u8
    ensures files { SparesFiles (result_places (string_bytes file.now) None false)
        (K.deeds desk.old) (K.deeds desk.new) }
    ensures undoes { Undoes D.Disk (string_bytes file.now) undoing.now (record {
      streams = streams_in C.Console standard.old.console standard.new.console;
      was = K.deeds desk.old;
      now = K.deeds desk.new;
      status = result;
    }) }
{
    match undoing {
        Undoing::Last => undo_some(desk, file, 1, standard),
        Undoing::To(count) => undo_some(desk, file, *count, standard),
        Undoing::List(form) => list_changes(desk, file, *form, standard),
    }
}

fn undo_some<C: Console, E: Write, D: Disk, K: AllocGlobal + Desk<Disk = D>>(
    desk: &mut K,
    file: &String,
    count: u32,
    standard: &mut StandardStreams<C, E>,
) -> u8
    ensures files { SparesFiles (result_places (string_bytes file.now) None false)
        (K.deeds desk.old) (K.deeds desk.new) }
    ensures undoes { UndoesFile D.Disk (string_bytes file.now) count (record {
      streams = streams_in C.Console standard.old.console standard.new.console;
      was = K.deeds desk.old;
      now = K.deeds desk.new;
      status = result;
    }) }
{
    let mut told = Vec::new(desk.alloc());
    let done = undo_in_file(desk, file, count, &mut told);
    let printed = print(standard, told.as_slice());
    match done {
        Ok(()) => printed,
        Err(why) => say_not_undone(&mut standard.errors, file.as_str(), &why),
    }
}

fn undo_in_file<D: Disk, K: AllocGlobal + Desk<Disk = D>>(
    desk: &mut K,
    file: &String,
    count: u32,
    told: &mut Vec<u8>,
) -> Result<(), NotUndone>
    ensures files { SparesFiles (result_places (string_bytes file.now) None false)
        (K.deeds desk.old) (K.deeds desk.new) }
    ensures undoes { TriesWithin D.Disk (string_bytes file.now) count
        (record { was = told.old.items; now = told.new.items }) result
        (record { was = K.deeds desk.old; now = K.deeds desk.new }) }
{
    match open_once(desk, file, Access::Change) {
        Err(why) => Err(NotUndone::Unopened(why)),
        Ok(mut archive) => {
            let done = undo_in_archive(desk, file, &mut archive, count, told);
            desk.close(file, archive.into_disk());
            done
        }
    }
}

fn undo_in_archive<D: Disk, K: AllocGlobal + Desk<Disk = D>>(
    desk: &mut K,
    file: &String,
    archive: &mut Archive<D>,
    count: u32,
    told: &mut Vec<u8>,
) -> Result<(), NotUndone>
    ensures works { WorksBeside D.Disk (string_bytes file.now) (record {
      start = archive.old;
      finish = archive.new;
      was = K.deeds desk.old;
      now = K.deeds desk.new;
    }) }
    ensures undoes { TriesByBook D.Disk (string_bytes file.now) count
        (record { was = told.old.items; now = told.new.items }) result
        (record {
          start = archive.old;
          finish = archive.new;
          was = K.deeds desk.old;
          now = K.deeds desk.new;
        }) }
{
    let changes = read_changes(desk, file)?;
    let last = LastChanges {
        changes: changes.as_slice(),
        count,
    };
    undo_times(desk, file, archive, last, told)
}

// The entries of the book of old texts that are not undone.
pub(crate) fn read_changes<K: AllocGlobal + Desk>(
    desk: &mut K,
    file: &String,
) -> Result<Vec<Step>, NotUndone>
    ensures reads { MatchResult result
        (λ steps. ReadsSteps (string_bytes file.now) (steps_of steps.items)
        (K.deeds desk.old) (K.deeds desk.new))
        (λ _. IsQuiet (K.deeds desk.old) (K.deeds desk.new)) }
    ensures lacks { IfErr result (λ why. why ≡ NoBook
        → LacksBook (string_bytes file.now) (K.deeds desk.old) (K.deeds desk.new)) }
{
    let Ok(old) = format!(in desk.alloc(); "{file}.old.abc") else {
        return Err(NotUndone::OutOfMemory);
    };
    let book = desk.read(desk.alloc(), &old);
    steps_in(desk.alloc(), book)
}

// Those of a book, which is read as it is once its last line is ended.
fn steps_in(alloc: Global, book: Result<ByteText, DeskFault>) -> Result<Vec<Step>, NotUndone>
    ensures finds { IfOk result (λ steps. FindsSteps book (steps_of steps.items)) }
    ensures lacks { IfErr result (λ why. why ≡ NoBook → book ≡ Err Missing) }
{
    match book {
        Ok(book) => match steps_of(alloc, book) {
            Ok(steps) => Ok(steps),
            Err(_) => Err(NotUndone::OutOfMemory),
        },
        Err(DeskFault::Missing) => Err(NotUndone::NoBook),
        Err(fault) => Err(NotUndone::Unread(fault)),
    }
}

fn steps_of(alloc: Global, book: ByteText) -> Result<Vec<Step>, AllocError>
    ensures { IfOk result (λ steps. AreStanding book (steps_of steps.items)) }
{
    let mut bytes = book.into_vec();
    make_ready(&mut bytes)?;
    standing_steps(alloc, bytes.as_slice())
}

// Changes, by their entries, and how many of them, from the last one back, are to be undone.
#[derive(Clone, Copy)]
struct LastChanges<'a> {
    changes: &'a [Step],
    count: u32,
}

// Undoes the last of these changes, and those before it, until as many took place as are to be.
fn undo_times<D: Disk, K: AllocGlobal + Desk<Disk = D>>(
    desk: &mut K,
    file: &String,
    archive: &mut Archive<D>,
    last: LastChanges,
    told: &mut Vec<u8>,
) -> Result<(), NotUndone>
    ensures works { WorksBeside D.Disk (string_bytes file.now) (record {
      start = archive.old;
      finish = archive.new;
      was = K.deeds desk.old;
      now = K.deeds desk.new;
    }) }
    ensures undoes { TriesTimes D.Disk (string_bytes file.now)
        (record {
          count = last.entry.count;
          told = record { was = told.old.items; now = told.new.items };
        })
        (steps_of last.entry.changes.now) result
        (record {
          start = archive.old;
          finish = archive.new;
          was = K.deeds desk.old;
          now = K.deeds desk.new;
        }) }
{
    let LastChanges { changes, count } = last;
    let mut left = changes.len();
    let mut wanted = count;
    while wanted > 0 {
        if left == 0 {
            return Err(NotUndone::NothingLeft);
        }
        let first = first_of(&changes[..left]);
        let took_place = undo_change(desk, file, archive, &changes[first..left], told)?;
        if took_place {
            wanted -= 1;
        }
        left = first;
    }
    Ok(())
}

// Where the change begins whose last entry is the last of these.
pub(crate) fn first_of(changes: &[Step]) -> usize
    ensures before { 0 < length changes.now → result < length changes.now }
    ensures ends { 0 < length changes.now → EndsFrom result changes.now }
{
    let mut first = changes.len();
    while first > 0 {
        first -= 1;
        if !is_further(changes[first].entry.kind) {
            return first;
        }
    }
    first
}

fn is_further(kind: EntryKind) -> bool
    ensures { result ≡ is_further kind }
{
    matches!(kind, EntryKind::AddMore)
}

// Takes a change back, whose entries these are, the last first; unless one of its tunes or set
// lists was changed since, or a set list has a tune that it brought: then nothing is done. Whether
// there was something to be taken back.
fn undo_change<D: Disk, K: AllocGlobal + Desk<Disk = D>>(
    desk: &mut K,
    file: &String,
    archive: &mut Archive<D>,
    changes: &[Step],
    told: &mut Vec<u8>,
) -> Result<bool, NotUndone>
    ensures works { WorksBeside D.Disk (string_bytes file.now) (record {
      start = archive.old;
      finish = archive.new;
      was = K.deeds desk.old;
      now = K.deeds desk.new;
    }) }
    ensures undoes { TriesChange D.Disk (string_bytes file.now) (steps_of changes.now)
        (record { was = told.old.items; now = told.new.items }) result
        (record {
          start = archive.old;
          finish = archive.new;
          was = K.deeds desk.old;
          now = K.deeds desk.new;
        }) }
{
    look_at(desk.alloc(), archive, changes)?;
    undo_entries(desk, file, archive, changes, told)
}

// Refused where a tune or a set list of these entries was changed since, or a set list has a tune
// that they brought.
fn look_at<S: TuneStore + Catalog>(
    alloc: Global,
    store: &mut S,
    changes: &[Step],
) -> Result<(), NotUndone>
    ensures asked { IsOnlyAsked S.TuneStore store.old store.new }
    ensures stands { IfOk result
        (λ _. Stood S.TuneStore store.old store.new (AreUnchanged (steps_of changes.now))) }
    ensures free { IfOk result
        (λ _. list_any (holds_back (steps_of changes.now)) (S.Catalog.sets store.new) ≡ false) }
{
    for change in changes {
        look_at_entry(alloc, store, &change.entry)?;
    }
    Ok(spare_held(store.sets().as_slice(), changes)?)
}

// How the parts of an entry stand; refused where one was changed since.
fn look_at_entry<S: TuneStore>(
    alloc: Global,
    store: &mut S,
    entry: &Entry,
) -> Result<Verdict, NotUndone>
    ensures asked { IsOnlyAsked S.TuneStore store.old store.new }
    ensures stands { IfOk result
        (λ _. Stood S.TuneStore store.old store.new (IsUnchanged entry.now.parts.items)) }
    ensures judges { IfOk result (λ verdict. Stood S.TuneStore store.old store.new
        (λ state. verdict_on entry.now.parts.items state ≡ verdict)) }
{
    let standing = judged(alloc, store, entry)?;
    match standing {
        Verdict::Changed(place) => Err(changed_part(entry, place)),
        Verdict::Before => Ok(standing),
        Verdict::Begun => Ok(standing),
    }
}

// Takes entries back, the last first. Whether there was something to be taken back.
fn undo_entries<D: Disk, K: AllocGlobal + Desk<Disk = D>>(
    desk: &mut K,
    file: &String,
    archive: &mut Archive<D>,
    changes: &[Step],
    told: &mut Vec<u8>,
) -> Result<bool, NotUndone>
    ensures works { WorksBeside D.Disk (string_bytes file.now) (record {
      start = archive.old;
      finish = archive.new;
      was = K.deeds desk.old;
      now = K.deeds desk.new;
    }) }
    ensures undoes { TriesEntries D.Disk (string_bytes file.now) (steps_of changes.now)
        (record { was = told.old.items; now = told.new.items }) result
        (record {
          start = archive.old;
          finish = archive.new;
          was = K.deeds desk.old;
          now = K.deeds desk.new;
        }) }
{
    let mut took_place = false;
    let mut left = changes.len();
    while left > 0 {
        left -= 1;
        let its = undo_entry(desk, file, archive, &changes[left], told)?;
        took_place = is_either(took_place, its);
    }
    Ok(took_place)
}

fn is_either(one: bool, other: bool) -> bool
    ensures { result ≡ (one || other) }
{
    one || other
}

// Takes back what one entry says. Whether there was something to be taken back.
fn undo_entry<D: Disk, K: AllocGlobal + Desk<Disk = D>>(
    desk: &mut K,
    file: &String,
    archive: &mut Archive<D>,
    change: &Step,
    told: &mut Vec<u8>,
) -> Result<bool, NotUndone>
    ensures works { WorksBeside D.Disk (string_bytes file.now) (record {
      start = archive.old;
      finish = archive.new;
      was = K.deeds desk.old;
      now = K.deeds desk.new;
    }) }
    ensures undoes { TriesEntry D.Disk (string_bytes file.now) (step_value change.now)
        (record { was = told.old.items; now = told.new.items }) result
        (record {
          start = archive.old;
          finish = archive.new;
          was = K.deeds desk.old;
          now = K.deeds desk.new;
        }) }
{
    let standing = look_at_entry(desk.alloc(), archive, &change.entry)?;
    if is_done(standing, change) {
        keep_mark(desk, file, Mark::Undone)?;
        return Ok(false);
    }
    keep_taken(desk, file, archive, &change.entry)?;
    begin_undoing(desk, file, archive, change)?;
    finish_undoing(desk, file, archive, &change.entry, told)?;
    Ok(true)
}

// Whether all is as it was, and no stop left a tune on its way.
fn is_done(standing: Verdict, change: &Step) -> bool
    ensures { result ≡ true → (standing ≡ Before) × (change.now.begun ≡ None) }
{
    match (standing, change.begun) {
        (Verdict::Before, None) => true,
        _ => false,
    }
}

// Keeps the texts that are taken away by it.
fn keep_taken<D: Disk, K: AllocGlobal + Desk<Disk = D>>(
    desk: &mut K,
    file: &String,
    archive: &mut Archive<D>,
    entry: &Entry,
) -> Result<(), NotUndone>
    ensures works { WorksBeside D.Disk (string_bytes file.now) (record {
      start = archive.old;
      finish = archive.new;
      was = K.deeds desk.old;
      now = K.deeds desk.new;
    }) }
    ensures keeps { IfOk result (λ _. KeepsGone D.Disk (string_bytes file.now)
        entry.now.parts.items (record {
          start = archive.old;
          finish = archive.new;
          was = K.deeds desk.old;
          now = K.deeds desk.new;
        })) }
    ensures book { KeepsTextsOrNot (string_bytes file.now) (K.deeds desk.old) (K.deeds desk.new) }
    ensures asks { IsOnlyAsked (store_on D.Disk) archive.old archive.new }
{
    let kept = taken_by(desk.alloc(), archive, entry)?;
    if kept.parts.is_empty() {
        return Ok(());
    }
    keep_entry(desk, file, &kept)?;
    Ok(())
}

// Marks that an undoing begins; where one was begun before, and a stop left a tune that had come
// back without its number, this gets it.
fn begin_undoing<D: Disk, K: AllocGlobal + Desk<Disk = D>>(
    desk: &mut K,
    file: &String,
    archive: &mut Archive<D>,
    change: &Step,
) -> Result<(), NotUndone>
    ensures works { WorksBeside D.Disk (string_bytes file.now) (record {
      start = archive.old;
      finish = archive.new;
      was = K.deeds desk.old;
      now = K.deeds desk.new;
    }) }
    ensures begins { IfOk result (λ _. BeginsUndoing D.Disk (string_bytes file.now) change.now.begun
        (record {
          start = archive.old;
          finish = archive.new;
          was = K.deeds desk.old;
          now = K.deeds desk.new;
        })) }
    ensures book { MarksOrNot (string_bytes file.now) IsBeginning
        (K.deeds desk.old) (K.deeds desk.new) }
    ensures renumbers { RenumbersOne D.Disk (λ _. Unit {0}) archive.old archive.new }
{
    match change.begun {
        None => {
            let greatest = greatest_number(archive);
            Ok(keep_mark(desk, file, Mark::Undoing(greatest))?)
        }
        Some(greatest) => Ok(number_stray(archive, &change.entry, greatest)?),
    }
}

// Brings everything that an entry is about to what it was, marks that, and tells it.
fn finish_undoing<D: Disk, K: AllocGlobal + Desk<Disk = D>>(
    desk: &mut K,
    file: &String,
    archive: &mut Archive<D>,
    entry: &Entry,
    told: &mut Vec<u8>,
) -> Result<(), NotUndone>
    ensures works { WorksBeside D.Disk (string_bytes file.now) (record {
      start = archive.old;
      finish = archive.new;
      was = K.deeds desk.old;
      now = K.deeds desk.new;
    }) }
    ensures finishes { FinishesEntry D.Disk (string_bytes file.now) (entry_value entry.now)
        (record { was = told.old.items; now = told.new.items }) result
        (record {
          start = archive.old;
          finish = archive.new;
          was = K.deeds desk.old;
          now = K.deeds desk.new;
        }) }
{
    restore(desk.alloc(), archive, entry)?;
    keep_mark(desk, file, Mark::Undone)?;
    tell_undone(archive, entry, told)?;
    Ok(())
}

// The part of an entry that was changed since.
fn changed_part(entry: &Entry, place: usize) -> NotUndone {
    match entry.parts.as_slice().get(place) {
        Some(Part::Tune { number, .. }) => NotUndone::ChangedTune(*number),
        Some(Part::Set { name, .. }) => NotUndone::ChangedSet(*name),
        None => NotUndone::NothingLeft,
    }
}
