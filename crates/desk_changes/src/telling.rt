// How it is told what an undoing brought back.
ghost use Rattle.std.specs.Prelude.{◌≡◌, ◌++◌, ◌∷◌, ℕ, List, IfOk, OnOk, codes, decimal};
ghost use Rattle.std.specs.Prelude.{option_copied};
ghost use Rattle.tune_asking.specs.Asking.{IsOnlyAsked};
ghost use Rattle.tune_undo.specs.OldEntries.{entry_value};
ghost use Rattle.desk_changes.specs.ToldUndoings.{added_out, ends_out, out_line, part_back};
ghost use Rattle.desk_changes.specs.ToldUndoings.{part_revised, parts_back, parts_revised};
ghost use Rattle.desk_changes.specs.ToldUndoings.{parts_undone, set_ending, sets_back, tunes_out};
ghost use Rattle.desk_changes.specs.ToldUndoings.{undone_bytes};
ghost use Rattle.desk_changes.specs.ToldChanges.{part_tunes};
ghost use Rattle.desk_changes.specs.Inside.Telling.{TellsOf, span_out};

use crate::words::NotUndone;
use std::alloc::AllocError;
use std::io::Write;
use tune_asking::tune_of;
use tune_sets::NumberList;
use tune_store::TuneStore;
use tune_undo::{Entry, EntryKind, Part};

/// Tells what an undoing brought back.
pub(crate) fn tell_undone<S: TuneStore>(
    store: &mut S,
    entry: &Entry,
    told: &mut Vec<u8>,
) -> Result<(), NotUndone>
    ensures asked { IsOnlyAsked S.TuneStore store.old store.new }
    ensures tells { IfOk result (λ _. TellsOf S.TuneStore store.old store.new
        (record { was = told.old.items; now = told.new.items })
        (undone_bytes (entry_value entry.now))) }
{
    match entry.kind {
        EntryKind::Replace => tell_revisions(store, entry.parts.as_slice(), told),
        kind => Ok(tell_parts(kind, entry.parts.as_slice(), told)?),
    }
}

// Those of an entry of a kind for which the archive is not asked.
fn tell_parts(kind: EntryKind, parts: &[Part], told: &mut Vec<u8>) -> Result<(), AllocError>
    ensures { OnOk result (told.new.items ≡ told.old.items ++ parts_undone kind parts.now) }
{
    match kind {
        EntryKind::Add | EntryKind::AddMore => tell_ends(parts.first(), parts.last(), told),
        EntryKind::Load => tell_loaded(parts, told),
        _ => tell_back(parts, told),
    }
}

// The tunes that were added, and are out again.
fn tell_ends(
    first: Option<&Part>,
    last: Option<&Part>,
    told: &mut Vec<u8>,
) -> Result<(), AllocError>
    ensures { OnOk result (told.new.items ≡ told.old.items
        ++ ends_out (option_copied first.entry) (option_copied last.entry)) }
{
    match (first, last) {
        (Some(Part::Tune { number: first, .. }), Some(Part::Tune { number: last, .. })) => {
            tell_out(*first, *last, told)
        }
        _ => Ok(()),
    }
}

// The set lists of a load, which are gone again, and its tunes, which are out again.
fn tell_loaded(parts: &[Part], told: &mut Vec<u8>) -> Result<(), AllocError>
    ensures { OnOk result (told.new.items ≡ told.old.items
        ++ (sets_back parts.now ++ tunes_out (part_tunes parts.now))) }
{
    let mut span = None;
    for part in parts {
        match part {
            Part::Tune { number, .. } => span = Some(with_tune(span, *number)),
            Part::Set { .. } => tell_part(part, told)?,
        }
    }
    match span {
        Some((first, last)) => tell_out(first, last, told),
        None => Ok(()),
    }
}

// From the first to the last of some tunes, and this one behind them.
fn with_tune(span: Option<(u32, u32)>, number: u32) -> (u32, u32)
    ensures { (tunes : List ℕ) → span_out (Some result) tunes ≡ span_out span (number ∷ tunes) }
{
    match span {
        Some((first, _)) => (first, number),
        None => (number, number),
    }
}

fn tell_out(first: u32, last: u32, told: &mut Vec<u8>) -> Result<(), AllocError>
    ensures { OnOk result (told.new.items ≡ told.old.items ++ out_line first last) }
{
    if first == last {
        write!(told, "tune {first} is out again\n").map_err(|_| AllocError)
    } else {
        write!(told, "tunes {first} to {last} are out again\n").map_err(|_| AllocError)
    }
}

// The tune that has its text again, under another revision.
fn tell_revisions<S: TuneStore>(
    store: &mut S,
    parts: &[Part],
    told: &mut Vec<u8>,
) -> Result<(), NotUndone>
    ensures asked { IsOnlyAsked S.TuneStore store.old store.new }
    ensures tells { IfOk result (λ _. TellsOf S.TuneStore store.old store.new
        (record { was = told.old.items; now = told.new.items }) (parts_revised parts.now)) }
{
    for part in parts {
        tell_revision(store, part, told)?;
    }
    Ok(())
}

fn tell_revision<S: TuneStore>(
    store: &mut S,
    part: &Part,
    told: &mut Vec<u8>,
) -> Result<(), NotUndone>
    ensures asked { IsOnlyAsked S.TuneStore store.old store.new }
    ensures tells { IfOk result (λ _. TellsOf S.TuneStore store.old store.new
        (record { was = told.old.items; now = told.new.items }) (part_revised part.now)) }
{
    match part {
        Part::Tune { number, .. } => {
            let tune = tune_of(store, *number)?;
            Ok(put_revision(*number, tune.revision, told)?)
        }
        Part::Set { .. } => Ok(()),
    }
}

fn put_revision(number: u32, revision: u16, told: &mut Vec<u8>) -> Result<(), AllocError>
    ensures { OnOk result (told.new.items ≡ told.old.items ++ (codes "tune " ++ decimal number
        ++ codes " has revision " ++ decimal revision ++ codes " now\n")) }
{
    write!(told, "tune {number} has revision {revision} now\n").map_err(|_| AllocError)
}

fn tell_back(parts: &[Part], told: &mut Vec<u8>) -> Result<(), AllocError>
    ensures { OnOk result (told.new.items ≡ told.old.items ++ parts_back parts.now) }
{
    for part in parts {
        tell_part(part, told)?;
    }
    Ok(())
}

fn tell_part(part: &Part, told: &mut Vec<u8>) -> Result<(), AllocError>
    ensures { OnOk result (told.new.items ≡ told.old.items ++ part_back part.now) }
{
    match part {
        Part::Tune { number, .. } => {
            write!(told, "tune {number} is there again\n").map_err(|_| AllocError)
        }
        Part::Set { name, was, is: _ } => {
            told.extend_from_slice(name.as_slice())?;
            told.extend_from_slice(set_ending(was))
        }
    }
}

// What a set list is again, by what it was.
fn set_ending(was: &Option<NumberList>) -> &'static [u8]
    ensures { result.now ≡ set_ending was.now }
{
    match was {
        Some(_) => b" is as it was\n",
        None => b" is gone again\n",
    }
}
