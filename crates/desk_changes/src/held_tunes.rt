// Tunes that a change brought, which set lists have since.
ghost use Rattle.std.specs.Prelude.{◌≡◌, false, IfOk};
ghost use Rattle.std.specs.List.{list_any};
ghost use Rattle.desk_changes.specs.Inside.HeldTunes.{brings_set, brings_tune, have_brought};
ghost use Rattle.desk_changes.specs.Inside.HeldTunes.{have_turned, holds_back};
ghost use Rattle.desk_changes.specs.Inside.TriedUndoings.{steps_of};

use crate::words::NotUndone;
use tune_sets::{SetName, TuneSet};
use tune_store::Refusal;
use tune_undo::{Part, Step};

/// The first of these numbers that a place of the set list of a name has.
pub(crate) fn held_number(sets: &[TuneSet], name: &SetName, numbers: &[u32]) -> Option<u32> {
    for set in sets {
        if set.name.as_slice() == name.as_slice() {
            return first_among(numbers, set.numbers.as_slice());
        }
    }
    None
}

fn first_among(numbers: &[u32], others: &[u32]) -> Option<u32> {
    for number in numbers {
        if others.iter().any(|other| *other == *number) {
            return Some(*number);
        }
    }
    None
}

/// Refused where a set list has a tune that these entries brought, and is not itself one that they
/// turned: such a tune cannot go, and so nothing is taken back.
pub(crate) fn spare_held(sets: &[TuneSet], changes: &[Step]) -> Result<(), NotUndone>
    ensures { IfOk result (λ _. list_any (holds_back (steps_of changes.now)) sets.now ≡ false) }
{
    for set in sets {
        if holds_back(changes, set) {
            return Err(why_held(changes, set));
        }
    }
    Ok(())
}

// With the first tune of the set list that these entries brought.
fn why_held(changes: &[Step], set: &TuneSet) -> NotUndone {
    for number in set.numbers.as_slice() {
        if have_brought(changes, *number) {
            return NotUndone::Held(*number, set.name);
        }
    }
    NotUndone::Refused(Refusal::InSet { name: set.name })
}

fn holds_back(changes: &[Step], set: &TuneSet) -> bool
    ensures { result ≡ holds_back (steps_of changes.now) set.now }
{
    !have_turned(changes, &set.name) && has_brought(changes, set.numbers.as_slice())
}

// Whether these entries brought a tune of these numbers.
fn has_brought(changes: &[Step], numbers: &[u32]) -> bool
    ensures { result ≡ list_any (have_brought (steps_of changes.now)) numbers.now }
{
    for number in numbers {
        if have_brought(changes, *number) {
            return true;
        }
    }
    false
}

// Whether these entries brought the tune of a number.
fn have_brought(changes: &[Step], number: u32) -> bool
    ensures { result ≡ have_brought (steps_of changes.now) number }
{
    for change in changes {
        if brings_tune(change.entry.parts.as_slice(), number) {
            return true;
        }
    }
    false
}

fn brings_tune(parts: &[Part], number: u32) -> bool
    ensures { result ≡ list_any (brings_tune number) parts.now }
{
    parts.iter().any(|part| match part {
        Part::Tune {
            number: its,
            was: None,
            is: _,
        } => *its == number,
        _ => false,
    })
}

// Whether these entries turned the set list of a name.
fn have_turned(changes: &[Step], name: &SetName) -> bool
    ensures { result ≡ have_turned (steps_of changes.now) name.now }
{
    for change in changes {
        if brings_set(change.entry.parts.as_slice(), name) {
            return true;
        }
    }
    false
}

fn brings_set(parts: &[Part], name: &SetName) -> bool
    ensures { result ≡ list_any (brings_set name.now) parts.now }
{
    parts.iter().any(|part| match part {
        Part::Set { name: its, .. } => its.as_slice() == name.as_slice(),
        _ => false,
    })
}
