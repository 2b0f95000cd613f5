// Brings tunes and set lists from how they stand to what they are to be.
ghost use Rattle.tune_changes.specs.Aims.{aim_for, aimed_back, brought_about, turn_of};
ghost use Rattle.tune_changes.specs.Bringing.{brought};
ghost use Rattle.tune_changes.specs.Carrying.{Carries};

use crate::set_bringing::{put_numbers, take_set};
use crate::tune_bringing::{put_text, take_tune};
use crate::turns::{Aim, Turn};
use std::alloc::Global;
use tune_store::{Refusal, TuneStore};

/// Brings turns about, one after another: each subject goes from how it stands then to what it is
/// to be.
///
/// # Errors
///
/// What the store refused, where it refused a command; `OutOfMemory`, or `Device`. A front of the
/// commands was then carried out.
pub fn bring_about<S: TuneStore>(
    alloc: Global,
    store: &mut S,
    turns: &[Turn],
) -> Result<(), Refusal>
    ensures { Carries S.TuneStore store.old store.new
        (brought_about turns.now (S.TuneStore.state store.old)) result }
{
    for turn in turns {
        bring_turn(alloc, store, turn)?;
    }
    Ok(())
}

/// Brings subjects to what they are to become, the last one first, each from how it stands then.
///
/// # Errors
///
/// What the store refused, where it refused a command; `OutOfMemory`, or `Device`. A front of the
/// commands was then carried out.
pub fn take_back<S: TuneStore>(alloc: Global, store: &mut S, aims: &[Aim]) -> Result<(), Refusal>
    ensures { Carries S.TuneStore store.old store.new
        (aimed_back aims.now (S.TuneStore.state store.old)) result }
{
    let mut left = aims.len();
    while left > 0 {
        left -= 1;
        bring_aim(alloc, store, &aims[left])?;
    }
    Ok(())
}

// Brings a subject to what it is to be.
fn bring_turn<S: TuneStore>(alloc: Global, store: &mut S, turn: &Turn) -> Result<(), Refusal>
    ensures { Carries S.TuneStore store.old store.new (brought (turn_of turn.now).subject
        (turn_of turn.now).is (S.TuneStore.state store.old)) result }
{
    match turn {
        Turn::Tune {
            number,
            was: _,
            is: None,
        } => take_tune(store, *number),
        Turn::Tune {
            number,
            was: _,
            is: Some(text),
        } => put_text(alloc, store, *number, text),
        Turn::Set {
            name,
            was: _,
            is: None,
        } => take_set(alloc, store, name),
        Turn::Set {
            name,
            was: _,
            is: Some(numbers),
        } => put_numbers(alloc, store, name, numbers.as_slice()),
    }
}

// Brings a subject to its aim.
fn bring_aim<S: TuneStore>(alloc: Global, store: &mut S, aim: &Aim) -> Result<(), Refusal>
    ensures { Carries S.TuneStore store.old store.new (brought (aim_for aim.now).subject
        (aim_for aim.now).to (S.TuneStore.state store.old)) result }
{
    match aim {
        Aim::Tune { number, text: None } => take_tune(store, *number),
        Aim::Tune {
            number,
            text: Some(text),
        } => put_text(alloc, store, *number, text),
        Aim::Set {
            name,
            numbers: None,
        } => take_set(alloc, store, name),
        Aim::Set {
            name,
            numbers: Some(numbers),
        } => put_numbers(alloc, store, name, numbers.as_slice()),
    }
}
