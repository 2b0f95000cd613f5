// What a change comes to.
ghost use Rattle.std.specs.Prelude.{◌≡◌, ◌<◌, [], Result, Some, length};
ghost use Rattle.tune_asking.specs.Asking.{IsToldOrFault};
ghost use Rattle.tune_store.specs.declared.command.Refusal.{Refusal};
ghost use Rattle.tune_changes.specs.declared.turns.Turn.{Turn};
ghost use Rattle.tune_sets.specs.Numbers.{is_among};
ghost use Rattle.tune_store.specs.State.{tune_at};
ghost use Rattle.tune_asking.specs.AskingCalls.{Call, told_by};
ghost use Rattle.tune_changes.specs.Planning.{planned_by, planned_replace, planned_when};
ghost use Rattle.tune_changes.specs.Planning.{one_turn, is_stale, text_replaced, tune_gone};
ghost use Rattle.tune_changes.specs.Planning.{tunes_gone, tunes_put};
ghost use Rattle.tune_changes.specs.Inside.TurnPlans.{IsPlannedOrFault, all_gone, are_known};
ghost use Rattle.tune_changes.specs.Inside.TurnPlans.{gone_at, turns_told};

use crate::set_turns::{holders, numbers_put, place_moved, places_cut, set_gone};
use crate::turns::Turn;
use abc_fields::TuneText;
use desk_terms::Alteration;
use std::alloc::Global;
use tune_asking::tune_of;
use tune_sets::SetName;
use tune_store::{Catalog, GREATEST_REVISION, Refusal, Tune, TuneStore};

/// The turns that a change comes to. The store is only asked.
///
/// # Errors
///
/// - a delete: `Unknown`, where no tune has a number, or it was named before; `InSet`, with the
///   least name of a set list that has the tune.
/// - a put: `BadName`; `Unknown`; `SetFull`, where there would be more than 200 places; `SetsFull`.
/// - a cut, a move, a drop: `NoSuchSet`; `NoSuchPlace`.
/// - `OutOfMemory`, or `Device`.
pub fn planned<S: TuneStore + Catalog>(
    alloc: Global,
    store: &mut S,
    change: &Alteration,
) -> Result<Vec<Turn>, Refusal>
    ensures { Call S.TuneStore store.old store.new
        (planned_when (S.Catalog.sets store.old) (planned_by change.now)) result }
{
    match change {
        Alteration::Delete(numbers) => tunes_gone(alloc, store, numbers.as_slice()),
        Alteration::Put { name, numbers } => {
            tunes_put(alloc, store, name.as_bytes(), numbers.as_slice())
        }
        Alteration::Cut { name, places } => {
            alone(
                alloc,
                places_cut(alloc, store.sets(), name.as_bytes(), places.as_slice()),
            )
        }
        Alteration::Move { name, place, to } => {
            alone(
                alloc,
                place_moved(alloc, store.sets(), name.as_bytes(), *place, *to),
            )
        }
        Alteration::Drop(name) => { alone(alloc, set_gone(alloc, store.sets(), name.as_bytes())) }
    }
}

/// The turn that gives a tune another text, where it has the revision that is asked for, if one is.
/// The store is only asked.
///
/// # Errors
///
/// `Unknown`, `Stale`, `Worn`; `OutOfMemory`, or `Device`.
pub fn planned_replace<S: TuneStore>(
    alloc: Global,
    store: &mut S,
    number: u32,
    revision: Option<u32>,
    text: TuneText,
) -> Result<Vec<Turn>, Refusal>
    ensures { Call S.TuneStore store.old store.new
        (turns_told (planned_replace number revision text)) result }
{
    let tune = tune_of(store, number)?;
    alone(alloc, text_replaced(number, revision, tune, text))
}

// The turn that gives a tune another text.
fn text_replaced(
    number: u32,
    revision: Option<u32>,
    tune: Tune,
    text: TuneText,
) -> Result<Turn, Refusal>
    ensures { result ≡ text_replaced number revision text (Some tune) }
{
    if is_stale(revision, u32::from(tune.revision)) {
        return Err(Refusal::Stale {
            revision: tune.revision,
        });
    }
    if tune.revision >= GREATEST_REVISION {
        return Err(Refusal::Worn);
    }
    Ok(Turn::Tune {
        number,
        was: Some(tune.text),
        is: Some(text),
    })
}

// Whether a revision is one that was not asked for.
fn is_stale(asked: Option<u32>, revision: u32) -> bool
    ensures { result ≡ is_stale asked revision }
{
    match asked {
        None => false,
        Some(asked) => asked != revision,
    }
}

// The tunes of these numbers go.
fn tunes_gone<S: TuneStore + Catalog>(
    alloc: Global,
    store: &mut S,
    numbers: &[u32],
) -> Result<Vec<Turn>, Refusal>
    ensures { Call S.TuneStore store.old store.new (planned_when (S.Catalog.sets store.old)
        (tunes_gone [] numbers.now)) result }
{
    let held = holders(alloc, store.sets(), numbers)?;
    all_gone(alloc, store, numbers, held.as_slice())
}

// The tunes of these numbers go, beside each of which stands what set list has it.
fn all_gone<S: TuneStore>(
    alloc: Global,
    store: &mut S,
    numbers: &[u32],
    held: &[Option<SetName>],
) -> Result<Vec<Turn>, Refusal>
    requires { length held.now ≡ length numbers.now }
    ensures { Call S.TuneStore store.old store.new
        (turns_told (all_gone [] held.now numbers.now)) result }
{
    let mut turns = Vec::with_capacity(alloc, numbers.len())?;
    for place in 0..numbers.len() {
        turns.push(gone_at(store, numbers, held, place)?)?;
    }
    Ok(turns)
}

// The tune at a place of these numbers goes, unless it went before.
fn gone_at<S: TuneStore>(
    store: &mut S,
    numbers: &[u32],
    held: &[Option<SetName>],
    place: usize,
) -> Result<Turn, Refusal>
    requires in_numbers { place < length numbers.now }
    requires in_held { place < length held.now }
    ensures { Call S.TuneStore store.old store.new
        (told_by (gone_at numbers.now held.now place)) result }
{
    let number = numbers[place];
    if is_among(number, &numbers[..place]) {
        return Err(Refusal::Unknown { number });
    }
    tune_gone(store, number, held[place])
}

fn is_among(number: u32, numbers: &[u32]) -> bool
    ensures { result ≡ is_among number numbers.now }
{
    numbers.iter().any(|other| *other == number)
}

// The tune of a number goes, which this set list has, if one has it.
fn tune_gone<S: TuneStore>(
    store: &mut S,
    number: u32,
    held: Option<SetName>,
) -> Result<Turn, Refusal>
    ensures { Call S.TuneStore store.old store.new
        (told_by (λ state. tune_gone number held (tune_at number state.tunes))) result }
{
    let tune = tune_of(store, number)?;
    match held {
        Some(name) => Err(Refusal::InSet { name }),
        None => Ok(Turn::Tune {
            number,
            was: Some(tune.text),
            is: None,
        }),
    }
}

// The tunes of these numbers go to the end of the set list of a name.
fn tunes_put<S: TuneStore + Catalog>(
    alloc: Global,
    store: &mut S,
    name: &[u8],
    numbers: &[u32],
) -> Result<Vec<Turn>, Refusal>
    ensures { Call S.TuneStore store.old store.new (planned_when (S.Catalog.sets store.old)
        (λ state. one_turn (tunes_put name.now numbers.now state))) result }
{
    let Some(name) = SetName::new(name) else {
        return Err(Refusal::BadName);
    };
    let turn = numbers_put(alloc, store.sets(), name, numbers);
    look_for(store, numbers)?;
    alone(alloc, turn)
}

// Looks whether there is a tune of each of these numbers.
fn look_for<S: TuneStore>(store: &mut S, numbers: &[u32]) -> Result<(), Refusal>
    ensures { Call S.TuneStore store.old store.new (are_known numbers.now) result }
{
    for number in numbers {
        tune_of(store, *number)?;
    }
    Ok(())
}

// One turn alone.
fn alone(alloc: Global, turn: Result<Turn, Refusal>) -> Result<Vec<Turn>, Refusal>
    ensures { (told : Result Turn Refusal) → IsToldOrFault told turn
        → IsPlannedOrFault (one_turn told) result }
{
    let turn = turn?;
    let mut turns = Vec::with_capacity(alloc, 1)?;
    turns.push(turn)?;
    Ok(turns)
}
