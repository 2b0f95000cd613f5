// Turns of set lists.
ghost use Rattle.std.specs.Prelude.{◌≡◌, ◌+◌, ◌^◌, ◌<◌, ◌∷◌, [], List, true, map, MatchOption};
ghost use Rattle.std.specs.Prelude.{◌++◌, None, Some, IfOk, OnOk, if◌then◌else◌};
ghost use Rattle.std.specs.Str.{bytes_eq};
ghost use Rattle.std.specs.List.{list_all};
ghost use Rattle.tune_sets.specs.Numbers.{has_place, is_among};
ghost use Rattle.tune_sets.specs.declared.set_lists.TuneSet.{TuneSet};
ghost use Rattle.tune_sets.specs.Sets.{holder, set_at};
ghost use Rattle.tune_asking.specs.Asking.{IsToldOrFault};
ghost use Rattle.tune_changes.specs.Planning.{moved_place, numbers_put, place_moved, places_cut};
ghost use Rattle.tune_changes.specs.Planning.{set_gone, without_places};
ghost use Rattle.tune_changes.specs.Inside.TurnPlans.{numbers_of_set};

use crate::turns::Turn;
use std::alloc::{AllocError, Global};
use tune_sets::{MOST_PLACES, MOST_SETS, NumberList, SetLists, SetName, TuneSet};
use tune_store::Refusal;

// Numbers go to the end of the set list of a name, which is made where there is none.
pub(crate) fn numbers_put(
    alloc: Global,
    sets: &SetLists,
    name: SetName,
    numbers: &[u32],
) -> Result<Turn, Refusal>
    ensures { IsToldOrFault
        (numbers_put name numbers.now sets.now (numbers_of_set name sets.now)) result }
{
    match set_of(sets.as_slice(), name.as_slice()) {
        None => set_made(alloc, sets, name, numbers),
        Some(set) => numbers_added(alloc, name, set.numbers.as_slice(), numbers),
    }
}

// A set list is made of these numbers.
fn set_made(alloc: Global, sets: &SetLists, name: SetName, numbers: &[u32]) -> Result<Turn, Refusal>
    ensures { IsToldOrFault (numbers_put name numbers.now sets.now None) result }
{
    if numbers.len() > MOST_PLACES {
        return Err(Refusal::SetFull);
    }
    if sets.as_slice().len() >= MOST_SETS {
        return Err(Refusal::SetsFull);
    }
    Ok(Turn::Set {
        name,
        was: None,
        is: Some(list_of(alloc, numbers)?),
    })
}

// Numbers go to the end of others.
fn numbers_added(
    alloc: Global,
    name: SetName,
    old: &[u32],
    numbers: &[u32],
) -> Result<Turn, Refusal>
    ensures { (sets : List TuneSet) → IsToldOrFault
        (numbers_put name numbers.now sets (Some old.now)) result }
{
    if old.len() + numbers.len() > MOST_PLACES {
        return Err(Refusal::SetFull);
    }
    let mut all = Vec::from_slice(alloc, old)?;
    all.extend_from_slice(numbers)?;
    Ok(Turn::Set {
        name,
        was: Some(list_of(alloc, old)?),
        is: Some(NumberList::from_vec(all)),
    })
}

// These places of the set list of a name go.
pub(crate) fn places_cut(
    alloc: Global,
    sets: &SetLists,
    name: &[u8],
    places: &[u32],
) -> Result<Turn, Refusal>
    ensures { IsToldOrFault
        (places_cut name.now places.now (numbers_of_set name.now sets.now)) result }
{
    let Some(set) = set_of(sets.as_slice(), name) else {
        return Err(Refusal::NoSuchSet);
    };
    let old = set.numbers.as_slice();
    if !have_places(old, places) {
        return Err(Refusal::NoSuchPlace);
    }
    Ok(Turn::Set {
        name: set.name,
        was: Some(list_of(alloc, old)?),
        is: Some(without_places(alloc, places, old)?),
    })
}

// The number at a place of the set list of a name goes to another place.
pub(crate) fn place_moved(
    alloc: Global,
    sets: &SetLists,
    name: &[u8],
    place: u32,
    to: u32,
) -> Result<Turn, Refusal>
    ensures { IsToldOrFault
        (place_moved name.now place to (numbers_of_set name.now sets.now)) result }
{
    let Some(set) = set_of(sets.as_slice(), name) else {
        return Err(Refusal::NoSuchSet);
    };
    let old = set.numbers.as_slice();
    if !have_places(old, &[place, to]) {
        return Err(Refusal::NoSuchPlace);
    }
    Ok(Turn::Set {
        name: set.name,
        was: Some(list_of(alloc, old)?),
        is: Some(moved(alloc, old, place as usize, to as usize)?),
    })
}

// The set list of a name goes.
pub(crate) fn set_gone(alloc: Global, sets: &SetLists, name: &[u8]) -> Result<Turn, Refusal>
    ensures { IsToldOrFault (set_gone name.now (numbers_of_set name.now sets.now)) result }
{
    let Some(set) = set_of(sets.as_slice(), name) else {
        return Err(Refusal::NoSuchSet);
    };
    Ok(Turn::Set {
        name: set.name,
        was: Some(list_of(alloc, set.numbers.as_slice())?),
        is: None,
    })
}

// The set of a name.
fn set_of<'a>(sets: &'a [TuneSet], name: &[u8]) -> Option<&'a TuneSet>
    ensures { MatchOption result (set_at name.now sets.now ≡ None)
        (λ set. set_at name.now sets.now ≡ Some set.now) }
{
    for set in sets {
        if is_named(set, name) {
            return Some(set);
        }
    }
    None
}

fn is_named(set: &TuneSet, name: &[u8]) -> bool
    ensures { result ≡ bytes_eq set.now.name name.now }
{
    set.name.as_slice() == name
}

// Whether each of these places is there.
fn have_places(numbers: &[u32], places: &[u32]) -> bool
    ensures { result ≡ list_all (λ place. has_place place numbers.now) places.now }
{
    places
        .iter()
        .all(|place| *place > 0 && *place as usize <= numbers.len())
}

// The numbers without those at these places.
fn without_places(alloc: Global, places: &[u32], numbers: &[u32]) -> Result<NumberList, AllocError>
    ensures { IfOk result (λ list. list ≡ without_places places.now 1 numbers.now) }
{
    let mut left = Vec::with_capacity(alloc, numbers.len())?;
    for index in 0..numbers.len() {
        push_unless_cut(&mut left, places, index, numbers[index])?;
    }
    Ok(NumberList::from_vec(left))
}

// A number goes to the end of those that are left, unless its place is among these.
fn push_unless_cut(
    left: &mut Vec<u32>,
    places: &[u32],
    index: usize,
    number: u32,
) -> Result<(), AllocError>
    requires { index + 1 < 2 ^ 64 }
    ensures { OnOk result (left.new.items ≡ left.old.items
        ++ (if is_among (index + 1) places.now then [] else number ∷ [])) }
{
    if is_place_of(index, places) {
        return Ok(());
    }
    left.push(number)?;
    Ok(())
}

// Whether the place of an index is among these.
fn is_place_of(index: usize, places: &[u32]) -> bool
    requires { index + 1 < 2 ^ 64 }
    ensures { result ≡ is_among (index + 1) places.now }
{
    places.iter().any(|place| *place as usize == index + 1)
}

// The numbers with the one at a place at another.
fn moved(alloc: Global, numbers: &[u32], place: usize, to: usize) -> Result<NumberList, AllocError>
    requires { list_all (λ at. has_place at numbers.now) (place ∷ to ∷ []) ≡ true }
    ensures { IfOk result (λ list. list ≡ moved_place place to numbers.now) }
{
    let mut moved = Vec::from_slice(alloc, numbers)?;
    let number = moved.remove(place - 1);
    moved.insert(to - 1, number)?;
    Ok(NumberList::from_vec(moved))
}

// For each of these numbers, the least name of a set list that has it.
pub(crate) fn holders(
    alloc: Global,
    sets: &SetLists,
    numbers: &[u32],
) -> Result<Vec<Option<SetName>>, AllocError>
    ensures { IfOk result (λ names.
        names.items ≡ map (λ number. holder number sets.now) numbers.now) }
{
    let mut names = Vec::with_capacity(alloc, numbers.len())?;
    for number in numbers {
        names.push(sets.holds(*number))?;
    }
    Ok(names)
}

// A list of these numbers.
fn list_of(alloc: Global, numbers: &[u32]) -> Result<NumberList, AllocError>
    ensures { IfOk result (λ list. list ≡ numbers.now) }
{
    Ok(NumberList::from_vec(Vec::from_slice(alloc, numbers)?))
}
