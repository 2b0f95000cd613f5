// Changes of sets that stand by rising name.
ghost use Rattle.std.specs.Prelude.{◌≡◌, ◌^◌, ◌<◌};
ghost use Rattle.tune_sets.specs.Sets.{AreSetLists, renumbered_sets};
ghost use Rattle.tune_sets.specs.Calls.{StaysOrGives, create_set, add_number, cut_place, drop_set};

use crate::faults::SetFault;
use crate::look_ups::index_of;
use crate::names::SetName;
use crate::number_list::NumberList;
use crate::set_lists::{MOST_PLACES, MOST_SETS, TuneSet};
use std::alloc::Global;

// Adds a set without a place.
pub(crate) fn create_set(
    alloc: Global,
    sets: &mut Vec<TuneSet>,
    name: &[u8],
) -> Result<(), SetFault>
    requires { AreSetLists sets.old.items }
    ensures limits { AreSetLists sets.new.items }
    ensures gives { StaysOrGives sets.old.items sets.new.items result
        (create_set name.now sets.old.items) }
{
    let Some(held) = SetName::new(name) else {
        return Err(SetFault::BadName);
    };
    let Err(index) = index_of(sets, name) else {
        return Err(SetFault::SetTaken);
    };
    if sets.len() >= MOST_SETS {
        return Err(SetFault::SetsFull);
    }
    let set = TuneSet {
        name: held,
        numbers: NumberList::new(alloc),
    };
    sets.insert(index, set)?;
    Ok(())
}

// Puts a number at the end of a set, and gives its place.
pub(crate) fn add_number(
    sets: &mut Vec<TuneSet>,
    name: &[u8],
    number: u32,
) -> Result<usize, SetFault>
    requires { AreSetLists sets.old.items }
    ensures limits { AreSetLists sets.new.items }
    ensures gives { StaysOrGives sets.old.items sets.new.items result
        (add_number name.now number sets.old.items) }
{
    let Ok(index) = index_of(sets, name) else {
        return Err(SetFault::NoSuchSet);
    };
    let set = &mut sets[index];
    if set.numbers.len() >= MOST_PLACES {
        return Err(SetFault::SetFull);
    }
    set.numbers.push(number)?;
    Ok(set.numbers.len())
}

// Takes a place out of a set.
pub(crate) fn cut_place(sets: &mut Vec<TuneSet>, name: &[u8], place: usize) -> Result<(), SetFault>
    requires { AreSetLists sets.old.items }
    ensures limits { AreSetLists sets.new.items }
    ensures gives { cut_place name.now place sets.old.items ≡ (sets.new.items, result) }
{
    let Ok(index) = index_of(sets, name) else {
        return Err(SetFault::NoSuchSet);
    };
    let set = &mut sets[index];
    if !set.numbers.has_place(place) {
        return Err(SetFault::NoSuchPlace);
    }
    set.numbers.remove_place(place);
    Ok(())
}

// Takes a set out.
pub(crate) fn drop_set(sets: &mut Vec<TuneSet>, name: &[u8]) -> Result<(), SetFault>
    requires { AreSetLists sets.old.items }
    ensures limits { AreSetLists sets.new.items }
    ensures gives { drop_set name.now sets.old.items ≡ (sets.new.items, result) }
{
    let Ok(index) = index_of(sets, name) else {
        return Err(SetFault::NoSuchSet);
    };
    sets.remove(index);
    Ok(())
}

// Puts a number in the place of another one, at each place of each set.
pub(crate) fn renumber_sets(sets: &mut Vec<TuneSet>, from: u32, to: u32)
    ensures { sets.new.items ≡ renumbered_sets from to sets.old.items }
{
    for i in 0..sets.len() {
        sets[i].numbers.renumber(from, to);
    }
}
