// What a load brings.
ghost use Rattle.std.specs.Prelude.{◌≡◌, ◌++◌, map, IfOk, OnOk};
ghost use Rattle.tune_asking.specs.AskingCalls.{Call};
ghost use Rattle.tune_changes.specs.BroughtParts.{parts_where, set_comes};
ghost use Rattle.tune_changes.specs.Inside.LoadCalls.{tunes_put};

use std::alloc::{AllocError, Global};
use tune_asking::{all_numbers, tune_of};
use tune_sets::{NumberList, TuneSet};
use tune_store::{Catalog, Refusal, TuneStore};
use tune_undo::{After, Part, Sum};

/// The parts of the entry of a load, of the store that it made: all tunes come, by number, and then
/// all set lists, by name. The store is only asked. The refusals are `OutOfMemory` and `Device`.
pub fn loaded_parts<S: TuneStore + Catalog>(
    alloc: Global,
    store: &mut S,
) -> Result<Vec<Part>, Refusal>
    ensures { Call S.TuneStore store.old store.new
        (parts_where (S.Catalog.labels store.old) (S.Catalog.sets store.old)) result }
{
    let numbers = all_numbers(alloc, store)?;
    let sets = store.sets().copy()?;
    let mut parts = Vec::new(alloc);
    put_tunes(store, numbers.as_slice(), &mut parts)?;
    put_sets(alloc, sets.as_slice(), &mut parts)?;
    Ok(parts)
}

// Puts the tunes of these numbers to the end of parts.
fn put_tunes<S: TuneStore>(
    store: &mut S,
    numbers: &[u32],
    parts: &mut Vec<Part>,
) -> Result<(), Refusal>
    ensures { Call S.TuneStore store.old store.new
        (tunes_put numbers.now parts.old.items parts.new.items) result }
{
    for number in numbers {
        let tune = tune_of(store, *number)?;
        let is = After::Text(Sum::of(tune.text.bytes()));
        parts.push(Part::Tune {
            number: tune.number,
            was: None,
            is,
        })?;
    }
    Ok(())
}

// Puts set lists to the end of parts.
fn put_sets(alloc: Global, sets: &[TuneSet], parts: &mut Vec<Part>) -> Result<(), AllocError>
    ensures { OnOk result (parts.new.items ≡ parts.old.items ++ map set_comes sets.now) }
{
    for set in sets {
        parts.push(set_part(alloc, set)?)?;
    }
    Ok(())
}

fn set_part(alloc: Global, set: &TuneSet) -> Result<Part, AllocError>
    ensures { IfOk result (λ part. part ≡ set_comes set.now) }
{
    let numbers = Vec::from_slice(alloc, set.numbers.as_slice())?;
    Ok(Part::Set {
        name: set.name,
        was: None,
        is: Some(NumberList::from_vec(numbers)),
    })
}
