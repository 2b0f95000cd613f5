// Brings a set list to other numbers.
ghost use Rattle.std.specs.Prelude.{◌≡◌, ◌+◌, ◌^◌, ◌<◌, ◌≤◌, [], ◌∷◌, map, None, Some};
ghost use Rattle.std.specs.Prelude.{◌++◌, MatchResult, drop, replicate, length};
ghost use Rattle.std.specs.Str.{bytes_eq};
ghost use Rattle.tune_store.specs.declared.command.Command.TheVariants.{SetAdd, SetCut};
ghost use Rattle.tune_changes.specs.Bringing.{brought_set, common_front, cut_behind, relaid};
ghost use Rattle.tune_changes.specs.Carrying.{Carries};

use crate::carrying::carry_out;
use crate::looking::numbers_if_any;
use abc_fields::ByteText;
use std::alloc::Global;
use tune_sets::SetName;
use tune_store::{Command, Refusal, TuneStore};

// The places of a set list behind the first `kept`, of which there are `more`.
#[derive(Clone, Copy)]
struct PlacesBehind {
    kept: usize,
    more: usize,
}

// The set list of a name gets these numbers; it is made where there is none.
pub(crate) fn put_numbers<S: TuneStore>(
    alloc: Global,
    store: &mut S,
    name: &SetName,
    numbers: &[u32],
) -> Result<(), Refusal>
    ensures { Carries S.TuneStore store.old store.new
        (brought_set name.now (Some numbers.now) (S.TuneStore.state store.old)) result }
{
    match numbers_if_any(alloc, store, name)? {
        None => make_set(alloc, store, name, numbers),
        Some(old) => lay_anew(alloc, store, name, old.as_slice(), numbers),
    }
}

// The set list of a name goes, where there is one.
pub(crate) fn take_set<S: TuneStore>(
    alloc: Global,
    store: &mut S,
    name: &SetName,
) -> Result<(), Refusal>
    ensures { Carries S.TuneStore store.old store.new
        (brought_set name.now None (S.TuneStore.state store.old)) result }
{
    if numbers_if_any(alloc, store, name)?.is_none() {
        return Ok(());
    }
    drop_set(alloc, store, name)
}

// A set list of a name is made with these numbers.
fn make_set<S: TuneStore>(
    alloc: Global,
    store: &mut S,
    name: &SetName,
    numbers: &[u32],
) -> Result<(), Refusal>
    ensures { Carries S.TuneStore store.old store.new
        (Command.SetNew name.now ∷ map (SetAdd name.now) numbers.now) result }
{
    let named = ByteText::copy_of(alloc, name.as_slice())?;
    carry_out(store, &Command::SetNew(named))?;
    add_numbers(alloc, store, name, numbers)
}

// A set list goes.
fn drop_set<S: TuneStore>(alloc: Global, store: &mut S, name: &SetName) -> Result<(), Refusal>
    ensures { Carries S.TuneStore store.old store.new (Command.SetDrop name.now ∷ []) result }
{
    let named = ByteText::copy_of(alloc, name.as_slice())?;
    carry_out(store, &Command::SetDrop(named))?;
    Ok(())
}

// A set list goes from its numbers to other ones. What stands in front of both stays.
fn lay_anew<S: TuneStore>(
    alloc: Global,
    store: &mut S,
    name: &SetName,
    old: &[u32],
    new: &[u32],
) -> Result<(), Refusal>
    ensures { Carries S.TuneStore store.old store.new (relaid name.now old.now new.now) result }
{
    let kept = common_front(old, new);
    let fewer = old.len().saturating_sub(new.len());
    if ends_alike(old, new, kept, fewer) {
        return cut_times(alloc, store, name, kept + 1, fewer);
    }
    let places = PlacesBehind {
        kept,
        more: old.len() - kept,
    };
    put_behind(alloc, store, name, places, &new[kept..])
}

// Whether the numbers that follow on so many places in front, and fewer, are those that follow on
// these in the other list.
fn ends_alike(old: &[u32], new: &[u32], kept: usize, fewer: usize) -> bool
    requires in_old { kept + fewer ≤ length old.now }
    requires in_new { kept ≤ length new.now }
    ensures { result ≡ bytes_eq (drop (kept + fewer) old.now) (drop kept new.now) }
{
    old[kept + fewer..] == new[kept..]
}

// These places are cut, and numbers put there.
fn put_behind<S: TuneStore>(
    alloc: Global,
    store: &mut S,
    name: &SetName,
    places: PlacesBehind,
    numbers: &[u32],
) -> Result<(), Refusal>
    requires { places.kept + places.more < 2 ^ 64 }
    ensures { Carries S.TuneStore store.old store.new
        (cut_behind name.now places.kept places.more ++ map (SetAdd name.now) numbers.now) result }
{
    cut_to(alloc, store, name, places)?;
    add_numbers(alloc, store, name, numbers)
}

// How long the common front of two lists is.
pub(crate) fn common_front(old: &[u32], new: &[u32]) -> usize
    ensures front { result ≡ common_front old.now new.now }
    ensures in_old { result ≤ length old.now }
    ensures in_new { result ≤ length new.now }
{
    let most = old.len().min(new.len());
    for place in 0..most {
        if old[place] != new[place] {
            return place;
        }
    }
    most
}

// A place is cut so many times.
fn cut_times<S: TuneStore>(
    alloc: Global,
    store: &mut S,
    name: &SetName,
    place: usize,
    times: usize,
) -> Result<(), Refusal>
    ensures { Carries S.TuneStore store.old store.new
        (replicate times (SetCut name.now place)) result }
{
    for _time in 0..times {
        cut_place(alloc, store, name, place)?;
    }
    Ok(())
}

// These places are cut, the last one first.
fn cut_to<S: TuneStore>(
    alloc: Global,
    store: &mut S,
    name: &SetName,
    places: PlacesBehind,
) -> Result<(), Refusal>
    requires { places.kept + places.more < 2 ^ 64 }
    ensures { Carries S.TuneStore store.old store.new
        (cut_behind name.now places.kept places.more) result }
{
    let mut left = places.more;
    while left > 0 {
        cut_place(alloc, store, name, places.kept + left)?;
        left -= 1;
    }
    Ok(())
}

// A place is cut.
fn cut_place<S: TuneStore>(
    alloc: Global,
    store: &mut S,
    name: &SetName,
    place: usize,
) -> Result<(), Refusal>
    ensures { Carries S.TuneStore store.old store.new (SetCut name.now place ∷ []) result }
{
    let name = ByteText::copy_of(alloc, name.as_slice())?;
    let place = narrowed(place)?;
    carry_out(store, &Command::SetCut { name, place })?;
    Ok(())
}

// A place in 32 bits; no list that fits into memory has another.
fn narrowed(place: usize) -> Result<u32, Refusal>
    ensures { MatchResult result (λ narrow. narrow ≡ place)
        (λ refusal. refusal ≡ Refusal.OutOfMemory) }
{
    match u32::try_from(place) {
        Ok(narrow) => Ok(narrow),
        Err(_) => Err(Refusal::OutOfMemory),
    }
}

// Numbers are put at the end of a set list.
fn add_numbers<S: TuneStore>(
    alloc: Global,
    store: &mut S,
    name: &SetName,
    numbers: &[u32],
) -> Result<(), Refusal>
    ensures { Carries S.TuneStore store.old store.new
        (map (SetAdd name.now) numbers.now) result }
{
    for number in numbers {
        add_number(alloc, store, name, *number)?;
    }
    Ok(())
}

// A number is put at the end of a set list.
fn add_number<S: TuneStore>(
    alloc: Global,
    store: &mut S,
    name: &SetName,
    number: u32,
) -> Result<(), Refusal>
    ensures { Carries S.TuneStore store.old store.new (SetAdd name.now number ∷ []) result }
{
    let name = ByteText::copy_of(alloc, name.as_slice())?;
    carry_out(store, &Command::SetAdd { name, number })?;
    Ok(())
}
