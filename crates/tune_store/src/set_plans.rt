// Decides commands on set lists.
ghost use Rattle.std.specs.Prelude.{◌≡◌, false, Err, IfOk, IfErr, IsOk};
ghost use Rattle.tune_sets.specs.Calls.{places_of};
ghost use Rattle.tune_sets.specs.declared.faults.SetFault.TheVariants as fault;
ghost use Rattle.tune_store.specs.State.{State, NumbersRiseFrom};
ghost use Rattle.tune_store.specs.SetSteps.{set_new, set_add, set_cut, set_drop};
ghost use Rattle.tune_store.specs.Labels.{labels_of};
ghost use Rattle.tune_store.specs.Answers.{IsRefusalOfOwn};
ghost use Rattle.tune_store.specs.Plans.{PlansOutcome, CanChangeTo, grows};
ghost use Rattle.tune_store.specs.Inside.Plans.{AltersLabels};

use crate::catalog::Catalog;
use crate::command::{Command, Refusal, Reply};
use crate::plans::{Change, Plan};
use tune_sets::{MOST_PLACES, MOST_SETS, SetLists, SetName};

// The name of the set list of a name.
pub(crate) fn held_name(sets: &SetLists, name: &[u8]) -> Result<SetName, Refusal>
    ensures ok { IfOk result (λ held.
        (held ≡ name.now) × IsOk (places_of name.now sets.now)) }
    ensures err { IfErr result (λ refusal. (refusal ≡ Refusal.NoSuchSet)
        × (places_of name.now sets.now ≡ Err fault.NoSuchSet)) }
{
    sets.places(name)?;
    // For the proof: each set list has a good name, so there is no set list of a bad one.
    let _limits = sets.as_slice();
    match SetName::new(name) {
        Some(held) => Ok(held),
        None => Err(Refusal::NoSuchSet),
    }
}

// What a new set list asks for.
pub(crate) fn set_new<C: Catalog>(catalog: &C, name: &[u8]) -> Result<Plan, Refusal>
    ensures planned { (state : State) → C.sets catalog.now ≡ state.sets
        → PlansOutcome state result (set_new state name.now) }
    ensures names { IfErr result (IsRefusalOfOwn (Command.SetNew name.now)) }
    ensures possible { IfOk result
        (λ plan. CanChangeTo plan.change
        (C.layout catalog.now) (C.labels catalog.now) (C.sets catalog.now)) }
    ensures alters { IfOk result (λ plan. AltersLabels plan.change (C.labels catalog.now)) }
{
    let sets = catalog.sets();
    let Some(held) = SetName::new(name) else {
        return Err(Refusal::BadName);
    };
    if sets.places(name).is_ok() {
        return Err(Refusal::SetTaken);
    }
    if sets.as_slice().len() >= MOST_SETS {
        return Err(Refusal::SetsFull);
    }
    let change = Change::NewSet { name: held };
    Ok(Plan::change(change, Reply::SetMade { name: held }))
}

// What one more place of a set list asks for.
pub(crate) fn set_add<C: Catalog>(catalog: &C, name: &[u8], number: u32) -> Result<Plan, Refusal>
    ensures planned { (state : State) → NumbersRiseFrom 0 state.tunes
        → labels_of state.tunes ≡ C.labels catalog.now → C.sets catalog.now ≡ state.sets
        → PlansOutcome state result (set_add state name.now number) }
    ensures names { IfErr result (IsRefusalOfOwn (Command.SetAdd name.now number)) }
    ensures possible { IfOk result
        (λ plan. CanChangeTo plan.change
        (C.layout catalog.now) (C.labels catalog.now) (C.sets catalog.now)) }
    ensures alters { IfOk result (λ plan. AltersLabels plan.change (C.labels catalog.now)) }
{
    if catalog.place_of(number).is_none() {
        return Err(Refusal::Unknown { number });
    }
    let numbers = catalog.sets().places(name)?;
    let name = held_name(catalog.sets(), name)?;
    if numbers.len() >= MOST_PLACES {
        return Err(Refusal::SetFull);
    }
    let place = numbers.len() + 1;
    let change = Change::AddPlace { name, number };
    Ok(Plan::change(change, Reply::SetAdded { name, place }))
}

// What one place less of a set list asks for.
pub(crate) fn set_cut<C: Catalog>(catalog: &C, name: &[u8], place: u32) -> Result<Plan, Refusal>
    ensures planned { (state : State) → C.sets catalog.now ≡ state.sets
        → PlansOutcome state result (set_cut state name.now place) }
    ensures names { IfErr result (IsRefusalOfOwn (Command.SetCut name.now place)) }
    ensures possible { IfOk result
        (λ plan. CanChangeTo plan.change
        (C.layout catalog.now) (C.labels catalog.now) (C.sets catalog.now)) }
    ensures alters { IfOk result (λ plan. AltersLabels plan.change (C.labels catalog.now)) }
    ensures takes { IfOk result (λ plan. grows plan.change ≡ false) }
{
    let numbers = catalog.sets().places(name)?;
    let name = held_name(catalog.sets(), name)?;
    if place == 0 || place as usize > numbers.len() {
        return Err(Refusal::NoSuchPlace);
    }
    let change = Change::CutPlace { name, place };
    Ok(Plan::change(change, Reply::SetCut { name, place }))
}

// What taking out a set list asks for.
pub(crate) fn set_drop<C: Catalog>(catalog: &C, name: &[u8]) -> Result<Plan, Refusal>
    ensures planned { (state : State) → C.sets catalog.now ≡ state.sets
        → PlansOutcome state result (set_drop state name.now) }
    ensures names { IfErr result (IsRefusalOfOwn (Command.SetDrop name.now)) }
    ensures possible { IfOk result
        (λ plan. CanChangeTo plan.change
        (C.layout catalog.now) (C.labels catalog.now) (C.sets catalog.now)) }
    ensures alters { IfOk result (λ plan. AltersLabels plan.change (C.labels catalog.now)) }
    ensures takes { IfOk result (λ plan. grows plan.change ≡ false) }
{
    let name = held_name(catalog.sets(), name)?;
    let change = Change::DropSet { name };
    Ok(Plan::change(change, Reply::SetDropped { name }))
}
