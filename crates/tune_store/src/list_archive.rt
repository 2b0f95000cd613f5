// An archive in memory.
ghost use Rattle.std.specs.Prelude.{◌≡◌, ◌≢◌, ℕ, ◌+◌, ◌^◌, ◌<◌, ◌≤◌, ◌++◌, true, length};
ghost use Rattle.std.specs.Prelude.{IfOk, IfSome, IfNone, IfErr, IsErrOf, OnOk, OnErr};
ghost use Rattle.std.specs.Prelude.{IsTrue, false, slice_index_or, vec_len};
ghost use Rattle.tune_store.specs.State.{State, IsState, NumbersRiseFrom, empty_state};
ghost use Rattle.tune_store.specs.TuneSteps.{numbered, moved};
ghost use Rattle.tune_store.specs.Labels.{labels_of};
ghost use Rattle.tune_store.specs.Answers.{Answers, IsRefusalOf, open_at, passed, stays_open};
ghost use Rattle.tune_store.specs.Answers.{takes_memory};
ghost use Rattle.tune_store.specs.Revisions.{RaisesReplaced};
ghost use Rattle.tune_store.specs.Stores.{StorePasses};
ghost use Rattle.tune_store.specs.declared.catalog.Label.{Label};
ghost use Rattle.tune_store.specs.declared.tune.Tune.{Tune};
ghost use Rattle.tune_store.specs.declared.layout.Layout.{Layout};
ghost use Rattle.tune_store.specs.declared.command.Refusal.{Refusal};
ghost use Rattle.tune_store.specs.Plans.{CanChange, CanChangeTo};
ghost use Rattle.tune_store.specs.Inside.Lists.{CarriedOut, Made, IsPlaceAfter, IsPlaceFrom};
ghost use Rattle.tune_store.specs.Inside.Lists.{state_with};

use crate::boxed_tune::BoxedTune;
use crate::catalog::{Catalog, Label, all_places};
use crate::command::{Command, Refusal, Reply};
use crate::layout::Layout;
use crate::plans::{Change, Plan, decide};
use crate::tune::Tune;
use crate::tune_store::TuneStore;
use abc_fields::TuneText;
use std::alloc::{AllocError, Global};
use std::marker::Model;
use tiered_vector::TieredVector;
use tune_queries::Sought;
use tune_sets::SetLists;

/// A list of tunes and set lists in memory. A clause sees the state.
#[derive(Drop)]
pub struct ListArchive {
    alloc: Global,
    layout: Layout,
    tunes: TieredVector<BoxedTune>,
    sets: SetLists,
}

impl Model for ListArchive {
    ghost use Rattle.tune_store.specs.State.{State, IsState};

    ghost Value = { State };

    ghost use Rattle.tune_store.specs.Inside.Lists.{state_with};

    ghost view = { λ archive. state_with archive.layout archive.tunes.items archive.sets };

    ghost invariant = { λ archive.
        IsState (state_with archive.layout archive.tunes.items archive.sets) };
}

impl ListArchive {
    /// An archive without a tune. It takes no memory, and keeps the allocator for its tunes.
    pub fn new(alloc: Global) -> ListArchive
        ensures empty { result ≡ empty_state }
        ensures limits { IsState result }
    {
        ListArchive {
            alloc,
            layout: Layout::One,
            tunes: TieredVector::new(alloc),
            sets: SetLists::new(alloc),
        }
    }

    /// How many tunes it holds.
    pub fn len(&self) -> usize
        ensures { result ≡ length self.now.tunes }
    {
        self.tunes.len()
    }
}

impl Catalog for ListArchive {
    ghost use Rattle.std.proofs.Common.{◌≡◌, refl, ap, ◌∙◌};
    ghost use Rattle.std.specs.Prelude.{⊤};
    ghost use Rattle.tune_store.specs.Labels.{labels_of};

    ghost labels = { λ archive. labels_of archive.tunes };

    ghost layout = { λ archive. archive.layout };

    ghost sets = { λ archive. archive.sets };

    ghost state = { λ archive. archive };

    ghost at_hand = { λ _ _. ⊤ };

    ghost fetched = { λ old new. new ≡ old };

    ghost none_fetched = { λ archive. refl };

    ghost more_fetched = { λ old mid new before then. then ∙ before };

    ghost fetched_and_failed = { λ old mid new before then. then };

    ghost labels_stay = { λ old new same. ap (λ state. labels_of state.tunes) same };

    ghost layout_stays = { λ old new same. ap (λ state. state.layout) same };

    ghost sets_stay = { λ old new same. ap (λ state. state.sets) same };

    ghost was_honest = { λ old new same honest. honest };

    ghost state_stays = { λ old new same honest. same };

    ghost labels_are = { λ archive honest. refl };

    ghost layout_is = { λ archive honest. refl };

    ghost sets_are = { λ archive honest. refl };

    fn len(&self) -> usize {
        self.tunes.len()
    }

    fn label(&self, place: usize) -> Label {
        let tune = self.tunes.get(place).tune();
        Label {
            number: tune.number,
            revision: tune.revision,
            length: tune.text.bytes().len() as u32,
        }
    }

    fn place_of(&self, number: u32) -> Option<usize> {
        place_of(&self.tunes, number)
    }

    fn layout(&self) -> Layout {
        self.layout
    }

    fn sets(&self) -> &SetLists {
        &self.sets
    }

    fn fetch(&mut self, _place: usize) -> Result<(), Refusal> {
        Ok(())
    }

    fn text(&self, place: usize) -> &TuneText {
        &self.tunes.get(place).tune().text
    }

    fn candidates(&mut self, _sought: &Sought<'_>) -> Result<Vec<usize>, Refusal> {
        Ok(all_places(self.alloc, self.tunes.len())?)
    }
}

// The place of the first tune whose number is not below this one, or behind the last.
fn place_from(tunes: &TieredVector<BoxedTune>, number: u32) -> usize
    requires { NumbersRiseFrom 0 tunes.now.items }
    ensures { IsPlaceFrom number tunes.now.items result }
{
    let mut first = 0;
    let mut last = tunes.len();
    while first < last {
        let middle = first + (last - first) / 2;
        if tunes.get(middle).tune().number < number {
            first = middle + 1;
        } else {
            last = middle;
        }
    }
    first
}

// Whether the tune of a number is at a place.
fn is_at(tunes: &TieredVector<BoxedTune>, place: usize, number: u32) -> bool
    ensures within { IsTrue result → (place < length tunes.now.items) }
    ensures named { IsTrue result → (d : Tune)
        → (slice_index_or tunes.now.items place d).number ≡ number }
    ensures other { result ≡ false → place < length tunes.now.items → (d : Tune)
        → (slice_index_or tunes.now.items place d).number ≢ number }
{
    place < tunes.len() && tunes.get(place).tune().number == number
}

// Where the tune of a number stands if no number between the first tune's and its own is free.
fn place_without_gaps(tunes: &TieredVector<BoxedTune>, number: u32) -> usize {
    if tunes.len() == 0 {
        return 0;
    }
    number.saturating_sub(tunes.get(0).tune().number) as usize
}

// The place of the tune of a number.
fn place_of(tunes: &TieredVector<BoxedTune>, number: u32) -> Option<usize>
    requires { NumbersRiseFrom 0 tunes.now.items }
    ensures within { IfSome result (λ place. place < length (labels_of tunes.now.items)) }
    ensures found { IfSome result (λ place. (d : Label)
        → (slice_index_or (labels_of tunes.now.items) place d).number ≡ number) }
    ensures none { IfNone result ((place : ℕ) (d : Label)
        → place < length (labels_of tunes.now.items)
        → (slice_index_or (labels_of tunes.now.items) place d).number ≢ number) }
{
    let near = place_without_gaps(tunes, number);
    if is_at(tunes, near, number) {
        return Some(near);
    }
    let place = place_from(tunes, number);
    if is_at(tunes, place, number) {
        Some(place)
    } else {
        None
    }
}

impl TuneStore for ListArchive {
    ghost state = { λ archive. archive };

    ghost sound = { IsState };

    ghost settled = { λ archive file sound honest is_open left. left };

    ghost within = { λ archive sound honest. sound };

    ghost since_at = { λ archive at since file le left. left };

    ghost since_earlier = { λ archive since earlier file le left. left };

    /// It is never closed, and a refusal changes nothing. Commands that take no memory
    /// (`takes_memory`) are never refused for it.
    fn apply(&mut self, command: &Command) -> Result<Reply, Refusal>
        ensures answer { Answers (open_at self.old) command.now result (open_at self.new) }
        ensures memory { IsErrOf result Refusal.OutOfMemory → takes_memory command.now ≡ true }
        ensures refused { OnErr result (self.new ≡ self.old) }
        ensures names { IfErr result (IsRefusalOf command.now) }
        ensures replaced { OnOk result (RaisesReplaced command.now self.old self.new) }
        ensures stays { stays_open result ≡ true }
        ensures stops { StorePasses ⟦<ListArchive as TuneStore>⟧
            self.old self.new (passed self.old command.now result) }
    {
        let plan = decide(self.alloc, self, command)?;
        carry_out(
            self.alloc,
            &mut self.layout,
            &mut self.tunes,
            &mut self.sets,
            plan,
        )
    }
}

// Makes the change of a plan, and gives its reply. The one refusal is out of memory.
fn carry_out(
    alloc: Global,
    layout: &mut Layout,
    tunes: &mut TieredVector<BoxedTune>,
    sets: &mut SetLists,
    plan: Plan,
) -> Result<Reply, Refusal>
    requires rises { NumbersRiseFrom 0 tunes.old.items }
    requires possible { CanChangeTo plan.change layout.old (labels_of tunes.old.items) sets.old }
    ensures { CarriedOut (state_with layout.old tunes.old.items sets.old) plan result
        (state_with layout.new tunes.new.items sets.new) }
{
    let Plan { change, reply } = plan;
    if let Some(change) = change {
        make(alloc, layout, tunes, sets, change)?;
    }
    Ok(reply)
}

// Makes a change. The error is out of memory, and everything stays then.
fn make(
    alloc: Global,
    layout: &mut Layout,
    tunes: &mut TieredVector<BoxedTune>,
    sets: &mut SetLists,
    change: Change,
) -> Result<(), Refusal>
    requires rises { NumbersRiseFrom 0 tunes.old.items }
    requires possible { CanChange change layout.old (labels_of tunes.old.items) sets.old }
    ensures { Made (state_with layout.old tunes.old.items sets.old) change result
        (state_with layout.new tunes.new.items sets.new) }
{
    match change {
        Change::Add { first, texts } => {
            let added = boxed_tunes(alloc, texts, first)?;
            tunes.reserve(added.len())?;
            add_tunes(tunes, added);
        }
        Change::Put { place, tune } => {
            tunes.replace(place, BoxedTune::new(alloc, tune)?);
        }
        Change::Take { place } => {
            tunes.remove(place);
        }
        Change::Move { number, to } => {
            move_tune(tunes, number, to);
            sets.renumbered(number, to);
        }
        Change::NewSet { name } => sets.create(name.as_slice())?,
        Change::AddPlace { name, number } => {
            sets.add(name.as_slice(), number)?;
        }
        Change::CutPlace { name, place } => sets.cut(name.as_slice(), place as usize)?,
        Change::DropSet { name } => sets.drop_set(name.as_slice())?,
        Change::Upgrade => *layout = Layout::Two,
    }
    Ok(())
}

// Tunes of these texts, with numbers from `first` on. The error is out of memory.
fn boxed_tunes(
    alloc: Global,
    texts: Vec<TuneText>,
    first: u32,
) -> Result<Vec<BoxedTune>, AllocError>
    requires { first + vec_len texts < 2 ^ 32 }
    ensures { IfOk result (λ tunes. tunes.items ≡ numbered first texts.items) }
{
    let mut tunes = Vec::with_capacity(alloc, texts.len())?;
    let mut number = first;
    for text in texts {
        let tune = Tune {
            number,
            revision: 1,
            text,
        };
        tunes.push(BoxedTune::new(alloc, tune)?)?;
        number += 1;
    }
    Ok(tunes)
}

// Adds tunes, for which there is room.
fn add_tunes(tunes: &mut TieredVector<BoxedTune>, added: Vec<BoxedTune>)
    requires { length tunes.old.items + vec_len added ≤ tunes.old.room }
    ensures { tunes.new.items ≡ tunes.old.items ++ added.items }
{
    for tune in added {
        tunes.push(tune);
    }
}

// Gives the tune of a number another one, and moves it to where that belongs.
fn move_tune(tunes: &mut TieredVector<BoxedTune>, number: u32, to: u32)
    requires { NumbersRiseFrom 0 tunes.old.items }
    ensures { tunes.new.items ≡ moved number to tunes.old.items }
{
    if let Some(place) = place_of(tunes, number) {
        let mut tune = tunes.remove(place);
        tune.renumber(to);
        let place = place_after(tunes, to);
        tunes.insert(place, tune);
    }
}

// The place of the first tune of a greater number, or behind the last.
fn place_after(tunes: &TieredVector<BoxedTune>, number: u32) -> usize
    requires { NumbersRiseFrom 0 tunes.now.items }
    ensures { IsPlaceAfter number tunes.now.items result }
{
    let place = place_from(tunes, number);
    // For the proof: no place is above what a number may be.
    let _count = tunes.len();
    if is_at(tunes, place, number) {
        place + 1
    } else {
        place
    }
}
