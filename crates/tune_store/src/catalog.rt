// What a store tells of its tunes.
ghost use Rattle.std.specs.Prelude.{◌≡◌, ◌≢◌, ◌<◌, ℕ, List, length, slice_index_or, ⊤};
ghost use Rattle.std.specs.Prelude.{IfOk, IfSome, IfNone, MatchResult};
ghost use Rattle.std.specs.List.{range_with_len};
ghost use Rattle.tune_store.specs.Candidates.{PlacesRise, HoldsFound};
ghost use Rattle.tune_store.specs.Labels.{labels_of, LabelsRise};
ghost use Rattle.tune_store.specs.Plans.{EndsFetch, IsRefusalOfFetch};
ghost use Rattle.tune_store.specs.Limits.{notes_of};
ghost use Rattle.tune_store.specs.State.{State};
ghost use Rattle.tune_store.specs.declared.layout.Layout.{Layout};
ghost use Rattle.tune_store.specs.declared.tune.Tune.{Tune};
ghost use Rattle.tune_store.specs.declared.catalog.Label.{Label};
ghost use Rattle.tune_sets.specs.declared.set_lists.TuneSet.{TuneSet};

use crate::command::Refusal;
use crate::layout::Layout;
use abc_fields::TuneText;
use std::alloc::{AllocError, Global};
use tune_queries::Sought;
use tune_sets::SetLists;

/// What every store knows of a tune without reading its text.
#[derive(Clone, Copy, Debug, PartialEq, Eq)]
pub struct Label {
    /// The tune's number.
    pub number: u32,
    /// Its revision.
    pub revision: u16,
    /// How many bytes its text has.
    pub length: u32,
}

/// What a store tells of what it holds: the label of each tune and the set lists, which it knows at
/// once, and the text of a tune when it is asked for, which may take a device. It is all that is
/// needed to decide a command (`decide`).
///
/// A place is the index of a tune in the list of them by rising number, from 0.
pub trait Catalog {
    /// The labels of its tunes, by rising number. They are known whatever a device does.
    ghost labels: { Self → List Label };

    /// Its layout. It is known whatever a device does.
    ghost layout: { Self → Layout };

    /// Its set lists. They are known whatever a device does.
    ghost sets: { Self → List TuneSet };

    /// What it holds.
    ghost state: { Self → State };

    /// Its device has answered as a device does, in every call so far.
    ghost honest: { Self → Type 0 } = { λ _. ⊤ };

    /// Whether the text of the tune at a place is at hand.
    ghost at_hand: { Self → ℕ → Type 0 };

    /// What is so of it before and after texts were fetched, or there was no memory for one.
    ghost fetched: { Self → Self → Type 0 };

    /// What is so of it before and after a fetch in which the device failed.
    ghost failed: { Self → Self → Type 0 } = { λ _ _. ⊥ };

    /// How many tunes there are. The numbers of their labels rise, whatever a device does.
    fn len(&self) -> usize
        ensures count { result ≡ length (labels self.now) }
        ensures rise { LabelsRise 0 (labels self.now) };

    /// The label of the tune at a place.
    fn label(&self, place: usize) -> Label
        requires { place < length (labels self.now) }
        ensures { (d : Label) → result ≡ slice_index_or (labels self.now) place d };

    /// The place of the tune of a number.
    fn place_of(&self, number: u32) -> Option<usize>
        ensures within { IfSome result (λ place. place < length (labels self.now)) }
        ensures found { IfSome result (λ place. (d : Label)
            → (slice_index_or (labels self.now) place d).number ≡ number) }
        ensures none { IfNone result ((place : ℕ) (d : Label) → place < length (labels self.now)
            → (slice_index_or (labels self.now) place d).number ≢ number) };

    /// Its layout.
    fn layout(&self) -> Layout
        ensures { result ≡ layout self.now };

    /// The set lists.
    fn sets(&self) -> &SetLists
        ensures { result.now ≡ sets self.now };

    /// Makes the text of the tune at a place ready for `text`. It is refused where memory ran out,
    /// or the device failed.
    fn fetch(&mut self, place: usize) -> Result<(), Refusal>
        requires { place < length (labels self.old) }
        ensures { MatchResult result
            (λ _. fetched self.old self.new × at_hand self.new place)
            (λ refusal. IsRefusalOfFetch refusal
            × EndsFetch fetched failed self.old refusal self.new) };

    /// The text of the tune at a place, which was fetched.
    fn text(&self, place: usize) -> &TuneText
        requires at_hand { at_hand self.now place }
        requires within { place < length (labels self.now) }
        ensures { honest self.now
            → (d : Tune) → result.now ≡ (slice_index_or (state self.now).tunes place d).text };

    /// The places of tunes at which a query is to be tried, rising: that of each tune that it finds
    /// is among them. It is refused where memory ran out, or the device failed.
    fn candidates(&mut self, sought: &Sought<'_>) -> Result<Vec<usize>, Refusal>
        ensures { MatchResult result
            (λ places. fetched self.old self.new
            × PlacesRise 0 (length (labels self.old)) places.items
            × (honest self.new → HoldsFound (notes_of (layout self.old)) sought.now
            (state self.old).tunes places.items))
            (λ refusal. IsRefusalOfFetch refusal
            × EndsFetch fetched failed self.old refusal self.new) };

    /// Nothing was fetched.
    ghost none_fetched: { (catalog : Self) → fetched catalog catalog };

    /// Texts were fetched, and more.
    ghost more_fetched: { (old mid new : Self) → fetched old mid → fetched mid new
        → fetched old new };

    /// Texts were fetched, and then the device failed.
    ghost fetched_and_failed: { (old mid new : Self) → fetched old mid → failed mid new
        → failed old new };

    /// A fetch changes no label.
    ghost labels_stay: { (old new : Self) → fetched old new → labels new ≡ labels old };

    /// Nor the layout.
    ghost layout_stays: { (old new : Self) → fetched old new → layout new ≡ layout old };

    /// Nor a set list.
    ghost sets_stay: { (old new : Self) → fetched old new → sets new ≡ sets old };

    /// Whether a device was honest is known only after it answered.
    ghost was_honest: { (old new : Self) → fetched old new → honest new → honest old };

    /// A fetch changes nothing that it holds.
    ghost state_stays: { (old new : Self) → fetched old new → honest new
        → state new ≡ state old };

    /// The labels are those of its tunes.
    ghost labels_are: { (catalog : Self) → honest catalog
        → labels catalog ≡ labels_of (state catalog).tunes };

    /// The layout is that of what it holds.
    ghost layout_is: { (catalog : Self) → honest catalog
        → layout catalog ≡ (state catalog).layout };

    /// The set lists are those that it holds.
    ghost sets_are: { (catalog : Self) → honest catalog
        → sets catalog ≡ (state catalog).sets };
}

/// The places of so many tunes: what a store without an index tries a query at.
pub fn all_places(alloc: Global, count: usize) -> Result<Vec<usize>, AllocError>
    ensures { IfOk result (λ places. places.items ≡ range_with_len 0 count) }
{
    let mut places = Vec::with_capacity(alloc, count)?;
    for place in 0..count {
        places.push(place)?;
    }
    Ok(places)
}
