// What an archive in a file tells of its tunes.
ghost use Rattle.std.specs.Prelude.{◌≡◌, ℕ, List, false, true, Contains, IfOk};
ghost use Rattle.tune_pages.specs.Faults.{AnswersRead};
ghost use Rattle.tune_pages.specs.Kept.{HonestAt};
ghost use Rattle.tune_pages.specs.PageLooks.{LooksAt};
ghost use Rattle.tune_parts.specs.Parts.{Part};
ghost use Rattle.tune_queries.specs.Queries.{finds};
ghost use Rattle.tune_search.specs.Searches.{HoldsSomeTexts, HoldsTexts, SearchParts};
ghost use Rattle.tune_contents.specs.Texts.{HoldsSomeText, HoldsText};
ghost use Rattle.tune_pages.specs.Edited.{stand_of};

use crate::archive::{Archive, Fetched};
use crate::places::places_of_numbers;
use abc_fields::TuneText;
use tune_contents::{place_of, read_tune};
use tune_disk::Disk;
use tune_pages::{Edit, Fault};
use tune_queries::Sought;
use tune_search::SearchIndexes;
use tune_sets::SetLists;
use tune_store::{Catalog, Label, Layout, Refusal};

impl<D: Disk> Catalog for Archive<D> {
    ghost use Rattle.std.proofs.Common.{refl, sym, ap, subst, ◌∙◌};
    ghost use Rattle.tune_pages.specs.Kept.{failures_at};
    ghost use Rattle.tune_format.specs.States.{state_in};
    ghost use Rattle.tune_contents.specs.Holds.{labels_in};
    ghost use Rattle.tune_store.specs.Labels.{labels_of};
    ghost use Rattle.tune_store.specs.StoreStops.{HasFailed};
    ghost use Rattle.tune_archive.specs.Shelf.{state_of};
    ghost use Rattle.tune_archive.specs.Inside.Fetching.{KnowsState, HasFetched, Fetches};
    ghost use Rattle.tune_archive.specs.Inside.Fetching.{FailsFetch};

    ghost labels = { λ archive. labels_in archive.contents.rows.items };

    ghost layout = { λ archive. archive.contents.layout };

    ghost sets = { λ archive. archive.contents.sets };

    ghost state = { state_of D.Disk.state };

    ghost honest = { KnowsState D.Disk.honest D.Disk.state };

    ghost at_hand = { HasFetched D.Disk.honest D.Disk.state };

    ghost fetched = { Fetches D.Disk.honest D.Disk.failures D.Disk.state };

    ghost failed = { FailsFetch D.Disk.honest D.Disk.failures D.Disk.state };

    ghost none_fetched = { λ archive. record {
      was_honest = λ h. h;
      same_state = λ h. refl;
      counted = refl;
      contents = refl;
      closed = refl;
    } };

    ghost more_fetched = { λ old mid new before then. record {
      was_honest = λ h. before.was_honest (then.was_honest h);
      same_state = λ h. then.same_state h ∙ before.same_state (then.was_honest h);
      counted = then.counted ∙ before.counted;
      contents = then.contents ∙ before.contents;
      closed = then.closed ∙ before.closed;
    } };

    ghost fetched_and_failed = { λ old mid new before then. record {
      was_honest = λ h. before.was_honest (then.was_honest h);
      same_state = λ h. then.same_state h ∙ before.same_state (then.was_honest h);
      contents = then.contents ∙ before.contents;
      closed = then.closed;
      cause = λ is_open h. subst
          (λ count. HasFailed count (failures_at D.Disk.failures new.pages.disk)) before.counted
          (then.cause (before.closed ∙ is_open) h);
    } };

    ghost labels_stay = { λ old new fetches.
        ap (λ contents. labels_in contents.rows.items) fetches.contents };

    ghost layout_stays = { λ old new fetches. ap (λ contents. contents.layout) fetches.contents };

    ghost sets_stay = { λ old new fetches. ap (λ contents. contents.sets) fetches.contents };

    ghost was_honest = { λ old new fetches told.
        let same = ap (λ disk. state_in disk.seen) (fetches.same_state told.was_honest) in
        let before = sym fetches.contents in
        record {
          was_honest = fetches.was_honest told.was_honest;
          labels = ap (λ contents. labels_in contents.rows.items) before ∙ told.labels
              ∙ ap (λ s. labels_of s.tunes) same;
          layout = ap (λ contents. contents.layout) before ∙ told.layout
              ∙ ap (λ s. s.layout) same;
          sets = ap (λ contents. contents.sets) before ∙ told.sets ∙ ap (λ s. s.sets) same;
        } };

    ghost state_stays = { λ old new fetches told.
        ap (λ disk. state_in disk.seen) (fetches.same_state told.was_honest) };

    ghost labels_are = { λ archive told. told.labels };

    ghost layout_is = { λ archive told. told.layout };

    ghost sets_are = { λ archive told. told.sets };

    fn len(&self) -> usize {
        self.contents.rows.len()
    }

    fn label(&self, place: usize) -> Label {
        let row = self.contents.rows.at(place);
        Label {
            number: row.number,
            revision: row.revision,
            length: row.length,
        }
    }

    fn place_of(&self, number: u32) -> Option<usize> {
        place_of(&self.contents.rows, number)
    }

    fn layout(&self) -> Layout {
        self.contents.layout
    }

    fn sets(&self) -> &SetLists {
        &self.contents.sets
    }

    fn fetch(&mut self, place: usize) -> Result<(), Refusal> {
        if self.closed {
            return Err(Refusal::Device);
        }
        let layout = self.contents.layout;
        let first = self.contents.rows.at(place).first;
        self.fetched = None;
        match read_text(&mut self.edit, layout, first) {
            Ok(text) => {
                self.fetched = Some(Fetched { place, text });
                Ok(())
            }
            Err(Fault::OutOfMemory) => Err(Refusal::OutOfMemory),
            Err(_) => {
                self.closed = true;
                Err(Refusal::Device)
            }
        }
    }

    fn text(&self, _place: usize) -> &TuneText {
        match &self.fetched {
            Some(fetched) => &fetched.text,
            None => unreachable!(),
        }
    }

    fn candidates(&mut self, sought: &Sought<'_>) -> Result<Vec<usize>, Refusal> {
        if self.closed {
            return Err(Refusal::Device);
        }
        match values_for(&mut self.edit, &self.contents.searches, sought) {
            Ok(numbers) => Ok(places_of_numbers(self.alloc, &self.contents.rows, numbers)?),
            Err(Fault::OutOfMemory) => Err(Refusal::OutOfMemory),
            Err(_) => {
                self.closed = true;
                Err(Refusal::Device)
            }
        }
    }
}

// Reads the text of the tune whose chain begins at `first`.
fn read_text<D: Disk>(edit: &mut Edit<D>, layout: Layout, first: u32) -> Result<TuneText, Fault>
    requires open { edit.old.base.closed ≡ false }
    requires there { HonestAt D.honest edit.old.base.disk
        → HoldsSomeText layout (stand_of edit.old.base) first }
    ensures text { IfOk result (λ text. HonestAt D.honest edit.new.base.disk
        → (revision : ℕ) (other : List ℕ)
        → HoldsText layout (stand_of edit.old.base) first revision other → text ≡ other) }
    ensures looks { LooksAt D.honest D.failures D.state result edit.old.base edit.new.base }
    ensures answer { AnswersRead result edit.old.base.closed edit.new.base.closed }
{
    edit.begin()?;
    read_tune(edit, layout, first)
}

// The numbers of tunes at which a query is to be tried: that of each tune that it finds is among
// them.
fn values_for<D: Disk>(
    edit: &mut Edit<D>,
    searches: &SearchIndexes,
    sought: &Sought<'_>,
) -> Result<Vec<u32>, Fault>
    requires open { edit.old.base.closed ≡ false }
    requires holds { HonestAt D.honest edit.old.base.disk
        → HoldsSomeTexts (stand_of edit.old.base) searches.now }
    ensures finds { IfOk result (λ values. HonestAt D.honest edit.new.base.disk
        → (before after : List Part) (parts : SearchParts) (tunes : List (ℕ × List ℕ))
        → HoldsTexts (stand_of edit.old.base) searches.now before after parts tunes
        → (tune : ℕ × List ℕ) → Contains tunes tune
        → finds searches.now.notes sought.now tune.1 ≡ true → Contains values.items tune.0) }
    ensures looks { LooksAt D.honest D.failures D.state result edit.old.base edit.new.base }
    ensures answer { AnswersRead result edit.old.base.closed edit.new.base.closed }
{
    edit.begin()?;
    searches.candidates(edit, sought)
}
