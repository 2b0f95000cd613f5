// Decides commands on tunes.
ghost use Rattle.std.specs.Prelude.{◌≡◌, ◌≢◌, ◌⊎◌, ◌+◌, ◌<◌, ℕ, ◌∷◌, [], List, length, false, Ok};
ghost use Rattle.std.specs.Prelude.{IfOk, IfErr};
ghost use Rattle.std.specs.List.{AllByRecursion};
ghost use Rattle.abc_fields.specs.Books.{book_answer};
ghost use Rattle.tune_sets.specs.Sets.{holder};
ghost use Rattle.tune_store.specs.declared.tune.Tune.{Tune};
ghost use Rattle.tune_store.specs.Limits.{longest_text};
ghost use Rattle.tune_store.specs.State.{State, IsTunes, NumbersRiseFrom, greatest, tune_at};
ghost use Rattle.tune_store.specs.TuneSteps.{tunes_step, import_book, replace_book, replace_tune};
ghost use Rattle.tune_store.specs.TuneSteps.{delete_tune, renumber, upgraded_state};
ghost use Rattle.tune_store.specs.Labels.{labels_of};
ghost use Rattle.tune_store.specs.Answers.{IsRefusalOfOwn};
ghost use Rattle.tune_store.specs.Plans.{PlansOutcome, CanChangeTo, grows};
ghost use Rattle.tune_store.specs.Inside.Plans.{AltersLabels, IsOwnOrMemory};

use crate::catalog::Catalog;
use crate::command::{Command, Refusal, Reply};
use crate::layout::Layout;
use crate::plans::{Change, Plan};
use crate::tune::{GREATEST_NUMBER, GREATEST_REVISION, Tune};
use abc_fields::{JudgedBook, TuneText, judge_book};
use std::alloc::Global;

// What a book of new tunes asks for.
pub(crate) fn import<C: Catalog>(alloc: Global, catalog: &C, book: &[u8]) -> Result<Plan, Refusal>
    ensures planned { (state : State) → IsTunes state.layout state.tunes
        → C.layout catalog.now ≡ state.layout
        → labels_of state.tunes ≡ C.labels catalog.now → PlansOutcome state result
        (tunes_step state (import_book state.layout state.tunes
        (book_answer (longest_text state.layout) book.now))) }
    ensures names { IfErr result (IsOwnOrMemory (Command.Import book.now)) }
    ensures possible { IfOk result
        (λ plan. CanChangeTo plan.change
        (C.layout catalog.now) (C.labels catalog.now) (C.sets catalog.now)) }
    ensures alters { IfOk result (λ plan. AltersLabels plan.change (C.labels catalog.now)) }
{
    let layout = catalog.layout();
    let judged = judge_book(alloc, book, layout.longest_text())?;
    let count = judged.count();
    let len = catalog.len();
    let most = layout.most_tunes();
    if count > most || len > most - count {
        return Err(Refusal::ArchiveFull);
    }
    let greatest = last_number(catalog);
    let last = greatest as usize + count;
    if last > GREATEST_NUMBER as usize {
        return Err(Refusal::NumbersSpent);
    }
    let first = greatest + 1;
    let last = last as u32;
    let texts = judged.texts(alloc)?;
    let add = Change::Add { first, texts };
    Ok(Plan::change(add, Reply::Imported { first, last }))
}

// The greatest number, or 0.
fn last_number<C: Catalog>(catalog: &C) -> u32
    ensures greatest { (tunes : List Tune) → NumbersRiseFrom 0 tunes
        → labels_of tunes ≡ C.labels catalog.now → result ≡ greatest tunes }
    ensures above { AllByRecursion (λ label. label.number < result + 1) (C.labels catalog.now) }
{
    let len = catalog.len();
    if len == 0 {
        return 0;
    }
    catalog.label(len - 1).number
}

// What a book for one tune asks for.
pub(crate) fn replace<C: Catalog>(
    alloc: Global,
    catalog: &C,
    number: u32,
    revision: u32,
    book: &[u8],
) -> Result<Plan, Refusal>
    ensures planned { (state : State) → IsTunes state.layout state.tunes
        → C.layout catalog.now ≡ state.layout
        → labels_of state.tunes ≡ C.labels catalog.now → PlansOutcome state result
        (tunes_step state (replace_book state.tunes number revision
        (book_answer (longest_text state.layout) book.now))) }
    ensures names { IfErr result (IsOwnOrMemory (Command.Replace number revision book.now)) }
    ensures possible { IfOk result
        (λ plan. CanChangeTo plan.change
        (C.layout catalog.now) (C.labels catalog.now) (C.sets catalog.now)) }
    ensures alters { IfOk result (λ plan. AltersLabels plan.change (C.labels catalog.now)) }
{
    let judged = judge_book(alloc, book, catalog.layout().longest_text())?;
    let text = only_text(alloc, &judged)?;
    replace_text(catalog, number, revision, text)
}

// The one text of a book. It is made only where the book has no other.
fn only_text(alloc: Global, judged: &JudgedBook) -> Result<TuneText, Refusal>
    ensures one { IfOk result (λ text. judged.now ≡ text ∷ []) }
    ensures count { IfErr result (λ refusal. (refusal ≡ Refusal.OutOfMemory)
        ⊎ ((refusal ≡ Refusal.NotOne (length judged.now)) × (length judged.now ≢ 1))) }
{
    let count = judged.count();
    if count != 1 {
        return Err(Refusal::NotOne { count });
    }
    match judged.texts(alloc)?.pop() {
        Some(text) => Ok(text),
        None => Err(Refusal::NotOne { count }),
    }
}

// What a text in the place of a tune's asks for.
fn replace_text<C: Catalog>(
    catalog: &C,
    number: u32,
    revision: u32,
    text: TuneText,
) -> Result<Plan, Refusal>
    ensures planned { (state : State) → NumbersRiseFrom 0 state.tunes
        → labels_of state.tunes ≡ C.labels catalog.now → PlansOutcome state result (tunes_step state
        (replace_tune state.tunes number revision text (tune_at number state.tunes))) }
    ensures names { IfErr result (λ refusal.
        (book : List ℕ) → IsOwnOrMemory (Command.Replace number revision book) refusal) }
    ensures possible { IfOk result
        (λ plan. CanChangeTo plan.change
        (C.layout catalog.now) (C.labels catalog.now) (C.sets catalog.now)) }
    ensures alters { IfOk result (λ plan. AltersLabels plan.change (C.labels catalog.now)) }
{
    let Some(place) = catalog.place_of(number) else {
        return Err(Refusal::Unknown { number });
    };
    let current = catalog.label(place).revision;
    if u32::from(current) != revision {
        return Err(Refusal::Stale { revision: current });
    }
    if current >= GREATEST_REVISION {
        return Err(Refusal::Worn);
    }
    let revision = current + 1;
    let tune = Tune {
        number,
        revision,
        text,
    };
    let put = Change::Put { place, tune };
    Ok(Plan::change(put, Reply::Replaced { number, revision }))
}

// What taking out a tune asks for.
pub(crate) fn delete<C: Catalog>(catalog: &C, number: u32) -> Result<Plan, Refusal>
    ensures planned { (state : State) → NumbersRiseFrom 0 state.tunes
        → labels_of state.tunes ≡ C.labels catalog.now → C.sets catalog.now ≡ state.sets
        → PlansOutcome state result (tunes_step state (delete_tune state.tunes number
        (holder number state.sets) (tune_at number state.tunes))) }
    ensures names { IfErr result (IsRefusalOfOwn (Command.Delete number)) }
    ensures possible { IfOk result
        (λ plan. CanChangeTo plan.change
        (C.layout catalog.now) (C.labels catalog.now) (C.sets catalog.now)) }
    ensures alters { IfOk result (λ plan. AltersLabels plan.change (C.labels catalog.now)) }
    ensures takes { IfOk result (λ plan. grows plan.change ≡ false) }
{
    let Some(place) = catalog.place_of(number) else {
        return Err(Refusal::Unknown { number });
    };
    if let Some(name) = catalog.sets().holds(number) {
        return Err(Refusal::InSet { name });
    }
    Ok(Plan::change(Change::Take { place }, Reply::Deleted { number }))
}

// What another number for a tune asks for.
pub(crate) fn renumber<C: Catalog>(catalog: &C, number: u32, to: u32) -> Result<Plan, Refusal>
    ensures planned { (state : State) → NumbersRiseFrom 0 state.tunes
        → labels_of state.tunes ≡ C.labels catalog.now
        → PlansOutcome state result (renumber state number to) }
    ensures names { IfErr result (IsRefusalOfOwn (Command.Renumber number to)) }
    ensures possible { IfOk result
        (λ plan. CanChangeTo plan.change
        (C.layout catalog.now) (C.labels catalog.now) (C.sets catalog.now)) }
    ensures alters { IfOk result (λ plan. AltersLabels plan.change (C.labels catalog.now)) }
    ensures takes { IfOk result (λ plan. grows plan.change ≡ false) }
{
    if to == 0 || to > GREATEST_NUMBER {
        return Err(Refusal::BadNumber);
    }
    if catalog.place_of(number).is_none() {
        return Err(Refusal::Unknown { number });
    }
    if to == number {
        return Ok(Plan::answer(Reply::Renumbered { number, to }));
    }
    if catalog.place_of(to).is_some() {
        return Err(Refusal::Taken { number: to });
    }
    let moves = Change::Move { number, to };
    Ok(Plan::change(moves, Reply::Renumbered { number, to }))
}

// What layout 2 asks for.
pub(crate) fn upgrade<C: Catalog>(catalog: &C) -> Plan
    ensures planned { (state : State) → C.layout catalog.now ≡ state.layout
        → PlansOutcome state (Ok result) (upgraded_state state, Ok Reply.Upgraded) }
    ensures possible { CanChangeTo result.change
        (C.layout catalog.now) (C.labels catalog.now) (C.sets catalog.now) }
    ensures alters { AltersLabels result.change (C.labels catalog.now) }
    ensures takes { grows result.change ≡ false }
{
    match catalog.layout() {
        Layout::One => Plan::change(Change::Upgrade, Reply::Upgraded),
        Layout::Two => Plan::answer(Reply::Upgraded),
    }
}
