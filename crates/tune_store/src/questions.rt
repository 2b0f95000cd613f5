// Answers questions.
ghost use Rattle.std.specs.Prelude.{◌≡◌, ◌<◌, ℕ, List, [], ◌∷◌, ◌++◌, map, None, Some, Ok, Err};
ghost use Rattle.std.specs.Prelude.{◌≤◌, length, slice_index_or};
ghost use Rattle.std.specs.Prelude.{if◌then◌else◌, IfOk, IfErr, OnOk, MatchResult};
ghost use Rattle.abc_fields.specs.Fields.{titles_of};
ghost use Rattle.tune_incipit.specs.Limits.{fewest_notes, most_notes};
ghost use Rattle.tune_queries.specs.Queries.{finds};
ghost use Rattle.tune_sets.specs.Calls.{places_of, set_rows_of};
ghost use Rattle.tune_titles.specs.ShownRows.{shown_row};
ghost use Rattle.tune_store.specs.Limits.{notes_of};
ghost use Rattle.tune_store.specs.State.{State, NumbersRiseFrom, tune_at};
ghost use Rattle.tune_store.specs.Questions.{shown, find, first_shown, titles_from};
ghost use Rattle.tune_store.specs.Questions.{titled, row_found, set_shown, exported, set_exported};
ghost use Rattle.tune_store.specs.Plans.{PlansOutcome, EndsFetch, IsRefusalOfPlan};
ghost use Rattle.tune_store.specs.Plans.{IsRefusalOfFetch};
ghost use Rattle.tune_store.specs.Inside.Questions.{shown_title};
ghost use Rattle.tune_store.specs.declared.command.Reply.TheVariants as reply;
ghost use Rattle.tune_store.specs.declared.tune.Tune.{Tune};

use crate::catalog::Catalog;
use crate::command::{Command, Refusal, Reply};
use crate::index_rows::{IndexRow, RowList};
use crate::plans::Plan;
use crate::set_plans::held_name;
use crate::tune::Tune;
use abc_fields::{TuneText, fields};
use std::alloc::{AllocError, Global};
use tune_books::BookWriter;
use tune_queries::{Query, Sought};
use tune_titles::{ShownRow, index_title, sort_shown};

// How many bytes a written book has ahead of its first tune, and ahead of a text at most: an empty
// line, and the line `X:` with a number of ten digits.
const HEADER_BYTES: usize = 9;

const FRONT_BYTES: usize = 14;

// A copy of the tune of a number.
pub(crate) fn show<C: Catalog>(alloc: Global, catalog: &mut C, number: u32) -> Result<Plan, Refusal>
    ensures planned { let state = C.state catalog.old in
        C.honest catalog.new → NumbersRiseFrom 0 state.tunes
        → PlansOutcome state result (state, shown number (tune_at number state.tunes)) }
    ensures names { IfErr result (IsRefusalOfPlan (Command.Show number)) }
    ensures asks { IfOk result (λ plan. plan.change ≡ None) }
    ensures fetched { MatchResult result (λ _. C.fetched catalog.old catalog.new)
        (λ refusal. EndsFetch C.fetched C.failed catalog.old refusal catalog.new) }
{
    let Some(place) = catalog.place_of(number) else {
        return Err(Refusal::Unknown { number });
    };
    let revision = catalog.label(place).revision;
    catalog.fetch(place)?;
    let text = catalog.text(place).copy(alloc)?;
    let tune = Tune {
        number,
        revision,
        text,
    };
    Ok(Plan::answer(Reply::Shown(tune)))
}

// The rows of the tunes that a query finds.
pub(crate) fn find<C: Catalog>(
    alloc: Global,
    catalog: &mut C,
    query: &Query,
) -> Result<Plan, Refusal>
    ensures planned { let state = C.state catalog.old in
        C.honest catalog.new → PlansOutcome state result
        (state, find (notes_of state.layout) query.now state.tunes) }
    ensures names { IfErr result (IsRefusalOfPlan (Command.Find query.now)) }
    ensures asks { IfOk result (λ plan. plan.change ≡ None) }
    ensures fetched { MatchResult result (λ _. C.fetched catalog.old catalog.new)
        (λ refusal. EndsFetch C.fetched C.failed catalog.old refusal catalog.new) }
{
    let notes = catalog.layout().notes();
    let sought = query.sought(notes)?;
    let mut rows = Vec::new(alloc);
    let places = catalog.candidates(&sought)?;
    for place in &places {
        try_at(alloc, catalog, &mut rows, &sought, notes, *place)?;
    }
    Ok(Plan::answer(Reply::Found(RowList::from_vec(rows))))
}

// Tries a query at the tune at a place, and puts its row behind these rows where it is found.
fn try_at<C: Catalog>(
    alloc: Global,
    catalog: &mut C,
    rows: &mut Vec<IndexRow>,
    sought: &Sought,
    notes: usize,
    place: usize,
) -> Result<(), Refusal>
    requires place { place < length (C.labels catalog.old) }
    requires few { fewest_notes ≤ notes }
    requires many { notes ≤ most_notes }
    ensures row { OnOk result (C.honest catalog.new → (d : Tune)
        → let tune = slice_index_or (C.state catalog.old).tunes place d in
        rows.new.items ≡ rows.old.items ++ (if finds notes sought.now tune.text
        then record { number = tune.number; title = first_shown (titles_of tune.text) } ∷ []
        else [])) }
    ensures names { IfErr result IsRefusalOfFetch }
    ensures fetched { MatchResult result (λ _. C.fetched catalog.old catalog.new)
        (λ refusal. EndsFetch C.fetched C.failed catalog.old refusal catalog.new) }
{
    let number = catalog.label(place).number;
    catalog.fetch(place)?;
    add_if_found(alloc, rows, sought, notes, number, catalog.text(place))?;
    Ok(())
}

// Puts the row of a tune behind these rows, where a query finds it.
fn add_if_found(
    alloc: Global,
    rows: &mut Vec<IndexRow>,
    sought: &Sought,
    notes: usize,
    number: u32,
    text: &TuneText,
) -> Result<(), AllocError>
    requires few { fewest_notes ≤ notes }
    requires many { notes ≤ most_notes }
    ensures { OnOk result (rows.new.items ≡ rows.old.items
        ++ (if finds notes sought.now text.now
        then record { number = number; title = first_shown (titles_of text.now) } ∷ [] else [])) }
{
    if sought.matches(notes, text) {
        rows.push(row_of(alloc, number, text)?)?;
    }
    Ok(())
}

// The row of a tune: its number, and its first title.
fn row_of(alloc: Global, number: u32, text: &TuneText) -> Result<IndexRow, AllocError>
    ensures { IfOk result (λ row.
        row ≡ record { number = number; title = first_shown (titles_of text.now) }) }
{
    let title = match fields(text).titles.as_slice() {
        [] => None,
        [first, ..] => Some(index_title(alloc, first)?),
    };
    Ok(IndexRow { number, title })
}

// The titles of all tunes, in the order of an index.
pub(crate) fn titles<C: Catalog>(alloc: Global, catalog: &mut C) -> Result<Plan, Refusal>
    ensures planned { let state = C.state catalog.old in C.honest catalog.new
        → PlansOutcome state result (state, Ok (reply.Titled (titled state.tunes))) }
    ensures names { IfErr result IsRefusalOfFetch }
    ensures asks { IfOk result (λ plan. plan.change ≡ None) }
    ensures fetched { MatchResult result (λ _. C.fetched catalog.old catalog.new)
        (λ refusal. EndsFetch C.fetched C.failed catalog.old refusal catalog.new) }
{
    let mut rows = Vec::new(alloc);
    for place in 0..catalog.len() {
        let number = catalog.label(place).number;
        catalog.fetch(place)?;
        add_titles(alloc, &mut rows, number, catalog.text(place))?;
    }
    sort_shown(&mut rows)?;
    Ok(Plan::answer(Reply::Titled(shown_rows(alloc, rows)?)))
}

// Puts the titles of a tune behind these.
fn add_titles(
    alloc: Global,
    rows: &mut Vec<ShownRow>,
    number: u32,
    text: &TuneText,
) -> Result<(), AllocError>
    ensures { OnOk result (rows.new.items
        ≡ rows.old.items ++ map shown_row (titles_from number 1 (titles_of text.now))) }
{
    let mut place = 1;
    for title in fields(text).titles.as_slice() {
        rows.push(ShownRow::new(alloc, title, number, place)?)?;
        place += 1;
    }
    Ok(())
}

// The rows of titles, without what they were put in order by. The titles stay where they are in
// memory.
fn shown_rows(alloc: Global, rows: Vec<ShownRow>) -> Result<RowList, AllocError>
    ensures { IfOk result (λ shown. shown ≡ map shown_title rows.items) }
{
    let mut shown = Vec::with_capacity(alloc, rows.len())?;
    for row in rows {
        shown.push(IndexRow {
            number: row.number(),
            title: Some(row.into_title()),
        })?;
    }
    Ok(RowList::from_vec(shown))
}

// The names of the set lists, and how many places each has.
pub(crate) fn sets<C: Catalog>(catalog: &C) -> Result<Plan, Refusal>
    ensures planned { (state : State) → C.sets catalog.now ≡ state.sets
        → PlansOutcome state result (state, Ok (reply.Sets (set_rows_of state.sets))) }
    ensures names { IfErr result (λ refusal. refusal ≡ Refusal.OutOfMemory) }
    ensures asks { IfOk result (λ plan. plan.change ≡ None) }
{
    let rows = catalog.sets().rows()?;
    Ok(Plan::answer(Reply::Sets(rows)))
}

// The tunes at the places of a set list.
pub(crate) fn set_show<C: Catalog>(
    alloc: Global,
    catalog: &mut C,
    name: &[u8],
) -> Result<Plan, Refusal>
    ensures planned { let state = C.state catalog.old in
        C.honest catalog.new → NumbersRiseFrom 0 state.tunes → PlansOutcome state result
        (state, set_shown name.now state.tunes (places_of name.now state.sets)) }
    ensures names { IfErr result (IsRefusalOfPlan (Command.SetShow name.now)) }
    ensures asks { IfOk result (λ plan. plan.change ≡ None) }
    ensures fetched { MatchResult result (λ _. C.fetched catalog.old catalog.new)
        (λ refusal. EndsFetch C.fetched C.failed catalog.old refusal catalog.new) }
{
    let sets = catalog.sets();
    let numbers = Vec::from_slice(alloc, sets.places(name)?)?;
    let held = held_name(sets, name)?;
    let mut rows = Vec::with_capacity(alloc, numbers.len())?;
    for number in &numbers {
        rows.push(row_at(alloc, catalog, *number)?)?;
    }
    let rows = RowList::from_vec(rows);
    Ok(Plan::answer(Reply::SetShown { name: held, rows }))
}

// The row of the tune of a number; the number alone where there is none.
fn row_at<C: Catalog>(alloc: Global, catalog: &mut C, number: u32) -> Result<IndexRow, Refusal>
    ensures row { let state = C.state catalog.old in
        C.honest catalog.new → NumbersRiseFrom 0 state.tunes
        → IfOk result (λ row. row ≡ row_found number (tune_at number state.tunes)) }
    ensures names { IfErr result IsRefusalOfFetch }
    ensures fetched { MatchResult result (λ _. C.fetched catalog.old catalog.new)
        (λ refusal. EndsFetch C.fetched C.failed catalog.old refusal catalog.new) }
{
    let Some(place) = catalog.place_of(number) else {
        return Ok(IndexRow {
            number,
            title: None,
        });
    };
    catalog.fetch(place)?;
    Ok(row_of(alloc, number, catalog.text(place))?)
}

// How many bytes the written book of all tunes has at most.
fn room_for_book<C: Catalog>(catalog: &C) -> usize {
    let mut room = HEADER_BYTES;
    for place in 0..catalog.len() {
        let text = catalog.label(place).length as usize;
        room = room.saturating_add(FRONT_BYTES + text);
    }
    room
}

// The written book of all tunes. Room for all of it is asked for before a text is fetched.
pub(crate) fn export<C: Catalog>(alloc: Global, catalog: &mut C) -> Result<Plan, Refusal>
    ensures planned { let state = C.state catalog.old in C.honest catalog.new
        → PlansOutcome state result (state, Ok (reply.Exported (exported state.tunes))) }
    ensures names { IfErr result IsRefusalOfFetch }
    ensures asks { IfOk result (λ plan. plan.change ≡ None) }
    ensures fetched { MatchResult result (λ _. C.fetched catalog.old catalog.new)
        (λ refusal. EndsFetch C.fetched C.failed catalog.old refusal catalog.new) }
{
    let mut book = BookWriter::with_room(alloc, room_for_book(catalog))?;
    for place in 0..catalog.len() {
        let number = catalog.label(place).number;
        catalog.fetch(place)?;
        book = book.with_tune(number, catalog.text(place))?;
    }
    Ok(Plan::answer(Reply::Exported(book.into_book())))
}

// The written set of a set list.
pub(crate) fn export_set<C: Catalog>(
    alloc: Global,
    catalog: &mut C,
    name: &[u8],
) -> Result<Plan, Refusal>
    ensures planned { let state = C.state catalog.old in
        C.honest catalog.new → NumbersRiseFrom 0 state.tunes → PlansOutcome state result
        (state, set_exported name.now state.tunes (places_of name.now state.sets)) }
    ensures names { IfErr result (IsRefusalOfPlan (Command.ExportSet name.now)) }
    ensures asks { IfOk result (λ plan. plan.change ≡ None) }
    ensures fetched { MatchResult result (λ _. C.fetched catalog.old catalog.new)
        (λ refusal. EndsFetch C.fetched C.failed catalog.old refusal catalog.new) }
{
    let sets = catalog.sets();
    // For the proof: a set list has few places, so a place is a small number.
    let _limits = sets.as_slice();
    let numbers = Vec::from_slice(alloc, sets.places(name)?)?;
    let held = held_name(sets, name)?;
    let mut book = BookWriter::of_set(alloc, name)?;
    let mut place = 1;
    for number in &numbers {
        if let Some(index) = catalog.place_of(*number) {
            catalog.fetch(index)?;
            book = book.with_tune(place, catalog.text(index))?;
            place += 1;
        }
    }
    let book = book.into_book();
    Ok(Plan::answer(Reply::SetExported { name: held, book }))
}
