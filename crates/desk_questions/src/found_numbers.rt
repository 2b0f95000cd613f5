// The tunes that conditions give.
ghost use Rattle.std.specs.Prelude.{◌≡◌, ◌++◌, map, filter, true, IfOk, OnOk};
ghost use Rattle.tune_asking.specs.AskingCalls.{Call};
ghost use Rattle.desk_questions.specs.Inside.QuestionCalls.{added_by_query, added_by_title};
ghost use Rattle.desk_questions.specs.Inside.QuestionCalls.{AreNumbersGiven, AreFound};
ghost use Rattle.desk_questions.specs.Inside.QuestionCalls.{RefusesNothing};
ghost use Rattle.std.specs.List.{list_any};
ghost use Rattle.tune_queries.specs.Queries.{is_bad};
ghost use Rattle.desk_questions.specs.Conditions.{asks_nothing};
ghost use Rattle.desk_questions.specs.Inside.QuestionCalls.{has_row_title, AreFoundBySome};
ghost use Rattle.desk_questions.specs.Inside.SoughtWords.{words_sought};

use crate::conditions::{has_no_words, has_title, looks_at_titles, queries_of, words_of};
use crate::numbers::{add_numbers, in_both};
use desk_lists::FoldedWords;
use desk_terms::Condition;
use std::alloc::{AllocError, Global};
use tune_asking::{all_numbers, ask};
use tune_queries::Query;
use tune_store::{Catalog, Command, IndexRow, Refusal, Reply, TuneStore};

// Puts the numbers of the tunes that a query finds behind these.
fn add_found<S: TuneStore>(
    store: &mut S,
    query: Query,
    numbers: &mut Vec<u32>,
) -> Result<(), Refusal>
    ensures { Call S.TuneStore store.old store.new
        (added_by_query query numbers.old.items numbers.new.items) result }
{
    match ask(store, &Command::Find(query))? {
        Reply::Found(rows) => Ok(add_numbers(numbers, rows.as_slice())?),
        _ => Ok(()),
    }
}

// Puts the numbers of the rows that have a title that a condition gives behind these.
fn add_titled(
    alloc: Global,
    numbers: &mut Vec<u32>,
    rows: &[IndexRow],
    condition: &Condition,
    words: &FoldedWords,
) -> Result<(), AllocError>
    requires { words.now ≡ words_sought condition.now }
    ensures { OnOk result (numbers.new.items ≡ numbers.old.items
        ++ map (λ row. row.number) (filter (has_row_title condition.now) rows.now)) }
{
    for row in rows {
        if has_row_title(alloc, row, condition, words)? {
            numbers.push(row.number)?;
        }
    }
    Ok(())
}

// Whether the title of a row is one that a condition gives.
fn has_row_title(
    alloc: Global,
    row: &IndexRow,
    condition: &Condition,
    words: &FoldedWords,
) -> Result<bool, AllocError>
    requires { words.now ≡ words_sought condition.now }
    ensures { IfOk result (λ has. has ≡ has_row_title condition.now row.now) }
{
    match &row.title {
        Some(title) => has_title(alloc, condition, words, title.as_slice()),
        None => Ok(false),
    }
}

// Puts the numbers of the tunes that have a title that a condition gives behind these.
fn add_by_title<S: TuneStore>(
    alloc: Global,
    store: &mut S,
    condition: &Condition,
    numbers: &mut Vec<u32>,
) -> Result<(), Refusal>
    ensures { Call S.TuneStore store.old store.new
        (added_by_title condition.now numbers.old.items numbers.new.items) result }
{
    if !looks_at_titles(condition) {
        return Ok(());
    }
    let words = words_of(alloc, condition)?;
    match ask(store, &Command::Titles)? {
        Reply::Titled(rows) => Ok(add_titled(alloc, numbers, rows.as_slice(), condition, &words)?),
        _ => Ok(()),
    }
}

// The numbers of the tunes that some of these queries find.
fn found_by_some<S: TuneStore>(
    alloc: Global,
    store: &mut S,
    queries: Vec<Query>,
) -> Result<Vec<u32>, Refusal>
    ensures { Call S.TuneStore store.old store.new (record {
      good = λ state numbers. AreFoundBySome queries.items state numbers.items;
      refused = λ state refusal. (list_any is_bad queries.items ≡ true)
          × (refusal ≡ Refusal.BadQuery);
    }) result }
{
    let mut numbers = Vec::new(alloc);
    for query in queries {
        add_found(store, query, &mut numbers)?;
    }
    Ok(numbers)
}

// The numbers of the tunes that a condition gives.
fn given<S: TuneStore>(
    alloc: Global,
    store: &mut S,
    condition: &Condition,
) -> Result<Vec<u32>, Refusal>
    ensures { Call S.TuneStore store.old store.new (record {
      good = λ state numbers. AreNumbersGiven condition.now state numbers.items;
      refused = λ state refusal. (asks_nothing condition.now ≡ true)
          × (refusal ≡ Refusal.BadQuery);
    }) result }
{
    if has_no_words(condition) {
        return Err(Refusal::BadQuery);
    }
    let queries = queries_of(alloc, condition)?;
    let mut numbers = found_by_some(alloc, store, queries)?;
    add_by_title(alloc, store, condition, &mut numbers)?;
    Ok(numbers)
}

// The numbers of the tunes that all conditions give, rising.
pub(crate) fn found<S: TuneStore + Catalog>(
    alloc: Global,
    store: &mut S,
    conditions: &[Condition],
) -> Result<Vec<u32>, Refusal>
    ensures { Call S.TuneStore store.old store.new (record {
      good = λ state numbers. AreFound conditions.now (S.Catalog.labels store.old) state
          numbers.items;
      refused = λ state refusal. RefusesNothing conditions.now refusal;
    }) result }
{
    let mut numbers = all_numbers(alloc, store)?;
    for condition in conditions {
        let given = given(alloc, store, condition)?;
        let both = in_both(alloc, numbers.as_slice(), given)?;
        numbers = both;
    }
    Ok(numbers)
}
