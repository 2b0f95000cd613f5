// What a command asks for.
ghost use Rattle.std.specs.Prelude.{◌≡◌, map, Some, None, Ok, option_map};
ghost use Rattle.clap.specs.Words.{rows_of, found_of};
ghost use Rattle.desk_words.specs.WordAnswers.{GivesWanted};
ghost use Rattle.desk_words.specs.SoughtConditions.{sought_by};
ghost use Rattle.desk_words.specs.OrderMeanings.{asking_by, place_by, meaning_by, verb_of};
ghost use Rattle.desk_words.specs.OrderMeanings.{finds_in};
ghost use Rattle.desk_words.specs.OrderMeanings.{some_sought, counts_in, chooses_in, lists_in};
ghost use Rattle.desk_words.specs.OrderMeanings.{set_in};
ghost use Rattle.desk_words.specs.OrderMeanings.{shows_in, exports_by, exports_in, place_in};
ghost use Rattle.desk_words.specs.OrderMeanings.{writing};
ghost use Rattle.desk_words.specs.OrderMeanings.{checks_by, checks_in, drafts_in, order_meaning};
ghost use Rattle.desk_words.specs.OrderMeanings.{telling};
ghost use Rattle.desk_words.specs.OrderMeanings.{lists_titles, lists_sets, lists_twins};
ghost use Rattle.desk_words.specs.OrderMeanings.{books_in, dumps, places_in};
ghost use Rattle.desk_words.specs.NamedMeanings.{meaning_named};
ghost use Rattle.desk_words.specs.Inside.Sorting.{texts_behind};

use crate::asked::{Order, OrderFault, Target};
use crate::change_meanings::change_named;
use crate::found::{first_given, form, given, is_set, name, number, numbers, path, paths, value};
use crate::sought_conditions::conditions;
use clap::ArgMatches;
use desk_terms::{Condition, Question};
use std::alloc::Global;

// The commands that ask, or write a result.
#[derive(Clone, Copy)]
pub(crate) enum Verb {
    Find,
    Count,
    Random,
    Titles,
    Sets,
    Set,
    Twins,
    Show,
    Check,
    Export,
    Dump,
    ImportCheck,
    Place,
    Draft,
    Ask,
}

fn verb_of(name: &str) -> Option<Verb>
    ensures { result ≡ verb_of name.now }
{
    match name {
        "find" => Some(Verb::Find),
        "count" => Some(Verb::Count),
        "random" => Some(Verb::Random),
        "titles" => Some(Verb::Titles),
        "sets" => Some(Verb::Sets),
        "set" => Some(Verb::Set),
        "twins" => Some(Verb::Twins),
        "show" => Some(Verb::Show),
        "check" => Some(Verb::Check),
        "export" => Some(Verb::Export),
        "dump" => Some(Verb::Dump),
        "import-check" => Some(Verb::ImportCheck),
        "place" => Some(Verb::Place),
        "draft" => Some(Verb::Draft),
        "ask" => Some(Verb::Ask),
        _ => None,
    }
}

// `find` asks for something.
fn some_sought(all: Vec<Condition>) -> Result<Vec<Condition>, OrderFault>
    ensures { GivesWanted (λ all. map sought_by all.items)
        (some_sought (map sought_by all.items)) result }
{
    if all.is_empty() {
        return Err(OrderFault::NothingAsked);
    }
    Ok(all)
}

fn find(alloc: Global, found: &ArgMatches) -> Result<Question, OrderFault>
    ensures { GivesWanted asking_by (finds_in (rows_of (found_of found.now))) result }
{
    let conditions = conditions(alloc, found)?;
    let conditions = some_sought(conditions)?;
    let form = form(found)?;
    Ok(Question::Find { conditions, form })
}

fn count(alloc: Global, found: &ArgMatches) -> Result<Question, OrderFault>
    ensures { GivesWanted asking_by (counts_in (rows_of (found_of found.now))) result }
{
    let conditions = conditions(alloc, found)?;
    Ok(Question::Count(conditions))
}

fn random(alloc: Global, found: &ArgMatches, chance: u64) -> Result<Question, OrderFault>
    ensures { GivesWanted asking_by (chooses_in chance (rows_of (found_of found.now))) result }
{
    let conditions = conditions(alloc, found)?;
    let form = form(found)?;
    Ok(Question::Random {
        conditions,
        chance,
        form,
    })
}

fn titles(found: &ArgMatches) -> Result<Question, OrderFault>
    ensures { GivesWanted asking_by (lists_in lists_titles (rows_of (found_of found.now))) result }
{
    let form = form(found)?;
    Ok(Question::Titles(form))
}

fn sets(found: &ArgMatches) -> Result<Question, OrderFault>
    ensures { GivesWanted asking_by (lists_in lists_sets (rows_of (found_of found.now))) result }
{
    let form = form(found)?;
    Ok(Question::Sets(form))
}

fn set(alloc: Global, found: &ArgMatches) -> Result<Question, OrderFault>
    ensures { GivesWanted asking_by (set_in (rows_of (found_of found.now))) result }
{
    let name = name(alloc, first_given(found, "NAME"))?;
    let form = form(found)?;
    Ok(Question::Set { name, form })
}

fn twins(found: &ArgMatches) -> Result<Question, OrderFault>
    ensures { GivesWanted asking_by (lists_in lists_twins (rows_of (found_of found.now))) result }
{
    let form = form(found)?;
    Ok(Question::Twins(form))
}

fn show(alloc: Global, found: &ArgMatches) -> Result<Question, OrderFault>
    ensures { GivesWanted asking_by (shows_in (rows_of (found_of found.now))) result }
{
    let words = given(alloc, found, "NUM")?;
    let numbers = numbers(alloc, words.as_slice())?;
    Ok(Question::Show(numbers))
}

// What is exported, by NAME and by the words of `--tune`.
fn exported_by(alloc: Global, name: Option<&str>, tunes: &[&str]) -> Result<Question, OrderFault>
    ensures { GivesWanted asking_by
        (exports_by (option_map (λ word. word.now) name.entry) (texts_behind tunes.now)) result }
{
    match name {
        Some(word) => exported_set(alloc, word, tunes),
        None => exported_tunes(alloc, tunes),
    }
}

fn exported_set(alloc: Global, word: &str, tunes: &[&str]) -> Result<Question, OrderFault>
    ensures { GivesWanted asking_by (exports_by (Some word.now) (texts_behind tunes.now)) result }
{
    match tunes {
        [] => {
            let name = name(alloc, word)?;
            Ok(Question::ExportSet(name))
        }
        [_, ..] => Err(OrderFault::NameAndTunes),
    }
}

fn exported_tunes(alloc: Global, tunes: &[&str]) -> Result<Question, OrderFault>
    ensures { GivesWanted asking_by (exports_by None (texts_behind tunes.now)) result }
{
    match tunes {
        [] => Ok(Question::ExportAll),
        [_, ..] => {
            let numbers = numbers(alloc, tunes)?;
            Ok(Question::ExportTunes(numbers))
        }
    }
}

fn exported(alloc: Global, found: &ArgMatches) -> Result<Question, OrderFault>
    ensures { GivesWanted asking_by (exports_in (rows_of (found_of found.now))) result }
{
    let tunes = given(alloc, found, "tune")?;
    exported_by(alloc, value(found, "NAME"), tunes.as_slice())
}

fn target(alloc: Global, found: &ArgMatches) -> Result<Target, OrderFault>
    ensures { GivesWanted place_by (place_in (rows_of (found_of found.now))) result }
{
    let out = path(alloc, first_given(found, "OUT"))?;
    let force = is_set(found, "force");
    Ok(Target { out, force })
}

// The question goes to standard output, if there is one.
fn told(asked: Result<Question, OrderFault>) -> Result<Order, OrderFault>
    ensures { (wanted : _) → GivesWanted asking_by wanted asked
        → GivesWanted meaning_by (telling wanted) result }
{
    match asked {
        Ok(question) => Ok(Order::Tell(question)),
        Err(fault) => Err(fault),
    }
}

fn written(alloc: Global, question: Question, found: &ArgMatches) -> Result<Order, OrderFault>
    ensures { GivesWanted meaning_by
        (writing (Ok (asking_by question)) (rows_of (found_of found.now))) result }
{
    let target = target(alloc, found)?;
    Ok(Order::Write { question, target })
}

fn export(alloc: Global, found: &ArgMatches) -> Result<Order, OrderFault>
    ensures { let rows = rows_of (found_of found.now) in
        GivesWanted meaning_by (writing (exports_in rows) rows) result }
{
    let question = exported(alloc, found)?;
    written(alloc, question, found)
}

fn dump(alloc: Global, found: &ArgMatches) -> Result<Order, OrderFault>
    ensures { GivesWanted meaning_by (writing (Ok dumps) (rows_of (found_of found.now))) result }
{
    written(alloc, Question::Dump, found)
}

fn check_books(alloc: Global, found: &ArgMatches) -> Result<Order, OrderFault>
    ensures { GivesWanted meaning_by (books_in (rows_of (found_of found.now))) result }
{
    let words = given(alloc, found, "BOOK")?;
    let books = paths(alloc, words.as_slice())?;
    Ok(Order::CheckBooks(books))
}

// What is checked, by COPY.
fn check_by(alloc: Global, word: Option<&str>) -> Result<Order, OrderFault>
    ensures { GivesWanted meaning_by (checks_by (option_map (λ word. word.now) word.entry)) result }
{
    match word {
        None => Ok(Order::Check),
        Some(word) => {
            let copy = path(alloc, word)?;
            Ok(Order::CheckCopy(copy))
        }
    }
}

fn check(alloc: Global, found: &ArgMatches) -> Result<Order, OrderFault>
    ensures { GivesWanted meaning_by (checks_in (rows_of (found_of found.now))) result }
{
    check_by(alloc, value(found, "COPY"))
}

fn place(alloc: Global, found: &ArgMatches) -> Result<Order, OrderFault>
    ensures { GivesWanted meaning_by (places_in (rows_of (found_of found.now))) result }
{
    let target = target(alloc, found)?;
    Ok(Order::Place(target))
}

fn draft(alloc: Global, found: &ArgMatches) -> Result<Order, OrderFault>
    ensures { GivesWanted meaning_by (drafts_in (rows_of (found_of found.now))) result }
{
    let number = number(alloc, first_given(found, "NUM"))?;
    let word = first_given(found, "OUT");
    let out = path(alloc, word)?;
    Ok(Order::Draft { number, out })
}

fn order_of(alloc: Global, verb: Verb, found: &ArgMatches, chance: u64) -> Result<Order, OrderFault>
    ensures { GivesWanted meaning_by
        (order_meaning chance verb (rows_of (found_of found.now))) result }
{
    match verb {
        Verb::Find => told(find(alloc, found)),
        Verb::Count => told(count(alloc, found)),
        Verb::Random => told(random(alloc, found, chance)),
        Verb::Titles => told(titles(found)),
        Verb::Sets => told(sets(found)),
        Verb::Set => told(set(alloc, found)),
        Verb::Twins => told(twins(found)),
        Verb::Show => told(show(alloc, found)),
        Verb::Check => check(alloc, found),
        Verb::Export => export(alloc, found),
        Verb::Dump => dump(alloc, found),
        Verb::ImportCheck => check_books(alloc, found),
        Verb::Place => place(alloc, found),
        Verb::Draft => draft(alloc, found),
        Verb::Ask => Ok(Order::Ask),
    }
}

// What the command of this name asks for.
pub(crate) fn order_named(
    alloc: Global,
    name: &str,
    found: &ArgMatches,
    chance: u64,
) -> Result<Order, OrderFault>
    ensures { GivesWanted meaning_by
        (meaning_named chance name.now (rows_of (found_of found.now))) result }
{
    match verb_of(name) {
        Some(verb) => order_of(alloc, verb, found, chance),
        None => change_named(alloc, name, found),
    }
}
