// What a command asks for that changes an archive, or makes one.
ghost use Rattle.std.specs.Prelude.{◌≡◌, ◌∷◌, List, map, string_bytes, option_map};
ghost use Rattle.clap.specs.Words.{rows_of, found_of};
ghost use Rattle.desk_words.specs.WordAnswers.{GivesWanted};
ghost use Rattle.desk_words.specs.OrderMeanings.{meaning_by};
ghost use Rattle.desk_words.specs.ChangeMeanings.{change_verb_of, adding_in, some_books, adds_by};
ghost use Rattle.desk_words.specs.ChangeMeanings.{adds_in, deletes_in, puts_by, puts_in, cuts_in};
ghost use Rattle.desk_words.specs.ChangeMeanings.{moves_in, drops_in, replaces_in, unlisted};
ghost use Rattle.desk_words.specs.ChangeMeanings.{undoing_by, undoes_in, backs_up_in, restores_in};
ghost use Rattle.desk_words.specs.ChangeMeanings.{loads_in, change_of};
ghost use Rattle.desk_words.specs.NamedMeanings.{change_named};
ghost use Rattle.desk_words.specs.Inside.Sorting.{texts_behind};

use crate::asked::{Order, OrderFault};
use crate::found::{
    first_given, form, given, is_set, name, number, number_of, numbers, path, paths, value,
};
use clap::ArgMatches;
use desk_terms::{Adding, Alteration, Form, Undoing};
use std::alloc::Global;

// The commands that change an archive, or make one or a copy of it.
#[derive(Clone, Copy)]
pub(crate) enum ChangeVerb {
    New,
    Add,
    Delete,
    Put,
    Cut,
    Move,
    Drop,
    Replace,
    Undo,
    Backup,
    Restore,
    Load,
    Upgrade,
}

fn change_verb_of(name: &str) -> Option<ChangeVerb>
    ensures { result ≡ change_verb_of name.now }
{
    match name {
        "new" => Some(ChangeVerb::New),
        "add" => Some(ChangeVerb::Add),
        "delete" => Some(ChangeVerb::Delete),
        "put" => Some(ChangeVerb::Put),
        "cut" => Some(ChangeVerb::Cut),
        "move" => Some(ChangeVerb::Move),
        "drop" => Some(ChangeVerb::Drop),
        "replace" => Some(ChangeVerb::Replace),
        "undo" => Some(ChangeVerb::Undo),
        "backup" => Some(ChangeVerb::Backup),
        "restore" => Some(ChangeVerb::Restore),
        "load" => Some(ChangeVerb::Load),
        "upgrade" => Some(ChangeVerb::Upgrade),
        _ => None,
    }
}

// How books are taken in.
fn how_to_add(found: &ArgMatches) -> Adding
    ensures { result ≡ adding_in (rows_of (found_of found.now)) }
{
    Adding {
        only_new: is_set(found, "new"),
        good: is_set(found, "good"),
        split: is_set(found, "split"),
        dry: is_set(found, "dry"),
        show_lost: is_set(found, "show-lost"),
        carry: is_set(found, "carry"),
    }
}

// There is a book at least.
fn some_books(alloc: Global, words: &[&str]) -> Result<Vec<String>, OrderFault>
    ensures { GivesWanted (λ books. map string_bytes books.items)
        (some_books (texts_behind words.now)) result }
{
    match words {
        [] => Err(OrderFault::NoBooks),
        [_, ..] => paths(alloc, words),
    }
}

// New tunes alone are not taken by parts.
fn add_by(books: Vec<String>, how: Adding) -> Result<Order, OrderFault>
    ensures { GivesWanted meaning_by (adds_by (map string_bytes books.items) how) result }
{
    if how.only_new && how.split {
        return Err(OrderFault::NewAndSplit);
    }
    Ok(Order::Add { books, how })
}

fn add(alloc: Global, found: &ArgMatches) -> Result<Order, OrderFault>
    ensures { GivesWanted meaning_by (adds_in (rows_of (found_of found.now))) result }
{
    let words = given(alloc, found, "BOOK")?;
    let books = some_books(alloc, words.as_slice())?;
    add_by(books, how_to_add(found))
}

fn delete(alloc: Global, found: &ArgMatches) -> Result<Order, OrderFault>
    ensures { GivesWanted meaning_by (deletes_in (rows_of (found_of found.now))) result }
{
    let words = given(alloc, found, "NUM")?;
    let numbers = numbers(alloc, words.as_slice())?;
    Ok(Order::Alter(Alteration::Delete(numbers)))
}

// What is put, by NAME and the words of NUM.
fn put_by(alloc: Global, word: &str, words: &[&str]) -> Result<Order, OrderFault>
    ensures { GivesWanted meaning_by (puts_by word.now (texts_behind words.now)) result }
{
    match words {
        [] => Err(OrderFault::PutAlone),
        [_, ..] => {
            let name = name(alloc, word)?;
            let numbers = numbers(alloc, words)?;
            Ok(Order::Alter(Alteration::Put { name, numbers }))
        }
    }
}

fn put(alloc: Global, found: &ArgMatches) -> Result<Order, OrderFault>
    ensures { GivesWanted meaning_by (puts_in (rows_of (found_of found.now))) result }
{
    let words = given(alloc, found, "NUM")?;
    put_by(alloc, first_given(found, "NAME"), words.as_slice())
}

fn cut(alloc: Global, found: &ArgMatches) -> Result<Order, OrderFault>
    ensures { GivesWanted meaning_by (cuts_in (rows_of (found_of found.now))) result }
{
    let name = name(alloc, first_given(found, "NAME"))?;
    let words = given(alloc, found, "PLACE")?;
    let places = numbers(alloc, words.as_slice())?;
    Ok(Order::Alter(Alteration::Cut { name, places }))
}

fn move_place(alloc: Global, found: &ArgMatches) -> Result<Order, OrderFault>
    ensures { GivesWanted meaning_by (moves_in (rows_of (found_of found.now))) result }
{
    let name = name(alloc, first_given(found, "NAME"))?;
    let place = number(alloc, first_given(found, "PLACE"))?;
    let to = number(alloc, first_given(found, "TO"))?;
    Ok(Order::Alter(Alteration::Move { name, place, to }))
}

fn drop_list(alloc: Global, found: &ArgMatches) -> Result<Order, OrderFault>
    ensures { GivesWanted meaning_by (drops_in (rows_of (found_of found.now))) result }
{
    let name = name(alloc, first_given(found, "NAME"))?;
    Ok(Order::Alter(Alteration::Drop(name)))
}

fn replace(alloc: Global, found: &ArgMatches) -> Result<Order, OrderFault>
    ensures { GivesWanted meaning_by (replaces_in (rows_of (found_of found.now))) result }
{
    let number = number(alloc, first_given(found, "NUM"))?;
    let revision = number_of(alloc, value(found, "revision"))?;
    let book = path(alloc, first_given(found, "BOOK"))?;
    Ok(Order::Replace {
        number,
        revision,
        book,
    })
}

// A form is for a list.
fn unlisted(form: Form, undoing: Undoing) -> Result<Undoing, OrderFault>
    ensures { GivesWanted (λ undoing. undoing) (unlisted form undoing) result }
{
    match form {
        Form::Rows => Ok(undoing),
        _ => Err(OrderFault::FormAlone),
    }
}

// What is undone, by whether it is a list that is asked for, and by the number of `--to`.
fn undoing_by(list: bool, to: Option<u32>, form: Form) -> Result<Undoing, OrderFault>
    ensures { GivesWanted (λ undoing. undoing) (undoing_by list to form) result }
{
    match (list, to) {
        (true, Some(_)) => Err(OrderFault::ListAndTo),
        (true, None) => Ok(Undoing::List(form)),
        (false, Some(number)) => unlisted(form, Undoing::To(number)),
        (false, None) => unlisted(form, Undoing::Last),
    }
}

fn undo(alloc: Global, found: &ArgMatches) -> Result<Order, OrderFault>
    ensures { GivesWanted meaning_by (undoes_in (rows_of (found_of found.now))) result }
{
    let form = form(found)?;
    let to = number_of(alloc, value(found, "to"))?;
    let undoing = undoing_by(is_set(found, "list"), to, form)?;
    Ok(Order::Undo(undoing))
}

fn backup(alloc: Global, found: &ArgMatches) -> Result<Order, OrderFault>
    ensures { GivesWanted meaning_by (backs_up_in (rows_of (found_of found.now))) result }
{
    let copy = path(alloc, first_given(found, "COPY"))?;
    let keep = number_of(alloc, value(found, "keep"))?;
    Ok(Order::Backup { copy, keep })
}

fn restore(alloc: Global, found: &ArgMatches) -> Result<Order, OrderFault>
    ensures { GivesWanted meaning_by (restores_in (rows_of (found_of found.now))) result }
{
    let copy = path(alloc, first_given(found, "COPY"))?;
    let force = is_set(found, "force");
    Ok(Order::Restore { copy, force })
}

fn load(alloc: Global, found: &ArgMatches) -> Result<Order, OrderFault>
    ensures { GivesWanted meaning_by (loads_in (rows_of (found_of found.now))) result }
{
    let script = path(alloc, first_given(found, "SCRIPT"))?;
    Ok(Order::Load(script))
}

fn change_of(alloc: Global, verb: ChangeVerb, found: &ArgMatches) -> Result<Order, OrderFault>
    ensures { GivesWanted meaning_by (change_of verb (rows_of (found_of found.now))) result }
{
    match verb {
        ChangeVerb::New => Ok(Order::Make),
        ChangeVerb::Add => add(alloc, found),
        ChangeVerb::Delete => delete(alloc, found),
        ChangeVerb::Put => put(alloc, found),
        ChangeVerb::Cut => cut(alloc, found),
        ChangeVerb::Move => move_place(alloc, found),
        ChangeVerb::Drop => drop_list(alloc, found),
        ChangeVerb::Replace => replace(alloc, found),
        ChangeVerb::Undo => undo(alloc, found),
        ChangeVerb::Backup => backup(alloc, found),
        ChangeVerb::Restore => restore(alloc, found),
        ChangeVerb::Load => load(alloc, found),
        ChangeVerb::Upgrade => Ok(Order::Upgrade),
    }
}

// What the command of this name asks for, where it is one of these.
pub(crate) fn change_named(
    alloc: Global,
    name: &str,
    found: &ArgMatches,
) -> Result<Order, OrderFault>
    ensures { GivesWanted meaning_by (change_named name.now (rows_of (found_of found.now))) result }
{
    match change_verb_of(name) {
        Some(verb) => change_of(alloc, verb, found),
        None => Err(OrderFault::Missing),
    }
}
