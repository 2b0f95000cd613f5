// What tunes are found by.
ghost use Rattle.std.specs.Prelude.{◌≡◌, ◌++◌, IfOk, OnOk, map, string_bytes, option_map, is_some};
ghost use Rattle.std.specs.Prelude.{codes, true, false, [], Ok, ◌∷◌};
ghost use Rattle.std.specs.List.{list_any};
ghost use Rattle.clap.specs.Words.{rows_of, found_of, first_of};
ghost use Rattle.desk_words.specs.WordAnswers.{GivesWanted, RefusesWords, IsFaultOfMemory};
ghost use Rattle.desk_words.specs.Given.{given, is_set, one_line};
ghost use Rattle.desk_words.specs.SoughtConditions.{sought_by, sought_kind, of_kind, joined_words};
ghost use Rattle.desk_words.specs.SoughtConditions.{by_kind};
ghost use Rattle.desk_words.specs.SoughtConditions.{by_words};
ghost use Rattle.desk_words.specs.SoughtConditions.{by_option, by_options, is_noted, key_used};
ghost use Rattle.desk_words.specs.SoughtConditions.{sought_in};
ghost use Rattle.desk_words.specs.SoughtConditions.{by_lines, by_plain_words};
ghost use Rattle.desk_words.specs.Inside.Sorting.{texts_behind};

use crate::asked::OrderFault;
use crate::found::{given, is_set, one_line, value};
use clap::ArgMatches;
use desk_terms::Condition;
use std::alloc::{AllocError, Global};

/// What is named before the words of `find`.
#[derive(Clone, Copy)]
pub enum SoughtKind {
    /// One of its titles begins so.
    Title,
    /// Its rhythm.
    Rhythm,
    /// Its key.
    Key,
    /// The notes that it begins with.
    Notes,
}

fn kind_of(word: &str) -> Option<SoughtKind>
    ensures { result ≡ sought_kind word.now }
{
    match word {
        "title" => Some(SoughtKind::Title),
        "rhythm" => Some(SoughtKind::Rhythm),
        "key" => Some(SoughtKind::Key),
        "notes" => Some(SoughtKind::Notes),
        _ => None,
    }
}

// A key that was given by `--in`.
fn copied(alloc: Global, key: Option<&str>) -> Result<Option<String>, AllocError>
    ensures { IfOk result (λ copied. option_map string_bytes copied
        ≡ option_map one_line (option_map (λ word. word.now) key.entry)) }
{
    match key {
        Some(key) => {
            let line = one_line(alloc, key)?;
            Ok(Some(line))
        }
        None => Ok(None),
    }
}

// A condition of this kind.
fn of_kind(
    alloc: Global,
    kind: SoughtKind,
    key: Option<&str>,
    text: String,
) -> Result<Condition, AllocError>
    ensures { IfOk result (λ condition. sought_by condition
        ≡ of_kind kind (option_map (λ word. word.now) key.entry) (string_bytes text)) }
{
    match kind {
        SoughtKind::Title => Ok(Condition::Title(text)),
        SoughtKind::Rhythm => Ok(Condition::Rhythm(text)),
        SoughtKind::Key => Ok(Condition::Key(text)),
        SoughtKind::Notes => {
            let key = copied(alloc, key)?;
            Ok(Condition::Notes { notes: text, key })
        }
    }
}

// A word more, behind a blank.
fn put_word(all: &mut String, alloc: Global, word: &str) -> Result<(), AllocError>
    ensures { OnOk result
        (string_bytes all.new ≡ string_bytes all.old ++ (32 ∷ one_line word.now)) }
{
    let line = one_line(alloc, word)?;
    all.push(' ')?;
    all.push_str(line.as_str())
}

// Words with a blank between each two.
fn joined(alloc: Global, first: &str, rest: &[&str]) -> Result<String, AllocError>
    ensures { IfOk result
        (λ text. string_bytes text ≡ joined_words (first.now ∷ texts_behind rest.now)) }
{
    let mut all = one_line(alloc, first)?;
    for word in rest {
        put_word(&mut all, alloc, word)?;
    }
    Ok(all)
}

// Each word on one line.
fn lines(alloc: Global, words: &[&str]) -> Result<Vec<String>, AllocError>
    ensures { IfOk result (λ lines.
        map string_bytes lines.items ≡ map one_line (texts_behind words.now)) }
{
    let mut all = Vec::new(alloc);
    for word in words {
        let line = one_line(alloc, word)?;
        all.push(line)?;
    }
    Ok(all)
}

// The first of several words may be a kind.
fn by_kind(
    alloc: Global,
    key: Option<&str>,
    word: &str,
    rest: &[&str],
) -> Result<Condition, OrderFault>
    ensures { GivesWanted sought_by (by_kind (sought_kind word.now)
        (option_map (λ word. word.now) key.entry) word.now (texts_behind rest.now)) result }
{
    match kind_of(word) {
        None => {
            let text = joined(alloc, word, rest)?;
            Ok(Condition::Title(text))
        }
        Some(kind) => match rest {
            [] => Err(OrderFault::KindAlone(kind)),
            [next, rest @ ..] => {
                let text = joined(alloc, next, rest)?;
                let condition = of_kind(alloc, kind, key, text)?;
                Ok(condition)
            }
        },
    }
}

// The words under `--within`.
fn by_lines(alloc: Global, words: &[&str]) -> Result<Vec<Condition>, OrderFault>
    ensures { GivesWanted (λ all. map sought_by all.items)
        (by_lines (texts_behind words.now)) result }
{
    let mut all = Vec::new(alloc);
    if words.is_empty() {
        return Err(OrderFault::WithinAlone);
    }
    let lines = lines(alloc, words)?;
    all.push(Condition::Within(lines))?;
    Ok(all)
}

// The words that are no options.
fn by_plain_words(
    alloc: Global,
    key: Option<&str>,
    words: &[&str],
) -> Result<Vec<Condition>, OrderFault>
    ensures { GivesWanted (λ all. map sought_by all.items) (by_plain_words
        (option_map (λ word. word.now) key.entry) (texts_behind words.now)) result }
{
    let mut all = Vec::new(alloc);
    match words {
        [] => Ok(all),
        [word, rest @ ..] => {
            let condition = by_kind(alloc, key, word, rest)?;
            all.push(condition)?;
            Ok(all)
        }
    }
}

// What an option adds.
fn put_option(
    alloc: Global,
    all: &mut Vec<Condition>,
    kind: SoughtKind,
    key: Option<&str>,
    text: Option<&str>,
) -> Result<(), AllocError>
    ensures { OnOk result (map sought_by all.new.items ≡ map sought_by all.old.items
        ++ by_option kind (option_map (λ word. word.now) key.entry)
        (option_map (λ word. word.now) text.entry)) }
{
    match text {
        None => Ok(()),
        Some(text) => {
            let line = one_line(alloc, text)?;
            let condition = of_kind(alloc, kind, key, line)?;
            all.push(condition)?;
            Ok(())
        }
    }
}

// What the options --title, --rhythm, --key and --notes add.
fn put_options(
    alloc: Global,
    all: &mut Vec<Condition>,
    key: Option<&str>,
    found: &ArgMatches,
) -> Result<(), AllocError>
    ensures { OnOk result (map sought_by all.new.items ≡ map sought_by all.old.items
        ++ by_options (option_map (λ word. word.now) key.entry) (rows_of (found_of found.now))) }
{
    put_option(alloc, all, SoughtKind::Title, key, value(found, "title"))?;
    put_option(alloc, all, SoughtKind::Rhythm, key, value(found, "rhythm"))?;
    put_option(alloc, all, SoughtKind::Key, key, value(found, "key"))?;
    put_option(alloc, all, SoughtKind::Notes, key, value(found, "notes"))
}

fn is_noted(condition: &Condition) -> bool
    ensures { result ≡ is_noted (sought_by condition.now) }
{
    match condition {
        Condition::Notes { .. } => true,
        _ => false,
    }
}

fn has_notes(all: &[Condition]) -> bool
    ensures { result ≡ list_any is_noted (map sought_by all.now) }
{
    for condition in all {
        if is_noted(condition) {
            return true;
        }
    }
    false
}

// A key is for notes.
fn key_used(key: Option<&str>, all: Vec<Condition>) -> Result<Vec<Condition>, OrderFault>
    ensures { GivesWanted (λ all. map sought_by all.items)
        (key_used (option_map (λ word. word.now) key.entry) (map sought_by all.items)) result }
{
    if key.is_some() && !has_notes(all.as_slice()) {
        return Err(OrderFault::KeyAlone);
    }
    Ok(all)
}

// What the words say that are no options.
fn by_all_words(
    alloc: Global,
    key: Option<&str>,
    found: &ArgMatches,
) -> Result<Vec<Condition>, OrderFault>
    ensures { let rows = rows_of (found_of found.now) in GivesWanted
        (λ all. map sought_by all.items)
        (by_words (is_set (codes "within") rows) (option_map (λ word. word.now) key.entry)
        (given (codes "WORDS") rows)) result }
{
    let words = given(alloc, found, "WORDS")?;
    if is_set(found, "within") {
        by_lines(alloc, words.as_slice())
    } else {
        by_plain_words(alloc, key, words.as_slice())
    }
}

// All that a tune is to have: what the words say first, then the options.
pub(crate) fn conditions(alloc: Global, found: &ArgMatches) -> Result<Vec<Condition>, OrderFault>
    ensures { GivesWanted (λ all. map sought_by all.items)
        (sought_in (rows_of (found_of found.now))) result }
{
    let key = value(found, "in");
    let mut all = by_all_words(alloc, key, found)?;
    put_options(alloc, &mut all, key, found)?;
    key_used(key, all)
}
