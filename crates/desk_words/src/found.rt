// What the parser found, as values.
ghost use Rattle.std.specs.Prelude.{◌≡◌, ◌++◌, IfOk, OnOk, map, string_bytes, option_map};
ghost use Rattle.std.specs.List.{list_all};
ghost use Rattle.clap.specs.Words.{rows_of, found_of, first_of};
ghost use Rattle.desk_words.specs.WordAnswers.{GivesWanted};
ghost use Rattle.desk_words.specs.Given.{given, first_given, is_set, form_by, form_in, is_digits};
ghost use Rattle.desk_words.specs.Given.{number_in, numbers_given, path_in, paths_in, name_in};
ghost use Rattle.desk_words.specs.Given.{is_name, is_digit, is_list_name_byte, one_line, blank_for};
ghost use Rattle.desk_words.specs.Given.{number_given, number_written};
ghost use Rattle.desk_words.specs.Inside.Sorting.{texts_behind};

use crate::asked::OrderFault;
use clap::ArgMatches;
use desk_terms::Form;
use std::alloc::{AllocError, Global};

// The first word that was given for an argument.
pub(crate) fn value<'a>(found: &ArgMatches<'a>, id: &str) -> Option<&'a str>
    ensures { option_map (λ word. word.now) result
        ≡ first_of id.now (rows_of (found_of found.now)) }
{
    found.get_str(id)
}

// The same, empty where there is none.
pub(crate) fn first_given<'a>(found: &ArgMatches<'a>, id: &str) -> &'a str
    ensures { result.now ≡ first_given id.now (rows_of (found_of found.now)) }
{
    match value(found, id) {
        Some(word) => word,
        None => "",
    }
}

// The words that were given for an argument.
pub(crate) fn given<'a>(
    alloc: Global,
    found: &ArgMatches<'a>,
    id: &str,
) -> Result<Vec<&'a str>, AllocError>
    ensures { IfOk result (λ words.
        texts_behind words.items ≡ given id.now (rows_of (found_of found.now))) }
{
    let mut all = Vec::new(alloc);
    match found.get_strs(id) {
        Some(words) => {
            put_all(&mut all, words)?;
            Ok(all)
        }
        None => Ok(all),
    }
}

// More words, behind those that there are.
pub(crate) fn put_all<'a>(all: &mut Vec<&'a str>, more: &[&'a str]) -> Result<(), AllocError>
    ensures { OnOk result
        (texts_behind all.new.items ≡ texts_behind all.old.items ++ texts_behind more.now) }
{
    for word in more {
        all.push(*word)?;
    }
    Ok(())
}

// Whether an option without a value was given.
pub(crate) fn is_set(found: &ArgMatches, id: &str) -> bool
    ensures { result ≡ is_set id.now (rows_of (found_of found.now)) }
{
    match value(found, id) {
        Some(word) => word == "true",
        None => false,
    }
}

// The form of a list, by which of its two options are given.
fn form_by(json: bool, csv: bool) -> Result<Form, OrderFault>
    ensures { GivesWanted (λ form. form) (form_by json csv) result }
{
    match (json, csv) {
        (true, true) => Err(OrderFault::TwoForms),
        (true, false) => Ok(Form::Json),
        (false, true) => Ok(Form::Csv),
        (false, false) => Ok(Form::Rows),
    }
}

// The form of a list.
pub(crate) fn form(found: &ArgMatches) -> Result<Form, OrderFault>
    ensures { GivesWanted (λ form. form) (form_in (rows_of (found_of found.now))) result }
{
    form_by(is_set(found, "json"), is_set(found, "csv"))
}

fn is_digit(byte: u8) -> bool
    ensures { result ≡ is_digit byte }
{
    48 <= byte && byte <= 57
}

// Whether a word is one digit or more.
pub(crate) fn is_digits(word: &str) -> bool
    ensures { result ≡ is_digits word.now }
{
    !word.is_empty() && all_digits(word.as_bytes())
}

fn all_digits(word: &[u8]) -> bool
    ensures { result ≡ list_all is_digit word.now }
{
    for byte in word {
        if !is_digit(*byte) {
            return false;
        }
    }
    true
}

// The number that one to nine digits write.
fn number_written(word: &str) -> Option<u32>
    ensures { result ≡ number_written word.now }
{
    if !is_digits(word) {
        return None;
    }
    if 9 < word.len() {
        return None;
    }
    match word.parse::<u32>() {
        Ok(number) => Some(number),
        Err(_) => None,
    }
}

// The number that a word writes.
pub(crate) fn number(alloc: Global, word: &str) -> Result<u32, OrderFault>
    ensures { GivesWanted (λ number. number) (number_in word.now) result }
{
    match number_written(word) {
        Some(number) => Ok(number),
        None => {
            let word = String::from_str(alloc, word)?;
            Err(OrderFault::NoNumber(word))
        }
    }
}

// The number of an option that may be given.
pub(crate) fn number_of(alloc: Global, word: Option<&str>) -> Result<Option<u32>, OrderFault>
    ensures { GivesWanted (λ number. number)
        (number_given (option_map (λ word. word.now) word.entry)) result }
{
    match word {
        None => Ok(None),
        Some(word) => {
            let number = number(alloc, word)?;
            Ok(Some(number))
        }
    }
}

// The numbers that words write.
pub(crate) fn numbers(alloc: Global, words: &[&str]) -> Result<Vec<u32>, OrderFault>
    ensures { GivesWanted (λ numbers. numbers.items)
        (numbers_given (texts_behind words.now)) result }
{
    let mut all = Vec::new(alloc);
    for word in words {
        let number = number(alloc, word)?;
        all.push(number)?;
    }
    Ok(all)
}

// A path.
pub(crate) fn path(alloc: Global, word: &str) -> Result<String, OrderFault>
    ensures { GivesWanted string_bytes (path_in word.now) result }
{
    if word.is_empty() {
        return Err(OrderFault::EmptyPath);
    }
    Ok(String::from_str(alloc, word)?)
}

// The paths.
pub(crate) fn paths(alloc: Global, words: &[&str]) -> Result<Vec<String>, OrderFault>
    ensures { GivesWanted (λ paths. map string_bytes paths.items)
        (paths_in (texts_behind words.now)) result }
{
    let mut all = Vec::new(alloc);
    for word in words {
        let path = path(alloc, word)?;
        all.push(path)?;
    }
    Ok(all)
}

fn is_name_byte(byte: u8) -> bool
    ensures { result ≡ is_list_name_byte byte }
{
    is_digit(byte)
        || (65 <= byte && byte <= 90)
        || (97 <= byte && byte <= 122)
        || byte == 45
        || byte == 95
}

fn all_name_bytes(word: &[u8]) -> bool
    ensures { result ≡ list_all is_list_name_byte word.now }
{
    for byte in word {
        if !is_name_byte(*byte) {
            return false;
        }
    }
    true
}

fn is_name(word: &str) -> bool
    ensures { result ≡ is_name word.now }
{
    !word.is_empty() && all_name_bytes(word.as_bytes())
}

// The name of a set list.
pub(crate) fn name(alloc: Global, word: &str) -> Result<String, OrderFault>
    ensures { GivesWanted string_bytes (name_in word.now) result }
{
    let text = String::from_str(alloc, word)?;
    if is_name(word) {
        Ok(text)
    } else {
        Err(OrderFault::NoName(text))
    }
}

fn blank_for(letter: char) -> char
    ensures { result ≡ blank_for letter }
{
    if letter == '\n' || letter == '\r' {
        ' '
    } else {
        letter
    }
}

// A text on one line: line feeds and carriage returns become blanks.
pub(crate) fn one_line(alloc: Global, text: &str) -> Result<String, AllocError>
    ensures { IfOk result (λ line. string_bytes line ≡ one_line text.now) }
{
    let mut line = String::new(alloc);
    for letter in text.chars() {
        line.push(blank_for(letter))?;
    }
    Ok(line)
}
