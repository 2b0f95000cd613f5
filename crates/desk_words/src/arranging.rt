// The order in which the parser is given the words. Options may stand anywhere; the parser wants
// those of the program before the command, and those of the command behind it.
ghost use Rattle.std.specs.Prelude.{◌≡◌, ◌++◌, map, drop, string_bytes, IfOk, OnOk};
ghost use Rattle.desk_words.specs.Arranged.{kind_of_word, kind_of_option, kind_by_start};
ghost use Rattle.desk_words.specs.Arranged.{nothing_sorted, put_sorted};
ghost use Rattle.desk_words.specs.Arranged.{put_any, put_behind, put_plain, sorted_in, lined_up};
ghost use Rattle.desk_words.specs.Arranged.{arranged, put_number, put_top, put_option, put_help};
ghost use Rattle.desk_words.specs.Arranged.{put_dashes, command_part};
ghost use Rattle.desk_words.specs.Inside.Sorting.{sorted_by, texts_behind};

use crate::found::{is_digits, put_all};
use std::alloc::{AllocError, Global};

// What a word is by itself.
#[derive(Clone, Copy)]
pub(crate) enum WordKind {
    /// `--`: what follows are no options.
    Dashes,
    /// An option of the program, whose value is the next word.
    TopAsking,
    /// An option of the program, with its value or with none.
    Top,
    /// A word that asks for help.
    Help,
    /// An option of a command, whose value is the next word.
    Asking,
    /// An option of a command, whose values are the numbers that follow.
    AskingNumbers,
    /// Another option of a command.
    Option,
    /// A word that is no option.
    Plain,
}

// What the next word may be.
#[derive(Clone, Copy)]
pub(crate) enum Next {
    /// Any word.
    Any,
    /// The value of an option of the program.
    TopValue,
    /// A number of `--tune`, or any word.
    Numbers,
    /// No option.
    Words,
}

// The words so far, by what they are.
#[derive(Drop)]
pub(crate) struct Sorted<'a> {
    top: Vec<&'a str>,
    command: Option<&'a str>,
    help: Vec<&'a str>,
    words: Vec<&'a str>,
    options: Vec<&'a str>,
    behind: Vec<&'a str>,
    next: Next,
}

// What a word is by itself.
pub(crate) fn kind_of_word(word: &str) -> WordKind
    ensures { result ≡ kind_of_word word.now }
{
    match word {
        "--" => WordKind::Dashes,
        "-f" => WordKind::TopAsking,
        "--wait" => WordKind::TopAsking,
        "-V" => WordKind::Top,
        "--version" => WordKind::Top,
        "-h" => WordKind::Help,
        "--help" => WordKind::Help,
        _ => kind_of_option(word),
    }
}

// What a word is that is no option of the program.
fn kind_of_option(word: &str) -> WordKind
    ensures { result ≡ kind_of_option word.now }
{
    match word {
        "--title" => WordKind::Asking,
        "--rhythm" => WordKind::Asking,
        "--key" => WordKind::Asking,
        "--notes" => WordKind::Asking,
        "--in" => WordKind::Asking,
        "--revision" => WordKind::Asking,
        "--to" => WordKind::Asking,
        "--keep" => WordKind::Asking,
        "--tune" => WordKind::AskingNumbers,
        "-" => WordKind::Plain,
        _ => kind_by_start(word),
    }
}

// What a word is by what it begins with.
fn kind_by_start(word: &str) -> WordKind
    ensures { result ≡ kind_by_start word.now }
{
    kind_by_bytes(word.as_bytes())
}

fn kind_by_bytes(word: &[u8]) -> WordKind
    ensures { result ≡ kind_by_start word.now }
{
    if word.starts_with(b"-f") {
        WordKind::Top
    } else if word.starts_with(b"--wait=") {
        WordKind::Top
    } else if word.starts_with(b"-") {
        WordKind::Option
    } else {
        WordKind::Plain
    }
}

// Nothing yet.
fn nothing<'a>(alloc: Global) -> Sorted<'a>
    ensures { sorted_by result ≡ nothing_sorted }
{
    Sorted {
        top: Vec::new(alloc),
        command: None,
        help: Vec::new(alloc),
        words: Vec::new(alloc),
        options: Vec::new(alloc),
        behind: Vec::new(alloc),
        next: Next::Any,
    }
}

fn put_top<'a>(sorted: &mut Sorted<'a>, next: Next, word: &'a str) -> Result<(), AllocError>
    ensures { OnOk result (sorted_by sorted.new ≡ put_top next (sorted_by sorted.old) word.now) }
{
    sorted.top.push(word)?;
    sorted.next = next;
    Ok(())
}

fn put_option<'a>(sorted: &mut Sorted<'a>, next: Next, word: &'a str) -> Result<(), AllocError>
    ensures { OnOk result (sorted_by sorted.new ≡ put_option next (sorted_by sorted.old) word.now) }
{
    sorted.options.push(word)?;
    sorted.next = next;
    Ok(())
}

fn put_help<'a>(sorted: &mut Sorted<'a>, word: &'a str) -> Result<(), AllocError>
    ensures { OnOk result (sorted_by sorted.new ≡ put_help (sorted_by sorted.old) word.now) }
{
    sorted.help.push(word)?;
    sorted.next = Next::Any;
    Ok(())
}

fn put_dashes<'a>(sorted: &mut Sorted<'a>, word: &'a str) -> Result<(), AllocError>
    ensures { OnOk result (sorted_by sorted.new ≡ put_dashes (sorted_by sorted.old) word.now) }
{
    sorted.behind.push(word)?;
    sorted.next = Next::Words;
    Ok(())
}

// A word that is no option, before `--`.
fn put_plain<'a>(sorted: &mut Sorted<'a>, word: &'a str) -> Result<(), AllocError>
    ensures { let old = sorted_by sorted.old in
        OnOk result (sorted_by sorted.new ≡ put_plain old.command old word.now) }
{
    match sorted.command {
        None => sorted.command = Some(word),
        Some(_) => sorted.words.push(word)?,
    }
    sorted.next = Next::Any;
    Ok(())
}

// A word behind `--`.
fn put_behind<'a>(sorted: &mut Sorted<'a>, word: &'a str) -> Result<(), AllocError>
    ensures { let old = sorted_by sorted.old in
        OnOk result (sorted_by sorted.new ≡ put_behind old.command old word.now) }
{
    match sorted.command {
        None => sorted.command = Some(word),
        Some(_) => sorted.behind.push(word)?,
    }
    Ok(())
}

// A word that no option asked for, before `--`.
fn put_any<'a>(sorted: &mut Sorted<'a>, word: &'a str) -> Result<(), AllocError>
    ensures { OnOk result (sorted_by sorted.new ≡ put_any (sorted_by sorted.old) word.now) }
{
    match kind_of_word(word) {
        WordKind::Dashes => put_dashes(sorted, word),
        WordKind::TopAsking => put_top(sorted, Next::TopValue, word),
        WordKind::Top => put_top(sorted, Next::Any, word),
        WordKind::Help => put_help(sorted, word),
        WordKind::Asking => put_option(sorted, Next::Any, word),
        WordKind::AskingNumbers => put_option(sorted, Next::Numbers, word),
        WordKind::Option => put_option(sorted, Next::Any, word),
        WordKind::Plain => put_plain(sorted, word),
    }
}

// A word behind `--tune`.
fn put_number<'a>(sorted: &mut Sorted<'a>, word: &'a str) -> Result<(), AllocError>
    ensures { OnOk result (sorted_by sorted.new ≡ put_number (sorted_by sorted.old) word.now) }
{
    if is_digits(word) {
        put_option(sorted, Next::Numbers, word)
    } else {
        put_any(sorted, word)
    }
}

// A word more.
fn put<'a>(sorted: &mut Sorted<'a>, word: &'a str) -> Result<(), AllocError>
    ensures { OnOk result (sorted_by sorted.new ≡ put_sorted (sorted_by sorted.old) word.now) }
{
    match sorted.next {
        Next::TopValue => put_top(sorted, Next::Any, word),
        Next::Words => put_behind(sorted, word),
        Next::Numbers => put_number(sorted, word),
        Next::Any => put_any(sorted, word),
    }
}

// The words by what they are.
fn sort_words<'a>(alloc: Global, words: &'a [String]) -> Result<Sorted<'a>, AllocError>
    ensures { IfOk result (λ sorted. sorted_by sorted ≡ sorted_in (map string_bytes words.now)) }
{
    let mut sorted = nothing(alloc);
    for word in words {
        put(&mut sorted, word.as_str())?;
    }
    Ok(sorted)
}

// The command, and what goes with it.
fn put_command<'a>(all: &mut Vec<&'a str>, sorted: &Sorted<'a>) -> Result<(), AllocError>
    ensures { OnOk result
        (texts_behind all.new.items ≡ texts_behind all.old.items
        ++ command_part (sorted_by sorted.now)) }
{
    if let Some(command) = sorted.command {
        all.push(command)?;
    }
    put_all(all, sorted.help.as_slice())?;
    put_all(all, sorted.words.as_slice())?;
    put_all(all, sorted.options.as_slice())?;
    put_all(all, sorted.behind.as_slice())
}

// The words, one behind another.
fn lined_up<'a>(alloc: Global, sorted: &Sorted<'a>) -> Result<Vec<&'a str>, AllocError>
    ensures { IfOk result (λ all. texts_behind all.items ≡ lined_up (sorted_by sorted.now)) }
{
    let mut all = Vec::new(alloc);
    all.push("tunes-book")?;
    put_all(&mut all, sorted.top.as_slice())?;
    match sorted.next {
        Next::TopValue => Ok(all),
        _ => {
            put_command(&mut all, sorted)?;
            Ok(all)
        }
    }
}

// The words without the first.
fn behind_first(words: &[String]) -> &[String]
    ensures { result.now ≡ drop 1 words.now }
{
    match words {
        [_, rest @ ..] => rest,
        [] => words,
    }
}

// The words as the parser is given them.
pub(crate) fn arranged<'a>(alloc: Global, words: &'a [String]) -> Result<Vec<&'a str>, AllocError>
    ensures { IfOk result (λ all. texts_behind all.items ≡ arranged (map string_bytes words.now)) }
{
    let sorted = sort_words(alloc, behind_first(words))?;
    lined_up(alloc, &sorted)
}
