// Options with their values: each as one word, so that the parser takes no value for an option.
ghost use Rattle.std.specs.Prelude.{◌≡◌, ◌++◌, ◌∷◌, [], List, None, map, string_bytes};
ghost use Rattle.std.specs.Prelude.{IfOk, OnOk};
ghost use Rattle.clap.specs.Words.{Text};
ghost use Rattle.desk_words.specs.JoinedValues.{with_value, asks_value, joined_behind};
ghost use Rattle.desk_words.specs.JoinedValues.{joined_values};
ghost use Rattle.desk_words.specs.Inside.Joining.{whole};

use crate::arranging::{WordKind, kind_of_word};
use std::alloc::{AllocError, Global};

// What the next word may be.
#[derive(Clone, Copy)]
pub(crate) enum Coming<'a> {
    /// Any word.
    Any,
    /// The value of this option.
    Value(&'a str),
    /// No option.
    Words,
}

// The words so far.
#[derive(Drop)]
pub(crate) struct Joined<'a> {
    words: Vec<String>,
    coming: Coming<'a>,
}

// An option and its value, as one word.
fn with_value(alloc: Global, option: &str, value: &str) -> Result<String, AllocError>
    ensures { IfOk result (λ word. string_bytes word ≡ with_value option.now value.now) }
{
    let mut word = String::from_str(alloc, option)?;
    word.push('=')?;
    word.push_str(value)?;
    Ok(word)
}

fn asks_value(kind: WordKind) -> bool
    ensures { result ≡ asks_value kind }
{
    match kind {
        WordKind::TopAsking | WordKind::Asking => true,
        _ => false,
    }
}

fn put_word(all: &mut Vec<String>, alloc: Global, word: &str) -> Result<(), AllocError>
    ensures { OnOk result
        (map string_bytes all.new.items ≡ map string_bytes all.old.items ++ word.now ∷ []) }
{
    let word = String::from_str(alloc, word)?;
    all.push(word)?;
    Ok(())
}

// A word that no option waits for, before `--`.
fn put_any<'a>(joined: &mut Joined<'a>, alloc: Global, word: &'a str) -> Result<(), AllocError>
    ensures { OnOk result ((rest : List Text) → whole joined.new rest
        ≡ map string_bytes joined.old.words.items ++ joined_behind None (word.now ∷ rest)) }
{
    if word == "--" {
        joined.coming = Coming::Words;
        put_word(&mut joined.words, alloc, word)
    } else if asks_value(kind_of_word(word)) {
        joined.coming = Coming::Value(word);
        Ok(())
    } else {
        joined.coming = Coming::Any;
        put_word(&mut joined.words, alloc, word)
    }
}

// The value of an option.
fn put_value<'a>(
    joined: &mut Joined<'a>,
    alloc: Global,
    option: &str,
    value: &str,
) -> Result<(), AllocError>
    ensures { OnOk result ((rest : List Text) → whole joined.new rest
        ≡ map string_bytes joined.old.words.items
        ++ joined_behind (Some option.now) (value.now ∷ rest)) }
{
    joined.coming = Coming::Any;
    let word = with_value(alloc, option, value)?;
    joined.words.push(word)?;
    Ok(())
}

// A word more.
fn put<'a>(joined: &mut Joined<'a>, alloc: Global, word: &'a str) -> Result<(), AllocError>
    ensures { OnOk result
        ((rest : List Text) → whole joined.new rest ≡ whole joined.old (word.now ∷ rest)) }
{
    match joined.coming {
        Coming::Any => put_any(joined, alloc, word),
        Coming::Value(option) => put_value(joined, alloc, option, word),
        Coming::Words => put_word(&mut joined.words, alloc, word),
    }
}

// The words behind the first, one behind another.
fn join_words<'a>(alloc: Global, first: &str, words: &'a [String]) -> Result<Joined<'a>, AllocError>
    ensures { IfOk result (λ joined. whole joined []
        ≡ joined_values (first.now ∷ map string_bytes words.now)) }
{
    let mut all = Vec::new(alloc);
    put_word(&mut all, alloc, first)?;
    let mut joined = Joined {
        words: all,
        coming: Coming::Any,
    };
    for word in words {
        put(&mut joined, alloc, word.as_str())?;
    }
    Ok(joined)
}

// An option that lacks its value stands last.
fn ended(alloc: Global, joined: Joined) -> Result<Vec<String>, AllocError>
    ensures { IfOk result (λ all. map string_bytes all.items ≡ whole joined.entry []) }
{
    let mut all = joined.words;
    if let Coming::Value(option) = joined.coming {
        put_word(&mut all, alloc, option)?;
    }
    Ok(all)
}

// The words of a call, each option with its value; the first is the program's name.
pub(crate) fn joined_values(alloc: Global, words: &[String]) -> Result<Vec<String>, AllocError>
    ensures { IfOk result (λ all.
        map string_bytes all.items ≡ joined_values (map string_bytes words.now)) }
{
    match words {
        [first, rest @ ..] => ended(alloc, join_words(alloc, first.as_str(), rest)?),
        [] => Ok(Vec::new(alloc)),
    }
}
