// The words of a call, and what it reads.
use anyhow::{Result, bail, ensure};
use std::fs;
use std::fs::Files;
use std::io::{BufReader, Read};

const BUFFER: usize = 65_536;

/// Where pages are.
#[derive(Clone, Copy)]
pub(crate) enum Place<'a> {
    Memory,
    File(&'a str),
}

/// What is printed beside what each part came to.
#[derive(Clone, Copy, PartialEq, Eq)]
pub(crate) enum Shown {
    Nothing,
    Times,
    Calls,
}

/// The words before a last one that asks for more, and what is asked for.
pub(crate) fn split_shown<'a>(words: &'a [&'a str]) -> (&'a [&'a str], Shown) {
    let Some((last, before)) = words.split_last() else {
        return (words, Shown::Nothing);
    };
    match *last {
        "times" => (before, Shown::Times),
        "calls" => (before, Shown::Calls),
        _ => (words, Shown::Nothing),
    }
}

/// The place that words begin with, and the words behind it.
pub(crate) fn split_place<'a>(words: &'a [&'a str]) -> Option<(Place<'a>, &'a [&'a str])> {
    match words {
        ["memory", words @ ..] => Some((Place::Memory, words)),
        ["file", path, words @ ..] => Some((Place::File(path), words)),
        _ => None,
    }
}

/// The number in a word, which may be so great.
pub(crate) fn number(word: &str, most: u32) -> Result<u32> {
    let number = word.parse::<u32>()?;
    ensure!(number <= most, "{number} is more than {most}");
    Ok(number)
}

/// The bytes of the file that the words name; those of standard input, where there is no word.
pub(crate) fn input<R: Files + Input + AllocGlobal>(rt: &R, words: &[&str]) -> Result<Vec<u8>> {
    match words {
        [] => {
            let mut bytes = Vec::new(rt.alloc());
            BufReader::with_capacity(rt.alloc(), BUFFER, rt.reader())?.read_to_end(&mut bytes)?;
            Ok(bytes)
        }
        [path] => Ok(fs::read(rt, *path)?),
        _ => bail!("more than one file"),
    }
}
