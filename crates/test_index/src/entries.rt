// Keys and entries as the files write them down.
//
// A key is a number, or the bytes of a text, filled up with zeros; with `+` behind the text, with
// 255. Entries stand one behind the other: `KEY:VALUE` is one, `KEY:1..9` are those of one key with
// each of these values, and `1..9` are those of each of these keys, its value the same number.
ghost use Rattle.std.specs.Prelude.{◌↔◌, ◌≤◌, ◌++◌, [], ◌∷◌, IsTrue};
ghost use Rattle.index_keys.specs.Entries.{IsRising};

use std::alloc::{AllocError, Global};
use std::marker::Model;
use test_cases::Answer;
use tune_index::IndexKey;

/// Entries that rise.
#[derive(Drop)]
pub(crate) struct Run<const W: usize> {
    entries: Vec<(IndexKey<W>, u32)>,
}

impl<const W: usize> Model for Run<W> {
    ghost use Rattle.std.specs.Prelude.{List};
    ghost use Rattle.index_keys.specs.Entries.{Entry, IsRising};

    ghost Value = { List Entry };

    ghost view = { λ run. run.entries.items };

    ghost invariant = { λ run. IsRising run.entries.items };
}

impl<const W: usize> Run<W> {
    fn new(alloc: Global) -> Run<W> {
        Run {
            entries: Vec::new(alloc),
        }
    }

    // The entries that a text writes down; none where they do not rise.
    pub(crate) fn read(alloc: Global, text: &str) -> Result<Option<Run<W>>, AllocError>
        requires { W ≤ 4090 }
    {
        let mut run = Run::new(alloc);
        for entry in read_entries(alloc, text)? {
            let (key, value) = entry;
            if !run.push(key, value)? {
                return Ok(None);
            }
        }
        Ok(Some(run))
    }

    // The entry comes to the end, where it stands behind all others; otherwise false.
    fn push(&mut self, key: IndexKey<W>, value: u32) -> Result<bool, AllocError> {
        let entry = (key, value);
        if !follows(&self.entries, &entry) {
            return Ok(false);
        }
        self.entries.push(entry)?;
        Ok(true)
    }

    // The entries.
    pub(crate) fn entries(&self) -> &[(IndexKey<W>, u32)]
        ensures { IsRising result.now }
    {
        &self.entries
    }
}

// Whether an entry may come behind these.
fn follows<const W: usize>(entries: &[(IndexKey<W>, u32)], entry: &(IndexKey<W>, u32)) -> bool
    ensures { IsRising entries.now
        → (IsTrue result ↔ IsRising (entries.now ++ entry.now ∷ [])) }
{
    let count = entries.len();
    if count == 0 {
        return true;
    }
    let last = &entries[count - 1];
    last.0.is_before(last.1, &entry.0, entry.1)
}

// The entries that a text writes down, as they stand there.
pub(crate) fn read_entries<const W: usize>(
    alloc: Global,
    text: &str,
) -> Result<Vec<(IndexKey<W>, u32)>, AllocError> {
    let mut entries = Vec::new(alloc);
    for word in text.split(' ') {
        match word.split_once(':') {
            Some((key, values)) => add_values(&mut entries, &read_key(key), values)?,
            None => add_keys(&mut entries, word)?,
        }
    }
    Ok(entries)
}

// The entries of a key with each of these values.
fn add_values<const W: usize>(
    entries: &mut Vec<(IndexKey<W>, u32)>,
    key: &IndexKey<W>,
    values: &str,
) -> Result<(), AllocError> {
    let (first, last) = read_range(values);
    for value in first..=last {
        entries.push((key.copy(), value))?;
    }
    Ok(())
}

// The entries of each of these keys, its value the same number.
fn add_keys<const W: usize>(
    entries: &mut Vec<(IndexKey<W>, u32)>,
    keys: &str,
) -> Result<(), AllocError> {
    let (first, last) = read_range(keys);
    for number in first..=last {
        entries.push((number_key(number), number))?;
    }
    Ok(())
}

// From a number to a number; what is no range has none.
fn read_range(text: &str) -> (u32, u32) {
    let (first, last) = text.split_once("..").unwrap_or((text, text));
    match (first.parse(), last.parse()) {
        (Ok(first), Ok(last)) => (first, last),
        _ => (1, 0),
    }
}

// The key that a text writes down.
pub(crate) fn read_key<const W: usize>(text: &str) -> IndexKey<W> {
    if let Ok(number) = text.parse() {
        return number_key(number);
    }
    match text.strip_suffix('+') {
        Some(front) => IndexKey::cut(front.as_bytes(), 255),
        None => IndexKey::cut(text.as_bytes(), 0),
    }
}

// The key that spells a number.
fn number_key<const W: usize>(number: u32) -> IndexKey<W> {
    let mut bytes = [0; W];
    if let Some(end) = W.checked_sub(4) {
        let bytes = &mut bytes[..];
        bytes[end..].copy_from_slice(&number.to_be_bytes());
    }
    IndexKey::new(bytes)
}

// Whether two lists have the same entries.
pub(crate) fn are_same<const W: usize>(
    entries: &[(IndexKey<W>, u32)],
    others: &[(IndexKey<W>, u32)],
) -> bool {
    entries.len() == others.len()
        && entries.iter().zip(others).all(|(entry, other)| entry.0.bytes() == other.0.bytes()
            && entry.1 == other.1)
}

// Writes values down: one behind the other, and `1..9` where each is one more than that before it.
pub(crate) fn show_values(values: &[u32], answer: &mut Answer) {
    let mut range: Option<(u32, u32)> = None;
    for value in values {
        range = match range {
            None => Some((*value, *value)),
            Some((first, last)) if last.checked_add(1) == Some(*value) => Some((first, *value)),
            Some((first, last)) => {
                show_range(first, last, answer);
                answer.say(" ");
                Some((*value, *value))
            }
        };
    }
    match range {
        None => answer.say("none"),
        Some((first, last)) => show_range(first, last, answer),
    }
}

fn show_range(first: u32, last: u32, answer: &mut Answer) {
    answer.show(first);
    if first != last {
        answer.say("..");
        answer.show(last);
    }
}
