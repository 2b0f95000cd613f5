// Calls on lines, books and texts of tunes:
//
//     lines TEXT           from where to where each line goes, and its text with a bar behind it
//     count-lines TEXT     how many lines there are
//     split LONGEST BOOK   how many tunes the book has, or why it is refused; the texts are kept
//     judge LONGEST BOOK   the same of a book that is judged first
//     text PLACE           the kept text at a place, from 1
//     copy PLACE           a copy of it
//     write NUMBER..       the book of the kept texts, with these numbers
//     write-friday         the book of the kept texts as those of the set list `friday`
//     bytes TEXT           a copy of the bytes
//     stored LONGEST LETTERS TEXT
//                          `tune` where so many letters A with this text behind them are the text
//                          of a tune of at most so many bytes; `handed back` where they are not
ghost use Rattle.std.specs.Prelude.{◌≤◌};
ghost use Rattle.abc_fields.specs.Limits.{longest_tune};

use crate::escapes::{bytes_of, is_meant, number, size};
use abc_fields::{BookFault, ByteText, Lines, TuneText, judge_book, split_book};
use std::alloc::Global;
use std::io;
use test_cases::{Answer, Bench, Words, no_data};
use tune_books::{write_book, write_set};

// The greatest length of a tune's text that may be asked for.
const LONGEST: usize = 64_000;

// The shortest text of a tune.
const SHORTEST: &[u8] = b"K:\n";

/// The texts of the tunes of a book.
#[derive(Drop)]
pub(crate) struct Books {
    alloc: Global,
    tunes: Vec<TuneText>,
}

impl Bench for Books {
    fn begin(&mut self, _given: &str) -> io::Result<()> {
        self.tunes = Vec::new(self.alloc);
        Ok(())
    }

    fn call(&mut self, name: &str, words: Words<'_>, answer: &mut Answer) -> io::Result<()> {
        match name {
            "lines" => show_lines(&bytes_of(self.alloc, words.rest())?, answer),
            "count-lines" => count_lines(&bytes_of(self.alloc, words.rest())?, answer),
            "split" | "judge" => return self.take_book(name, words, answer),
            "text" | "copy" => return self.show_text(name, words, answer),
            "write" => return self.write(words, answer),
            "write-friday" => return self.write_friday(answer),
            "bytes" => return copy_bytes(self.alloc, words, answer),
            "stored" => return show_stored(self.alloc, words, answer),
            _ => return Err(no_data()),
        }
        Ok(())
    }

    fn is_wanted(&self, answer: &Answer, written: &str) -> io::Result<bool> {
        is_meant(self.alloc, answer, written)
    }
}

impl Books {
    pub(crate) fn new(alloc: Global) -> Books {
        Books {
            alloc,
            tunes: Vec::new(alloc),
        }
    }

    // Takes the texts of a book, or answers why it is refused.
    fn take_book(
        &mut self,
        call: &str,
        mut words: Words<'_>,
        answer: &mut Answer,
    ) -> io::Result<()> {
        let longest = size(&mut words)?;
        if longest > LONGEST {
            return Err(no_data());
        }
        let book = bytes_of(self.alloc, words.rest())?;
        let texts = if call == "judge" {
            judged_texts(self.alloc, &book, longest)
        } else {
            split_book(self.alloc, &book, longest)
        };
        match texts {
            Ok(tunes) => {
                answer.show(tunes.len());
                self.tunes = tunes;
            }
            Err(fault) => answer.name(fault),
        }
        Ok(())
    }

    // The text at a place, or a copy of it.
    fn show_text(&self, call: &str, mut words: Words<'_>, answer: &mut Answer) -> io::Result<()> {
        let index = size(&mut words)?.checked_sub(1).ok_or(no_data())?;
        let text = self.tunes.get(index).ok_or(no_data())?;
        if call == "copy" {
            answer.add(text.copy(self.alloc)?.bytes());
        } else {
            answer.add(text.bytes());
        }
        Ok(())
    }

    // The book of these texts, with these numbers.
    fn write(&self, mut words: Words<'_>, answer: &mut Answer) -> io::Result<()> {
        let mut numbers = Vec::new(self.alloc);
        for _ in 0..self.tunes.len() {
            numbers.push(number(&mut words)?)?;
        }
        if numbers.len() != self.tunes.len() {
            return Err(no_data());
        }
        answer.add(write_book(self.alloc, &numbers, &self.tunes)?.as_slice());
        Ok(())
    }

    // The book of these texts as those of a set list.
    fn write_friday(&self, answer: &mut Answer) -> io::Result<()> {
        answer.add(write_set(self.alloc, b"friday", &self.tunes)?.as_slice());
        Ok(())
    }
}

// The texts of a book that is judged first, if as many were counted.
fn judged_texts(alloc: Global, book: &[u8], longest: usize) -> Result<Vec<TuneText>, BookFault>
    requires { longest ≤ 64000 }
{
    let judged = judge_book(alloc, book, longest)?;
    let texts = judged.texts(alloc)?;
    if texts.len() == judged.count() {
        Ok(texts)
    } else {
        Err(BookFault::NoTune)
    }
}

// For each line where it is from, where it ends, and its text, with a bar behind it.
fn show_lines(text: &[u8], answer: &mut Answer) {
    for line in Lines::new(text) {
        answer.space();
        answer.show(format_args!("{} {} ", line.from, line.to));
        answer.add(line.text);
        answer.say("|");
    }
}

fn count_lines(text: &[u8], answer: &mut Answer) {
    let mut count: u32 = 0;
    for _ in Lines::new(text) {
        count = count.saturating_add(1);
    }
    answer.show(count);
}

fn copy_bytes(alloc: Global, words: Words<'_>, answer: &mut Answer) -> io::Result<()> {
    let copy = ByteText::copy_of(alloc, &bytes_of(alloc, words.rest())?)?;
    answer.add(copy.as_slice());
    Ok(())
}

// Whether stored bytes are the text of a tune with at most so many bytes: letters, so many of them,
// and then a text. They are the bytes of the text, or are handed back; and they come in the place
// of another text, or that stays.
fn show_stored(alloc: Global, mut words: Words<'_>, answer: &mut Answer) -> io::Result<()> {
    let longest = size(&mut words)?;
    if longest > LONGEST {
        return Err(no_data());
    }
    let mut stored = vec![in alloc; b'A'; size(&mut words)?]?;
    stored.extend_from_slice(&bytes_of(alloc, words.rest())?)?;
    let is_read = is_read_in_place(alloc, &stored, longest)?;
    match TuneText::from_stored(ByteText::copy_of(alloc, &stored)?, longest) {
        Ok(tune) if is_read && tune.bytes() == stored.as_slice() => answer.say("tune"),
        Err(back) if !is_read && back.as_slice() == stored.as_slice() => answer.say("handed back"),
        _ => answer.say("other bytes"),
    }
    Ok(())
}

// Whether stored bytes come in the place of the shortest text, which has to stay else.
fn is_read_in_place(alloc: Global, stored: &[u8], longest: usize) -> io::Result<bool>
    requires { longest ≤ longest_tune }
{
    let mut text = TuneText::shortest(alloc)?;
    let is_read = text.read_stored(stored, longest)?;
    let wanted = if is_read { stored } else { SHORTEST };
    if text.bytes() == wanted {
        Ok(is_read)
    } else {
        Err(no_data())
    }
}
