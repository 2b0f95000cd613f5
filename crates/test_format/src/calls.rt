// The calls of the format.
use std::alloc::{AllocError, Global};
use std::io;
use test_cases::{Answer, Bench, Words, lay_bytes, no_data, unquoted};
use tune_format::{
    Firsts, key_of_number, number_of_key, read_root, read_text, write_root, write_text,
};
use tune_index::IndexKey;
use tune_journal::PageImage;
use tune_search::SearchFirsts;
use tune_store::Layout;

/// Nothing is kept between two calls.
#[derive(Clone, Copy)]
pub(crate) struct Calls {
    alloc: Global,
}

impl Calls {
    pub(crate) fn new(alloc: Global) -> Calls {
        Calls { alloc }
    }
}

impl Bench for Calls {
    fn begin(&mut self, _given: &str) -> io::Result<()> {
        Ok(())
    }

    fn call(&mut self, name: &str, mut words: Words<'_>, answer: &mut Answer) -> io::Result<()> {
        match name {
            "write-root" => {
                let layout = layout(&mut words).ok_or(no_data())?;
                let firsts = firsts(&mut words).ok_or(no_data())?;
                show_root(&write_root(layout, firsts), answer);
            }
            "read-root" => show_read_root(self.alloc, words.rest(), answer)?,
            "key-of-number" => {
                let number = words.number().ok_or(no_data())?;
                answer.quote(key_of_number(number).bytes());
            }
            "number-of-key" => show_number(self.alloc, words.rest(), answer)?,
            "write-text" => {
                let revision = words.short().ok_or(no_data())?;
                show_written(self.alloc, revision, words.rest(), answer)?;
            }
            "read-text" => show_text(&unquoted(self.alloc, words.rest())?, answer),
            _ => return Err(no_data()),
        }
        Ok(())
    }
}

// The layout of a number.
fn layout(words: &mut Words<'_>) -> Option<Layout> {
    match words.number()? {
        1 => Some(Layout::One),
        2 => Some(Layout::Two),
        _ => None,
    }
}

// Six numbers, as those of the first pages in a root.
fn firsts(words: &mut Words<'_>) -> Option<Firsts> {
    Some(Firsts {
        numbers: words.number()?,
        searches: SearchFirsts {
            titles: words.number()?,
            rhythms: words.number()?,
            scales: words.number()?,
            incipits: words.number()?,
        },
        sets: words.number()?,
    })
}

// A page that begins with these bytes, and has zeros behind them.
pub(crate) fn page(bytes: &[u8]) -> PageImage {
    let mut page = PageImage::blank();
    lay_bytes(bytes, &mut page.bytes);
    page
}

// A key that begins with these bytes, and has zeros behind them.
pub(crate) fn key<const W: usize>(bytes: &[u8]) -> IndexKey<W> {
    let mut key = [0; W];
    lay_bytes(bytes, &mut key);
    IndexKey::new(key)
}

// Shows what a root says, and whether zeros stand behind it.
fn show_root(root: &PageImage, answer: &mut Answer) {
    let (front, behind) = root.bytes.split_at(28);
    answer.quote(front);
    if behind.iter().any(|byte| *byte != 0) {
        answer.say(" and others");
    }
}

fn show_read_root(alloc: Global, bytes: &str, answer: &mut Answer) -> Result<(), AllocError> {
    let bytes = unquoted(alloc, bytes)?;
    match read_root(&page(&bytes)) {
        Some((layout, firsts)) => {
            answer.show(layout.number());
            answer.say(" ");
            show_firsts(firsts, answer);
        }
        None => answer.say("none"),
    }
    Ok(())
}

pub(crate) fn show_firsts(firsts: Firsts, answer: &mut Answer) {
    let Firsts {
        numbers,
        searches,
        sets,
    } = firsts;
    let (titles, rhythms) = (searches.titles, searches.rhythms);
    let (scales, incipits) = (searches.scales, searches.incipits);
    answer.show(format_args!("{numbers} {titles} {rhythms} {scales} {incipits} {sets}"));
}

fn show_number(alloc: Global, bytes: &str, answer: &mut Answer) -> Result<(), AllocError> {
    let bytes = unquoted(alloc, bytes)?;
    match number_of_key(&key(&bytes)) {
        Some(number) => answer.show(number),
        None => answer.say("none"),
    }
    Ok(())
}

fn show_written(
    alloc: Global,
    revision: u16,
    text: &str,
    answer: &mut Answer,
) -> Result<(), AllocError> {
    let text = unquoted(alloc, text)?;
    let bytes = write_text(alloc, revision, &text)?;
    answer.quote(&bytes);
    Ok(())
}

fn show_text(bytes: &[u8], answer: &mut Answer) {
    match read_text(bytes) {
        Some((revision, text)) => {
            answer.show(revision);
            answer.say(" ");
            answer.quote(text);
        }
        None => answer.say("none"),
    }
}
