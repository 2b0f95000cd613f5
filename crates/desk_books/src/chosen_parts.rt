// What is chosen of a book that was read.
ghost use Rattle.std.specs.Prelude.{MatchResult};
ghost use Rattle.desk_books.specs.ChosenParts.{Chooses, IsNotChosen};
ghost use Rattle.tune_store.specs.Limits.{longest_text};

use crate::lost_lines::{say_left_out, say_lost_lines};
use crate::told_imports::Tally;
use abc_fields::ByteText;
use chosen_books::{Chosen, KnownTexts, chosen_books};
use desk_terms::Adding;
use std::alloc::{AllocError, Global};
use std::io::Write;
use told_books::told_book;
use tune_store::{Layout, Refusal};

/// A book that was read, at its path.
#[derive(Drop)]
pub(crate) struct ReadBook<'a> {
    pub(crate) path: &'a str,
    pub(crate) bytes: ByteText,
}

/// The parts of a book that are taken in, one after another, and what is to be told of them.
#[derive(Drop)]
pub(crate) struct Choice<'a> {
    pub(crate) parts: Vec<ByteText>,
    pub(crate) tally: Tally<'a>,
}

/// What a choice goes by: how books are taken in, and the layout of the archive that takes them in.
#[derive(Clone, Copy)]
pub(crate) struct Choosing {
    pub(crate) how: Adding,
    pub(crate) layout: Layout,
}

/// Chooses what of a book is taken in, and tells what is left out. What is chosen is known from
/// then on, where only new tunes are asked for.
pub(crate) fn choose<'a, E: Write>(
    alloc: Global,
    choosing: Choosing,
    book: ReadBook<'a>,
    known: &mut KnownTexts,
    errors: &mut E,
) -> Result<Choice<'a>, Refusal>
    ensures { MatchResult result
        (λ choice. Chooses choosing.how choosing.layout book.entry.bytes
        (record { was = known.old; now = known.new }) choice.parts.items)
        (λ refusal. IsNotChosen choosing.how choosing.layout book.entry.bytes refusal) }
{
    let Choosing { how, layout } = choosing;
    let ReadBook { path, bytes } = book;
    let longest = layout.longest_text();
    let lost = lost_of(alloc, bytes.as_slice(), longest)?;
    let shown = shown_of(alloc, how, &bytes)?;
    let Chosen {
        parts,
        tunes: _,
        bad,
        known: there,
        carried,
    } = chosen_books(alloc, bytes, longest, how, known)?;
    say_left_out(errors, path, bad.as_slice());
    let told = told_book(alloc, shown.as_slice(), longest);
    say_lost_lines(errors, path, told, carried.lines);
    let mut tally = Tally::of_parts(path, parts.len());
    tally.there = there;
    tally.left_out = bad.len();
    tally.carried = carried;
    tally.lost = lost.saturating_sub(carried.lines);
    Ok(Choice { parts, tally })
}

// How many lines of a book go into none of its tunes.
fn lost_of(alloc: Global, book: &[u8], longest: usize) -> Result<usize, AllocError> {
    let told = told_book(alloc, book, longest)?;
    Ok(told.lost())
}

// The book, where its lost lines are to be told.
fn shown_of(alloc: Global, how: Adding, book: &ByteText) -> Result<ByteText, AllocError> {
    if how.show_lost {
        ByteText::copy_of(alloc, book.as_slice())
    } else {
        Ok(ByteText::from_vec(Vec::new(alloc)))
    }
}
