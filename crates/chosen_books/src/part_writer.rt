// Writes tunes as books that can be imported.
ghost use Rattle.std.specs.Prelude.{◌≡◌, ◌≢◌, ◌≤◌, ◌++◌, ◌∷◌, [], ℕ, length, IfOk, OnOk, Ok, List};
ghost use Rattle.abc_fields.specs.Books.{book_answer};
ghost use Rattle.chosen_books.specs.ChosenTunes.{GoIn, texts_of};
ghost use Rattle.chosen_books.specs.Inside.WrittenParts.{TextsFit, IsClosed, IsBookPart, full_part};

use crate::found_tunes::GoodTune;
use abc_fields::{ByteText, TuneText};
use std::alloc::{AllocError, Global};
use tune_books::write_book;

// A part is full when it may have more bytes than this.
const FULL_PART: usize = 1_000_000;

// A part as far as it has come.
#[derive(Drop)]
pub(crate) struct Part {
    numbers: Vec<u32>,
    texts: Vec<TuneText>,
    // How many bytes its book has, at most.
    length: usize,
}

impl Part {
    // A part without a text.
    fn new(alloc: Global) -> Part
        ensures is { IsBookPart result }
        ensures texts { result.texts.items ≡ [] }
        ensures open { result.length ≤ full_part }
    {
        Part {
            numbers: Vec::new(alloc),
            texts: Vec::new(alloc),
            length: 9,
        }
    }

    // Adds a text. The part is not full.
    fn add(&mut self, number: u32, text: TuneText) -> Result<(), AllocError>
        requires is { IsBookPart self.old }
        requires open { self.old.length ≤ full_part }
        ensures is { OnOk result (IsBookPart self.new) }
        ensures texts { OnOk result (self.new.texts.items ≡ self.old.texts.items ++ text ∷ []) }
    {
        self.length += text.bytes().len() + 14;
        self.numbers.push(number)?;
        self.texts.push(text)?;
        Ok(())
    }

    // The book of its texts.
    fn book(&self, alloc: Global) -> Result<ByteText, AllocError>
        requires { IsBookPart self.now }
        ensures { IfOk result (λ book. (longest : ℕ) → self.now.texts.items ≢ []
            → TextsFit longest self.now.texts.items
            → book_answer longest book ≡ Ok self.now.texts.items) }
    {
        write_book(alloc, self.numbers.as_slice(), self.texts.as_slice())
    }

    // Puts the part at the end of others, and begins the next, where it is full.
    fn close_full(&mut self, alloc: Global, parts: &mut Vec<ByteText>) -> Result<(), AllocError>
        requires { IsBookPart self.old }
        ensures is { OnOk result (IsBookPart self.new) }
        ensures open { OnOk result (self.new.length ≤ full_part) }
        ensures texts { OnOk result ((longest : ℕ) (done : List (List ℕ))
            → TextsFit longest self.old.texts.items → GoIn longest parts.old.items done
            → IsClosed longest (done ++ self.old.texts.items) parts.new.items
            self.new.texts.items) }
    {
        if self.length <= FULL_PART {
            return Ok(());
        }
        if !self.texts.is_empty() {
            parts.push(self.book(alloc)?)?;
        }
        *self = Part::new(alloc);
        Ok(())
    }
}

// The books of these tunes, which can be imported one after another.
pub(crate) fn written_parts(
    alloc: Global,
    tunes: Vec<GoodTune>,
) -> Result<Vec<ByteText>, AllocError>
    ensures { IfOk result (λ parts. (longest : ℕ) → TextsFit longest (texts_of tunes.items)
        → GoIn longest parts.items (texts_of tunes.items)) }
{
    let mut parts = Vec::new(alloc);
    let mut part = Part::new(alloc);
    let mut number = 0u32;
    for tune in tunes {
        part.close_full(alloc, &mut parts)?;
        number = number.saturating_add(1);
        part.add(number, tune.text)?;
    }
    if !part.texts.is_empty() {
        parts.push(part.book(alloc)?)?;
    }
    Ok(parts)
}
