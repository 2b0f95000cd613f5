// A book that is judged before its texts are made.
ghost use Rattle.std.specs.Prelude.{◌≡◌, ◌<◌, ◌≤◌, ◌+◌, ℕ, List, length, map, Ok, Err, IfOk, IfErr};
ghost use Rattle.std.specs.Prelude.{MatchResult, ◌⊎◌};
ghost use Rattle.std.specs.List.{AllByRecursion};
ghost use Rattle.abc_fields.specs.Limits.{longest_book, longest_tune};
ghost use Rattle.abc_fields.specs.Inside.LinesLeft.{contents_of};
ghost use Rattle.abc_fields.specs.Tunes.{tune_runs, joined, IsTextWithin};
ghost use Rattle.abc_fields.specs.Books.{book_answer, without_mark, runs_answer};
ghost use Rattle.abc_fields.specs.Inside.HeaderRows.{runs_with, texts_with};

use crate::book::{BookFault, LONGEST_BOOK};
use crate::carried::Carried;
use crate::file_header::FileHeader;
use crate::lines::Lines;
use crate::texts::TuneText;
use crate::tune_lines::{judge_tune, starts_tune, text_of_tune};
use std::alloc::{AllocError, Global};
use std::marker::Model;

/// A book whose tunes are all good, before their texts are made (ABC 2.1, 2.2.1, 2.2.2; this
/// archive's profile). It holds parts of the book and no text. A clause sees the list of the texts.
#[derive(Drop)]
pub struct JudgedBook<'a> {
    lines: Lines<'a>,
    header: FileHeader<'a>,
    count: usize,
}

impl<'a> Model for JudgedBook<'a> {
    ghost Value = { List (List ℕ) };

    ghost view = { λ book. texts_with book.header (tune_runs (contents_of book.lines)) };

    ghost invariant = { λ book.
        (book.count ≡ length (texts_with book.header (tune_runs (contents_of book.lines))))
        × AllByRecursion (IsTextWithin longest_tune)
        (texts_with book.header (tune_runs (contents_of book.lines))) };
}

impl<'a> JudgedBook<'a> {
    /// How many tunes the book has. It takes no memory.
    pub fn count(&self) -> usize
        ensures { result ≡ length self.now }
    {
        self.count
    }

    /// The texts of the tunes, in order. The error is out of memory.
    pub fn texts(&self, alloc: Global) -> Result<Vec<TuneText>, AllocError>
        ensures { IfOk result (λ texts. texts.items ≡ self.now) }
    {
        texts_of(alloc, self.lines.again(), &self.header, self.count)
    }
}

// The texts of the tunes of these lines, of which there are so many, and each is good.
fn texts_of(
    alloc: Global,
    mut lines: Lines,
    header: &FileHeader,
    count: usize,
) -> Result<Vec<TuneText>, AllocError>
    requires { AllByRecursion (IsTextWithin longest_tune)
        (texts_with header.now (tune_runs (contents_of lines))) }
    ensures { IfOk result (λ texts.
        texts.items ≡ texts_with header.now (tune_runs (contents_of lines.entry))) }
{
    let mut texts = Vec::with_capacity(alloc, count)?;
    let mut carried = Carried::new(alloc, header)?;
    let mut text = Vec::new(alloc);
    while let Some(line) = lines.next() {
        if starts_tune(line.text) {
            texts.push(text_of_tune(alloc, &mut lines, header, &mut carried, &mut text)?)?;
        }
    }
    Ok(texts)
}

/// Judges a book: which is its first fault, or how many tunes it has. `longest` is how many bytes a
/// text may have, at most 64,000. It makes no text, and takes memory for the lines of the file
/// header alone.
///
/// The errors are those of `split_book`, and come as they come there.
pub fn judge_book(alloc: Global, book: &[u8], longest: usize) -> Result<JudgedBook<'_>, BookFault>
    requires { longest ≤ longest_tune }
    ensures texts { IfOk result (λ judged. book_answer longest book.now ≡ Ok judged) }
    ensures within { IfOk result (λ judged. AllByRecursion (IsTextWithin longest) judged) }
    ensures refusal { IfErr result (λ fault.
        (fault ≡ BookFault.OutOfMemory) ⊎ (book_answer longest book.now ≡ Err fault)) }
    ensures too_long { longest_book < length book.now → result ≡ Err BookFault.BookTooLong }
{
    if book.len() > LONGEST_BOOK {
        return Err(BookFault::BookTooLong);
    }
    let lines = Lines::of_whole(without_mark(book));
    let header = FileHeader::of_lines(alloc, lines.again())?;
    let count = judge_tunes(lines.again(), &header, longest)?;
    if count == 0 {
        return Err(BookFault::NoTune);
    }
    Ok(JudgedBook {
        lines,
        header,
        count,
    })
}

// The book without the byte order mark at its front.
fn without_mark(book: &[u8]) -> &[u8]
    ensures { result.now ≡ without_mark book.now }
{
    if book.starts_with(b"\xef\xbb\xbf") {
        &book[3..]
    } else {
        book
    }
}

// How many tunes these lines have, where each of them is good.
fn judge_tunes(mut lines: Lines, header: &FileHeader, longest: usize) -> Result<usize, BookFault>
    requires { length (joined (contents_of lines)) ≤ longest_book + 1 }
    ensures { let runs = runs_with header.now (tune_runs (contents_of lines.entry)) in
        MatchResult result (λ count.
        (runs_answer longest 1 runs ≡ Ok (map joined runs)) × (count ≡ length runs))
        (λ fault. runs_answer longest 1 runs ≡ Err fault) }
{
    let mut count = 0;
    while let Some(line) = lines.next() {
        if starts_tune(line.text) {
            count += 1;
            judge_tune(&mut lines, header, longest, count)?;
        }
    }
    Ok(count)
}
