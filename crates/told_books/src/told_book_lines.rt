// What is told of a book.
ghost use Rattle.std.specs.Prelude.{◌≡◌, ◌<◌, ◌+◌, ℕ, List, length, map, nat_lt, Ok, Err, IfOk};
ghost use Rattle.std.specs.Prelude.{MatchOption, count_by, vec_len};
ghost use Rattle.abc_fields.specs.Limits.{longest_book};
ghost use Rattle.abc_fields.specs.Books.{book_runs, tune_texts, book_answer};
ghost use Rattle.abc_fields.specs.FileHeaders.{file_header};
ghost use Rattle.told_books.specs.Fates.{book_lines, fates_of, is_dropped};
ghost use Rattle.told_books.specs.ToldTunes.{told_tunes_from, fault_of_tune, book_fault};
ghost use Rattle.told_books.specs.FateLines.{dropped_from, dropped_row, TellsTunes};
ghost use Rattle.told_books.specs.FateLines.{TellsCarriedLines};

use crate::dropped::{DroppedLine, dropped_of};
use crate::fates::{Fate, fates_of, has_header};
use crate::line_rules::without_mark;
use crate::sums::sums_of;
use crate::tunes::{ToldTune, first_bad, tunes_of};
use abc_fields::{BookFault, LONGEST_BOOK, Lines};
use std::alloc::{AllocError, Global};

/// What becomes of a book that is imported. The parts of the book stay where they are.
#[derive(Drop)]
pub struct ToldBook<'a> {
    /// What becomes of each line, in order.
    pub fates: Vec<Fate>,
    /// The tunes, in order.
    pub tunes: Vec<ToldTune>,
    /// The lines that are in nothing that is kept, in order.
    pub dropped: Vec<DroppedLine<'a>>,
    /// Whether the book has more bytes than one may have.
    pub too_long: bool,
}

impl<'a> ToldBook<'a> {
    /// How many lines are in nothing that is kept.
    pub fn lost(&self) -> usize
        ensures { result ≡ count_by is_dropped self.now.fates.items }
    {
        self.fates
            .iter()
            .filter(|fate| matches!(fate, Fate::Dropped { .. }))
            .count()
    }

    /// Why the book as a whole is refused, if it is: it is too long, has no tune, or has a tune
    /// that is refused, of which the first is told.
    pub fn fault(&self) -> Option<BookFault>
        ensures { result ≡ book_fault self.now.too_long self.now.tunes.items }
    {
        if self.too_long {
            return Some(BookFault::BookTooLong);
        }
        if self.tunes.is_empty() {
            return Some(BookFault::NoTune);
        }
        first_bad(self.tunes.as_slice())
    }
}

/// What becomes of a book where the text of a tune may have `longest` bytes. The lines are those
/// behind the byte order mark. The error is out of memory.
///
/// Its laws stand beside it: each line has one fate. The lines told of a tune are that tune, as an
/// import takes it, and those told as carried are those that some tune takes of the file header.
/// Each tune is judged for itself, and the first fault is that of the import.
pub fn told_book(alloc: Global, book: &[u8], longest: usize) -> Result<ToldBook<'_>, AllocError>
    ensures fates { IfOk result (λ told. told.fates.items ≡ fates_of (book_lines book.now)) }
    ensures tunes { IfOk result (λ told. let lines = book_lines book.now in
        told.tunes.items ≡ told_tunes_from longest (file_header lines) 1 lines) }
    ensures dropped { IfOk result (λ told. let lines = book_lines book.now in
        map dropped_row told.dropped.items ≡ dropped_from 1 (fates_of lines) lines) }
    ensures too_long { IfOk result (λ told. told.too_long ≡ nat_lt longest_book (length book.now)) }
    ensures one_each { IfOk result (λ told. vec_len told.fates ≡ length (book_lines book.now)) }
    ensures kept { IfOk result (λ told. TellsTunes told.fates.items (book_lines book.now)) }
    ensures carried { IfOk result (λ told.
        TellsCarriedLines told.fates.items (book_lines book.now)) }
    ensures lost { IfOk result (λ told.
        vec_len told.dropped ≡ count_by is_dropped told.fates.items) }
    ensures faults { IfOk result (λ told.
        map (λ tune. tune.fault) told.tunes.items
        ≡ map (fault_of_tune longest) (book_runs book.now)) }
    ensures answer { IfOk result (λ told. MatchOption (book_fault told.too_long told.tunes.items)
        (book_answer longest book.now ≡ Ok (tune_texts book.now))
        (λ fault. book_answer longest book.now ≡ Err fault)) }
{
    let too_long = book.len() > LONGEST_BOOK;
    let lines = Lines::new(without_mark(book));
    let header = has_header(lines.again());
    let sums = sums_of(alloc, lines.again(), header)?;
    let tunes = tunes_of(alloc, lines.again(), sums.as_slice(), longest)?;
    let fates = fates_of(alloc, lines.again(), header)?;
    let dropped = dropped_of(alloc, fates.as_slice(), lines)?;
    Ok(ToldBook {
        fates,
        tunes,
        dropped,
        too_long,
    })
}
