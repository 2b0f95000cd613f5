// The tunes of a book.
ghost use Rattle.std.specs.Prelude.{◌≡◌, ◌<◌, ◌≤◌, ◌⊎◌, length, Ok, Err, IfOk, IfErr};
ghost use Rattle.std.specs.List.{AllByRecursion};
ghost use Rattle.abc_fields.specs.Limits.{longest_book, longest_tune};
ghost use Rattle.abc_fields.specs.Tunes.{IsTextWithin};
ghost use Rattle.abc_fields.specs.Books.{book_answer};

use crate::judged_book::judge_book;
use crate::texts::TuneText;
use std::alloc::{AllocError, AllocFailed, Global};
use thiserror::Error;

/// How many bytes a book has at most (this archive's profile).
pub const LONGEST_BOOK: usize = 4_000_000;

/// Why a tune is refused.
#[derive(Clone, Copy, Debug, PartialEq, Eq, Error)]
pub enum TuneFault {
    /// It has no `K:` line.
    #[error("no `K:` line")]
    NoKey,
    /// Its text has more bytes than are allowed.
    #[error("too long")]
    TooLong,
}

/// Why a book is refused.
#[derive(Clone, Copy, Debug, PartialEq, Eq, Error)]
pub enum BookFault {
    /// It has more than `LONGEST_BOOK` bytes.
    #[error("the book is too long")]
    BookTooLong,
    /// No line begins with `X:`.
    #[error("the book has no tune")]
    NoTune,
    /// The first tune that is refused, by its place in the book, counted from 1.
    #[error("tune {place}: {fault}")]
    BadTune { place: usize, fault: TuneFault },
    /// There is no memory.
    #[error("out of memory")]
    OutOfMemory,
}

impl From<AllocError> for BookFault {
    ghost use Rattle.std.specs.Prelude.{◌≡◌};
    ghost use Rattle.abc_fields.specs.declared.book.BookFault.TheVariants.{OutOfMemory};

    ghost from_gives = { λ _ e. e ≡ OutOfMemory };

    fn from(_e: AllocError) -> BookFault {
        Self::OutOfMemory
    }
}

impl<T: Drop> From<AllocFailed<T>> for BookFault {
    ghost use Rattle.std.specs.Prelude.{◌≡◌};
    ghost use Rattle.abc_fields.specs.declared.book.BookFault.TheVariants.{OutOfMemory};

    ghost from_gives = { λ _ e. e ≡ OutOfMemory };

    fn from(e: AllocFailed<T>) -> BookFault {
        BookFault::from(AllocError::from(e))
    }
}

/// The texts of a book's tunes, in order (ABC 2.1, 2.2.1, 2.2.2; this archive's profile). A tune is
/// an `X:` line and the lines of its block after it, up to the next `X:` line; its text is these
/// lines, each ended by a line feed, with those that it carries of the file header before its first
/// `K:` line. `longest` is how many bytes a text may have, at most 64,000.
///
/// The first of these that holds is the error: `BookTooLong`, `NoTune`, `BadTune` for the first
/// tune that has no `K:` line or a text that is too long. `OutOfMemory` comes in place of any but
/// the first.
pub fn split_book(alloc: Global, book: &[u8], longest: usize) -> Result<Vec<TuneText>, BookFault>
    requires { longest ≤ longest_tune }
    ensures texts { IfOk result (λ tunes. book_answer longest book.now ≡ Ok tunes.items) }
    ensures within { IfOk result (λ tunes. AllByRecursion (IsTextWithin longest) tunes.items) }
    ensures refusal { IfErr result (λ fault.
        (fault ≡ BookFault.OutOfMemory) ⊎ (book_answer longest book.now ≡ Err fault)) }
    ensures too_long { longest_book < length book.now → result ≡ Err BookFault.BookTooLong }
{
    Ok(judge_book(alloc, book, longest)?.texts(alloc)?)
}
