// Writes the tunes of a book, one after another.
ghost use Rattle.std.specs.Prelude.{◌≡◌, ℕ, List, ◌++◌, codes, length, true, IfOk};
ghost use Rattle.abc_fields.specs.Lines.{has_no_ending};
ghost use Rattle.abc_fields.specs.Tunes.{IsTuneText};
ghost use Rattle.tune_books.specs.WrittenBooks.{book_header, written_tune, written_book};
ghost use Rattle.tune_books.specs.WrittenBooks.{set_header, written_set};
ghost use Rattle.tune_books.specs.ReadBack.{GivesBack};

use abc_fields::{ByteText, TuneText};
use std::alloc::{AllocError, Global};
use std::io::Write;
use std::marker::Model;

/// A book as far as it is written: the line `%abc-2.1`, and then, for each tune, an empty line, its
/// `X:` line and its text (ABC 2.1, sections 2.1 and 2.2; this archive's profile). A clause sees
/// the list of its bytes.
#[derive(Debug, Drop)]
pub struct BookWriter {
    bytes: Vec<u8>,
}

impl Model for BookWriter {
    ghost Value = { List ℕ };

    ghost view = { λ w. w.bytes.items };
}

impl BookWriter {
    /// A book without tunes: the line `%abc-2.1`, by which a reader knows the file (ABC 2.1,
    /// section 2.1). The error is out of memory.
    pub fn new(alloc: Global) -> Result<BookWriter, AllocError>
        ensures { IfOk result (λ writer. writer ≡ book_header) }
    {
        let bytes = Vec::from_slice(alloc, b"%abc-2.1\n")?;
        Ok(BookWriter { bytes })
    }

    /// A book without tunes, with room for so many bytes: up to these it takes no more memory. The
    /// error is out of memory.
    pub fn with_room(alloc: Global, room: usize) -> Result<BookWriter, AllocError>
        ensures { IfOk result (λ writer. writer ≡ book_header) }
    {
        let mut bytes = Vec::with_capacity(alloc, room)?;
        bytes.extend_from_slice(b"%abc-2.1\n")?;
        Ok(BookWriter { bytes })
    }

    /// A set without tunes: the first line of a book, and a comment that names the set (this
    /// archive's profile). The error is out of memory.
    pub fn of_set(alloc: Global, name: &[u8]) -> Result<BookWriter, AllocError>
        ensures { IfOk result (λ writer. writer ≡ set_header name.now) }
    {
        let mut bytes = Vec::from_slice(alloc, b"%abc-2.1\n% set ")?;
        bytes.extend_from_slice(name)?;
        bytes.extend_from_slice(b"\n")?;
        Ok(BookWriter { bytes })
    }

    /// The book with one more tune at its end: an empty line, the line `X:` with the number, and
    /// the text (ABC 2.1, section 2.2.1; this archive's profile). The error is out of memory, and
    /// what was written is dropped then.
    pub fn with_tune(self, number: u32, text: &TuneText) -> Result<BookWriter, AllocError>
        ensures { IfOk result (λ writer.
            writer ≡ self ++ (codes "\n" ++ written_tune number text.now)) }
    {
        self.with_numbered(number as usize, text)
    }

    // The same for any number, with what is known of the text.
    fn with_numbered(self, number: usize, text: &TuneText) -> Result<BookWriter, AllocError>
        ensures written { IfOk result (λ writer.
            writer ≡ self ++ (codes "\n" ++ written_tune number text.now)) }
        ensures text { IfOk result (λ _. IsTuneText text.now) }
    {
        let BookWriter { mut bytes } = self;
        write!(bytes, "\nX:{number}\n").map_err(|_| AllocError)?;
        bytes.extend_from_slice(text.bytes())?;
        Ok(BookWriter { bytes })
    }

    /// The bytes of the book. It takes no memory.
    pub fn into_book(self) -> ByteText
        ensures { result ≡ self }
    {
        let BookWriter { bytes } = self;
        ByteText::from_vec(bytes)
    }
}

/// The book of these tunes, in order: each text follows the number at its place (ABC 2.1, sections
/// 2.1 and 2.2; this archive's profile). The error is out of memory.
///
/// The law of written books stands beside it: read again, the book gives back the texts.
pub fn write_book(
    alloc: Global,
    numbers: &[u32],
    texts: &[TuneText],
) -> Result<ByteText, AllocError>
    requires { length numbers.now ≡ length texts.now }
    ensures bytes { IfOk result (λ book. book ≡ written_book numbers.now texts.now) }
    ensures law { IfOk result (λ book. GivesBack book texts.now) }
{
    let mut writer = BookWriter::new(alloc)?;
    for (i, text) in texts.iter().enumerate() {
        writer = writer.with_numbered(numbers[i] as usize, text)?;
    }
    Ok(writer.into_book())
}

/// The set of this name: a book with a comment that names the set as its second line, whose tunes
/// are numbered by their places, from 1 (own). The name has no line feed and no carriage return, as
/// no name of a set has. The error is out of memory.
///
/// The law of written books stands beside it: read again, the set gives back the texts.
pub fn write_set(alloc: Global, name: &[u8], texts: &[TuneText]) -> Result<ByteText, AllocError>
    requires { has_no_ending name.now ≡ true }
    ensures bytes { IfOk result (λ set. set ≡ written_set name.now texts.now) }
    ensures law { IfOk result (λ set. GivesBack set texts.now) }
{
    let mut writer = BookWriter::of_set(alloc, name)?;
    for (i, text) in texts.iter().enumerate() {
        writer = writer.with_numbered(i + 1, text)?;
    }
    Ok(writer.into_book())
}
