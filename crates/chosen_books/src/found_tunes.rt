// The tunes of a book, each with what it carries, and those that are refused.
ghost use Rattle.std.specs.Prelude.{◌≡◌, ◌≤◌, ◌<◌, ◌+◌, ◌++◌, ◌∷◌, [], ℕ, List, length, IfOk};
ghost use Rattle.std.specs.Prelude.{◌≢◌, ◌⊎◌, Err, OnOk, IfErr, codes, true};
ghost use Rattle.abc_fields.specs.Bytes.{line_feed};
ghost use Rattle.abc_fields.specs.Limits.{longest_tune, longest_book};
ghost use Rattle.abc_fields.specs.Lines.{lines_of, has_no_ending};
ghost use Rattle.abc_fields.specs.Tunes.{ends_tune, joined, is_tune_start, tune_run};
ghost use Rattle.abc_fields.specs.FileHeaders.{file_header, with_header, is_header_line};
ghost use Rattle.abc_fields.specs.Books.{without_mark, book_runs};
ghost use Rattle.abc_fields.specs.Inside.LinesLeft.{contents_of};
ghost use Rattle.told_books.specs.Fates.{book_lines, engraves};
ghost use Rattle.told_books.specs.ToldTunes.{fault_of_tune};
ghost use Rattle.chosen_books.specs.BookTunes.{book_tunes, is_carried_between};
ghost use Rattle.chosen_books.specs.ChosenTunes.{good_tunes, bad_tunes, good_or, with_left_out};
ghost use Rattle.chosen_books.specs.ChosenTunes.{longest_header};
ghost use Rattle.chosen_books.specs.Inside.Fronts.{IsFront, IsJudged, AllPlain, OnMemory};

use abc_fields::{
    BookFault, Lines, TuneFault, TuneText, is_all_blank, is_comment, is_continuation,
    is_field_line, split_book,
};
use std::alloc::{AllocError, Global};
use told_books::{Fate, told_book};

/// A tune of a book that is left out, since an import would refuse it.
#[derive(Clone, Copy)]
pub struct LeftOut {
    /// Its place among the tunes of the book, counted from 1.
    pub place: usize,
    /// The number of its `X:` line in the book, counted from 1.
    pub line: usize,
    /// Why it is refused.
    pub fault: TuneFault,
}

// A tune that an import takes.
#[derive(Drop)]
pub(crate) struct GoodTune {
    pub(crate) text: TuneText,
    // How many lines that stood between tunes it carries.
    pub(crate) carried: usize,
}

// The tunes of a book.
#[derive(Drop)]
pub(crate) struct FoundTunes {
    pub(crate) good: Vec<GoodTune>,
    pub(crate) bad: Vec<LeftOut>,
}

impl FoundTunes {
    // Takes the tune of this place and this line, which carries so many lines from between
    // tunes, by what a book with this tune alone was answered.
    fn take(
        &mut self,
        place: usize,
        line: usize,
        carried: usize,
        answer: Result<TuneText, BookFault>,
    ) -> Result<(), AllocError>
        ensures good { (longest : ℕ) (lines : List (List ℕ)) → IsJudged longest lines answer
            → OnOk result (self.new.good.items ≡ self.old.good.items
            ++ good_or (fault_of_tune longest lines)
            (record { place = place; line = line; lines = lines; carried = carried }) []) }
        ensures bad { (longest : ℕ) (lines : List (List ℕ)) → IsJudged longest lines answer
            → OnOk result (self.new.bad.items ≡ self.old.bad.items
            ++ with_left_out (fault_of_tune longest lines)
            (record { place = place; line = line; lines = lines; carried = carried }) []) }
        ensures memory { OnOk result (answer ≢ Err BookFault.OutOfMemory) }
    {
        match answer {
            Ok(text) => self.good.push(GoodTune { text, carried })?,
            Err(BookFault::BadTune { place: _, fault }) => {
                self.bad.push(LeftOut { place, line, fault })?;
            }
            // Nothing else is answered to one tune, but out of memory.
            Err(_) => return Err(AllocError),
        }
        Ok(())
    }
}

// The bytes of a file header, at most, where a book is written anew.
const LONGEST_HEADER: usize = 3_800_000;

// What the next tune carries, as the front of a book that has this tune alone.
#[derive(Drop)]
pub(crate) struct Front {
    // An empty line, and then the lines of the file header and those between tunes.
    bytes: Vec<u8>,
    // Where the lines between tunes begin.
    begin: usize,
}

impl Front {
    // That of a tune before which no line between tunes stands.
    fn of_lines(alloc: Global, lines: Lines) -> Result<Front, BookFault>
        ensures front { IfOk result (λ front. (text : List ℕ)
            → contents_of lines.entry ≡ lines_of text
            → IsFront (file_header (contents_of lines.entry)) [] front) }
        ensures refused { IfErr result (λ fault. (fault ≡ BookFault.OutOfMemory)
            ⊎ ((fault ≡ BookFault.BookTooLong)
            × (longest_header < length (joined (file_header (contents_of lines.entry)))))) }
    {
        let bytes = header_bytes(alloc, lines)?;
        let begin = bytes.len();
        if begin > LONGEST_HEADER + 1 {
            return Err(BookFault::BookTooLong);
        }
        Ok(Front { bytes, begin })
    }

    // Adds a line that stands between tunes.
    fn add(&mut self, line: &[u8]) -> Result<(), AllocError>
        ensures { (header between : List (List ℕ)) → IsFront header between self.old
            → engraves line.now ≡ true → has_no_ending line.now ≡ true
            → OnOk result (IsFront header (between ++ line.now ∷ []) self.new) }
    {
        push_line(&mut self.bytes, line)?;
        Ok(())
    }

    // The text of a tune, of which these are the lines, with what stands behind it, or why it is
    // refused. Without the lines between tunes it has this fault.
    fn judge(
        &mut self,
        alloc: Global,
        lines: Lines,
        fault: Option<TuneFault>,
        longest: usize,
    ) -> Result<TuneText, BookFault>
        requires { longest ≤ longest_tune }
        ensures answer { (header between : List (List ℕ)) → IsFront header between self.old
            → AllPlain (contents_of lines.entry)
            → fault ≡ fault_of_tune longest
            (with_header header (tune_run (contents_of lines.entry)))
            → IsJudged longest
            (with_header (header ++ between) (tune_run (contents_of lines.entry))) result }
        ensures front { OnMemory result (self.new.bytes.items ≡ self.old.bytes.items) }
        ensures begin { self.new.begin ≡ self.old.begin }
    {
        if let Some(fault) = fault {
            return Err(BookFault::BadTune { place: 1, fault });
        }
        if self.bytes.len().saturating_sub(self.begin) > longest {
            return Err(BookFault::BadTune {
                place: 1,
                fault: TuneFault::TooLong,
            });
        }
        let length = self.bytes.len();
        push_tune(&mut self.bytes, lines)?;
        let answer = text_alone(alloc, self.bytes.as_slice(), longest);
        self.bytes.truncate(length);
        answer
    }
}

// The text of the one tune of a book.
fn text_alone(alloc: Global, book: &[u8], longest: usize) -> Result<TuneText, BookFault>
    requires { longest ≤ longest_tune }
    ensures { (lines : List (List ℕ)) → book_runs book.now ≡ lines ∷ []
        → length book.now ≤ longest_book → IsJudged longest lines result }
{
    split_book(alloc, book, longest)?
        .pop()
        .ok_or(BookFault::NoTune)
}

fn push_line(out: &mut Vec<u8>, line: &[u8]) -> Result<(), AllocError>
    ensures { OnOk result (out.new.items ≡ out.old.items ++ (line.now ++ line_feed ∷ [])) }
{
    out.extend_from_slice(line)?;
    out.push(b'\n').map_err(|_| AllocError)
}

// Writes a tune, of which these are the lines, with what stands behind it.
fn push_tune(out: &mut Vec<u8>, lines: Lines) -> Result<(), AllocError>
    ensures { OnOk result (out.new.items
        ≡ out.old.items ++ (codes "\nX:\n" ++ joined (tune_run (contents_of lines.entry)))) }
{
    out.extend_from_slice(b"\nX:\n")?;
    for line in lines {
        if ends_tune(line.text) {
            return Ok(());
        }
        push_line(out, line.text)?;
    }
    Ok(())
}

fn starts_tune(line: &[u8]) -> bool
    ensures { result ≡ is_tune_start line.now }
{
    line.starts_with(b"X:")
}

// Whether a tune ends before a line.
fn ends_tune(line: &[u8]) -> bool
    ensures { result ≡ ends_tune line.now }
{
    is_all_blank(line) || starts_tune(line)
}

// Whether a line may stand in a file header.
fn is_header_line(line: &[u8]) -> bool
    ensures { result ≡ is_header_line line.now }
{
    !starts_tune(line) && (is_field_line(line) || is_continuation(line) || is_comment(line))
}

// An empty line, and the lines of the file header of these lines.
fn header_bytes(alloc: Global, lines: Lines) -> Result<Vec<u8>, AllocError>
    ensures { IfOk result (λ bytes.
        bytes.items ≡ codes "\n" ++ joined (file_header (contents_of lines.entry))) }
{
    let mut bytes = Vec::from_slice(alloc, b"\n")?;
    let mut begun = false;
    for line in lines {
        if is_all_blank(line.text) {
            if begun {
                return Ok(bytes);
            }
        } else {
            if !is_header_line(line.text) {
                return Vec::from_slice(alloc, b"\n");
            }
            push_line(&mut bytes, line.text)?;
            begun = true;
        }
    }
    Ok(bytes)
}

// The book without the byte order mark at its front.
fn without_mark(book: &[u8]) -> &[u8]
    ensures { result.now ≡ without_mark book.now }
{
    if book.starts_with(b"\xef\xbb\xbf") {
        &book[3..]
    } else {
        book
    }
}

// Whether a line changes how a sheet is engraved.
fn engraves(line: &[u8]) -> bool
    ensures { result ≡ engraves line.now }
{
    line.starts_with(b"%%") || line.starts_with(b"U:") || line.starts_with(b"m:")
}

// Whether a line with this fate is carried, where this is asked for.
fn is_between(carry: bool, fate: Fate, line: &[u8]) -> bool
    ensures { result ≡ is_carried_between carry fate line.now }
{
    match fate {
        Fate::Dropped { directive: _ } => carry && engraves(line),
        _ => false,
    }
}

// The tunes of a book, where a text may have so many bytes.
pub(crate) fn find_tunes(
    alloc: Global,
    book: &[u8],
    longest: usize,
    carry: bool,
) -> Result<FoundTunes, BookFault>
    requires { longest ≤ longest_tune }
    ensures good { IfOk result (λ found.
        found.good.items ≡ good_tunes longest (book_tunes carry book.now)) }
    ensures bad { IfOk result (λ found.
        found.bad.items ≡ bad_tunes longest (book_tunes carry book.now)) }
    ensures short { IfOk result (λ _.
        length (joined (file_header (book_lines book.now))) ≤ longest_header) }
    ensures refused { IfErr result (λ fault. (fault ≡ BookFault.OutOfMemory)
        ⊎ ((fault ≡ BookFault.BookTooLong)
        × (longest_header < length (joined (file_header (book_lines book.now)))))) }
{
    let mut lines = Lines::new(without_mark(book));
    let mut front = Front::of_lines(alloc, lines.again())?;
    let told = told_book(alloc, book, longest)?;
    let mut found = FoundTunes {
        good: Vec::new(alloc),
        bad: Vec::new(alloc),
    };
    let mut tunes = 0;
    let mut carried = 0;
    for fate in told.fates.iter() {
        let Some(line) = lines.next() else {
            return Ok(found);
        };
        if starts_tune(line.text) {
            let tune = told.tunes[tunes];
            tunes += 1;
            let answer = front.judge(alloc, lines.again(), tune.fault, longest);
            found.take(tunes, tune.line, carried, answer)?;
        } else if is_between(carry, *fate, line.text) {
            front.add(line.text)?;
            carried += 1;
        }
    }
    Ok(found)
}
