// What is taken in of a book.
ghost use Rattle.std.specs.Prelude.{◌≡◌, ◌≤◌, ◌+◌, ◌∷◌, [], ℕ, List, length, IfOk, IfErr, OnOk};
ghost use Rattle.std.specs.Prelude.{Some, None, IsTrue, if◌then◌else◌, ◌⊎◌, vec_len, count_by};
ghost use Rattle.std.specs.Prelude.{true};
ghost use Rattle.abc_fields.specs.Limits.{longest_tune};
ghost use Rattle.abc_fields.specs.Books.{book_runs};
ghost use Rattle.chosen_books.specs.BookTunes.{BookTune, book_tunes};
ghost use Rattle.chosen_books.specs.ChosenTunes.{GoIn, bad_tunes, carries_some, chosen_tunes};
ghost use Rattle.chosen_books.specs.ChosenTunes.{good_tunes, most_carried, new_tunes, refusal};
ghost use Rattle.chosen_books.specs.ChosenTunes.{stays_whole, sums_after, sums_then, texts_of};
ghost use Rattle.chosen_books.specs.ChosenTunes.{tunes_refused};
ghost use Rattle.chosen_books.specs.Inside.Choices.{IsChosen};

use crate::found_tunes::{FoundTunes, GoodTune, LeftOut, find_tunes};
use crate::known_texts::KnownTexts;
use crate::part_writer::written_parts;
use abc_fields::{BookFault, ByteText, LONGEST_BOOK, judge_book};
use desk_terms::Adding;
use std::alloc::{AllocError, Global};

/// How many lines between tunes went into tunes behind them.
#[derive(Clone, Copy)]
pub struct CarriedLines {
    /// How many lines went into at least one tune that is taken in.
    pub lines: usize,
    /// How many of the tunes that are taken in carry one.
    pub tunes: usize,
}

/// What is taken in of a book.
#[derive(Drop)]
pub struct Chosen {
    /// Books that can be imported one after another: each of them goes in whole.
    pub parts: Vec<ByteText>,
    /// How many tunes these have.
    pub tunes: usize,
    /// The tunes that are left out since an import would refuse them, in order.
    pub bad: Vec<LeftOut>,
    /// How many tunes are left out since their texts are known.
    pub known: usize,
    /// The lines between tunes that are carried.
    pub carried: CarriedLines,
}

/// What is taken in of a book, where a text may have `longest` bytes, at most 64,000. Of `how` it
/// looks at `only_new`, `good`, `split` and `carry`. Where none of them changes the book, it is the
/// one part, as it stands; else its texts are written anew, in parts of some 1,000,000 bytes. Where
/// only new tunes are asked for, each text that is taken in is known from then on.
///
/// The first of these that holds is the error: `BookTooLong`, of a book above `LONGEST_BOOK` bytes
/// that is not to be split, or, where it is written anew, of one whose file header has more than
/// 3,800,000; `NoTune`; `BadTune` for the first tune that is refused with what it carries, unless
/// such tunes are left out. `OutOfMemory` comes in place of any of them.
pub fn chosen_books(
    alloc: Global,
    book: ByteText,
    longest: usize,
    how: Adding,
    known: &mut KnownTexts,
) -> Result<Chosen, BookFault>
    requires { longest ≤ longest_tune }
    ensures parts { IfOk result (λ chosen. GoIn longest chosen.parts.items
        (texts_of (chosen_tunes how longest known.old book))) }
    ensures whole { IfOk result (λ chosen. IsTrue (stays_whole how book)
        → chosen.parts.items ≡ book ∷ []) }
    ensures tunes { IfOk result (λ chosen.
        chosen.tunes ≡ length (chosen_tunes how longest known.old book)) }
    ensures bad { IfOk result (λ chosen.
        chosen.bad.items ≡ bad_tunes longest (book_tunes how.carry book)) }
    ensures none_lost { IfOk result (λ chosen.
        chosen.tunes + vec_len chosen.bad + chosen.known ≡ length (book_runs book)) }
    ensures carried_lines { IfOk result (λ chosen.
        chosen.carried.lines ≡ most_carried (chosen_tunes how longest known.old book)) }
    ensures carried_tunes { IfOk result (λ chosen.
        chosen.carried.tunes ≡ count_by carries_some (chosen_tunes how longest known.old book)) }
    ensures sums { OnOk result (known.new ≡ sums_then how longest known.old book) }
    ensures taken { IfOk result (λ _. refusal how longest book ≡ None) }
    ensures refused { IfErr result (λ fault. (fault ≡ BookFault.OutOfMemory)
        ⊎ ((refusal how longest book ≡ Some fault) × (known.new ≡ known.old))) }
{
    if stays_whole(how, &book) {
        return whole_book(alloc, book, longest);
    }
    if !how.split && book.as_slice().len() > LONGEST_BOOK {
        return Err(BookFault::BookTooLong);
    }
    let found = find_tunes(alloc, book.as_slice(), longest, how.carry)?;
    check_tunes(&found, how.good)?;
    let FoundTunes { good, bad } = found;
    let count = good.len();
    let tunes = kept_tunes(alloc, good, known, how.only_new)?;
    Ok(Chosen {
        tunes: tunes.len(),
        bad,
        known: count - tunes.len(),
        carried: carried_of(tunes.as_slice()),
        parts: written_parts(alloc, tunes)?,
    })
}

// Whether a book goes in as it stands.
fn stays_whole(how: Adding, book: &ByteText) -> bool
    ensures { result ≡ stays_whole how book.now }
{
    book.as_slice().len() <= LONGEST_BOOK && !(how.only_new || how.good || how.carry)
}

// A book that goes in as it stands.
fn whole_book(alloc: Global, book: ByteText, longest: usize) -> Result<Chosen, BookFault>
    requires { longest ≤ longest_tune }
    ensures one { IfOk result (λ chosen. chosen.parts.items ≡ book ∷ []) }
    ensures texts { IfOk result (λ chosen. (how : Adding) (sums : List (List ℕ))
        → stays_whole how book ≡ true → IsChosen longest how sums book chosen) }
    ensures refused { IfErr result (λ fault. (how : Adding) → stays_whole how book ≡ true
        → (fault ≡ BookFault.OutOfMemory) ⊎ (refusal how longest book ≡ Some fault)) }
{
    let tunes = match judge_book(alloc, book.as_slice(), longest) {
        Ok(judged) => judged.count(),
        Err(fault) => return Err(fault),
    };
    let mut parts = Vec::new(alloc);
    parts.push(book)?;
    Ok(Chosen {
        parts,
        tunes,
        bad: Vec::new(alloc),
        known: 0,
        carried: CarriedLines { lines: 0, tunes: 0 },
    })
}

// Refuses a book without a tune, and one with a bad tune unless such are left out.
fn check_tunes(found: &FoundTunes, leaves_out: bool) -> Result<(), BookFault>
    ensures good { IfOk result (λ _. (longest : ℕ) (tunes : List BookTune)
        → found.now.good.items ≡ good_tunes longest tunes
        → found.now.bad.items ≡ bad_tunes longest tunes
        → tunes_refused leaves_out longest tunes ≡ None) }
    ensures bad { IfErr result (λ fault. (longest : ℕ) (tunes : List BookTune)
        → found.now.good.items ≡ good_tunes longest tunes
        → found.now.bad.items ≡ bad_tunes longest tunes
        → tunes_refused leaves_out longest tunes ≡ Some fault) }
{
    let Some(bad) = found.bad.first() else {
        return if found.good.is_empty() {
            Err(BookFault::NoTune)
        } else {
            Ok(())
        };
    };
    if leaves_out {
        return Ok(());
    }
    Err(BookFault::BadTune {
        place: bad.place,
        fault: bad.fault,
    })
}

// Those of these tunes whose texts are not known. Each is known from then on.
fn new_tunes(
    alloc: Global,
    tunes: Vec<GoodTune>,
    known: &mut KnownTexts,
) -> Result<Vec<GoodTune>, AllocError>
    ensures new { IfOk result (λ kept. kept.items ≡ new_tunes known.old tunes.items) }
    ensures known { OnOk result (known.new ≡ sums_after known.old tunes.items) }
    ensures few { IfOk result (λ kept. vec_len kept ≤ vec_len tunes) }
{
    let mut kept = Vec::new(alloc);
    for tune in tunes {
        if known.insert(tune.text.bytes())? {
            kept.push(tune)?;
        }
    }
    Ok(kept)
}

// Of these tunes the new ones, where only such are asked for.
fn kept_tunes(
    alloc: Global,
    tunes: Vec<GoodTune>,
    known: &mut KnownTexts,
    only_new: bool,
) -> Result<Vec<GoodTune>, AllocError>
    ensures kept { IfOk result (λ kept. kept.items
        ≡ if only_new then new_tunes known.old tunes.items else tunes.items) }
    ensures known { OnOk result (known.new
        ≡ if only_new then sums_after known.old tunes.items else known.old) }
    ensures few { IfOk result (λ kept. vec_len kept ≤ vec_len tunes) }
{
    if only_new {
        new_tunes(alloc, tunes, known)
    } else {
        Ok(tunes)
    }
}

// The lines between tunes that these tunes carry.
fn carried_of(tunes: &[GoodTune]) -> CarriedLines
    ensures lines { result.lines ≡ most_carried tunes.now }
    ensures tunes { result.tunes ≡ count_by carries_some tunes.now }
{
    let mut carried = CarriedLines { lines: 0, tunes: 0 };
    for tune in tunes.iter() {
        carried.lines = carried.lines.max(tune.carried);
        if tune.carried > 0 {
            carried.tunes += 1;
        }
    }
    carried
}
