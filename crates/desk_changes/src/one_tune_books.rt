// Books of one tune, which are read before FILE is opened.
ghost use Rattle.std.specs.Prelude.{◌≡◌, ◌∷◌, [], true, Ok, IfOk, IfSome, count_by, string_bytes};
ghost use Rattle.abc_fields.specs.Books.{book_answer};
ghost use Rattle.told_books.specs.Fates.{book_lines, fates_of, is_dropped};
ghost use Rattle.tune_scripts.specs.Streams.{streams_in};
ghost use Rattle.tune_store.specs.Limits.{longest_text};
ghost use Rattle.tune_store.specs.declared.layout.Layout.TheVariants.{Two};
ghost use Rattle.desk_scenes.specs.Printing.{ReadsAll};
ghost use Rattle.desk_scenes.specs.Scenes.{IsQuiet};
ghost use Rattle.desk_changes.specs.ReplacedTunes.{IsBookOf, ReadsOneBook, ReadsText};

use abc_fields::{ByteText, TuneText, split_book};
use desk_scenes::{StandardStreams, desk_reason, read_input, say, say_refusal};
use std::alloc::Global;
use std::io::Write;
use told_books::{DroppedLine, told_book};
use tune_desk::{Desk, DeskFault};
use tune_scripts::Console;
use tune_store::{Layout, Refusal};

/// The text of the one tune of the book at a path, or of standard input for `-`; or none, and it is
/// said why. A book of which a line would not be kept is refused.
pub(crate) fn read_text<C: Console, E: Write, K: AllocGlobal + Desk>(
    desk: &mut K,
    path: &String,
    standard: &mut StandardStreams<C, E>,
) -> Option<TuneText>
    ensures quiet { IsQuiet (K.deeds desk.old) (K.deeds desk.new) }
    ensures text { IfSome result (λ text. ReadsText (string_bytes path.now) text
        (streams_in C.Console standard.old.console standard.new.console)
        (K.deeds desk.old) (K.deeds desk.new)) }
    ensures output { C.output standard.new.console ≡ C.output standard.old.console }
{
    match read_book(desk, path, standard) {
        Some(book) => text_in(
            desk.alloc(),
            path.as_str(),
            book.as_slice(),
            &mut standard.errors,
        ),
        None => None,
    }
}

// The bytes of a book.
fn read_book<C: Console, E: Write, K: AllocGlobal + Desk>(
    desk: &mut K,
    path: &String,
    standard: &mut StandardStreams<C, E>,
) -> Option<ByteText>
    ensures quiet { IsQuiet (K.deeds desk.old) (K.deeds desk.new) }
    ensures book { IfSome result (λ book. ReadsOneBook (string_bytes path.now) book
        (streams_in C.Console standard.old.console standard.new.console)
        (K.deeds desk.old) (K.deeds desk.new)) }
    ensures output { C.output standard.new.console ≡ C.output standard.old.console }
{
    if path.as_str() == "-" {
        return input_book(desk.alloc(), standard);
    }
    match desk.read(desk.alloc(), path) {
        Ok(book) => Some(book),
        Err(fault) => {
            say(&mut standard.errors, path.as_str(), unread_reason(fault));
            None
        }
    }
}

fn unread_reason(fault: DeskFault) -> &'static str {
    match fault {
        DeskFault::Missing => "there is no such file; look at the path",
        fault => desk_reason(fault),
    }
}

// Standard input, as a book.
fn input_book<C: Console, E: Write>(
    alloc: Global,
    standard: &mut StandardStreams<C, E>,
) -> Option<ByteText>
    ensures book { IfSome result (λ book.
        ReadsAll (streams_in C.Console standard.old.console standard.new.console) book) }
    ensures output { C.output standard.new.console ≡ C.output standard.old.console }
{
    match read_input(alloc, &mut standard.console) {
        Some(bytes) => Some(ByteText::from_vec(bytes)),
        None => {
            say(
                &mut standard.errors,
                "standard input",
                "it could not be read to its end",
            );
            None
        }
    }
}

// The text of the one tune of a book of which each line is kept.
fn text_in<E: Write>(alloc: Global, path: &str, book: &[u8], errors: &mut E) -> Option<TuneText>
    ensures { IfSome result (λ text. IsBookOf text book.now) }
{
    match one_text(alloc, book) {
        Ok(text) => {
            if is_kept(alloc, path, book, errors) {
                Some(text)
            } else {
                None
            }
        }
        Err(refusal) => {
            say_refusal(errors, path, path, &refusal);
            None
        }
    }
}

// The text of the one tune of a book. It may be as long as layout 2 allows.
fn one_text(alloc: Global, book: &[u8]) -> Result<TuneText, Refusal>
    ensures { IfOk result (λ text. book_answer (longest_text Two) book.now ≡ Ok (text ∷ [])) }
{
    let mut texts = split_book(alloc, book, Layout::Two.longest_text())?;
    let count = texts.len();
    if count != 1 {
        return Err(Refusal::NotOne { count });
    }
    match texts.pop() {
        Some(text) => Ok(text),
        None => Err(Refusal::NotOne { count }),
    }
}

// Whether each line of a book is kept; those that are not are said.
fn is_kept<E: Write>(alloc: Global, path: &str, book: &[u8], errors: &mut E) -> bool
    ensures { result ≡ true → count_by is_dropped (fates_of (book_lines book.now)) ≡ 0 }
{
    match told_book(alloc, book, Layout::Two.longest_text()) {
        Ok(told) => {
            if told.lost() == 0 {
                return true;
            }
            say_dropped(errors, path, told.dropped.as_slice());
            false
        }
        Err(_) => {
            say_refusal(errors, path, path, &Refusal::OutOfMemory);
            false
        }
    }
}

fn say_dropped<E: Write>(errors: &mut E, path: &str, dropped: &[DroppedLine]) {
    say(
        errors,
        path,
        "these lines would not be kept, since an empty line ends a tune:",
    );
    for line in dropped {
        let _ = errors.write_all(b"    ");
        let _ = errors.write_all(line.text);
        let _ = errors.write_all(b"\n");
    }
    say(errors, path, "take the empty line out, or the lines");
}
