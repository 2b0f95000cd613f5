// Books that are taken in, one after another.
ghost use Rattle.std.specs.Prelude.{◌≡◌, ◌≢◌, ◌+◌, ◌<◌, ◌^◌, ℕ, List, Ok, IfOk, is_err};
ghost use Rattle.std.specs.Prelude.{MatchResult, None, false, string_bytes, vec_len};
ghost use Rattle.abc_fields.specs.Books.{book_answer};
ghost use Rattle.tune_scripts.specs.Carried.{IsCarried};
ghost use Rattle.tune_store.specs.Limits.{longest_text};
ghost use Rattle.tune_store.specs.declared.command.Command.TheVariants as command;
ghost use Rattle.tune_store.specs.declared.layout.Layout.{Layout};
ghost use Rattle.tune_desk.specs.OldTexts.{GrowsNot};
ghost use Rattle.tune_desk.specs.Results.{SparesFiles, result_places};
ghost use Rattle.desk_books.specs.AddedBooks.{KeepsBook, TakesBook, TakesChosen, TakesParts};
ghost use Rattle.desk_books.specs.AddedBooks.{TakesPath, first_course, reached_by};
ghost use Rattle.desk_books.specs.Givens.{given_by, ReadsGivenBook};
ghost use Rattle.desk_books.specs.Stages.{EachInTurn};

use crate::added_entries::added_entry;
use crate::chosen_parts::{Choice, Choosing, ReadBook, choose};
use crate::requests::Request;
use crate::stocks::{NewTunes, Stock};
use crate::told_imports::{
    Tally, Untaken, say_refused, say_unread, say_untaken, say_untried, tell_progress, tell_taken,
};
use abc_fields::ByteText;
use chosen_books::KnownTexts;
use desk_scenes::{DONE, Progress, StandardStreams, keep_entry};
use std::alloc::Global;
use std::io::Write;
use tune_desk::{Desk, DeskFault, OldTextsFault};
use tune_scripts::Console;
use tune_store::{Catalog, Command, Refusal, Reply, TuneStore};

/// How far an add has come.
#[derive(Drop)]
pub(crate) struct Course {
    // Whether an entry was kept: the next one goes on with it.
    begun: bool,
    // Whether an entry may stand whose tunes did not come, as where the device failed at it or
    // behind it: nothing is taken in then, so that no other tunes get the numbers of that entry.
    failed: bool,
    // The texts that are there, where only new tunes are taken in.
    known: KnownTexts,
}

impl Course {
    /// Nothing yet, where these texts are there.
    pub(crate) fn new(known: KnownTexts) -> Course
        ensures { result ≡ first_course known }
    {
        Course {
            begun: false,
            failed: false,
            known,
        }
    }
}

/// A store that takes books in, and how far that has come.
#[derive(Drop)]
pub(crate) struct Intake<S> {
    pub(crate) store: S,
    pub(crate) course: Course,
}

/// Takes in the books of these paths, one after another, and gives the greatest status.
pub(crate) fn take_books<
    C: Console,
    E: Write + Progress,
    S: TuneStore + Catalog,
    K: AllocGlobal + Desk,
>(
    desk: &mut K,
    request: &Request,
    paths: &[String],
    intake: &mut Intake<S>,
    standard: &mut StandardStreams<C, E>,
) -> u8
    ensures files { SparesFiles (result_places (string_bytes request.now.file.now) None false)
        (K.deeds desk.old) (K.deeds desk.new) }
    ensures takes { EachInTurn
        (λ path. TakesPath S.TuneStore (given_by request.now) (string_bytes path)) paths.now
        (reached_by (K.deeds desk.old) intake.old)
        (reached_by (K.deeds desk.new) intake.new) result }
{
    let mut worst = DONE;
    let mut done = 0usize;
    for path in paths {
        let status = take_path(desk, request, path, intake, standard);
        worst = worst.max(status);
        done = done.saturating_add(1);
        tell_progress(&mut standard.errors, "books", done, paths.len());
    }
    worst
}

fn take_path<C: Console, E: Write + Progress, S: TuneStore + Catalog, K: AllocGlobal + Desk>(
    desk: &mut K,
    request: &Request,
    path: &String,
    intake: &mut Intake<S>,
    standard: &mut StandardStreams<C, E>,
) -> u8
    ensures files { SparesFiles (result_places (string_bytes request.now.file.now) None false)
        (K.deeds desk.old) (K.deeds desk.new) }
    ensures takes { TakesPath S.TuneStore (given_by request.now) (string_bytes path.now)
        (reached_by (K.deeds desk.old) intake.old)
        (reached_by (K.deeds desk.new) intake.new) result }
{
    if intake.course.failed {
        return say_untried(&mut standard.errors, path.as_str());
    }
    match read_book(desk, request, path) {
        Ok(bytes) => {
            let book = ReadBook {
                path: path.as_str(),
                bytes,
            };
            take_book(desk, request, book, intake, standard)
        }
        Err(_) => say_unread(&mut standard.errors, path.as_str()),
    }
}

/// The bytes of a book: of standard input for `-`, which was read before.
pub(crate) fn read_book<K: AllocGlobal + Desk>(
    desk: &mut K,
    request: &Request,
    path: &String,
) -> Result<ByteText, DeskFault>
    ensures { ReadsGivenBook request.now.input.now (string_bytes path.now) result
        (K.deeds desk.old) (K.deeds desk.new) }
{
    if path.as_str() == "-" {
        return copy_input(desk.alloc(), request.input);
    }
    desk.read(desk.alloc(), path)
}

fn copy_input(alloc: Global, input: &[u8]) -> Result<ByteText, DeskFault>
    ensures { IfOk result (λ book. book ≡ input.now) }
{
    match ByteText::copy_of(alloc, input) {
        Ok(book) => Ok(book),
        Err(_) => Err(DeskFault::OutOfMemory),
    }
}

// Takes in what is chosen of a book that was read, and tells of it.
fn take_book<C: Console, E: Write + Progress, S: TuneStore + Catalog, K: AllocGlobal + Desk>(
    desk: &mut K,
    request: &Request,
    book: ReadBook,
    intake: &mut Intake<S>,
    standard: &mut StandardStreams<C, E>,
) -> u8
    ensures files { SparesFiles (result_places (string_bytes request.now.file.now) None false)
        (K.deeds desk.old) (K.deeds desk.new) }
    ensures takes { TakesChosen S.TuneStore (given_by request.now) book.entry.bytes
        (reached_by (K.deeds desk.old) intake.old)
        (reached_by (K.deeds desk.new) intake.new) result }
{
    let path = book.path;
    let alloc = desk.alloc();
    let choosing = Choosing {
        how: *request.how,
        layout: intake.store.layout(),
    };
    let known = &mut intake.course.known;
    match choose(alloc, choosing, book, known, &mut standard.errors) {
        Ok(choice) => { take_choice(desk, request, choice, intake, standard) }
        Err(refusal) => say_refused(&mut standard.errors, path, &refusal),
    }
}

// Takes in the parts of a book, and tells of them.
fn take_choice<C: Console, E: Write + Progress, S: TuneStore + Catalog, K: AllocGlobal + Desk>(
    desk: &mut K,
    request: &Request,
    choice: Choice,
    intake: &mut Intake<S>,
    standard: &mut StandardStreams<C, E>,
) -> u8
    ensures files { SparesFiles (result_places (string_bytes request.now.file.now) None false)
        (K.deeds desk.old) (K.deeds desk.new) }
    ensures takes { TakesParts S.TuneStore (string_bytes request.now.file.now)
        choice.entry.parts.items
        (reached_by (K.deeds desk.old) intake.old)
        (reached_by (K.deeds desk.new) intake.new) result }
{
    let tally = take_parts(desk, request, choice, intake, &mut standard.errors);
    tally
        .status
        .max(tell_taken(desk.alloc(), &tally, false, standard))
}

// Takes in the parts of a book, one after another, up to one that is not taken in. Gives what
// became of the book.
fn take_parts<'a, E: Write + Progress, S: TuneStore + Catalog, K: AllocGlobal + Desk>(
    desk: &mut K,
    request: &Request,
    choice: Choice<'a>,
    intake: &mut Intake<S>,
    errors: &mut E,
) -> Tally<'a>
    ensures files { SparesFiles (result_places (string_bytes request.now.file.now) None false)
        (K.deeds desk.old) (K.deeds desk.new) }
    ensures takes { TakesParts S.TuneStore (string_bytes request.now.file.now)
        choice.entry.parts.items
        (reached_by (K.deeds desk.old) intake.old)
        (reached_by (K.deeds desk.new) intake.new) result.status }
{
    let Choice { parts, mut tally } = choice;
    let mut rest = parts.into_iter();
    while let Some(part) = rest.next() {
        tally.begin_part();
        match take_part(desk, request.file, part, intake) {
            Ok(brought) => {
                tally.take(&brought);
                tally.tell_part(errors);
            }
            Err(why) => {
                tally.status = say_untaken(errors, request.file.as_str(), &tally, &why);
                return tally;
            }
        }
    }
    tally
}

// Takes in a part of a book, all of it or nothing. Gives the tunes that came, for which the status
// is 0; or why none is taken in, for which it may be any other.
fn take_part<S: TuneStore + Catalog, K: AllocGlobal + Desk>(
    desk: &mut K,
    file: &String,
    part: ByteText,
    intake: &mut Intake<S>,
) -> Result<NewTunes, Untaken>
    ensures files { SparesFiles (result_places (string_bytes file.now) None false)
        (K.deeds desk.old) (K.deeds desk.new) }
    ensures takes { MatchResult result
        (λ _. TakesBook S.TuneStore (string_bytes file.now) part
        (reached_by (K.deeds desk.old) intake.old)
        (reached_by (K.deeds desk.new) intake.new) 0)
        (λ _. (status : ℕ) → status ≢ 0 → TakesBook S.TuneStore (string_bytes file.now) part
        (reached_by (K.deeds desk.old) intake.old)
        (reached_by (K.deeds desk.new) intake.new) status) }
{
    let brought = match Stock::of(&intake.store).tunes_of(desk.alloc(), part.as_slice()) {
        Ok(brought) => brought,
        Err(refusal) => return Err(Untaken::Refused(refusal)),
    };
    match keep(desk, file, &brought, &mut intake.course) {
        Ok(()) => match import(&mut intake.store, part, &mut intake.course) {
            Ok(_) => Ok(brought),
            Err(refusal) => Err(untaken_for(refusal)),
        },
        Err(_) => {
            intake.course.failed = true;
            Err(Untaken::Unkept)
        }
    }
}

// Keeps an entry of what a book brings.
fn keep<K: AllocGlobal + Desk>(
    desk: &mut K,
    file: &String,
    brought: &NewTunes,
    course: &mut Course,
) -> Result<(), OldTextsFault>
    requires { brought.now.first + vec_len brought.now.texts < 2 ^ 32 }
    ensures files { SparesFiles (result_places (string_bytes file.now) None false)
        (K.deeds desk.old) (K.deeds desk.new) }
    ensures keeps { MatchResult result
        (λ _. (book : List ℕ) (layout : Layout)
        → book_answer (longest_text layout) book ≡ Ok brought.now.texts.items
        → KeepsBook (string_bytes file.now) book (record {
          was = K.deeds desk.old;
          now = K.deeds desk.new;
        }) course.old course.new)
        (λ _. GrowsNot (string_bytes file.now) (K.deeds desk.old) (K.deeds desk.new)
        × (course.new ≡ course.old)) }
{
    let texts = brought.texts.as_slice();
    let Ok(entry) = added_entry(desk.alloc(), course.begun, brought.first, texts) else {
        return Err(OldTextsFault::OutOfMemory);
    };
    keep_entry(desk, file, &entry)?;
    course.begun = true;
    Ok(())
}

fn import<S: TuneStore>(
    store: &mut S,
    book: ByteText,
    course: &mut Course,
) -> Result<Reply, Refusal>
    ensures carried { S.honest store.new → IsCarried S.TuneStore store.old
        (record { command = command.Import book; answer = result; after = store.new }) }
    ensures course { course.new ≡ record course.old { failed = is_err result } }
{
    let answer = store.apply(&Command::Import(book));
    course.failed = answer.is_err();
    answer
}

// Why an import that was answered so did not take a part in.
fn untaken_for(refusal: Refusal) -> Untaken {
    match refusal {
        Refusal::Device | Refusal::Closed => Untaken::Failed,
        refusal => Untaken::Refused(refusal),
    }
}
