// Books that are only tried.
ghost use Rattle.std.specs.Prelude.{◌≡◌, None, false, MatchResult, map, string_bytes};
ghost use Rattle.tune_desk.specs.Results.{SparesFiles, result_places};
ghost use Rattle.desk_scenes.specs.FileAnswers.{Did, IsAsked, IsUnasked};
ghost use Rattle.desk_scenes.specs.Scenes.{IsQuiet};
ghost use Rattle.desk_books.specs.Givens.{given_by};
ghost use Rattle.desk_books.specs.Stages.{EachInTurn};
ghost use Rattle.desk_books.specs.TriedBooks.{TriesFound, TriesPath, WouldTake};

use crate::asked_texts::known_texts;
use crate::chosen_parts::{Choice, Choosing, ReadBook, choose};
use crate::requests::Request;
use crate::stocks::Stock;
use crate::taken_books::read_book;
use crate::told_imports::{
    Tally, say_part_refused, say_refused, say_unread, tell_progress, tell_taken,
};
use chosen_books::KnownTexts;
use desk_scenes::{DONE, Progress, StandardStreams, Unanswered, open_to_read, say_unanswered};
use std::alloc::Global;
use std::io::Write;
use tune_desk::Desk;
use tune_disk::Disk;
use tune_scripts::Console;
use tune_store::Refusal;

// What FILE has, as far as it matters to books that come in.
#[derive(Drop)]
struct Holding {
    stock: Stock,
    // Its texts, where only new tunes are asked for.
    known: KnownTexts,
}

/// Tells what an add of these books would take into FILE, which is only asked, and gives the
/// greatest status.
pub(crate) fn try_books<C: Console, E: Write + Progress, D: Disk, K: AllocGlobal + Desk<Disk = D>>(
    desk: &mut K,
    request: &Request,
    paths: &[String],
    standard: &mut StandardStreams<C, E>,
) -> u8
    ensures files { SparesFiles (result_places (string_bytes request.now.file.now) None false)
        (K.deeds desk.old) (K.deeds desk.new) }
    ensures tries { TriesFound D.Disk (given_by request.now) (map string_bytes paths.now)
        (K.deeds desk.old) (K.deeds desk.new) result }
{
    match ask_holding(desk, request) {
        Ok(mut holding) => try_each(desk, request, &mut holding, paths, standard),
        Err(why) => say_unanswered(&mut standard.errors, request.file.as_str(), "add", &why),
    }
}

fn ask_holding<D: Disk, K: AllocGlobal + Desk<Disk = D>>(
    desk: &mut K,
    request: &Request,
) -> Result<Holding, Unanswered>
    ensures { let file = string_bytes request.now.file.now in MatchResult result
        (λ holding. Did (K.deeds desk.old) (K.deeds desk.new) (IsAsked D.Disk file
        (λ state. holding.stock.layout ≡ state.layout)))
        (λ _. Did (K.deeds desk.old) (K.deeds desk.new) (IsUnasked D.Disk file)) }
{
    match open_to_read(desk, request.file) {
        Err(why) => Err(Unanswered::Unopened(why)),
        Ok(mut archive) => {
            let stock = Stock::of(&archive);
            let counts = archive.counts();
            let known = known_texts(desk.alloc(), &mut archive, request.how.only_new);
            desk.close(request.file, archive.into_disk());
            match known {
                Ok(known) => match counts {
                    Ok(counts) => {
                        let stock = stock.laid_out(counts.layout);
                        Ok(Holding { stock, known })
                    }
                    Err(_) => Err(Unanswered::Refused(Refusal::Closed)),
                },
                Err(refusal) => Err(Unanswered::Refused(refusal)),
            }
        }
    }
}

// The books of these paths, one after another.
fn try_each<C: Console, E: Write + Progress, K: AllocGlobal + Desk>(
    desk: &mut K,
    request: &Request,
    holding: &mut Holding,
    paths: &[String],
    standard: &mut StandardStreams<C, E>,
) -> u8
    ensures quiet { IsQuiet (K.deeds desk.old) (K.deeds desk.new) }
    ensures tries { EachInTurn (λ path. TriesPath (given_by request.now) holding.old.stock.layout
        (string_bytes path)) paths.now (K.deeds desk.old) (K.deeds desk.new) result }
{
    let mut worst = DONE;
    let mut done = 0usize;
    for path in paths {
        let status = try_path(desk, request, holding, path, standard);
        worst = worst.max(status);
        done = done.saturating_add(1);
        tell_progress(&mut standard.errors, "books", done, paths.len());
    }
    worst
}

fn try_path<C: Console, E: Write + Progress, K: AllocGlobal + Desk>(
    desk: &mut K,
    request: &Request,
    holding: &mut Holding,
    path: &String,
    standard: &mut StandardStreams<C, E>,
) -> u8
    ensures layout { holding.new.stock.layout ≡ holding.old.stock.layout }
    ensures quiet { IsQuiet (K.deeds desk.old) (K.deeds desk.new) }
    ensures tries { TriesPath (given_by request.now) holding.old.stock.layout
        (string_bytes path.now) (K.deeds desk.old) (K.deeds desk.new) result }
{
    match read_book(desk, request, path) {
        Ok(bytes) => {
            let book = ReadBook {
                path: path.as_str(),
                bytes,
            };
            try_book(desk.alloc(), request, holding, book, standard)
        }
        Err(_) => say_unread(&mut standard.errors, path.as_str()),
    }
}

// Tells what would be taken in of a book.
fn try_book<C: Console, E: Write + Progress>(
    alloc: Global,
    request: &Request,
    holding: &mut Holding,
    book: ReadBook,
    standard: &mut StandardStreams<C, E>,
) -> u8
    ensures layout { holding.new.stock.layout ≡ holding.old.stock.layout }
    ensures tries { WouldTake request.now.how.now holding.old.stock.layout book.entry.bytes
        result }
{
    let path = book.path;
    let choosing = Choosing {
        how: *request.how,
        layout: holding.stock.layout,
    };
    let known = &mut holding.known;
    match choose(alloc, choosing, book, known, &mut standard.errors) {
        Ok(choice) => try_choice(alloc, &mut holding.stock, choice, standard),
        Err(refusal) => say_refused(&mut standard.errors, path, &refusal),
    }
}

fn try_choice<C: Console, E: Write + Progress>(
    alloc: Global,
    stock: &mut Stock,
    choice: Choice,
    standard: &mut StandardStreams<C, E>,
) -> u8
    ensures { stock.new.layout ≡ stock.old.layout }
{
    let tally = try_parts(alloc, stock, choice, &mut standard.errors);
    tally.status.max(tell_taken(alloc, &tally, true, standard))
}

// The parts of a book, one after another, up to one that would be refused. Gives what would become
// of the book.
fn try_parts<'a, E: Write + Progress>(
    alloc: Global,
    stock: &mut Stock,
    choice: Choice<'a>,
    errors: &mut E,
) -> Tally<'a>
    ensures { stock.new.layout ≡ stock.old.layout }
{
    let Choice { parts, mut tally } = choice;
    for part in &parts {
        tally.begin_part();
        match stock.tunes_of(alloc, part.as_slice()) {
            Ok(brought) => {
                tally.take(&brought);
                *stock = stock.with(&brought);
                tally.tell_part(errors);
            }
            Err(refusal) => {
                tally.status = say_part_refused(errors, &tally, &refusal);
                return tally;
            }
        }
    }
    tally
}
