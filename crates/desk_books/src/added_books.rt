// Books that are taken in.
ghost use Rattle.std.specs.Prelude.{◌≡◌, map, None, false, string_bytes};
ghost use Rattle.tune_pages.specs.Kept.{HonestAt};
ghost use Rattle.tune_contents.specs.Holds.{labels_in};
ghost use Rattle.tune_store.specs.Labels.{labels_of};
ghost use Rattle.tune_archive.specs.AsStore.{store_on};
ghost use Rattle.tune_archive.specs.Shelf.{state_of};
ghost use Rattle.desk_books.specs.AddedBooks.{Adds, AddsFound, TakesAll, TakesFound};
ghost use Rattle.desk_books.specs.Givens.{given_by};
ghost use Rattle.tune_desk.specs.Results.{SparesFiles, result_places};

use crate::asked_texts::known_texts;
use crate::found_books::find_books;
use crate::requests::Request;
use crate::taken_books::{Course, Intake, take_books};
use crate::tried_books::try_books;
use chosen_books::KnownTexts;
use desk_scenes::{
    Progress, REFUSED, StandardStreams, Unanswered, open_once, read_input, say, say_unanswered,
    say_unopened_to_change,
};
use desk_terms::Adding;
use std::alloc::Global;
use std::io::Write;
use tune_archive::Archive;
use tune_desk::Desk;
use tune_disk::{Access, Disk};
use tune_scripts::Console;

/// Takes the books of these paths into FILE, and gives the status: 0 where all went in; 1 where one
/// is refused, or a device failed; 2 where there is none; 3 no archive, or a damaged one. Where
/// they are only tried, FILE is asked, and what would be taken in is told.
pub fn add<C: Console, E: Write + Progress, D: Disk, K: AllocGlobal + Desk<Disk = D>>(
    desk: &mut K,
    file: &String,
    books: &[String],
    how: &Adding,
    standard: &mut StandardStreams<C, E>,
) -> u8
    ensures files { SparesFiles (result_places (string_bytes file.now) None false)
        (K.deeds desk.old) (K.deeds desk.new) }
    ensures adds { Adds D.Disk (string_bytes file.now) how.now
        (K.deeds desk.old) (K.deeds desk.new) result }
{
    match find_books(desk, file, books, &mut standard.errors) {
        Ok(found) => add_found(desk, file, found.as_slice(), how, standard),
        Err(status) => status,
    }
}

fn add_found<C: Console, E: Write + Progress, D: Disk, K: AllocGlobal + Desk<Disk = D>>(
    desk: &mut K,
    file: &String,
    found: &[String],
    how: &Adding,
    standard: &mut StandardStreams<C, E>,
) -> u8
    ensures files { SparesFiles (result_places (string_bytes file.now) None false)
        (K.deeds desk.old) (K.deeds desk.new) }
    ensures adds { Adds D.Disk (string_bytes file.now) how.now
        (K.deeds desk.old) (K.deeds desk.new) result }
{
    match input_of(desk.alloc(), found, &mut standard.console) {
        Some(input) => {
            let request = Request {
                file,
                input: input.as_slice(),
                how,
            };
            add_given(desk, &request, found, standard)
        }
        None => {
            say(
                &mut standard.errors,
                "standard input",
                "it could not be read to its end",
            );
            REFUSED
        }
    }
}

// What standard input gives, where it is one of these books: it is read before FILE is opened,
// which other programs may have until then.
fn input_of<C: Console>(alloc: Global, found: &[String], console: &mut C) -> Option<Vec<u8>> {
    if found.iter().any(|path| path.as_str() == "-") {
        read_input(alloc, console)
    } else {
        Some(Vec::new(alloc))
    }
}

fn add_given<C: Console, E: Write + Progress, D: Disk, K: AllocGlobal + Desk<Disk = D>>(
    desk: &mut K,
    request: &Request,
    found: &[String],
    standard: &mut StandardStreams<C, E>,
) -> u8
    ensures files { SparesFiles (result_places (string_bytes request.now.file.now) None false)
        (K.deeds desk.old) (K.deeds desk.new) }
    ensures adds { AddsFound D.Disk (given_by request.now) (map string_bytes found.now)
        (K.deeds desk.old) (K.deeds desk.new) result }
{
    if request.how.dry {
        try_books(desk, request, found, standard)
    } else {
        take_found(desk, request, found, standard)
    }
}

fn take_found<C: Console, E: Write + Progress, D: Disk, K: AllocGlobal + Desk<Disk = D>>(
    desk: &mut K,
    request: &Request,
    found: &[String],
    standard: &mut StandardStreams<C, E>,
) -> u8
    ensures files { SparesFiles (result_places (string_bytes request.now.file.now) None false)
        (K.deeds desk.old) (K.deeds desk.new) }
    ensures takes { TakesFound D.Disk (given_by request.now) (map string_bytes found.now)
        (K.deeds desk.old) (K.deeds desk.new) result }
{
    match open_once(desk, request.file, Access::Change) {
        Ok(mut archive) => {
            // For the proof.
            archive.law_of_labels();
            let mut intake = Intake {
                store: archive,
                course: Course::new(KnownTexts::new(desk.alloc())),
            };
            let status = take_all(desk, request, found, &mut intake, standard);
            let Intake { store, course: _ } = intake;
            desk.close(request.file, store.into_disk());
            status
        }
        Err(why) => say_unopened_to_change(&mut standard.errors, request.file.as_str(), why),
    }
}

fn take_all<C: Console, E: Write + Progress, D: Disk, K: AllocGlobal + Desk<Disk = D>>(
    desk: &mut K,
    request: &Request,
    found: &[String],
    intake: &mut Intake<Archive<D>>,
    standard: &mut StandardStreams<C, E>,
) -> u8
    ensures files { SparesFiles (result_places (string_bytes request.now.file.now) None false)
        (K.deeds desk.old) (K.deeds desk.new) }
    ensures takes { intake.old.store.closed ≡ false
        → (HonestAt D.honest intake.old.store.pages.disk
        → labels_in intake.old.store.contents.rows.items
        ≡ labels_of (state_of D.state intake.old.store).tunes)
        → TakesAll (store_on D.Disk) (given_by request.now) (map string_bytes found.now) (record {
          start = intake.old.store;
          finish = intake.new.store;
          was = K.deeds desk.old;
          now = K.deeds desk.new;
        }) result }
{
    match known_texts(desk.alloc(), &mut intake.store, request.how.only_new) {
        Ok(known) => {
            intake.course = Course::new(known);
            take_books(desk, request, found, intake, standard)
        }
        Err(refusal) => {
            let why = Unanswered::Refused(refusal);
            say_unanswered(&mut standard.errors, request.file.as_str(), "add", &why)
        }
    }
}
