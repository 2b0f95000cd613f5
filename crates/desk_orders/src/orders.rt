// What is done for an order.
ghost use Rattle.std.specs.Prelude.{◌≡◌, ◌≢◌, Ok, string_bytes};
ghost use Rattle.tune_cli.specs.ProgramLines.{counts_bytes};
ghost use Rattle.tune_scripts.specs.Streams.{streams_in};
ghost use Rattle.desk_questions.specs.Told.{told};
ghost use Rattle.desk_orders.specs.Orders.{CarriesOut, TellsAnswer, WritesAnswer, Drafts};
ghost use Rattle.desk_orders.specs.Orders.{PlacesInput};
ghost use Rattle.desk_scenes.specs.Scenes.{Scene};
ghost use Rattle.desk_orders.specs.Orders.{RunsOnce, RunsOnFile, KeepsFiles};

use crate::deliveries::deliver;
use crate::drafts::write_draft;
use crate::file_questions::{ask_counts, ask_question, ask_tune};
use desk_backups::{backup, check_copy};
use desk_books::{add, check_books};
use desk_changes::{AskedReplacement, alter, replace, undo};
use desk_copies::{make, restore};
use desk_loads::{load, upgrade};
use desk_scenes::{
    Progress, REFUSED, StandardStreams, Unopened, bring_to_rest, print, print_counts, read_input,
    say, say_unanswered, say_unopened,
};
use desk_terms::Question;
use desk_words::{Order, Target};
use std::io::Write;
use tune_cli::{Done, run_on};
use tune_desk::Desk;
use tune_disk::{Access, Disk};
use tune_scripts::Console;

/// Carries out an order of the front end, and gives the status: 0 done; 1 refused, or a device
/// failed; 2 wrong words; 3 no archive, or a damaged one. What is wrong is said to `errors`.
///
/// `does` says for each order what it does with FILE, with a result, and with standard input and
/// output; `files` says for all of them which files a call may change, and in which order.
pub fn carry_out<C: Console, E: Write + Progress, D: Disk, K: AllocGlobal + Desk<Disk = D>>(
    desk: &mut K,
    file: &String,
    order: &Order,
    standard: &mut StandardStreams<C, E>,
) -> u8
    ensures files { KeepsFiles (string_bytes file.now) order.now
        (K.deeds desk.old) (K.deeds desk.new) }
    ensures does { CarriesOut D.Disk (string_bytes file.now) order.now (record {
      streams = streams_in C.Console standard.old.console standard.new.console;
      was = K.deeds desk.old;
      now = K.deeds desk.new;
      status = result;
    }) }
{
    match order {
        Order::Tell(question) => tell(desk, file, question, standard),
        Order::Write { question, target } => write(desk, file, question, target, standard),
        Order::Check => check(desk, file, standard),
        Order::Draft { number, out } => draft(desk, file, *number, out, standard),
        Order::Place(target) => place(desk, file, target, standard),
        Order::CheckBooks(paths) => check_books(desk, paths.as_slice(), standard),
        Order::Ask => ask(desk, file, standard),
        Order::Make => make(desk, file, &mut standard.errors),
        Order::Restore { copy, force } => restore(desk, file, copy, *force, standard),
        Order::Alter(change) => alter(desk, file, change, &mut standard.errors),
        Order::Replace {
            number,
            revision,
            book,
        } => {
            let asked = AskedReplacement {
                number: *number,
                revision: *revision,
                book,
            };
            replace(desk, file, &asked, standard)
        }
        Order::Undo(undoing) => undo(desk, file, undoing, standard),
        Order::Load(script) => load(desk, file, script, standard),
        Order::Upgrade => upgrade(desk, file, standard),
        Order::CheckCopy(copy) => check_copy(desk, copy, standard),
        Order::Add { books, how } => add(desk, file, books.as_slice(), how, standard),
        Order::Backup { copy, keep } => backup(desk, file, copy, *keep, standard),
    }
}

// Prints what FILE tells to a question.
fn tell<C: Console, E: Write, D: Disk, K: AllocGlobal + Desk<Disk = D>>(
    desk: &mut K,
    file: &String,
    question: &Question,
    standard: &mut StandardStreams<C, E>,
) -> u8
    ensures { TellsAnswer D.Disk (string_bytes file.now)
        (λ state bytes. told question.now state ≡ Ok bytes) (record {
          streams = streams_in C.Console standard.old.console standard.new.console;
          was = K.deeds desk.old;
          now = K.deeds desk.new;
          status = result;
        }) }
{
    match ask_question(desk, file, question) {
        Ok(bytes) => {
            say_nothing_found(&mut standard.errors, question, bytes.as_slice());
            print(standard, bytes.as_slice())
        }
        Err(why) => say_unanswered(&mut standard.errors, file.as_str(), subject(question), &why),
    }
}

// That nothing is found is said where a list does not say it.
fn say_nothing_found<E: Write>(errors: &mut E, question: &Question, bytes: &[u8]) {
    if bytes.is_empty() && seeks(question) {
        let _ = errors.write_all(b"tunes-book: find: no tune has that\n");
        let _ = errors.flush();
    }
}

fn seeks(question: &Question) -> bool {
    match question {
        Question::Find { .. } | Question::Random { .. } => true,
        _ => false,
    }
}

// What a refusal of a question is about.
fn subject(question: &Question) -> &str {
    match question {
        Question::Find { .. } => "find",
        Question::Count(_) => "count",
        Question::Random { .. } => "random",
        Question::Set { name, form: _ } => name.as_str(),
        Question::ExportSet(name) => name.as_str(),
        _ => "the archive",
    }
}

// Writes what FILE tells to a question where it is to go.
fn write<C: Console, E: Write, D: Disk, K: AllocGlobal + Desk<Disk = D>>(
    desk: &mut K,
    file: &String,
    question: &Question,
    target: &Target,
    standard: &mut StandardStreams<C, E>,
) -> u8
    ensures { WritesAnswer D.Disk (string_bytes file.now)
        (λ state bytes. told question.now state ≡ Ok bytes) target.now (record {
          streams = streams_in C.Console standard.old.console standard.new.console;
          was = K.deeds desk.old;
          now = K.deeds desk.new;
          status = result;
        }) }
{
    match ask_question(desk, file, question) {
        Ok(bytes) => { deliver(desk, file, target, bytes.as_slice(), standard) }
        Err(why) => say_unanswered(&mut standard.errors, file.as_str(), subject(question), &why),
    }
}

// Prints how much FILE holds.
fn check<C: Console, E: Write, D: Disk, K: AllocGlobal + Desk<Disk = D>>(
    desk: &mut K,
    file: &String,
    standard: &mut StandardStreams<C, E>,
) -> u8
    ensures { TellsAnswer D.Disk (string_bytes file.now)
        (λ state bytes. bytes ≡ counts_bytes state) (record {
          streams = streams_in C.Console standard.old.console standard.new.console;
          was = K.deeds desk.old;
          now = K.deeds desk.new;
          status = result;
        }) }
{
    match ask_counts(desk, file) {
        Ok(counts) => print_counts(desk.alloc(), standard, counts),
        Err(why) => say_unanswered(&mut standard.errors, file.as_str(), "check", &why),
    }
}

// Writes a tune to a new file, and prints its revision.
fn draft<C: Console, E: Write, D: Disk, K: AllocGlobal + Desk<Disk = D>>(
    desk: &mut K,
    file: &String,
    number: u32,
    out: &String,
    standard: &mut StandardStreams<C, E>,
) -> u8
    ensures { Drafts D.Disk (string_bytes file.now) number (string_bytes out.now) (record {
      streams = streams_in C.Console standard.old.console standard.new.console;
      was = K.deeds desk.old;
      now = K.deeds desk.new;
      status = result;
    }) }
{
    match ask_tune(desk, file, number) {
        Ok(tune) => write_draft(desk, file, &tune, out, standard),
        Err(why) => say_unanswered(&mut standard.errors, file.as_str(), "edit", &why),
    }
}

// Writes what standard input gives where it is to go.
fn place<C: Console, E: Write, D: Disk, K: AllocGlobal + Desk<Disk = D>>(
    desk: &mut K,
    file: &String,
    target: &Target,
    standard: &mut StandardStreams<C, E>,
) -> u8
    ensures { PlacesInput (string_bytes file.now) target.now (record {
      streams = streams_in C.Console standard.old.console standard.new.console;
      was = K.deeds desk.old;
      now = K.deeds desk.new;
      status = result;
    }) }
{
    match read_input(desk.alloc(), &mut standard.console) {
        Some(bytes) => { deliver(desk, file, target, bytes.as_slice(), standard) }
        None => {
            say(
                &mut standard.errors,
                "standard input",
                "it could not be read to its end",
            );
            REFUSED
        }
    }
}

// Runs a script of questions on FILE, opened to read alone.
fn ask<C: Console, E: Write, D: Disk, K: AllocGlobal + Desk<Disk = D>>(
    desk: &mut K,
    file: &String,
    standard: &mut StandardStreams<C, E>,
) -> u8
    ensures { RunsOnFile D.Disk (string_bytes file.now) (record {
      streams = streams_in C.Console standard.old.console standard.new.console;
      was = K.deeds desk.old;
      now = K.deeds desk.new;
      status = result;
    }) }
{
    match bring_to_rest(desk, file) {
        Ok(()) => run_script(desk, file, standard),
        Err(why) => say_unopened(&mut standard.errors, file.as_str(), why),
    }
}

fn run_script<C: Console, E: Write, D: Disk, K: AllocGlobal + Desk<Disk = D>>(
    desk: &mut K,
    file: &String,
    standard: &mut StandardStreams<C, E>,
) -> u8
    ensures { RunsOnce D.Disk (string_bytes file.now) (record {
      streams = streams_in C.Console standard.old.console standard.new.console;
      was = K.deeds desk.old;
      now = K.deeds desk.new;
      status = result;
    }) }
{
    match desk.open(file, Access::Read) {
        Ok(disk) => {
            let Done { status, disk } = run_on(desk.alloc(), &mut standard.console, disk);
            desk.close(file, disk);
            status
        }
        Err(fault) => say_unopened(&mut standard.errors, file.as_str(), Unopened::Unread(fault)),
    }
}
