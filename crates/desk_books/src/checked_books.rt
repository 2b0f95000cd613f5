// Books, tried without an archive.
ghost use Rattle.std.specs.Prelude.{◌≡◌, ◌++◌, [], IfOk, OnOk, MatchOption, count_by};
ghost use Rattle.std.specs.Prelude.{map, string_bytes, vec_len};
ghost use Rattle.std.specs.List.{list_any};
ghost use Rattle.told_books.specs.Fates.{is_dropped};
ghost use Rattle.told_books.specs.ToldTunes.{book_fault};
ghost use Rattle.tune_scripts.specs.Streams.{streams_in};
ghost use Rattle.desk_books.specs.CheckedBooks.{TellsBook, TellsFile, TellsFolder};
ghost use Rattle.desk_books.specs.CheckedBooks.{TellsInput, TellsBookName, TellsOneOf, TellsPath};
ghost use Rattle.desk_books.specs.CheckedBooks.{TellsPaths, is_book_name, lost_told, taken_line};
ghost use Rattle.desk_books.specs.Stages.{EachInTurn, stage_of};
ghost use Rattle.desk_scenes.specs.Scenes.{IsQuiet};

use crate::lost_lines::say_dropped_lines;
use abc_fields::{BookFault, ByteText, TuneFault};
use desk_scenes::{BAD_WORDS, DONE, REFUSED, StandardStreams, desk_reason, print, read_input, say};
use std::alloc::{AllocError, Global};
use std::io::Write;
use told_books::{ToldBook, told_book};
use tune_desk::{Desk, DeskFault, Standing};
use tune_scripts::Console;
use tune_store::Layout;

/// Tells of each book what an import would do, and gives the greatest status: which tunes are bad
/// and which lines are not kept, each by its line, and how many tunes there are.
pub fn check_books<C: Console, E: Write, K: AllocGlobal + Desk>(
    desk: &mut K,
    paths: &[String],
    standard: &mut StandardStreams<C, E>,
) -> u8
    ensures quiet { IsQuiet (K.deeds desk.old) (K.deeds desk.new) }
    ensures told { TellsPaths paths.now
        (stage_of C.Console standard.old.console (K.deeds desk.old))
        (stage_of C.Console standard.new.console (K.deeds desk.new)) result }
{
    let mut worst = DONE;
    for path in paths {
        let status = check_path(desk, path, standard);
        worst = worst.max(status);
    }
    worst
}

fn check_path<C: Console, E: Write, K: AllocGlobal + Desk>(
    desk: &mut K,
    path: &String,
    standard: &mut StandardStreams<C, E>,
) -> u8
    ensures quiet { IsQuiet (K.deeds desk.old) (K.deeds desk.new) }
    ensures told { TellsPath (string_bytes path.now)
        (stage_of C.Console standard.old.console (K.deeds desk.old))
        (stage_of C.Console standard.new.console (K.deeds desk.new)) result }
{
    if path.as_str() == "-" {
        return check_input(desk, standard);
    }
    match desk.look(path) {
        Ok(Standing::Folder) => check_folder(desk, path, standard),
        Ok(Standing::Nothing) => {
            say(&mut standard.errors, path.as_str(), "there is no such file");
            BAD_WORDS
        }
        Ok(Standing::File | Standing::Other) => check_file(desk, path, standard),
        Err(fault) => unread(&mut standard.errors, path.as_str(), fault),
    }
}

fn check_input<C: Console, E: Write, K: AllocGlobal + Desk>(
    desk: &mut K,
    standard: &mut StandardStreams<C, E>,
) -> u8
    ensures same { K.deeds desk.new ≡ K.deeds desk.old }
    ensures told { TellsInput
        (stage_of C.Console standard.old.console (K.deeds desk.old))
        (stage_of C.Console standard.new.console (K.deeds desk.new)) result }
{
    match read_input(desk.alloc(), &mut standard.console) {
        Some(bytes) => check_book(desk.alloc(), "-", bytes.as_slice(), standard),
        None => {
            say(
                &mut standard.errors,
                "standard input",
                "it could not be read to its end",
            );
            REFUSED
        }
    }
}

fn unread<E: Write>(errors: &mut E, path: &str, fault: DeskFault) -> u8
    ensures { result ≡ 1 }
{
    say(errors, path, desk_reason(fault));
    REFUSED
}

// The books of a folder: those of its files whose names end in .abc, but for old texts.
fn check_folder<C: Console, E: Write, K: AllocGlobal + Desk>(
    desk: &mut K,
    folder: &String,
    standard: &mut StandardStreams<C, E>,
) -> u8
    ensures quiet { IsQuiet (K.deeds desk.old) (K.deeds desk.new) }
    ensures told { TellsFolder (string_bytes folder.now)
        (stage_of C.Console standard.old.console (K.deeds desk.old))
        (stage_of C.Console standard.new.console (K.deeds desk.new)) result }
{
    let names = match desk.names(desk.alloc(), folder) {
        Ok(names) => names,
        Err(fault) => return unread(&mut standard.errors, folder.as_str(), fault),
    };
    if !has_book(names.as_slice()) {
        say(
            &mut standard.errors,
            folder.as_str(),
            "there is no .abc file",
        );
        return BAD_WORDS;
    }
    check_names(desk, folder, names.as_slice(), standard)
}

// Whether one of these is the name of a book.
fn has_book(names: &[String]) -> bool
    ensures { result ≡ list_any is_book_name (map string_bytes names.now) }
{
    for name in names {
        if is_book_name(name.as_str()) {
            return true;
        }
    }
    false
}

// The books of a folder that has these names.
fn check_names<C: Console, E: Write, K: AllocGlobal + Desk>(
    desk: &mut K,
    folder: &String,
    names: &[String],
    standard: &mut StandardStreams<C, E>,
) -> u8
    ensures quiet { IsQuiet (K.deeds desk.old) (K.deeds desk.new) }
    ensures told { EachInTurn
        (λ name. TellsBookName (string_bytes folder.now) (string_bytes name)) names.now
        (stage_of C.Console standard.old.console (K.deeds desk.old))
        (stage_of C.Console standard.new.console (K.deeds desk.new)) result }
{
    let mut worst = DONE;
    for name in names {
        let status = check_name(desk, folder, name, standard);
        worst = worst.max(status);
    }
    worst
}

fn check_name<C: Console, E: Write, K: AllocGlobal + Desk>(
    desk: &mut K,
    folder: &String,
    name: &String,
    standard: &mut StandardStreams<C, E>,
) -> u8
    ensures quiet { IsQuiet (K.deeds desk.old) (K.deeds desk.new) }
    ensures told { TellsBookName (string_bytes folder.now) (string_bytes name.now)
        (stage_of C.Console standard.old.console (K.deeds desk.old))
        (stage_of C.Console standard.new.console (K.deeds desk.new)) result }
{
    if !is_book_name(name.as_str()) {
        return DONE;
    }
    check_one_of(desk, folder, name, standard)
}

fn check_one_of<C: Console, E: Write, K: AllocGlobal + Desk>(
    desk: &mut K,
    folder: &String,
    name: &String,
    standard: &mut StandardStreams<C, E>,
) -> u8
    ensures quiet { IsQuiet (K.deeds desk.old) (K.deeds desk.new) }
    ensures told { TellsOneOf (string_bytes folder.now) (string_bytes name.now)
        (stage_of C.Console standard.old.console (K.deeds desk.old))
        (stage_of C.Console standard.new.console (K.deeds desk.new)) result }
{
    match format!(in desk.alloc(); "{folder}/{name}") {
        Ok(path) => check_file(desk, &path, standard),
        Err(_) => unread(
            &mut standard.errors,
            folder.as_str(),
            DeskFault::OutOfMemory,
        ),
    }
}

fn is_book_name(name: &str) -> bool
    ensures { result ≡ is_book_name name.now }
{
    let name = name.as_bytes();
    (name.ends_with(b".abc") || name.ends_with(b".ABC")) && !name.ends_with(b".old.abc")
}

fn check_file<C: Console, E: Write, K: AllocGlobal + Desk>(
    desk: &mut K,
    path: &String,
    standard: &mut StandardStreams<C, E>,
) -> u8
    ensures quiet { IsQuiet (K.deeds desk.old) (K.deeds desk.new) }
    ensures told { TellsFile (string_bytes path.now)
        (stage_of C.Console standard.old.console (K.deeds desk.old))
        (stage_of C.Console standard.new.console (K.deeds desk.new)) result }
{
    match desk.read(desk.alloc(), path) {
        Ok(book) => check_book(desk.alloc(), path.as_str(), book.as_slice(), standard),
        Err(fault) => unread(&mut standard.errors, path.as_str(), fault),
    }
}

fn check_book<C: Console, E: Write>(
    alloc: Global,
    path: &str,
    book: &[u8],
    standard: &mut StandardStreams<C, E>,
) -> u8
    ensures { TellsBook path.now book.now
        (streams_in C.Console standard.old.console standard.new.console) result }
{
    match told_book(alloc, book, Layout::Two.longest_text()) {
        Ok(told) => {
            let status = say_told(&mut standard.errors, path, &told);
            match summary(alloc, path, &told) {
                Ok(line) => status.max(print(standard, line.as_slice())),
                Err(_) => unread(&mut standard.errors, path, DeskFault::OutOfMemory),
            }
        }
        Err(_) => unread(&mut standard.errors, path, DeskFault::OutOfMemory),
    }
}

// What is wrong with a book, line by line.
fn say_told<E: Write>(errors: &mut E, path: &str, told: &ToldBook) -> u8
    ensures { MatchOption (book_fault told.now.too_long told.now.tunes.items) (result ≡ 0)
        (λ _. result ≡ 1) }
{
    let mut place = 0u64;
    for tune in told.tunes.as_slice() {
        place = place.saturating_add(1);
        if let Some(fault) = tune.fault {
            say_bad_tune(errors, path, tune.line, place, fault);
        }
    }
    say_dropped_lines(errors, path, told.dropped.as_slice(), 0);
    match told.fault() {
        None => DONE,
        Some(fault) => {
            say_bad_book(errors, path, fault);
            REFUSED
        }
    }
}

fn say_bad_tune<E: Write>(errors: &mut E, path: &str, line: usize, place: u64, fault: TuneFault) {
    let _ = match fault {
        TuneFault::NoKey => write!(
            errors,
            "tunes-book: {path}:{line}: tune {place} has no K: line; give it one, K:none will do\n"
        ),
        TuneFault::TooLong => write!(
            errors,
            "tunes-book: {path}:{line}: tune {place} is too long; cut it in two\n"
        ),
    };
}

fn say_bad_book<E: Write>(errors: &mut E, path: &str, fault: BookFault) {
    let reason = match fault {
        BookFault::BookTooLong => {
            "it has more than 4,000,000 bytes; `tunes-book add --split` takes it in by parts"
        }
        BookFault::NoTune => "there is no tune in it: no line begins with X:",
        BookFault::BadTune { .. } => "none of its tunes is taken in, while one is bad",
        BookFault::OutOfMemory => "there is not memory enough",
    };
    say(errors, path, reason);
}

// How many tunes a book has, and how many of its lines are not kept; of one that is refused
// nothing.
fn summary(alloc: Global, path: &str, told: &ToldBook) -> Result<Vec<u8>, AllocError>
    ensures { IfOk result (λ line.
        MatchOption (book_fault told.now.too_long told.now.tunes.items)
        (line.items ≡ taken_line path.now (vec_len told.now.tunes)
        (count_by is_dropped told.now.fates.items))
        (λ _. line.items ≡ [])) }
{
    match told.fault() {
        None => taken_line(alloc, path, told.tunes.len(), told.lost()),
        Some(_) => Ok(Vec::new(alloc)),
    }
}

fn taken_line(alloc: Global, path: &str, tunes: usize, lost: usize) -> Result<Vec<u8>, AllocError>
    ensures { IfOk result (λ line. line.items ≡ taken_line path.now tunes lost) }
{
    let plural = if tunes == 1 { "" } else { "s" };
    let mut line = Vec::new(alloc);
    write!(line, "{path}: {tunes} tune{plural}").map_err(|_| AllocError)?;
    put_lost(&mut line, lost)?;
    line.push(b'\n')?;
    Ok(line)
}

// Puts how many lines are lost behind these bytes.
pub(crate) fn put_lost(line: &mut Vec<u8>, lost: usize) -> Result<(), AllocError>
    ensures { OnOk result (line.new.items ≡ line.old.items ++ lost_told lost) }
{
    if lost == 0 {
        return Ok(());
    }
    if lost == 1 {
        return line.extend_from_slice(b"; 1 line of it goes into no tune, and is not kept");
    }
    write!(
        line,
        "; {lost} lines of it go into no tune, and are not kept"
    )
    .map_err(|_| AllocError)
}
