// The books that paths lead to.
ghost use Rattle.std.specs.Prelude.{◌≢◌, IfErr};
ghost use Rattle.desk_scenes.specs.Scenes.{IsQuiet};

use desk_scenes::{BAD_WORDS, REFUSED, desk_reason, say};
use std::alloc::{AllocError, Global};
use std::io::Write;
use tune_desk::{Desk, DeskFault, Standing};

/// The books that these paths lead to, in order: files, `-`, and the books of folders and of the
/// folders within these, by their names. All are looked at. The error is the status, of what is
/// said: 2 where nothing stands at a path or there is no book, and 1 where one is refused.
pub(crate) fn find_books<E: Write, K: AllocGlobal + Desk>(
    desk: &mut K,
    file: &String,
    paths: &[String],
    errors: &mut E,
) -> Result<Vec<String>, u8>
    ensures quiet { IsQuiet (K.deeds desk.old) (K.deeds desk.new) }
    ensures refused { IfErr result (λ status. status ≢ 0) }
{
    let Ok(old_texts) = old_texts_of(desk.alloc(), file) else {
        return Err(short_of_memory(errors, file.as_str()));
    };
    let own = OwnFiles {
        file,
        old_texts: &old_texts,
    };
    let mut search = Search {
        books: Vec::new(desk.alloc()),
        pending: Vec::new(desk.alloc()),
    };
    for path in paths {
        find_path(desk, &own, path, &mut search, errors)?;
    }
    let Search { books, pending: _ } = search;
    if books.is_empty() {
        say_bad(errors, "there is no .abc file");
        return Err(BAD_WORDS);
    }
    Ok(books)
}

// The files of an archive that are no books: it, and the book of its old texts.
#[derive(Clone, Copy)]
struct OwnFiles<'a> {
    file: &'a String,
    old_texts: &'a String,
}

// A search for books: those that were found, and what within a folder is still to be looked at.
#[derive(Drop)]
struct Search {
    books: Vec<String>,
    pending: Vec<String>,
}

fn old_texts_of(alloc: Global, file: &String) -> Result<String, AllocError> {
    format!(in alloc; "{file}.old.abc")
}

fn short_of_memory<E: Write>(errors: &mut E, what: &str) -> u8
    ensures { result ≢ 0 }
{
    unread(errors, what, DeskFault::OutOfMemory)
}

fn unread<E: Write>(errors: &mut E, what: &str, fault: DeskFault) -> u8
    ensures { result ≢ 0 }
{
    say(errors, what, desk_reason(fault));
    REFUSED
}

// Says what is wrong with the words of a call.
fn say_bad<E: Write>(errors: &mut E, reason: &str) {
    let _ = write!(
        errors,
        "tunes-book: {reason}; `tunes-book --help` lists the commands\n"
    );
    let _ = errors.flush();
}

// Adds the books that a path leads to.
fn find_path<E: Write, K: AllocGlobal + Desk>(
    desk: &mut K,
    own: &OwnFiles,
    path: &String,
    search: &mut Search,
    errors: &mut E,
) -> Result<(), u8>
    ensures quiet { IsQuiet (K.deeds desk.old) (K.deeds desk.new) }
    ensures refused { IfErr result (λ status. status ≢ 0) }
{
    if path.as_str() == "-" {
        return find_input(path, &mut search.books, errors);
    }
    match desk.look(path) {
        Ok(Standing::Folder) => find_folder(desk, own, path, search, errors),
        Ok(Standing::Nothing) => Err(missing(errors, path)),
        Ok(Standing::File | Standing::Other) => find_file(desk, own, path, search, errors),
        Err(fault) => Err(unread(errors, path.as_str(), fault)),
    }
}

fn missing<E: Write>(errors: &mut E, path: &String) -> u8
    ensures { result ≢ 0 }
{
    let _ = write!(
        errors,
        "tunes-book: {path}: there is no such file; `tunes-book --help` lists the commands\n"
    );
    let _ = errors.flush();
    BAD_WORDS
}

fn find_input<E: Write>(path: &String, books: &mut Vec<String>, errors: &mut E) -> Result<(), u8>
    ensures { IfErr result (λ status. status ≢ 0) }
{
    if books.iter().any(|book| book.as_str() == "-") {
        say_bad(errors, "standard input is one book, and no more");
        return Err(BAD_WORDS);
    }
    add_book(path, books, errors)
}

fn add_book<E: Write>(path: &String, books: &mut Vec<String>, errors: &mut E) -> Result<(), u8>
    ensures { IfErr result (λ status. status ≢ 0) }
{
    let Ok(book) = path.clone() else {
        return Err(short_of_memory(errors, path.as_str()));
    };
    match books.push(book) {
        Ok(()) => Ok(()),
        Err(_) => Err(short_of_memory(errors, path.as_str())),
    }
}

// What a file is to an archive.
#[derive(Clone, Copy)]
enum Kinship {
    Other,
    // It is the archive.
    Archive,
    // It has the old texts of the archive.
    OldTexts,
    // It begins as old texts of another archive do.
    OthersTexts,
}

fn kinship_of<K: AllocGlobal + Desk>(
    desk: &mut K,
    own: &OwnFiles,
    path: &String,
) -> Result<Kinship, DeskFault>
    ensures { IsQuiet (K.deeds desk.old) (K.deeds desk.new) }
{
    if is_same(desk, path, own.file)? {
        return Ok(Kinship::Archive);
    }
    if is_same(desk, path, own.old_texts)? {
        return Ok(Kinship::OldTexts);
    }
    if desk.begins(path, b"\n% tunes-book ") == Ok(true) {
        return Ok(Kinship::OthersTexts);
    }
    Ok(Kinship::Other)
}

// Whether two paths lead to one file; where one leads to nothing they do not.
fn is_same<K: AllocGlobal + Desk>(
    desk: &mut K,
    path: &String,
    other: &String,
) -> Result<bool, DeskFault>
    ensures { IsQuiet (K.deeds desk.old) (K.deeds desk.new) }
{
    match desk.is_same(path, other) {
        Err(DeskFault::Missing) => Ok(false),
        answer => answer,
    }
}

// A file that was named: it has to be a book.
fn find_file<E: Write, K: AllocGlobal + Desk>(
    desk: &mut K,
    own: &OwnFiles,
    path: &String,
    search: &mut Search,
    errors: &mut E,
) -> Result<(), u8>
    ensures quiet { IsQuiet (K.deeds desk.old) (K.deeds desk.new) }
    ensures refused { IfErr result (λ status. status ≢ 0) }
{
    match kinship_of(desk, own, path) {
        Ok(Kinship::Other) => add_book(path, &mut search.books, errors),
        Ok(kinship) => Err(no_book(errors, path, kinship)),
        Err(fault) => Err(unread(errors, path.as_str(), fault)),
    }
}

fn no_book<E: Write>(errors: &mut E, path: &String, kinship: Kinship) -> u8
    ensures { result ≢ 0 }
{
    let reason = match kinship {
        Kinship::Archive => "is the archive itself, and is no book",
        Kinship::OldTexts => {
            "has the old texts of this archive, and is no book; `undo` reads it"
        }
        _ => "has old texts of an archive, and is no book",
    };
    let _ = write!(errors, "tunes-book: {path} {reason}\n");
    let _ = errors.flush();
    REFUSED
}

// The books of a folder, and of the folders within it.
fn find_folder<E: Write, K: AllocGlobal + Desk>(
    desk: &mut K,
    own: &OwnFiles,
    folder: &String,
    search: &mut Search,
    errors: &mut E,
) -> Result<(), u8>
    ensures quiet { IsQuiet (K.deeds desk.old) (K.deeds desk.new) }
    ensures refused { IfErr result (λ status. status ≢ 0) }
{
    put_names(desk, folder, &mut search.pending, errors)?;
    for _ in 0..u64::MAX {
        match search.pending.pop() {
            Some(path) => find_within(desk, own, &path, search, errors)?,
            None => return Ok(()),
        }
    }
    Err(REFUSED)
}

// Puts the paths of what is in a folder behind these, the first last. Hidden names are left out.
fn put_names<E: Write, K: AllocGlobal + Desk>(
    desk: &mut K,
    folder: &String,
    pending: &mut Vec<String>,
    errors: &mut E,
) -> Result<(), u8>
    ensures quiet { IsQuiet (K.deeds desk.old) (K.deeds desk.new) }
    ensures refused { IfErr result (λ status. status ≢ 0) }
{
    let names = match desk.names(desk.alloc(), folder) {
        Ok(names) => names,
        Err(fault) => return Err(unread(errors, folder.as_str(), fault)),
    };
    match put_paths(desk.alloc(), folder, names.as_slice(), pending) {
        Ok(()) => Ok(()),
        Err(_) => Err(short_of_memory(errors, folder.as_str())),
    }
}

fn put_paths(
    alloc: Global,
    folder: &String,
    names: &[String],
    pending: &mut Vec<String>,
) -> Result<(), AllocError> {
    for name in names.iter().rev() {
        if !name.as_bytes().starts_with(b".") {
            pending.push(format!(in alloc; "{folder}/{name}")?)?;
        }
    }
    Ok(())
}

// What stands at a path within a folder: a book, a folder, or neither. A link to a folder is not
// followed, so that no folder is gone through twice. Where that cannot be seen, or nothing stands
// there any more, no book is left out without a word.
fn find_within<E: Write, K: AllocGlobal + Desk>(
    desk: &mut K,
    own: &OwnFiles,
    path: &String,
    search: &mut Search,
    errors: &mut E,
) -> Result<(), u8>
    ensures quiet { IsQuiet (K.deeds desk.old) (K.deeds desk.new) }
    ensures refused { IfErr result (λ status. status ≢ 0) }
{
    match desk.look(path) {
        Ok(Standing::Folder) => find_inner(desk, path, &mut search.pending, errors),
        Ok(Standing::File) => {
            if !is_book_name(path.as_str()) {
                return Ok(());
            }
            find_beside(desk, own, path, search, errors)
        }
        Ok(Standing::Nothing) => Err(unread(errors, path.as_str(), DeskFault::Missing)),
        Ok(Standing::Other) => Ok(()),
        Err(fault) => Err(unread(errors, path.as_str(), fault)),
    }
}

fn find_inner<E: Write, K: AllocGlobal + Desk>(
    desk: &mut K,
    folder: &String,
    pending: &mut Vec<String>,
    errors: &mut E,
) -> Result<(), u8>
    ensures quiet { IsQuiet (K.deeds desk.old) (K.deeds desk.new) }
    ensures refused { IfErr result (λ status. status ≢ 0) }
{
    match is_link(desk, folder) {
        Ok(true) => Ok(()),
        Ok(false) => put_names(desk, folder, pending, errors),
        Err(fault) => Err(unread(errors, folder.as_str(), fault)),
    }
}

fn is_link<K: AllocGlobal + Desk>(desk: &mut K, path: &String) -> Result<bool, DeskFault>
    ensures { IsQuiet (K.deeds desk.old) (K.deeds desk.new) }
{
    match desk.follow(desk.alloc(), path) {
        Ok(end) => Ok(end.as_str() != path.as_str()),
        Err(fault) => Err(fault),
    }
}

fn is_book_name(name: &str) -> bool {
    match name.as_bytes() {
        [.., b'.', b'a' | b'A', b'b' | b'B', b'c' | b'C'] => true,
        _ => false,
    }
}

// A file of a folder: it is left out where it is the archive, or has old texts.
fn find_beside<E: Write, K: AllocGlobal + Desk>(
    desk: &mut K,
    own: &OwnFiles,
    path: &String,
    search: &mut Search,
    errors: &mut E,
) -> Result<(), u8>
    ensures quiet { IsQuiet (K.deeds desk.old) (K.deeds desk.new) }
    ensures refused { IfErr result (λ status. status ≢ 0) }
{
    match kinship_of(desk, own, path) {
        Ok(Kinship::Other) => add_book(path, &mut search.books, errors),
        Ok(_) => Ok(()),
        Err(fault) => Err(unread(errors, path.as_str(), fault)),
    }
}
