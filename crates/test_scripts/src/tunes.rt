// The archive of the tunes.
use crate::archives::{file_of_disk, made_file};
use crate::old_disks::old_disk;
use std::alloc::{AllocError, Global};
use std::fmt::Write;
use std::io;

/// How many tunes there are.
const TUNES: u32 = 2_000;

/// The notes that a digit of a number is.
const NOTES: [&str; 10] = ["C", "D", "E", "F", "G", "A", "B", "c", "d", "e"];

// The file of a made archive of the tunes, which come in by one import.
pub(crate) fn file_of_tunes(alloc: Global) -> io::Result<Vec<u8>> {
    let import = import_of_tunes(alloc)?;
    made_file(alloc, import.as_bytes())
}

// The file of an archive of layout 1 of the tunes, which come in by one import.
pub(crate) fn old_file_of_tunes(alloc: Global) -> io::Result<Vec<u8>> {
    let import = import_of_tunes(alloc)?;
    file_of_disk(alloc, old_disk(alloc)?, import.as_bytes())
}

// The file of an archive of as many tunes that have a title and a key alone.
pub(crate) fn file_of_reels(alloc: Global) -> io::Result<Vec<u8>> {
    let import = import_of(alloc, &book_of_reels(alloc)?)?;
    made_file(alloc, import.as_bytes())
}

// The script by which the tunes come in.
pub(crate) fn import_of_tunes(alloc: Global) -> Result<String, AllocError> {
    import_of(alloc, &book(alloc)?)
}

// The script by which the tunes of a book come in.
fn import_of(alloc: Global, book: &str) -> Result<String, AllocError> {
    let length = book.len();
    format!(in alloc; "import {length}\n{book}")
}

// The book of the reels.
fn book_of_reels(alloc: Global) -> Result<String, AllocError> {
    let mut book = String::new(alloc);
    for number in 1..=TUNES {
        write!(book, "X:1\nT:Reel {number}\nK:C\n\n")?;
    }
    Ok(book)
}

// The book of the tunes.
fn book(alloc: Global) -> Result<String, AllocError> {
    let mut book = String::new(alloc);
    for number in 1..=TUNES {
        add_tune(&mut book, number)?;
    }
    Ok(book)
}

// Adds the tune of a number.
fn add_tune(book: &mut String, number: u32) -> Result<(), AllocError> {
    let rhythm = if number % 10 == 0 { "jig" } else { "reel" };
    let key = if number / 20 == 50 { "D" } else { "G" };
    write!(book, "X:1\nT:Tune {number:04}\nR:{rhythm}\nK:{key}\n")?;
    add_notes(book, number)?;
    book.push_str("\n")
}

// Adds the digits of a number as notes, the last first, and a G behind each.
fn add_notes(book: &mut String, number: u32) -> Result<(), AllocError> {
    let mut rest = number;
    for _ in 0..4 {
        book.push_str(NOTES[(rest % 10) as usize])?;
        book.push_str("G")?;
        rest /= 10;
    }
    book.push_str("|\n")
}
