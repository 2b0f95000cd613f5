// An archive whose tunes bear the greatest numbers.
use abc_fields::ByteText;
use std::alloc::Global;
use tune_store::{Command, ListArchive, Refusal, Reply, TuneStore};

// Fills the archive over and over, and leaves the last tune alone each time; gives its number.
pub(crate) fn wear(alloc: Global, archive: &mut ListArchive) -> Result<u32, Refusal> {
    let (mut first, mut last) = import(alloc, archive, 20_000)?;
    for _ in 0..49 {
        delete_falling(archive, first, last)?;
        first = last;
        (_, last) = import(alloc, archive, 19_999)?;
    }
    delete_falling(archive, first, last)?;
    Ok(last)
}

// Imports this many tunes, and gives their first and last number.
fn import(alloc: Global, archive: &mut ListArchive, tunes: usize) -> Result<(u32, u32), Refusal> {
    let book = b"X:1\nK:C\n".repeat(alloc, tunes)?;
    match archive.apply(&Command::Import(ByteText::from_vec(book)))? {
        Reply::Imported { first, last } => Ok((first, last)),
        _ => Ok((0, 0)),
    }
}

// Deletes the tunes from the first number to that before the last, the greatest first.
fn delete_falling(archive: &mut ListArchive, first: u32, last: u32) -> Result<(), Refusal> {
    for number in (first..last).rev() {
        archive.apply(&Command::Delete(number))?;
    }
    Ok(())
}
