// Pieces of scripts and replies that are too large to lie in a file.
use crate::escapes::{bytes_of, number};
use std::alloc::Global;
use std::io;
use std::io::Write;
use test_cases::Words;

/// Adds a piece to a text: `* COUNT TEXT` stands for a text so many times, `# FROM TO TEXT` for a
/// text with each number from one to the other in place of each `#`, and anything else for itself.
pub(crate) fn add_piece(alloc: Global, text: &mut Vec<u8>, words: Words<'_>) -> io::Result<()> {
    match words.rest().split_once(' ') {
        Some(("*", rest)) => add_times(alloc, text, Words::new(rest, 0)),
        Some(("#", rest)) => add_each(alloc, text, Words::new(rest, 0)),
        _ => Ok(text.extend_from_slice(&bytes_of(alloc, words.rest())?)?),
    }
}

fn add_times(alloc: Global, text: &mut Vec<u8>, mut words: Words<'_>) -> io::Result<()> {
    let count = number(&mut words)?;
    let piece = bytes_of(alloc, words.rest())?;
    for _ in 0..count {
        text.extend_from_slice(&piece)?;
    }
    Ok(())
}

fn add_each(alloc: Global, text: &mut Vec<u8>, mut words: Words<'_>) -> io::Result<()> {
    let (from, to) = (number(&mut words)?, number(&mut words)?);
    let piece = bytes_of(alloc, words.rest())?;
    for number in from..=to {
        add_numbered(text, &piece, number)?;
    }
    Ok(())
}

// Adds a piece with a number in place of each `#`.
fn add_numbered(text: &mut Vec<u8>, piece: &[u8], number: u32) -> io::Result<()> {
    for byte in piece {
        if *byte == b'#' {
            write!(text, "{number}")?;
        } else {
            text.push(*byte)?;
        }
    }
    Ok(())
}
