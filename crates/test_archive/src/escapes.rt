// The bytes that data stand for.
use std::alloc::Global;
use std::io;
use test_cases::{Answer, Words, no_data};

/// The bytes that a text of data stands for: its own, but for what follows each backslash.
pub(crate) fn bytes_of(alloc: Global, text: &str) -> io::Result<Vec<u8>> {
    let mut bytes = Vec::new(alloc);
    for (place, piece) in text.split('\\').enumerate() {
        if place == 0 {
            bytes.extend_from_slice(piece.as_bytes())?;
        } else {
            add_escaped(&mut bytes, piece)?;
        }
    }
    Ok(bytes)
}

// Adds what a piece behind a backslash stands for.
fn add_escaped(bytes: &mut Vec<u8>, piece: &str) -> io::Result<()> {
    let rest = match piece.as_bytes() {
        [b'n', rest @ ..] => {
            bytes.push(b'\n')?;
            rest
        }
        [b'r', rest @ ..] => {
            bytes.push(b'\r')?;
            rest
        }
        [b's', rest @ ..] => {
            bytes.push(b' ')?;
            rest
        }
        [b'e', rest @ ..] => rest,
        [b'x', _, _, rest @ ..] => {
            let digits = piece.get(1..3).unwrap_or("");
            bytes.push(u8::from_str_radix(digits, 16).map_err(|_| no_data())?)?;
            rest
        }
        _ => return Err(no_data()),
    };
    bytes.extend_from_slice(rest)?;
    Ok(())
}

/// Whether an answer has the bytes that a text of data stands for.
pub(crate) fn is_meant(alloc: Global, answer: &Answer, text: &str) -> io::Result<bool> {
    Ok(answer.as_slice() == bytes_of(alloc, text)?.as_slice())
}

/// Takes a number off.
pub(crate) fn number(words: &mut Words<'_>) -> io::Result<u32> {
    words.number().ok_or(no_data())
}

/// The same as a length or a place.
pub(crate) fn size(words: &mut Words<'_>) -> io::Result<usize> {
    words.size().ok_or(no_data())
}
