// Bytes as they are written in a word.
use std::alloc::{AllocError, Global};
use test_cases::Answer;

/// The bytes that a word says.
pub(crate) fn bytes_of(alloc: Global, word: &str) -> Result<Vec<u8>, AllocError> {
    let mut bytes = Vec::new(alloc);
    if word != "-" {
        for byte in word.as_bytes() {
            bytes.push(byte_of(*byte))?;
        }
    }
    Ok(bytes)
}

/// The byte for which one of a word stands.
pub(crate) fn byte_of(byte: u8) -> u8 {
    match byte {
        b'.' => 0,
        b'_' => b' ',
        other => other,
    }
}

/// Shows the word that says these bytes.
pub(crate) fn show_word(bytes: &[u8], answer: &mut Answer) {
    if bytes.is_empty() {
        answer.say("-");
    }
    for byte in bytes {
        match *byte {
            0 => answer.say("."),
            b' ' => answer.say("_"),
            byte if byte.is_ascii_alphanumeric() => answer.add(&[byte]),
            byte => answer.show(format_args!("<{byte:02x}>")),
        }
    }
}
