// Bytes as the files write them down.
use bstr::ByteVec;
use std::alloc::{AllocError, Global};
use std::fs::Files;
use std::{fs, io};

/// Bytes, as they are written down.
///
/// `uneven COUNT` are 0, 1, 2 and so on up to 250, and then again; `same BYTE COUNT` are so many of
/// one byte, in two hexadecimal digits; and a text between double quotes is its bytes, with escapes
/// as `bstr` has them.
#[derive(Clone, Copy)]
pub enum Bytes<'a> {
    /// So many that differ from their neighbours.
    Uneven(usize),
    /// So many of one byte.
    Same(u8, usize),
    /// Those of a text between double quotes.
    Quoted(&'a str),
}

impl<'a> Bytes<'a> {
    /// The bytes that a text writes down, if it does.
    pub fn read(text: &'a str) -> Option<Bytes<'a>> {
        if text.starts_with('"') {
            return Some(Bytes::Quoted(text));
        }
        let (kind, rest) = text.split_once(' ')?;
        match kind {
            "uneven" => Some(Bytes::Uneven(rest.parse().ok()?)),
            "same" => {
                let (byte, count) = rest.split_once(' ')?;
                let byte = u8::from_str_radix(byte, 16).ok()?;
                Some(Bytes::Same(byte, count.parse().ok()?))
            }
            _ => None,
        }
    }

    /// The bytes, where there is memory for them.
    pub fn to_vec(self, alloc: Global) -> Result<Vec<u8>, AllocError> {
        match self {
            Bytes::Uneven(count) => uneven(alloc, count),
            Bytes::Same(byte, count) => vec![in alloc; byte; count],
            Bytes::Quoted(text) => unquoted(alloc, text),
        }
    }
}

fn uneven(alloc: Global, count: usize) -> Result<Vec<u8>, AllocError> {
    let mut bytes = Vec::new(alloc);
    for place in 0..count {
        bytes.push((place % 251) as u8)?;
    }
    Ok(bytes)
}

/// The bytes that a text between double quotes stands for.
pub fn unquoted(alloc: Global, text: &str) -> Result<Vec<u8>, AllocError> {
    let text = text.strip_prefix('"').unwrap_or(text);
    let text = text.strip_suffix('"').unwrap_or(text);
    Vec::unescape_bytes(alloc, text)
}

/// The bytes of the file `NAME.KIND`.
///
/// # Errors
///
/// Where it cannot be read.
pub fn read_bytes<R: Files + AllocGlobal>(rt: &R, name: &str, kind: &str) -> io::Result<Vec<u8>> {
    fs::read(rt, format!(in rt.alloc(); "{name}.{kind}")?)
}

/// The bytes that hexadecimal digits write down, two for each; what is no pair of them is a 0.
pub fn read_hexadecimal(alloc: Global, digits: &str) -> Result<Vec<u8>, AllocError> {
    let mut bytes = Vec::new(alloc);
    for place in 0..digits.len() / 2 {
        let pair = digits.get(2 * place..2 * place + 2).unwrap_or("");
        bytes.push(u8::from_str_radix(pair, 16).unwrap_or(0))?;
    }
    Ok(bytes)
}

/// Lays bytes over the first ones of others, as far as there is place.
pub fn lay_bytes(bytes: &[u8], over: &mut [u8]) {
    for (place, byte) in over.iter_mut().zip(bytes) {
        *place = *byte;
    }
}
