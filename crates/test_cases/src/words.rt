// The words of a call.
use std::io;

/// The error of data that says nothing.
pub fn no_data() -> io::Error {
    io::ErrorKind::InvalidData.into()
}

/// The words behind the name of a call, with a blank between two of them, and the number for which
/// the call is made.
#[derive(Clone, Copy)]
pub struct Words<'a> {
    rest: &'a str,
    at: u64,
}

impl<'a> Words<'a> {
    /// The words of a text, and the number for which `@` stands.
    pub fn new(rest: &'a str, at: u64) -> Words<'a> {
        Words { rest, at }
    }

    /// The number for which the call is made; 0 where the case is made once.
    pub fn at(self) -> u64 {
        self.at
    }

    /// All that is left.
    pub fn rest(self) -> &'a str {
        self.rest
    }

    /// Takes the next word off. It has no byte where none is left.
    pub fn word(&mut self) -> &'a str {
        let (word, rest) = self.rest.split_once(' ').unwrap_or((self.rest, ""));
        self.rest = rest;
        word
    }

    /// Takes a number off: a numeral, or `@`. None where the next word is no number.
    pub fn long(&mut self) -> Option<u64> {
        let word = self.word();
        if word == "@" {
            Some(self.at)
        } else {
            word.parse().ok()
        }
    }

    /// The same of four bytes.
    pub fn number(&mut self) -> Option<u32> {
        u32::try_from(self.long()?).ok()
    }

    /// The same of two bytes.
    pub fn short(&mut self) -> Option<u16> {
        u16::try_from(self.long()?).ok()
    }

    /// The same as a length or a place.
    pub fn size(&mut self) -> Option<usize> {
        Some(self.long()? as usize)
    }

    /// Takes a byte off, in hexadecimal digits.
    pub fn byte(&mut self) -> Option<u8> {
        u8::from_str_radix(self.word(), 16).ok()
    }
}
