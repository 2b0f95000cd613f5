// What a call answers.
use bstr::ByteSlice;
use std::alloc::Global;
use std::fmt;
use std::fmt::{Debug, Display};
use std::io::Write;

/// More bytes than these are not shown as a text.
const LONGEST_TEXT: usize = 100;

/// How many bytes of others are shown.
const SHOWN: usize = 9;

/// An answer, as far as it is written.
///
/// To write to it never fails. Where memory was refused the answer is not whole, and who reads it
/// asks for that once.
#[derive(Drop)]
pub struct Answer {
    bytes: Vec<u8>,
    is_whole: bool,
}

impl Display for Answer {
    fn fmt<W: fmt::Write>(&self, f: &mut fmt::Formatter<W>) -> fmt::Result {
        write!(f, "{}", self.bytes.as_slice().escape_bytes())
    }
}

impl Answer {
    /// Without a byte.
    pub fn new(alloc: Global) -> Answer {
        Answer {
            bytes: Vec::new(alloc),
            is_whole: true,
        }
    }

    /// Its bytes.
    pub fn as_slice(&self) -> &[u8] {
        self.bytes.as_slice()
    }

    /// Whether there was memory for all that was written.
    pub fn is_whole(&self) -> bool {
        self.is_whole
    }

    /// Whether it is this text.
    pub fn is(&self, text: &str) -> bool {
        self.bytes.as_slice() == text.as_bytes()
    }

    /// Begins it anew.
    pub fn clear(&mut self) {
        self.bytes.clear();
        self.is_whole = true;
    }

    /// Adds bytes.
    pub fn add(&mut self, bytes: &[u8]) {
        if self.bytes.extend_from_slice(bytes).is_err() {
            self.is_whole = false;
        }
    }

    /// Adds a text.
    pub fn say(&mut self, text: &str) {
        self.add(text.as_bytes());
    }

    /// Adds a blank, unless it has no byte.
    pub fn space(&mut self) {
        if !self.bytes.is_empty() {
            self.say(" ");
        }
    }

    /// Adds what is printed of a value.
    pub fn show<T: Display + Drop>(&mut self, value: T) {
        if write!(self.bytes, "{value}").is_err() {
            self.is_whole = false;
        }
    }

    /// The same of a value that has a name in the code alone.
    pub fn name<T: Debug + Drop>(&mut self, value: T) {
        if write!(self.bytes, "{value:?}").is_err() {
            self.is_whole = false;
        }
    }

    /// Adds bytes between double quotes, with the escapes of `bstr`.
    pub fn quote(&mut self, bytes: &[u8]) {
        self.say("\"");
        for byte in bytes {
            self.show([*byte].as_slice().escape_bytes());
        }
        self.say("\"");
    }

    /// Adds bytes, two hexadecimal digits for each.
    pub fn show_hexadecimal(&mut self, bytes: &[u8]) {
        for byte in bytes {
            self.show(format_args!("{byte:02x}"));
        }
    }

    /// Adds bytes as [`Bytes`](crate::Bytes) read them. Of more than 100 that are neither all the
    /// same nor uneven it shows what they begin with.
    pub fn show_bytes(&mut self, bytes: &[u8]) {
        let count = bytes.len();
        let first = bytes.first().copied().unwrap_or(0);
        if count <= LONGEST_TEXT {
            self.quote(bytes);
        } else if bytes.iter().all(|byte| *byte == first) {
            self.show(format_args!("same {first:02x} {count}"));
        } else if is_uneven(bytes) {
            self.show(format_args!("uneven {count}"));
        } else {
            self.say("begins ");
            self.quote(bytes.get(..SHOWN).unwrap_or(bytes));
        }
    }

    /// Adds from which byte on bytes are others than those that are wanted, if they are.
    pub fn tell_difference(&mut self, found: &[u8], wanted: &[u8]) {
        if found != wanted {
            let common = found.iter().zip(wanted).take_while(|(a, b)| a == b).count();
            self.show(format_args!(", other bytes from {common} on"));
        }
    }

    /// Adds which call it answers, and for which number.
    pub(crate) fn tell_call(&mut self, call: &str, at: u64) {
        self.show(format_args!(" answers `{call}` at {at}"));
    }
}

// Whether these are 0, 1, 2 and so on up to 250, and then again.
fn is_uneven(bytes: &[u8]) -> bool {
    bytes
        .iter()
        .enumerate()
        .all(|(place, byte)| place % 251 == *byte as usize)
}
