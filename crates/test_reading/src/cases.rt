// The lines of data files, and the escapes of their texts.
use abc_fields::{TuneText, split_book};
use std::alloc::Global;
use std::io;
use test_cases::no_data;

/// A case: what a call is asked about, and what has to come out.
#[derive(Drop)]
pub(crate) struct Case<'a> {
    pub(crate) name: &'a str,
    pub(crate) call: &'a str,
    pub(crate) texts: Vec<Vec<u8>>,
    pub(crate) wanted: Vec<u8>,
}

impl<'a> Case<'a> {
    // The case of a line.
    pub(crate) fn of_line(alloc: Global, line: &'a str) -> io::Result<Case<'a>> {
        let (name, others) = line.split_once('\t').ok_or(no_data())?;
        let (call, columns) = others.split_once('\t').ok_or(no_data())?;
        let mut texts = decoded_columns(alloc, columns)?;
        let wanted = texts.pop().ok_or(no_data())?;
        Ok(Case {
            name,
            call,
            texts,
            wanted,
        })
    }

    // The text at this place, from 0.
    pub(crate) fn text(&self, place: usize) -> &[u8] {
        match self.texts.as_slice().get(place) {
            Some(text) => text.as_slice(),
            None => b"",
        }
    }
}

fn decoded_columns(alloc: Global, columns: &str) -> io::Result<Vec<Vec<u8>>> {
    let mut texts = Vec::new(alloc);
    for column in columns.split('\t') {
        texts.push(decoded(alloc, column)?)?;
    }
    Ok(texts)
}

/// A text that is being read: its bytes, and what of it is to be repeated.
#[derive(Drop)]
struct Text {
    bytes: Vec<u8>,
    from: usize,
    times: usize,
}

impl Text {
    // Takes what stands behind a backslash, up to the next one.
    fn take_escape(&mut self, part: &str) -> io::Result<()> {
        match part.as_bytes() {
            [b'n', rest @ ..] => self.take_byte(b'\n', rest),
            [b't', rest @ ..] => self.take_byte(b'\t', rest),
            [b'r', rest @ ..] => self.take_byte(b'\r', rest),
            [b'x', _, _, rest @ ..] => self.take_byte(byte_of(part)?, rest),
            [b')', rest @ ..] => self.repeat(rest),
            _ => self.begin_repeat(part),
        }
    }

    fn take_byte(&mut self, byte: u8, rest: &[u8]) -> io::Result<()> {
        self.bytes.push(byte)?;
        self.bytes.extend_from_slice(rest)?;
        Ok(())
    }

    fn begin_repeat(&mut self, part: &str) -> io::Result<()> {
        let (count, rest) = part.split_once('(').ok_or(no_data())?;
        self.times = count.parse().map_err(|_| no_data())?;
        self.from = self.bytes.len();
        self.bytes.extend_from_slice(rest.as_bytes())?;
        Ok(())
    }

    fn repeat(&mut self, rest: &[u8]) -> io::Result<()> {
        let unit = self.bytes.get(self.from..).ok_or(no_data())?;
        let unit = unit.to_vec(*self.bytes.allocator())?;
        for _ in 1..self.times {
            self.bytes.extend_from_slice(unit.as_slice())?;
        }
        self.bytes.extend_from_slice(rest)?;
        Ok(())
    }
}

// The byte of two digits behind an `x`.
fn byte_of(part: &str) -> io::Result<u8> {
    u8::from_str_radix(part.get(1..3).unwrap_or(""), 16).map_err(|_| no_data())
}

// The bytes of a column. Behind a backslash that stands for itself the next part begins with no
// escape.
fn decoded(alloc: Global, column: &str) -> io::Result<Vec<u8>> {
    let mut text = Text {
        bytes: Vec::new(alloc),
        from: 0,
        times: 0,
    };
    let mut is_plain = true;
    for part in column.split('\\') {
        if is_plain {
            text.bytes.extend_from_slice(part.as_bytes())?;
            is_plain = false;
        } else if part.is_empty() {
            text.bytes.push(b'\\')?;
            is_plain = true;
        } else {
            text.take_escape(part)?;
        }
    }
    let Text { bytes, .. } = text;
    Ok(bytes)
}

/// The tunes of a book, none where it is refused.
pub(crate) fn tunes_of(alloc: Global, book: &[u8]) -> Vec<TuneText> {
    match split_book(alloc, book, 16_000) {
        Ok(tunes) => tunes,
        Err(_) => Vec::new(alloc),
    }
}
