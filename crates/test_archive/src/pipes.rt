// Readers and writers that fail, and that depend on one another.
use std::cell::Cell;
use std::io;
use std::io::{BufRead, Read, Write};

/// Gives its text, at most three bytes a call, and then fails.
#[derive(Drop)]
pub(crate) struct FailingReader<'a> {
    pub(crate) text: &'a [u8],
}

impl<'a> Read for FailingReader<'a> {
    fn read(&mut self, buf: &mut [u8]) -> io::Result<usize> {
        if self.text.is_empty() {
            return Err(io::Error::from(io::ErrorKind::BrokenPipe));
        }
        let most = buf.len().min(3);
        let mut piece = self.text.get(..most).unwrap_or(self.text);
        self.text = self.text.get(most..).unwrap_or(b"");
        piece.read(buf)
    }
}

impl<'a> BufRead for FailingReader<'a> {
    fn fill_buf(&mut self) -> io::Result<&[u8]> {
        if self.text.is_empty() {
            return Err(io::Error::from(io::ErrorKind::BrokenPipe));
        }
        Ok(self.text.get(..3).unwrap_or(self.text))
    }

    fn consume(&mut self, amount: usize) {
        self.text = self.text.get(amount..).unwrap_or(b"");
    }
}

/// Gives its text, at most three bytes a call, but for one call, which fails.
#[derive(Drop)]
pub(crate) struct OnceFailingReader<'a> {
    pub(crate) text: &'a [u8],
    calls_before: Option<u32>,
    /// How many bytes were left when it failed.
    pub(crate) left: Option<usize>,
}

impl<'a> OnceFailingReader<'a> {
    /// It fails in the call of this number, counted from 0.
    pub(crate) fn new(text: &'a [u8], call: u32) -> OnceFailingReader<'a> {
        OnceFailingReader {
            text,
            calls_before: Some(call),
            left: None,
        }
    }
}

impl<'a> Read for OnceFailingReader<'a> {
    fn read(&mut self, buf: &mut [u8]) -> io::Result<usize> {
        let mut shown = self.fill_buf()?;
        let count = shown.read(buf)?;
        self.consume(count);
        Ok(count)
    }
}

impl<'a> BufRead for OnceFailingReader<'a> {
    fn fill_buf(&mut self) -> io::Result<&[u8]> {
        match self.calls_before {
            Some(0) => {
                self.calls_before = None;
                self.left = Some(self.text.len());
                Err(io::Error::from(io::ErrorKind::BrokenPipe))
            }
            calls => {
                self.calls_before = calls.map(|calls| calls.saturating_sub(1));
                Ok(self.text.get(..3).unwrap_or(self.text))
            }
        }
    }

    fn consume(&mut self, amount: usize) {
        self.text = self.text.get(amount..).unwrap_or(b"");
    }
}

/// Takes this many calls, to write or to flush, and fails each one after them.
#[derive(Drop)]
pub(crate) struct FailingWriter {
    calls: u32,
    pub(crate) has_failed: bool,
}

impl FailingWriter {
    pub(crate) fn new(calls: u32) -> FailingWriter {
        FailingWriter {
            calls,
            has_failed: false,
        }
    }

    fn turn(&mut self) -> io::Result<()> {
        match self.calls.checked_sub(1) {
            None => {
                self.has_failed = true;
                Err(io::Error::from(io::ErrorKind::BrokenPipe))
            }
            Some(calls) => {
                self.calls = calls;
                Ok(())
            }
        }
    }
}

impl Write for FailingWriter {
    fn write(&mut self, buf: &[u8]) -> io::Result<usize> {
        self.turn()?;
        Ok(buf.len())
    }

    fn flush(&mut self) -> io::Result<()> {
        self.turn()
    }
}

/// How often something was flushed that was written, and whether a byte of a turn was asked for
/// before as many replies were flushed as there are turns before it.
#[derive(Drop)]
pub(crate) struct Flushes {
    pub(crate) flushed: Cell<usize>,
    pub(crate) asked_early: Cell<bool>,
}

/// Gives its bytes one by one, and notices where it is asked early. A turn is a line that is a
/// command, with its book behind it, each of whose lines begins with a capital.
#[derive(Drop)]
pub(crate) struct AskingReader<'a> {
    pub(crate) text: &'a [u8],
    pub(crate) turns: usize,
    pub(crate) flushes: &'a Flushes,
}

impl<'a> AskingReader<'a> {
    fn notice(&self) {
        if self.flushes.flushed.get() < self.turns {
            self.flushes.asked_early.set(true);
        }
    }

    // The next byte, which is taken.
    fn take_byte(&mut self) -> Option<u8> {
        let [byte, rest @ ..] = self.text else {
            return None;
        };
        self.text = rest;
        if *byte == b'\n' && !matches!(rest, [b'A'..=b'Z', ..]) {
            self.turns = self.turns.saturating_add(1);
        }
        Some(*byte)
    }
}

impl<'a> Read for AskingReader<'a> {
    fn read(&mut self, buf: &mut [u8]) -> io::Result<usize> {
        self.notice();
        let Some(first) = buf.first_mut() else {
            return Ok(0);
        };
        match self.take_byte() {
            Some(byte) => {
                *first = byte;
                Ok(1)
            }
            None => Ok(0),
        }
    }
}

impl<'a> BufRead for AskingReader<'a> {
    fn fill_buf(&mut self) -> io::Result<&[u8]> {
        self.notice();
        Ok(self.text.get(..1).unwrap_or(self.text))
    }

    fn consume(&mut self, amount: usize) {
        if amount > 0 {
            let _ = self.take_byte();
        }
    }
}

/// Counts the flushes of something that was written.
#[derive(Drop)]
pub(crate) struct CountingWriter<'a> {
    pub(crate) has_more: bool,
    pub(crate) flushes: &'a Flushes,
}

impl<'a> Write for CountingWriter<'a> {
    fn write(&mut self, buf: &[u8]) -> io::Result<usize> {
        self.has_more = true;
        Ok(buf.len())
    }

    fn flush(&mut self) -> io::Result<()> {
        if self.has_more {
            let flushed = self.flushes.flushed.get();
            self.flushes.flushed.set(flushed.saturating_add(1));
        }
        self.has_more = false;
        Ok(())
    }
}
