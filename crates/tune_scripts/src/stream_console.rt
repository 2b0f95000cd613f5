// A console over a reader and a writer.
ghost use Rattle.std.specs.Prelude.{◌≡◌, ◌+◌, ◌<◌, [], length, true, OnOk};
ghost use Rattle.std.specs.Io.KnownBytes.{Appends};
ghost use Rattle.tune_scripts.specs.Consoles.{ReadsPiece, ReadsPart, StandsBehind};

use crate::console::{Console, PartRead, PieceRead};
use http_server::Log;
use memchr::memchr;
use std::io;
use std::io::{BufRead, Write};

/// A reader and a writer as a console. What it counts is kept for clauses alone, without memory.
///
/// No contract of a reader or a writer tells whether a call of it failed. That the faults which are
/// counted here are theirs is to be read, in the four calls below.
#[derive(Drop)]
pub struct StreamConsole<R: Drop, W: Drop> {
    reader: R,
    reader_faults: Log<(), ()>,
    writer: CountedWriter<W>,
    looks: Log<R, CountedWriter<W>>,
}

// A writer, how often it failed, and whether all that was written has been flushed.
#[derive(Drop)]
struct CountedWriter<W: Drop> {
    stream: W,
    faults: Log<(), ()>,
    is_flushed: bool,
}

impl<R: BufRead + Drop, W: Write + Drop> StreamConsole<R, W> {
    ghost use Rattle.tune_scripts.specs.StreamConsoles.{HasJustBegun};

    /// Nothing has failed yet, and nothing waits to be flushed.
    pub fn new(reader: R, writer: W) -> StreamConsole<R, W>
        ensures { HasJustBegun R.remaining W.contents reader writer result }
    {
        StreamConsole {
            reader,
            reader_faults: Log::new(),
            writer: CountedWriter {
                stream: writer,
                faults: Log::new(),
                is_flushed: true,
            },
            looks: Log::new(),
        }
    }
}

impl<R: BufRead + Drop, W: Write + Drop> Console for StreamConsole<R, W> {
    ghost use Rattle.tune_scripts.specs.StreamConsoles.{input_told, output_told};

    ghost input = { input_told R.remaining W.contents };

    ghost output = { λ console. output_told W.contents console.writer };

    fn read_piece(&mut self, room: &mut [u8]) -> PieceRead {
        self.looks = self.looks.and(&self.reader, &self.writer);
        let read = take_piece(&mut self.reader, room);
        if let PieceRead::Fault = read {
            self.reader_faults = self.reader_faults.and(&(), &());
        }
        read
    }

    fn read_part(&mut self, most: usize, is_wanted: bool, book: &mut Vec<u8>) -> PartRead {
        self.looks = self.looks.and(&self.reader, &self.writer);
        let read = take_part(&mut self.reader, most, is_wanted, book);
        if let PartRead::Fault = read {
            self.reader_faults = self.reader_faults.and(&(), &());
        }
        read
    }

    fn write(&mut self, bytes: &[u8]) -> io::Result<()> {
        self.writer.is_flushed = false;
        let done = self.writer.stream.write_all(bytes);
        if done.is_err() {
            self.writer.faults = self.writer.faults.and(&(), &());
        }
        done
    }

    fn flush(&mut self) -> io::Result<()> {
        let done = self.writer.stream.flush();
        match &done {
            Ok(()) => self.writer.is_flushed = true,
            Err(_) => self.writer.faults = self.writer.faults.and(&(), &()),
        }
        done
    }
}

// Reads what the reader's buffer shows of a line, up to its line feed, as far as there is room.
fn take_piece<R: BufRead>(reader: &mut R, room: &mut [u8]) -> PieceRead
    requires { 0 < length room.old }
    ensures { ReadsPiece (R.remaining reader.old) (R.remaining reader.new) room.new result }
{
    let Ok(shown) = reader.fill_buf() else {
        return PieceRead::Fault;
    };
    if shown.is_empty() {
        return PieceRead::End;
    }
    let most = shown.len().min(room.len());
    match memchr(b'\n', &shown[..most]) {
        Some(n) => {
            room[..n].copy_from_slice(&shown[..n]);
            reader.consume(n + 1);
            PieceRead::Fed(n)
        }
        None => {
            room[..most].copy_from_slice(&shown[..most]);
            reader.consume(most);
            PieceRead::Open(most)
        }
    }
}

// Reads what the reader's buffer shows of a book, at most so many bytes, and puts it behind the
// book where it is wanted.
fn take_part<R: BufRead>(
    reader: &mut R,
    most: usize,
    is_wanted: bool,
    book: &mut Vec<u8>,
) -> PartRead
    requires { 0 < most }
    ensures { ReadsPart (R.remaining reader.old) (R.remaining reader.new) most
        (StandsBehind is_wanted book.old.items book.new.items) result }
{
    let Ok(shown) = reader.fill_buf() else {
        return PartRead::Fault;
    };
    if shown.is_empty() {
        return PartRead::End;
    }
    let count = shown.len().min(most);
    let is_kept = is_wanted && book.extend_from_slice(&shown[..count]).is_ok();
    reader.consume(count);
    PartRead::Taken(count, is_kept)
}
