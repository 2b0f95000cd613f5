// The words and numbers of a reply, without memory.
ghost use Rattle.std.specs.Prelude.{◌≡◌, ◌+◌, ◌≤◌, ℕ, List, [], ◌++◌, codes, drop, length, OnOk};
ghost use Rattle.std.specs.Fmt.{decimal};
ghost use Rattle.std.specs.Io.KnownBytes.{Appends};
ghost use Rattle.tune_scripts.specs.Replies.{with_number};
ghost use Rattle.tune_scripts.specs.Streams.{IsWrite, streams_in};

use crate::console::Console;
use itoa::write_digits;
use std::io;
use std::marker::Model;

const ROOM: usize = 120;

/// Words and numbers of a reply, put together from the last to the first: so they are written by
/// one call, and how long each is need not be known before. A clause sees the list of their bytes.
#[derive(Drop)]
pub(crate) struct NumberedWords {
    room: [u8; ROOM],
    start: usize,
}

impl Model for NumberedWords {
    ghost Value = { List ℕ };

    ghost view = { λ words. drop words.start words.room };

    ghost invariant = { λ words. words.start ≤ 120 };
}

impl NumberedWords {
    // No words yet.
    #[inline(always)]
    pub(crate) fn new() -> NumberedWords
        ensures bytes { result ≡ [] }
        ensures size { length result ≤ 0 }
    {
        NumberedWords {
            room: [0; ROOM],
            start: ROOM,
        }
    }

    // Puts words before the others.
    #[inline(always)]
    pub(crate) fn put(&mut self, words: &[u8])
        requires { length words.now + length self.old ≤ 120 }
        ensures bytes { self.new ≡ words.now ++ self.old }
        ensures size { length self.new ≤ length words.now + length self.old }
    {
        let start = self.start - words.len();
        self.room[start..self.start].copy_from_slice(words);
        self.start = start;
    }

    // Puts a number before the others.
    #[inline(always)]
    pub(crate) fn put_number(&mut self, number: u64)
        requires { length self.old ≤ 100 }
        ensures bytes { self.new ≡ decimal number ++ self.old }
        ensures size { length self.new ≤ 20 + length self.old }
    {
        self.start = write_digits(number, &mut self.room, self.start);
    }

    // The bytes.
    #[inline(always)]
    pub(crate) fn as_slice(&self) -> &[u8]
        ensures { result.now ≡ self.now }
    {
        &self.room[self.start..]
    }
}

// Writes a line of words and a number.
pub(crate) fn write_number<C: Console>(console: &mut C, words: &[u8], number: u64) -> io::Result<()>
    requires { length words.now ≤ 40 }
    ensures bytes { let bytes = with_number words.now number in OnOk result
        (Appends (C.output console.old).bytes (C.output console.new).bytes bytes) }
    ensures rest { IsWrite (streams_in C.Console console.old console.new) result }
{
    let mut line = NumberedWords::new();
    line.put(b"\n");
    line.put_number(number);
    line.put(words);
    console.write(line.as_slice())
}

// Writes a line of words and two numbers.
pub(crate) fn write_numbers<C: Console>(
    console: &mut C,
    words: &[u8],
    first: u64,
    second: u64,
) -> io::Result<()>
    requires { length words.now ≤ 40 }
    ensures bytes { OnOk result (Appends (C.output console.old).bytes (C.output console.new).bytes
        (words.now ++ decimal first ++ codes " " ++ decimal second ++ codes "\n")) }
    ensures rest { IsWrite (streams_in C.Console console.old console.new) result }
{
    let mut line = NumberedWords::new();
    line.put(b"\n");
    line.put_number(second);
    line.put(b" ");
    line.put_number(first);
    line.put(words);
    console.write(line.as_slice())
}

// Writes words, a number, and words.
pub(crate) fn write_between<C: Console>(
    console: &mut C,
    front: &[u8],
    number: u64,
    back: &[u8],
) -> io::Result<()>
    requires { (length front.now ≤ 40) × (length back.now ≤ 40) }
    ensures bytes { let bytes = front.now ++ decimal number ++ back.now in OnOk result
        (Appends (C.output console.old).bytes (C.output console.new).bytes bytes) }
    ensures rest { IsWrite (streams_in C.Console console.old console.new) result }
{
    let mut line = NumberedWords::new();
    line.put(back);
    line.put_number(number);
    line.put(front);
    console.write(line.as_slice())
}
