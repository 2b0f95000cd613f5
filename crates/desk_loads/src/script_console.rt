// The script of a new archive, as a console that keeps the replies.
ghost use Rattle.std.specs.Prelude.{◌≡◌, ◌+◌, ◌<◌, length, Some, true};
ghost use Rattle.tune_scripts.specs.Consoles.{ReadsPiece, ReadsPart, StandsBehind};
ghost use Rattle.tune_scripts.specs.Consoles.{faults_of_piece, faults_of_part};

use http_server::Log;
use memchr::memchr;
use std::alloc::Global;
use std::io;
use tune_scripts::{Console, PartRead, PieceRead};

// How each reply to a command that is refused begins.
const REFUSED_REPLY: &[u8] = b"refused ";

/// A script in memory as a console. It keeps the replies, and fails at the first that is a refusal,
/// so that no command behind it is carried out.
#[derive(Drop)]
pub(crate) struct ScriptConsole<'a> {
    rest: ScriptRest<'a>,
    pub(crate) replies: Replies,
    looks: Log<ScriptRest<'a>, Replies>,
    lines: LineCount,
}

// What is left of a script.
#[derive(Clone, Copy)]
pub(crate) struct ScriptRest<'a> {
    bytes: &'a [u8],
}

/// The replies to the commands of a script.
#[derive(Drop)]
pub(crate) struct Replies {
    pub(crate) bytes: Vec<u8>,
    faults: Log<(), ()>,
    is_flushed: bool,
    /// Where the reply begins that is being written.
    pub(crate) begins: usize,
    /// Whether that is a refusal.
    pub(crate) is_refused: bool,
}

// How many lines were read whole, and on which one the command stands that was read last.
#[derive(Clone, Copy)]
pub(crate) struct LineCount {
    whole: u64,
    command: u64,
    is_within: bool,
}

impl<'a> ScriptConsole<'a> {
    ghost use Rattle.desk_loads.specs.Inside.ScriptConsoles.{HasReadNothing};

    /// Nothing was read yet, and nothing written.
    pub(crate) fn new(alloc: Global, script: &'a [u8]) -> ScriptConsole<'a>
        ensures { HasReadNothing script.now result }
    {
        ScriptConsole {
            rest: ScriptRest { bytes: script },
            replies: Replies {
                bytes: Vec::new(alloc),
                faults: Log::new(),
                is_flushed: true,
                begins: 0,
                is_refused: false,
            },
            looks: Log::new(),
            lines: LineCount {
                whole: 0,
                command: 1,
                is_within: false,
            },
        }
    }

    /// On which line the command stands that was read last.
    pub(crate) fn line(&self) -> u64 {
        self.lines.command
    }
}

impl<'a> Console for ScriptConsole<'a> {
    ghost use Rattle.desk_loads.specs.Inside.ScriptConsoles.{script_input_told, replies_told};

    ghost input = { script_input_told };

    ghost output = { λ console. replies_told console.replies };

    fn read_piece(&mut self, room: &mut [u8]) -> PieceRead {
        self.looks = self.looks.and(&self.rest, &self.replies);
        let (read, rest) = take_piece(self.rest.bytes, room);
        self.rest = ScriptRest { bytes: rest };
        self.lines = self.lines.after_piece(read);
        read
    }

    fn read_part(&mut self, most: usize, is_wanted: bool, book: &mut Vec<u8>) -> PartRead {
        self.looks = self.looks.and(&self.rest, &self.replies);
        let before = self.rest.bytes;
        let (read, rest) = take_part(before, most, is_wanted, book);
        self.rest = ScriptRest { bytes: rest };
        self.lines = self.lines.after_part(before, read);
        read
    }

    fn write(&mut self, bytes: &[u8]) -> io::Result<()> {
        self.replies.is_flushed = false;
        let done = self.replies.bytes.extend_from_slice(bytes);
        match done {
            Ok(()) => Ok(()),
            Err(_) => {
                self.replies.faults = self.replies.faults.and(&(), &());
                Err(io::ErrorKind::OutOfMemory.into())
            }
        }
    }

    fn flush(&mut self) -> io::Result<()> {
        if begins_refused(self.replies.bytes.as_slice(), self.replies.begins) {
            self.replies.is_refused = true;
            self.replies.faults = self.replies.faults.and(&(), &());
            return Err(io::ErrorKind::Other.into());
        }
        self.replies.begins = self.replies.bytes.len();
        self.replies.is_flushed = true;
        Ok(())
    }
}

// Whether a refusal begins at a place.
fn begins_refused(bytes: &[u8], place: usize) -> bool {
    match bytes.get(place..) {
        Some(reply) => reply.starts_with(REFUSED_REPLY),
        None => false,
    }
}

impl LineCount {
    // After a look at a line.
    fn after_piece(self, read: PieceRead) -> LineCount {
        let command = if self.is_within {
            self.command
        } else {
            self.whole.saturating_add(1)
        };
        match read {
            PieceRead::Fed(_) => LineCount {
                whole: self.whole.saturating_add(1),
                command,
                is_within: false,
            },
            _ => LineCount {
                whole: self.whole,
                command,
                is_within: true,
            },
        }
    }

    // After a look at a book.
    fn after_part(self, before: &[u8], read: PartRead) -> LineCount {
        let PartRead::Taken(count, _) = read else {
            return self;
        };
        let mut whole = self.whole;
        for byte in before.iter().take(count) {
            if *byte == b'\n' {
                whole = whole.saturating_add(1);
            }
        }
        LineCount { whole, ..self }
    }
}

// Reads what is there of a line, up to its line feed, as far as there is room.
fn take_piece<'a>(rest: &'a [u8], room: &mut [u8]) -> (PieceRead, &'a [u8])
    requires { 0 < length room.old }
    ensures bytes { ReadsPiece (Some rest.now) (Some result.1.now) room.new result.0 }
    ensures faults { faults_of_piece result.0 ≡ 0 }
{
    if rest.is_empty() {
        return (PieceRead::End, rest);
    }
    let most = rest.len().min(room.len());
    match memchr(b'\n', &rest[..most]) {
        Some(n) => {
            room[..n].copy_from_slice(&rest[..n]);
            (PieceRead::Fed(n), &rest[n + 1..])
        }
        None => {
            room[..most].copy_from_slice(&rest[..most]);
            (PieceRead::Open(most), &rest[most..])
        }
    }
}

// Reads what is there of a book, at most so many bytes, and puts it behind the book where it is
// wanted.
fn take_part<'a>(
    rest: &'a [u8],
    most: usize,
    is_wanted: bool,
    book: &mut Vec<u8>,
) -> (PartRead, &'a [u8])
    requires { 0 < most }
    ensures bytes { ReadsPart (Some rest.now) (Some result.1.now) most
        (StandsBehind is_wanted book.old.items book.new.items) result.0 }
    ensures faults { faults_of_part result.0 ≡ 0 }
{
    if rest.is_empty() {
        return (PartRead::End, rest);
    }
    let count = rest.len().min(most);
    let is_kept = is_wanted && book.extend_from_slice(&rest[..count]).is_ok();
    (PartRead::Taken(count, is_kept), &rest[count..])
}
