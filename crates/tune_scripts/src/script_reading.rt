// Reads the lines and books of a script.
ghost use Rattle.std.specs.Prelude.{◌≡◌, ◌+◌, ◌<◌, length, true};
ghost use Rattle.std.specs.List.{list_all};
ghost use Rattle.tune_scripts.specs.Consoles.{is_inside};
ghost use Rattle.tune_scripts.specs.Limits.{longest_line};
ghost use Rattle.tune_scripts.specs.Looks.{LooksBehind};
ghost use Rattle.tune_scripts.specs.Streams.{streams_in};
ghost use Rattle.tune_scripts.specs.Inside.Reads.{ReadsLine, ReadsBook};
ghost use Rattle.tune_scripts.specs.Inside.Reads.{faults_of_line, faults_of_book};

use crate::console::{Console, PartRead, PieceRead};
use crate::script_lines::LONGEST_LINE;
use abc_fields::ByteText;
use std::alloc::Global;

/// What a read of a line gave.
pub(crate) enum LineRead {
    /// Its length before its line feed, and whether that came.
    Line(usize, bool),
    /// It has more bytes than a line may have.
    Long,
    /// There is no line.
    End,
    Fault,
}

/// How many bytes of an input show whether its line is too long.
pub(crate) const LINE_ROOM: usize = LONGEST_LINE + 1;

// Reads a line up to its line feed, which it does not keep.
pub(crate) fn read_line<C: Console>(console: &mut C, line: &mut [u8]) -> LineRead
    requires { length line.old ≡ longest_line + 1 }
    ensures bytes { ReadsLine (C.input console.old).left (C.input console.new).left line.new
        result }
    ensures looks { LooksBehind (streams_in C.Console console.old console.new)
        (λ taken. list_all is_inside taken ≡ true) }
    ensures faults { (C.input console.new).faults
        ≡ (C.input console.old).faults + faults_of_line result }
    ensures output { C.output console.new ≡ C.output console.old }
{
    let mut len = 0;
    while len < LINE_ROOM {
        match console.read_piece(&mut line[len..]) {
            PieceRead::Fault => return LineRead::Fault,
            PieceRead::End if len == 0 => return LineRead::End,
            PieceRead::End => return LineRead::Line(len, false),
            PieceRead::Fed(n) => return LineRead::Line(len + n, true),
            PieceRead::Open(n) => len += n,
        }
    }
    LineRead::Long
}

/// What a read of a book gave.
pub(crate) enum BookRead {
    Whole(ByteText),
    /// It was read and not kept: it was not wanted, or there was no memory for it.
    Dropped,
    /// The input ends within it.
    Cut,
    Fault,
}

// Reads a book of this length, and keeps it where it is wanted.
pub(crate) fn read_book<C: Console>(
    alloc: Global,
    console: &mut C,
    len: usize,
    is_wanted: bool,
) -> BookRead
    ensures bytes { ReadsBook (C.input console.old).left (C.input console.new).left len is_wanted
        result }
    ensures looks { LooksBehind (streams_in C.Console console.old console.new)
        (λ taken. length taken < len) }
    ensures faults { (C.input console.new).faults
        ≡ (C.input console.old).faults + faults_of_book result }
    ensures output { C.output console.new ≡ C.output console.old }
{
    let mut book = Vec::new(alloc);
    let mut has_room = is_wanted && book.reserve_exact(len).is_ok();
    let mut left = len;
    while left > 0 {
        match console.read_part(left, has_room, &mut book) {
            PartRead::Fault => return BookRead::Fault,
            PartRead::End => return BookRead::Cut,
            PartRead::Taken(count, is_kept) => {
                left -= count;
                has_room = is_kept;
            }
        }
    }
    if has_room {
        BookRead::Whole(ByteText::from_vec(book))
    } else {
        BookRead::Dropped
    }
}
