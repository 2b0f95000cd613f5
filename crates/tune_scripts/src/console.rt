// What scripts are read from, and answered to.
ghost use Rattle.std.specs.Prelude.{◌≡◌, ◌+◌, ◌<◌, [], length, true, OnOk};
ghost use Rattle.std.specs.Io.KnownBytes.{Appends};
ghost use Rattle.tune_scripts.specs.Consoles.{InputTold, OutputTold, Counts, LooksOnce};
ghost use Rattle.tune_scripts.specs.Consoles.{ReadsPiece, ReadsPart, StandsBehind};
ghost use Rattle.tune_scripts.specs.Consoles.{faults_of_piece, faults_of_part};

use std::io;

/// What a look at a line showed.
#[derive(Clone, Copy, Debug, PartialEq, Eq)]
pub enum PieceRead {
    /// This many bytes, and then the line feed, which was read too.
    Fed(usize),
    /// This many bytes, at least one, and not yet the line feed.
    Open(usize),
    /// Nothing: the input is at its end.
    End,
    /// The reader failed.
    Fault,
}

/// What a look at a book showed.
#[derive(Clone, Copy, Debug, PartialEq, Eq)]
pub enum PartRead {
    /// This many bytes, at least one, and whether they were kept.
    Taken(usize, bool),
    /// Nothing: the input is at its end.
    End,
    /// The reader failed.
    Fault,
}

/// An input that is read and an output that is written, as one: it tells in which order, and it
/// counts what failed. Code over any console can neither make a fault up nor hide one.
pub trait Console {
    /// What it tells of its input.
    ghost input: { Self → InputTold };

    /// What it tells of its output.
    ghost output: { Self → OutputTold };

    /// Looks at the input, and reads what is there of a line, up to its line feed, as far as there
    /// is room. It waits for the input only where nothing of it is there.
    fn read_piece(&mut self, room: &mut [u8]) -> PieceRead
        requires { 0 < length room.old }
        ensures bytes { ReadsPiece (input self.old).left (input self.new).left room.new result }
        ensures looks { LooksOnce (input self.old) (input self.new) (output self.old) }
        ensures faults { (input self.new).faults
            ≡ (input self.old).faults + faults_of_piece result }
        ensures output { output self.new ≡ output self.old };

    /// Looks at the input, and reads what is there of a book, at most so many bytes. Where they are
    /// wanted, and there is memory, they are put behind those that the book has.
    fn read_part(&mut self, most: usize, is_wanted: bool, book: &mut Vec<u8>) -> PartRead
        requires { 0 < most }
        ensures bytes { ReadsPart (input self.old).left (input self.new).left most
            (StandsBehind is_wanted book.old.items book.new.items) result }
        ensures looks { LooksOnce (input self.old) (input self.new) (output self.old) }
        ensures faults { (input self.new).faults
            ≡ (input self.old).faults + faults_of_part result }
        ensures output { output self.new ≡ output self.old };

    /// Writes bytes behind those that were written. They may not be seen before a flush.
    ///
    /// # Errors
    ///
    /// Those of the writer. Any part of the bytes may have been written then.
    fn write(&mut self, bytes: &[u8]) -> io::Result<()>
        ensures bytes { OnOk result
            (Appends (output self.old).bytes (output self.new).bytes bytes.now) }
        ensures faults { Counts result (output self.old).faults (output self.new).faults }
        ensures input { input self.new ≡ input self.old };

    /// Hands on all that was written.
    ///
    /// # Errors
    ///
    /// Those of the writer.
    fn flush(&mut self) -> io::Result<()>
        ensures bytes { OnOk result
            (Appends (output self.old).bytes (output self.new).bytes []) }
        ensures flushed { OnOk result ((output self.new).flushed ≡ true) }
        ensures faults { Counts result (output self.old).faults (output self.new).faults }
        ensures input { input self.new ≡ input self.old };
}
