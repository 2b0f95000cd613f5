// What the book of old texts holds: entries, and marks after them.
use crate::text_sums::Sum;
use abc_fields::TuneText;
use tune_sets::{NumberList, SetName};

/// Which change an entry is of.
#[derive(Clone, Copy, Debug, PartialEq, Eq)]
pub enum EntryKind {
    /// Tunes were deleted.
    Delete,
    /// The text of a tune was replaced.
    Replace,
    /// Tunes were put into a set list.
    Put,
    /// Places of a set list were cut.
    Cut,
    /// A place of a set list was moved.
    Move,
    /// A set list was dropped.
    Drop,
    /// The tunes of a book were added.
    Add,
    /// The tunes of a further book of the same add.
    AddMore,
    /// The archive was made by a load, which brought all that it held.
    Load,
    /// A text that an undo took away is kept. It is no change that can be undone.
    Kept,
}

/// What a tune is after a change.
#[derive(Clone, Copy, Debug, PartialEq, Eq)]
pub enum After {
    /// It is not there.
    Nothing,
    /// It has the text of this sum.
    Text(Sum),
    /// It has this revision. Only entries of before say so.
    Revision(u32),
}

/// What a change does with one tune, or with one set list.
#[derive(Debug, Drop)]
pub enum Part {
    /// The tune of this number: its text before, if it was there, and what it is after.
    Tune {
        /// Its number.
        number: u32,
        /// Its text before.
        was: Option<TuneText>,
        /// What it is after.
        is: After,
    },
    /// The set list of this name: its numbers before and after, if it is there.
    Set {
        /// Its name.
        name: SetName,
        /// Its numbers before.
        was: Option<NumberList>,
        /// Its numbers after.
        is: Option<NumberList>,
    },
}

/// A change: of which kind, and its parts in the order in which they are carried out.
#[derive(Debug, Drop)]
pub struct Entry {
    /// Its kind.
    pub kind: EntryKind,
    /// Its parts.
    pub parts: Vec<Part>,
}

/// What is noted of the last entry that is not undone.
#[derive(Clone, Copy, Debug, PartialEq, Eq)]
pub enum Mark {
    /// The change was not made.
    NotDone,
    /// The change is undone.
    Undone,
    /// Its undoing begins, in an archive in which this number is the greatest.
    Undoing(u32),
}

/// An entry that is not undone.
#[derive(Debug, Drop)]
pub struct Step {
    /// The entry.
    pub entry: Entry,
    /// Where its undoing was begun, the greatest number that the archive had then.
    pub begun: Option<u32>,
}
