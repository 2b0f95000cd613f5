// Commands, replies and refusals.
use crate::index_rows::RowList;
use crate::tune::Tune;
use abc_fields::{BookFault, ByteText, TuneFault};
use std::alloc::{AllocError, AllocFailed};
use thiserror::Error;
use tune_queries::{BadQuery, Query};
use tune_sets::{SetFault, SetName, SetRowList};

/// One change of an archive, or one question.
#[derive(Debug, Drop)]
pub enum Command {
    /// Adds the tunes of this book, in order, from the number after the greatest on, or from 1 in
    /// an empty archive: all of them or none.
    Import(ByteText),
    /// Puts the one tune of this book in the place of the tune of this number, where this is its
    /// revision.
    Replace {
        number: u32,
        revision: u32,
        book: ByteText,
    },
    /// Takes out the tune of this number, which no set list may name.
    Delete(u32),
    /// Gives the tune of this number another one, `to`, in set lists too.
    Renumber {
        number: u32,
        to: u32,
    },
    /// Asks for the tune of this number.
    Show(u32),
    /// Asks which tunes a query finds.
    Find(Query),
    /// Asks for all titles of all tunes, in the order of an index.
    Titles,
    /// Adds a set list of this name, without a place.
    SetNew(ByteText),
    /// Puts the number of a tune at the end of the set list of this name. A tune may stand twice.
    SetAdd {
        name: ByteText,
        number: u32,
    },
    /// Takes this place out of the set list of this name. Places count from 1.
    SetCut {
        name: ByteText,
        place: u32,
    },
    /// Takes out the set list of this name.
    SetDrop(ByteText),
    /// Asks for the names of the set lists, and how many places each has.
    Sets,
    /// Asks for the tunes at the places of the set list of this name.
    SetShow(ByteText),
    /// Asks for the written book of all tunes.
    ExportAll,
    /// Asks for the written set of this name.
    ExportSet(ByteText),
    /// Brings the archive to layout 2, where it is not of it.
    Upgrade,
}

/// The answer to a command that is accepted.
#[derive(Debug, Drop)]
pub enum Reply {
    /// The tunes of a book were added, with these numbers.
    Imported { first: u32, last: u32 },
    /// The tune of a number was replaced, and has this revision now.
    Replaced { number: u32, revision: u16 },
    /// The tune of a number was taken out.
    Deleted { number: u32 },
    /// The tune of a number has this one now.
    Renumbered { number: u32, to: u32 },
    /// A tune.
    Shown(Tune),
    /// The tunes that a query finds, by number, each once, under its first title.
    Found(RowList),
    /// A row for each title of each tune, in the order of an index.
    Titled(RowList),
    /// A set list of this name was added.
    SetMade { name: SetName },
    /// A number came to this place of the set list of this name.
    SetAdded { name: SetName, place: usize },
    /// This place of the set list of this name was taken out.
    SetCut { name: SetName, place: u32 },
    /// The set list of this name was taken out.
    SetDropped { name: SetName },
    /// The set lists, by name.
    Sets(SetRowList),
    /// The tunes at the places of the set list of this name, from the first place on.
    SetShown { name: SetName, rows: RowList },
    /// The written book of all tunes, by number.
    Exported(ByteText),
    /// The written set of this name.
    SetExported { name: SetName, book: ByteText },
    /// The archive is of layout 2.
    Upgraded,
}

/// Why a command is refused. After each refusal but `Device` the archive is as it was.
#[derive(Clone, Copy, Debug, PartialEq, Eq, Error)]
pub enum Refusal {
    /// No line of the book begins with `X:`.
    #[error("the book has no tune")]
    NoTune,
    /// The first bad tune of the book, by its place, counted from 1.
    #[error("tune {place}: {fault}")]
    BadTune { place: usize, fault: TuneFault },
    /// The book for one tune has more.
    #[error("the book has {count} tunes")]
    NotOne { count: usize },
    /// No tune has the number.
    #[error("no tune has the number {number}")]
    Unknown { number: u32 },
    /// The tune has another revision, which is this.
    #[error("the tune has revision {revision}")]
    Stale { revision: u16 },
    /// The tune has the greatest revision.
    #[error("the tune cannot be replaced again")]
    Worn,
    /// Another tune has the number.
    #[error("another tune has the number {number}")]
    Taken { number: u32 },
    /// Set lists name the tune. This is the least name of one that does.
    #[error("a set list names the tune")]
    InSet { name: SetName },
    /// More tunes than `MOST_TUNES` would stand.
    #[error("the archive is full")]
    ArchiveFull,
    /// A number past `GREATEST_NUMBER` would be given.
    #[error("the numbers are spent")]
    NumbersSpent,
    /// No set list has the name.
    #[error("no set list has this name")]
    NoSuchSet,
    /// A set list has the name.
    #[error("a set list has this name")]
    SetTaken,
    /// The set list has `tune_sets::MOST_PLACES` places.
    #[error("the set list is full")]
    SetFull,
    /// There are `tune_sets::MOST_SETS` set lists.
    #[error("there is no room for another set list")]
    SetsFull,
    /// The set list has no such place.
    #[error("the set list has no such place")]
    NoSuchPlace,
    /// A set list cannot have the name.
    #[error("a set list cannot have this name")]
    BadName,
    /// A tune cannot have the number, which is not within 1 to `GREATEST_NUMBER`.
    #[error("a tune cannot have this number")]
    BadNumber,
    /// The query asks for nothing.
    #[error("the query asks for nothing")]
    BadQuery,
    /// The book has more bytes than `abc_fields::LONGEST_BOOK`.
    #[error("the book is too long")]
    BookTooLong,
    /// Memory ran out in this call.
    #[error("out of memory")]
    OutOfMemory,
    /// The device failed in this call. It then holds the archive before the command, or after it.
    #[error("the device failed")]
    Device,
    /// The device failed in an earlier call.
    #[error("the archive is closed")]
    Closed,
}

impl From<BookFault> for Refusal {
    ghost use Rattle.std.specs.Prelude.{◌≡◌};
    ghost use Rattle.tune_store.specs.TuneSteps.{refusal_of};

    ghost from_gives = { λ fault refusal. refusal ≡ refusal_of fault };

    fn from(fault: BookFault) -> Refusal {
        match fault {
            BookFault::BookTooLong => Refusal::BookTooLong,
            BookFault::NoTune => Refusal::NoTune,
            BookFault::BadTune { place, fault } => Refusal::BadTune { place, fault },
            BookFault::OutOfMemory => Refusal::OutOfMemory,
        }
    }
}

impl From<AllocError> for Refusal {
    ghost use Rattle.std.specs.Prelude.{◌≡◌};
    ghost use Rattle.tune_store.specs.declared.command.Refusal.TheVariants.{OutOfMemory};

    ghost from_gives = { λ _ refusal. refusal ≡ OutOfMemory };

    fn from(_e: AllocError) -> Refusal {
        Self::OutOfMemory
    }
}

impl<T: Drop> From<AllocFailed<T>> for Refusal {
    ghost use Rattle.std.specs.Prelude.{◌≡◌};
    ghost use Rattle.tune_store.specs.declared.command.Refusal.TheVariants.{OutOfMemory};

    ghost from_gives = { λ _ refusal. refusal ≡ OutOfMemory };

    fn from(e: AllocFailed<T>) -> Refusal {
        Refusal::from(AllocError::from(e))
    }
}

impl From<SetFault> for Refusal {
    ghost use Rattle.std.specs.Prelude.{◌≡◌};
    ghost use Rattle.tune_store.specs.SetSteps.{refusal_of_sets};

    ghost from_gives = { λ fault refusal. refusal ≡ refusal_of_sets fault };

    fn from(fault: SetFault) -> Refusal {
        match fault {
            SetFault::BadName => Refusal::BadName,
            SetFault::SetTaken => Refusal::SetTaken,
            SetFault::SetsFull => Refusal::SetsFull,
            SetFault::NoSuchSet => Refusal::NoSuchSet,
            SetFault::SetFull => Refusal::SetFull,
            SetFault::NoSuchPlace => Refusal::NoSuchPlace,
            SetFault::OutOfMemory => Refusal::OutOfMemory,
        }
    }
}

impl From<BadQuery> for Refusal {
    ghost use Rattle.std.specs.Prelude.{◌≡◌};
    ghost use Rattle.tune_store.specs.declared.command.Refusal.TheVariants.{BadQuery};

    ghost from_gives = { λ _ refusal. refusal ≡ BadQuery };

    fn from(_e: BadQuery) -> Refusal {
        Self::BadQuery
    }
}
