// An archive in a file.
ghost use Rattle.std.specs.Prelude.{◌≡◌, true, false, None, Some, length, MatchResult};
ghost use Rattle.tune_disk.specs.Stops.{LeavesOnly};
ghost use Rattle.tune_format.specs.States.{Holds};
ghost use Rattle.tune_pages.specs.Kept.{HonestAt, state_at};
ghost use Rattle.tune_store.specs.Limits.{layout_number};
ghost use Rattle.tune_archive.specs.Shelf.{state_of};
ghost use Rattle.tune_archive.specs.Inside.Holding.{IsShelf};

use abc_fields::TuneText;
use std::alloc::Global;
use std::marker::Model;
use thiserror::Error;
use tune_contents::{Contents, Room};
use tune_disk::Disk;
use tune_pages::{Edit, Pages};

/// The text of the tune at a place.
#[derive(Drop)]
pub(crate) struct Fetched {
    pub(crate) place: usize,
    pub(crate) text: TuneText,
}

/// An archive in a file. It keeps in memory where each tune stands on its pages, and the set lists;
/// a text is read when it is asked for. Once the device failed in a call it is closed, and every
/// call that can be refused answers `Closed`.
#[derive(Drop)]
pub struct Archive<D: Disk> {
    pub(crate) alloc: Global,
    pub(crate) edit: Edit<D>,
    pub(crate) contents: Contents,
    pub(crate) room: Room,
    // the text that was read last
    pub(crate) fetched: Option<Fetched>,
    pub(crate) closed: bool,
}

impl<D: Disk> Model for Archive<D> {
    ghost use Rattle.tune_archive.specs.Shelf.{Shelf};
    ghost use Rattle.tune_archive.specs.Inside.Holding.{IsShelf};

    ghost Value = { Shelf D };

    ghost view = { λ a. record {
      pages = a.edit.base;
      contents = a.contents;
      fetched = a.fetched;
      closed = a.closed;
    } };

    ghost invariant = { λ a. IsShelf D.honest D.state a.edit.base a.contents a.closed };
}

/// What an archive in a file holds, in numbers.
#[derive(Clone, Copy, Debug, PartialEq, Eq)]
pub struct Counts {
    /// The layout of its pages.
    pub layout: u32,
    /// How many tunes there are.
    pub tunes: usize,
    /// How many set lists there are.
    pub sets: usize,
}

/// A call on an archive that was closed, since its device failed in an earlier call.
#[derive(Clone, Copy, Debug, PartialEq, Eq, Error)]
#[error("the archive is closed")]
pub struct Closed;

impl<D: Disk> Archive<D> {
    // An archive of these pages, of which these are the contents.
    pub(crate) fn over(alloc: Global, pages: Pages<D>, contents: Contents) -> Archive<D>
        requires { IsShelf D.honest D.state pages contents false }
        ensures pages { result.pages ≡ pages }
        ensures contents { result.contents ≡ contents }
        ensures fetched { (result.fetched ≡ None) × (result.closed ≡ false) }
    {
        Archive {
            alloc,
            edit: Edit::over(pages),
            contents,
            room: Room::new(alloc),
            fetched: None,
            closed: false,
        }
    }

    /// How many tunes and set lists it holds, and in which layout.
    ///
    /// # Errors
    ///
    /// `Closed` exactly where the archive is closed.
    pub fn counts(&self) -> Result<Counts, Closed>
        ensures answer { MatchResult result (λ _. self.now.closed ≡ false)
            (λ _. self.now.closed ≡ true) }
        ensures counts { MatchResult result (λ counts.
            HonestAt D.honest self.now.pages.disk
            → (counts.layout ≡ layout_number (state_of D.state self.now).layout)
            × (counts.tunes ≡ length (state_of D.state self.now).tunes)
            × (counts.sets ≡ length (state_of D.state self.now).sets)) (λ _. Unit {0}) }
    {
        if self.closed {
            return Err(Closed);
        }
        Ok(Counts {
            layout: self.contents.layout.number(),
            tunes: self.contents.rows.len(),
            sets: self.contents.sets.as_slice().len(),
        })
    }

    /// The disk. That of an open archive is at rest: a stop then leaves the state of the archive.
    pub fn into_disk(self) -> D
        ensures disk { self.pages.disk ≡ Some result }
        ensures rest { HonestAt D.honest self.pages.disk → self.closed ≡ false
            → LeavesOnly (D.state result).now
            (λ file. Holds file (state_of D.state self)) }
    {
        let Archive {
            alloc: _,
            edit,
            contents: _,
            room: _,
            fetched: _,
            closed: _,
        } = self;
        edit.into_pages().into_disk()
    }
}
