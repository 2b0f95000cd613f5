// An index: the pages of its leaves, and the first entry of each.
ghost use Rattle.std.specs.Prelude.{◌≡◌, ◌≤◌, ◌<◌, ◌++◌, [], ◌∷◌, length, IfErr, IfOk, OnOk, true};
ghost use Rattle.std.specs.Prelude.{slice_index, vec_capacity, vec_len, ◌+◌};
ghost use Rattle.index_keys.specs.Entries.{IsRising};
ghost use Rattle.tune_index.specs.Inside.EntryPlaces.{BelongsTo};

use crate::heads::Heads;
use crate::search::{is_at, place_of};
use index_keys::IndexKey;
use std::alloc::{AllocError, Global};
use std::marker::Model;

/// An ordered list of entries, each a key of `W` bytes with a value, kept in pages. It keeps in
/// memory the page of each leaf, and the entry that begins it.
#[derive(Drop)]
pub struct Index<const W: usize> {
    pub(crate) pages: Vec<u32>,
    pub(crate) heads: Heads<W>,
    // where the chain begins that lists the pages, as it was stored last
    pub(crate) first: u32,
    // no leaf came or went since
    pub(crate) listed: bool,
}

impl<const W: usize> Model for Index<W> {
    ghost use Rattle.std.specs.Prelude.{◌≡◌, ◌≤◌, length};
    ghost use Rattle.tune_index.specs.Indexes.{Shape};

    ghost Value = { Shape };

    ghost view = { λ index. record {
      pages = index.pages.items;
      heads = index.heads;
      first = index.first;
      listed = index.listed;
    } };

    ghost invariant = { λ index.
        (W ≤ 4090) × (length index.heads ≡ length index.pages.items) };
}

impl<const W: usize> Index<W> {
    /// An index without an entry, of keys of at most 4,090 bytes. It takes no memory.
    pub fn new(alloc: Global) -> Index<W>
        requires { W ≤ 4090 }
        ensures leaves { (result.pages ≡ []) × (result.heads ≡ []) }
        ensures list { (result.first ≡ 0) × (result.listed ≡ true) }
    {
        Index::at(alloc, 0)
    }

    /// An index without an entry in the place of one whose leaves are gone, of keys of any other
    /// length: the chain that lists the leaves is that of the other until it is stored. It takes no
    /// memory.
    pub fn in_place_of<const V: usize>(alloc: Global, other: &Index<V>) -> Index<W>
        requires { W ≤ 4090 }
        ensures leaves { (result.pages ≡ []) × (result.heads ≡ []) }
        ensures list { (result.first ≡ other.now.first) × (result.listed ≡ other.now.listed) }
    {
        Index {
            pages: Vec::new(alloc),
            heads: Heads::new(alloc),
            first: other.first,
            listed: other.listed,
        }
    }

    // An index without a leaf, whose list begins there.
    pub(crate) fn at(alloc: Global, first: u32) -> Index<W>
        requires { W ≤ 4090 }
        ensures leaves { (result.pages ≡ []) × (result.heads ≡ []) }
        ensures list { (result.first ≡ first) × (result.listed ≡ true) }
    {
        Index {
            pages: Vec::new(alloc),
            heads: Heads::new(alloc),
            first,
            listed: true,
        }
    }

    /// The same index again: a command changes copies, and a change that is dropped leaves the
    /// index that it was made of.
    ///
    /// # Errors
    ///
    /// There is no memory.
    pub fn copy(&self, alloc: Global) -> Result<Index<W>, AllocError>
        ensures { IfOk result (λ copy. copy ≡ self.now) }
    {
        // For the proof.
        let _leaves = leaf_count(self);
        let mut copy = Index::at(alloc, 0);
        copy.copy_from(self)?;
        Ok(copy)
    }

    /// Becomes the same index as the other, in the memory that it has, and more where that is not
    /// enough.
    ///
    /// # Errors
    ///
    /// There is no memory: it stays as it was.
    pub fn copy_from(&mut self, other: &Index<W>) -> Result<(), AllocError>
        ensures same { OnOk result (self.new ≡ other.now) }
        ensures kept { IfErr result (λ _. self.new ≡ self.old) }
    {
        let count = other.pages.len();
        self.pages.reserve(count.saturating_sub(self.pages.len()))?;
        self.heads.copy_from(&other.heads)?;
        self.pages.clear();
        self.pages.extend_from_slice(&other.pages).unwrap();
        self.first = other.first;
        self.listed = other.listed;
        Ok(())
    }
}

// How many leaves there are, and how many bytes a key has at most.
pub(crate) fn leaf_count<const W: usize>(index: &Index<W>) -> usize
    ensures count { result ≡ length index.now.pages }
    ensures heads { result ≡ length index.now.heads }
    ensures width { W ≤ 4090 }
{
    index.pages.len()
}

// The page of the leaf at a place.
pub(crate) fn leaf_page<const W: usize>(index: &Index<W>, place: usize) -> u32
    requires { place < length index.now.pages }
    ensures page { result ≡ slice_index index.now.pages place }
    ensures width { W ≤ 4090 }
{
    index.pages[place]
}

// The place of the leaf for an entry, by the entries that begin the leaves: the last one that
// begins no later, or the first one.
fn leaf_before<const W: usize>(heads: &[(IndexKey<W>, u32)], key: &IndexKey<W>, value: u32) -> usize
    requires { 0 < length heads.now }
    ensures place { result < length heads.now }
    ensures belongs { IsRising heads.now → BelongsTo (key.now, value) heads.now result }
{
    let place = place_of(heads, key, value);
    if is_at(heads, place, key, value) {
        place
    } else if place == 0 {
        0
    } else {
        place - 1
    }
}

// The place of the leaf for an entry.
pub(crate) fn leaf_for<const W: usize>(index: &Index<W>, key: &IndexKey<W>, value: u32) -> usize
    requires { 0 < length index.now.pages }
    ensures place { result < length index.now.pages }
    ensures belongs { IsRising index.now.heads
        → BelongsTo (key.now, value) index.now.heads result }
{
    leaf_before(index.heads.as_slice(), key, value)
}
