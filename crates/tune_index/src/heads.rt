// The first entries of leaves, which copies of an index share until one of them changes.
ghost use Rattle.std.specs.Prelude.{◌≡◌, ◌<◌, ◌≤◌, ◌++◌, [], ◌∷◌, length, slice_set, slice_index};
ghost use Rattle.std.specs.Prelude.{None, option_map, unwrap_or, IsTrue, OnErr, OnOk};
ghost use Rattle.std.specs.List.{insert, remove};

use crate::leaf::Leaf;
use index_keys::IndexKey;
use std::alloc::{AllocError, Global};
use std::marker::Model;
use std::mem;
use std::rc::Rc;

// The first entry of each leaf, in the order of the leaves. Contracts see a list of entries.
pub(crate) struct Heads<const W: usize> {
    alloc: Global,
    // the heads, unless they are shared: then this is room alone
    own: Leaf<W>,
    // the heads, where they are shared
    shared: Option<Rc<Leaf<W>>>,
}

impl<const W: usize> Model for Heads<W> {
    ghost use Rattle.std.specs.Prelude.{◌≤◌, List, option_map, unwrap_or};
    ghost use Rattle.index_keys.specs.Entries.{Entry};

    ghost Value = { List Entry };

    ghost view = { λ heads. unwrap_or (option_map (λ rc. rc.value.items) heads.shared)
        heads.own.items };

    ghost invariant = { λ _. W ≤ 4090 };
}

// By hand, so that the proofs of what lets an index go do not see that heads may be shared.
impl<const W: usize> Drop for Heads<W> {
    fn drop(self) {
        let Heads {
            alloc: _alloc,
            own: _own,
            shared: _shared,
        } = self;
    }
}

// The list becomes that of these entries, in the memory that it has, and more where that is not
// enough, with room for one entry more: a leaf that is split is told next.
fn fill<const W: usize>(
    list: &mut Leaf<W>,
    entries: &[(IndexKey<W>, u32)],
) -> Result<(), AllocError>
    requires { W ≤ 4090 }
    ensures same { OnOk result (list.new.items ≡ entries.now) }
    ensures kept { OnErr result (list.new.items ≡ list.old.items) }
{
    let more = entries.len().saturating_sub(list.len());
    list.reserve(more.saturating_add(1))?;
    list.clear();
    list.extend_from_slice(entries).unwrap();
    Ok(())
}

// Heads that are shared are copied, so that the own ones count.
fn make_own<const W: usize>(
    own: &mut Leaf<W>,
    shared: &mut Option<Rc<Leaf<W>>>,
) -> Result<(), AllocError>
    requires { W ≤ 4090 }
    ensures none { OnOk result (shared.new ≡ None) }
    ensures same { OnOk result (own.new.items
        ≡ unwrap_or (option_map (λ rc. rc.value.items) shared.old) own.old.items) }
    ensures kept { OnErr result
        ((shared.new ≡ shared.old) × (own.new.items ≡ own.old.items)) }
{
    if let Some(heads) = &*shared {
        fill(own, heads)?;
    }
    *shared = None;
    Ok(())
}

// Whether the entry stands at the place.
fn is_head<const W: usize>(
    heads: &[(IndexKey<W>, u32)],
    place: usize,
    head: &(IndexKey<W>, u32),
) -> bool
    requires width { W ≤ 4090 }
    requires place { place < length heads.now }
    ensures { IsTrue result → slice_set heads.now place head.now ≡ heads.now }
{
    let old = &heads[place];
    old.1 == head.1 && old.0.is_same(&head.0)
}

impl<const W: usize> Heads<W> {
    // No heads. It takes no memory.
    pub(crate) fn new(alloc: Global) -> Heads<W>
        requires { W ≤ 4090 }
        ensures { result ≡ [] }
    {
        Heads {
            alloc,
            own: Vec::new(alloc),
            shared: None,
        }
    }

    // The heads.
    pub(crate) fn as_slice(&self) -> &[(IndexKey<W>, u32)]
        ensures { result.now ≡ self.now }
    {
        match &self.shared {
            Some(heads) => heads,
            None => &self.own,
        }
    }

    // The head at the place is now this one. Where it was, nothing is copied.
    pub(crate) fn set(&mut self, place: usize, head: (IndexKey<W>, u32)) -> Result<(), AllocError>
        requires { place < length self.old }
        ensures set { OnOk result (self.new ≡ slice_set self.old place head.entry) }
        ensures kept { OnErr result (self.new ≡ self.old) }
    {
        if is_head(self.as_slice(), place, &head) {
            return Ok(());
        }
        make_own(&mut self.own, &mut self.shared)?;
        self.own[place] = head;
        Ok(())
    }

    // The head comes to the place.
    pub(crate) fn insert(
        &mut self,
        place: usize,
        head: (IndexKey<W>, u32),
    ) -> Result<(), AllocError>
        requires { place ≤ length self.old }
        ensures inserted { OnOk result (self.new ≡ insert self.old place head.entry) }
        ensures kept { OnErr result (self.new ≡ self.old) }
    {
        make_own(&mut self.own, &mut self.shared)?;
        self.own.insert(place, head)?;
        Ok(())
    }

    // The head at the place goes.
    pub(crate) fn remove(&mut self, place: usize) -> Result<(), AllocError>
        requires { place < length self.old }
        ensures removed { OnOk result (self.new ≡ remove self.old place) }
        ensures kept { OnErr result (self.new ≡ self.old) }
    {
        make_own(&mut self.own, &mut self.shared)?;
        let _head = self.own.remove(place);
        Ok(())
    }

    // The head comes behind the others.
    pub(crate) fn push(&mut self, head: (IndexKey<W>, u32)) -> Result<(), AllocError>
        ensures pushed { OnOk result (self.new ≡ self.old ++ head.entry ∷ []) }
        ensures kept { OnErr result (self.new ≡ self.old) }
    {
        make_own(&mut self.own, &mut self.shared)?;
        self.own.push(head)?;
        Ok(())
    }

    // Copies share the heads from now on. They stay, also where there is no memory.
    pub(crate) fn share(&mut self) -> Result<(), AllocError>
        ensures { self.new ≡ self.old }
    {
        if self.shared.is_some() {
            return Ok(());
        }
        match Rc::new(
            self.alloc,
            mem::replace(&mut self.own, Vec::new(self.alloc)),
        ) {
            Ok(heads) => {
                self.shared = Some(heads);
                Ok(())
            }
            Err(failed) => {
                self.own = failed.value;
                Err(AllocError)
            }
        }
    }

    // Becomes the same heads as the other: shared ones are shared with it, and others are copied
    // into the memory that it has.
    pub(crate) fn copy_from(&mut self, other: &Heads<W>) -> Result<(), AllocError>
        ensures same { OnOk result (self.new ≡ other.now) }
        ensures kept { OnErr result (self.new ≡ self.old) }
    {
        if let Some(heads) = &other.shared {
            self.shared = Some(heads.clone()?);
            return Ok(());
        }
        fill(&mut self.own, &other.own)?;
        self.shared = None;
        Ok(())
    }
}
