// Set lists, and the calls on them.
ghost use Rattle.std.specs.Prelude.{◌≡◌, [], OnErr, IfOk, IfErr, IfNone, IfSome, None, Some};
ghost use Rattle.std.specs.Prelude.{Ok, Err};
ghost use Rattle.tune_sets.specs.Sets.{AreSetLists, holder, renumbered_sets};
ghost use Rattle.tune_sets.specs.Calls.{StaysOrGives, create_set, add_number, cut_place};
ghost use Rattle.tune_sets.specs.Calls.{drop_set, places_of, set_rows_of};

use crate::copies::copy_sets;
use crate::faults::SetFault;
use crate::look_ups::{holder, index_of};
use crate::names::SetName;
use crate::number_list::NumberList;
use crate::set_changes::{add_number, create_set, cut_place, drop_set, renumber_sets};
use crate::set_rows::{SetRowList, push_rows};
use std::alloc::{AllocError, Global};
use std::marker::Model;

/// How many sets there are at most (this archive's profile).
pub const MOST_SETS: usize = 500;

/// How many places a set has at most (this archive's profile).
pub const MOST_PLACES: usize = 200;

/// A named list of numbers of tunes, in which a number may stand more than once.
#[derive(Debug, Drop)]
pub struct TuneSet {
    /// Its name.
    pub name: SetName,
    /// The numbers at its places, which count from 1.
    pub numbers: NumberList,
}

/// Sets by rising name, in the order of bytes. A clause sees the list.
#[derive(Drop)]
pub struct SetLists {
    pub(crate) alloc: Global,
    pub(crate) sets: Vec<TuneSet>,
}

impl Model for SetLists {
    ghost use Rattle.std.specs.Prelude.{List};
    ghost use Rattle.tune_sets.specs.declared.set_lists.TuneSet.{TuneSet};
    ghost use Rattle.tune_sets.specs.Sets.{AreSetLists};

    ghost Value = { List TuneSet };

    ghost view = { λ lists. lists.sets.items };

    ghost invariant = { λ lists. AreSetLists lists.sets.items };
}

impl SetLists {
    /// No set. It takes no memory, and keeps the allocator for its sets.
    pub fn new(alloc: Global) -> SetLists
        ensures { result ≡ [] }
    {
        SetLists {
            alloc,
            sets: Vec::new(alloc),
        }
    }

    /// The sets, by name.
    pub fn as_slice(&self) -> &[TuneSet]
        ensures value { result.now ≡ self.now }
        ensures limits { AreSetLists self.now }
    {
        self.sets.as_slice()
    }

    /// Adds a set without a place.
    ///
    /// # Errors
    ///
    /// In this order: `BadName`; `SetTaken`, where a set has the name; `SetsFull`, where there are
    /// `MOST_SETS` sets; `OutOfMemory`. The sets are then as they were.
    pub fn create(&mut self, name: &[u8]) -> Result<(), SetFault>
        ensures gives { StaysOrGives self.old self.new result (create_set name.now self.old) }
        ensures err { OnErr result (self.new ≡ self.old) }
    {
        create_set(self.alloc, &mut self.sets, name)
    }

    /// Puts a number at the end of a set, and gives its place, which counts from 1. A number may
    /// stand more than once.
    ///
    /// # Errors
    ///
    /// In this order: `NoSuchSet`; `SetFull`, where the set has `MOST_PLACES` places;
    /// `OutOfMemory`. The sets are then as they were.
    pub fn add(&mut self, name: &[u8], number: u32) -> Result<usize, SetFault>
        ensures gives { StaysOrGives self.old self.new result
            (add_number name.now number self.old) }
        ensures err { OnErr result (self.new ≡ self.old) }
    {
        add_number(&mut self.sets, name, number)
    }

    /// Takes a place out of a set; the places count from 1. It takes no memory.
    ///
    /// # Errors
    ///
    /// In this order: `NoSuchSet`; `NoSuchPlace`, for 0 or a place past the end. The sets are then
    /// as they were.
    pub fn cut(&mut self, name: &[u8], place: usize) -> Result<(), SetFault>
        ensures gives { cut_place name.now place self.old ≡ (self.new, result) }
        ensures err { OnErr result (self.new ≡ self.old) }
    {
        cut_place(&mut self.sets, name, place)
    }

    /// Takes a set out. It takes no memory.
    ///
    /// # Errors
    ///
    /// `NoSuchSet`. The sets are then as they were.
    pub fn drop_set(&mut self, name: &[u8]) -> Result<(), SetFault>
        ensures gives { drop_set name.now self.old ≡ (self.new, result) }
        ensures err { OnErr result (self.new ≡ self.old) }
    {
        drop_set(&mut self.sets, name)
    }

    /// Puts a number in the place of another one, at each place of each set. It takes no memory.
    pub fn renumbered(&mut self, from: u32, to: u32)
        ensures sets { self.new ≡ renumbered_sets from to self.old }
        // Where no set holds the number, all stay as they are.
        ensures unheld { holder from self.old ≡ None → self.new ≡ self.old }
    {
        renumber_sets(&mut self.sets, from, to);
    }

    /// The least name of a set that holds the number. It takes no memory.
    pub fn holds(&self, number: u32) -> Option<SetName>
        ensures { result ≡ holder number self.now }
    {
        holder(&self.sets, number)
    }

    /// The numbers at the places of a set, from the first one on. It takes no memory.
    ///
    /// # Errors
    ///
    /// `NoSuchSet`.
    pub fn places(&self, name: &[u8]) -> Result<&[u32], SetFault>
        ensures ok { IfOk result (λ numbers. places_of name.now self.now ≡ Ok numbers.now) }
        ensures err { IfErr result (λ fault. places_of name.now self.now ≡ Err fault) }
    {
        match index_of(&self.sets, name) {
            Ok(index) => Ok(self.sets[index].numbers.as_slice()),
            Err(_) => Err(SetFault::NoSuchSet),
        }
    }

    /// A row for each set, by name: its name, and how many places it has. The error is out of
    /// memory.
    pub fn rows(&self) -> Result<SetRowList, AllocError>
        ensures { IfOk result (λ rows. rows ≡ set_rows_of self.now) }
    {
        let mut rows = Vec::with_capacity(self.alloc, self.sets.len())?;
        push_rows(&mut rows, &self.sets)?;
        Ok(SetRowList::from_vec(rows))
    }

    /// A copy of the sets. The error is out of memory.
    pub fn copy(&self) -> Result<SetLists, AllocError>
        ensures { IfOk result (λ lists. lists ≡ self.now) }
    {
        Ok(SetLists {
            alloc: self.alloc,
            sets: copy_sets(self.alloc, &self.sets)?,
        })
    }
}
