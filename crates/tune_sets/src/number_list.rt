// The numbers at the places of a set.
ghost use Rattle.std.specs.Prelude.{◌≡◌, ◌-◌, ◌<◌, ◌≤◌, ◌^◌, ℕ, List, [], ◌∷◌, ◌++◌, length, map};
ghost use Rattle.std.specs.Prelude.{true, OnOk, OnErr, IfOk};
ghost use Rattle.std.specs.List.{remove};
ghost use Rattle.tune_sets.specs.Numbers.{renumbered, renumbered_all, is_among, has_place};

use std::alloc::{AllocError, Global};
use std::marker::Model;

/// The numbers of tunes at the places of a set, in order. A clause sees the list.
#[derive(Debug, Drop)]
pub struct NumberList {
    numbers: Vec<u32>,
}

impl Model for NumberList {
    ghost Value = { List ℕ };

    ghost view = { λ list. list.numbers.items };
}

impl NumberList {
    /// No number. It takes no memory, and keeps the allocator for its numbers.
    pub fn new(alloc: Global) -> NumberList
        ensures { result ≡ [] }
    {
        NumberList {
            numbers: Vec::new(alloc),
        }
    }

    /// The numbers of a vector. It takes no memory.
    pub fn from_vec(numbers: Vec<u32>) -> NumberList
        ensures { result ≡ numbers.items }
    {
        NumberList { numbers }
    }

    /// The numbers, from the first place on.
    pub fn as_slice(&self) -> &[u32]
        ensures { result.now ≡ self.now }
    {
        self.numbers.as_slice()
    }

    /// How many places there are.
    pub fn len(&self) -> usize
        ensures { result ≡ length self.now }
    {
        self.numbers.len()
    }

    // A number more at the end. After an error the list is as it was.
    pub(crate) fn push(&mut self, number: u32) -> Result<(), AllocError>
        ensures ok { OnOk result (self.new ≡ self.old ++ number ∷ []) }
        ensures err { OnErr result (self.new ≡ self.old) }
    {
        self.numbers.push(number)?;
        Ok(())
    }

    // Whether there is this place, which counts from 1.
    pub(crate) fn has_place(&self, place: usize) -> bool
        ensures { result ≡ has_place place self.now }
    {
        place > 0 && place <= self.len()
    }

    // Takes out the number at a place, which counts from 1.
    pub(crate) fn remove_place(&mut self, place: usize)
        requires { has_place place self.old ≡ true }
        ensures { self.new ≡ remove self.old (place - 1) }
    {
        self.numbers.remove(place - 1);
    }

    // Puts a number in the place of another one, wherever that stands.
    pub(crate) fn renumber(&mut self, from: u32, to: u32)
        ensures { self.new ≡ renumbered_all from to self.old }
    {
        renumber_all(&mut self.numbers, from, to);
    }

    // Whether the number is among these.
    pub(crate) fn holds(&self, number: u32) -> bool
        ensures { result ≡ is_among number self.now }
    {
        self.as_slice().iter().any(|n| *n == number)
    }

    // A copy of the numbers. Its only error is out of memory.
    pub(crate) fn copy(&self, alloc: Global) -> Result<NumberList, AllocError>
        ensures { IfOk result (λ list. list ≡ self.now) }
    {
        Ok(NumberList::from_vec(Vec::from_slice(alloc, self.as_slice())?))
    }
}

fn renumber_all(numbers: &mut [u32], from: u32, to: u32)
    ensures { numbers.new ≡ renumbered_all from to numbers.old }
{
    for i in 0..numbers.len() {
        numbers[i] = renumbered(numbers[i], from, to);
    }
}

fn renumbered(number: u32, from: u32, to: u32) -> u32
    ensures { result ≡ renumbered from to number }
{
    if number == from { to } else { number }
}
