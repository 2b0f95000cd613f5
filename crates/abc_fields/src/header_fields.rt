// What a tune's header says, as parts of its text.
ghost use Rattle.std.specs.Prelude.{◌≡◌, ℕ, ◌≤◌, ◌↔◌, List, [], ◌∷◌, ◌++◌, length, take, map};
ghost use Rattle.std.specs.Prelude.{codes, slice_get, option_copied, IsTrue, true, false};
ghost use Rattle.std.specs.Option.{option_or};
ghost use Rattle.abc_fields.specs.Fields.{non_empty, non_empty_values};
ghost use Rattle.abc_fields.specs.Values.{has_percent};
ghost use Rattle.abc_fields.specs.Inside.ToldLines.{is_told};
ghost use Rattle.abc_fields.specs.Limits.{most_titles};

use crate::values::value_of;
use arrayvec::ArrayVec;
use std::marker::Model;

/// How many titles of a tune count (this archive's profile).
pub const MOST_TITLES: usize = 8;

/// The titles of a tune, in the order of its header, as parts of its text. A clause sees the list
/// of the bytes of each.
#[derive(Debug, Drop)]
pub struct Titles<'a> {
    list: ArrayVec<&'a [u8], MOST_TITLES>,
}

impl<'a> Model for Titles<'a> {
    ghost Value = { List (List ℕ) };

    ghost view = { λ titles. map (λ title. title.now) titles.list.items };
}

impl<'a> Titles<'a> {
    fn new() -> Titles<'a>
        ensures { result ≡ [] }
    {
        Titles {
            list: ArrayVec::new(),
        }
    }

    /// The titles, from the first on.
    pub fn as_slice(&self) -> &[&'a [u8]]
        ensures { map (λ title. title.now) result.now ≡ self.now }
    {
        self.list.as_slice()
    }

    /// How many titles there are.
    pub fn len(&self) -> usize
        ensures value { result ≡ length self.now }
        ensures fits { result ≤ most_titles }
    {
        self.list.len()
    }

    /// Whether there is none.
    pub fn is_empty(&self) -> bool
        ensures { IsTrue result ↔ self.now ≡ [] }
    {
        self.list.is_empty()
    }

    /// The first title, if there is one.
    pub fn first(&self) -> Option<&'a [u8]>
        ensures { option_copied result ≡ slice_get self.now 0 }
    {
        self.as_slice().first().copied()
    }

    fn clear(&mut self)
        ensures { self.new ≡ [] }
    {
        self.list.clear();
    }

    // Takes the value of the next title line: it counts unless it is empty or there are enough.
    fn take_value(&mut self, value: &'a [u8])
        ensures { self.new ≡ take most_titles (self.old ++ non_empty (value.now ∷ [])) }
    {
        if !self.list.is_full() && !value.is_empty() {
            self.list.push(value);
        }
    }
}

/// What the header of a tune says (ABC 2.1, 3.1), as parts of the tune's text.
#[derive(Debug, Drop)]
pub struct Fields<'a> {
    /// The first values of `T:` fields that are not empty, eight at most (ABC 2.1, 3.1.2; this
    /// archive's profile).
    pub titles: Titles<'a>,
    /// The first value of an `R:` field that is not empty.
    pub rhythm: Option<&'a [u8]>,
    /// The value of the first `K:` field, which ends the header (ABC 2.1, 3.1.14). It may be empty.
    pub key: &'a [u8],
}

impl<'a> Fields<'a> {
    /// Fields that say nothing: no title, no rhythm and an empty key.
    #[inline(always)]
    pub fn new() -> Fields<'a>
        ensures titles { result.titles ≡ [] }
        ensures rhythm { option_copied result.rhythm ≡ None }
        ensures key { result.key.now ≡ [] }
    {
        Fields {
            titles: Titles::new(),
            rhythm: None,
            key: b"",
        }
    }

    // They say nothing then.
    #[inline(always)]
    pub(crate) fn clear(&mut self)
        ensures titles { self.new.titles ≡ [] }
        ensures rhythm { option_copied self.new.rhythm ≡ None }
        ensures key { self.new.key.now ≡ [] }
    {
        self.titles.clear();
        self.rhythm = None;
        self.key = b"";
    }

    // Takes the next line of the header, which does not give the key; `plain` says that no percent
    // sign stands in it.
    pub(crate) fn take_line(&mut self, line: &'a [u8], plain: bool)
        requires few { length self.old.titles ≤ most_titles }
        requires plain { IsTrue plain → has_percent line.now ≡ false }
        ensures titles { self.new.titles
            ≡ take most_titles (self.old.titles ++ non_empty_values (codes "T:") (line.now ∷ [])) }
        ensures rhythm { option_copied self.new.rhythm
            ≡ option_or (option_copied self.old.rhythm)
            (slice_get (non_empty_values (codes "R:") (line.now ∷ [])) 0) }
        ensures key { self.new.key ≡ self.old.key }
    {
        if line.starts_with(b"T:") {
            self.titles.take_value(value_of(line, plain));
        } else if line.starts_with(b"R:") && self.rhythm.is_none() {
            self.rhythm = unless_empty(value_of(line, plain));
        }
    }

    // The same of a line that is known to give a title or the rhythm.
    #[inline(always)]
    pub(crate) fn take_told(&mut self, line: &'a [u8], plain: bool)
        requires told { is_told line.now ≡ true }
        requires few { length self.old.titles ≤ most_titles }
        requires plain { IsTrue plain → has_percent line.now ≡ false }
        ensures titles { self.new.titles
            ≡ take most_titles (self.old.titles ++ non_empty_values (codes "T:") (line.now ∷ [])) }
        ensures rhythm { option_copied self.new.rhythm
            ≡ option_or (option_copied self.old.rhythm)
            (slice_get (non_empty_values (codes "R:") (line.now ∷ [])) 0) }
        ensures key { self.new.key ≡ self.old.key }
    {
        if line[0] == b'T' {
            self.titles.take_value(value_of(line, plain));
        } else if self.rhythm.is_none() {
            self.rhythm = unless_empty(value_of(line, plain));
        }
    }
}

// The value, unless it is empty.
fn unless_empty(value: &[u8]) -> Option<&[u8]>
    ensures { option_copied result ≡ slice_get (non_empty (value.now ∷ [])) 0 }
{
    if value.is_empty() { None } else { Some(value) }
}
