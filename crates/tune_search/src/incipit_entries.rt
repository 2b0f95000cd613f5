// Entries of incipits, by eight notes or by twelve.
ghost use Rattle.std.specs.Prelude.{◌≡◌, ◌++◌, length, IfOk, OnOk};
ghost use Rattle.std.specs.List.Sorted.{IsNonDecreasingBy, IsPermutation};
ghost use Rattle.index_keys.specs.Entries.{AllFit, rank};
ghost use Rattle.tune_incipit.specs.ScaleAndIncipitKeys.{incipit_keys};
ghost use Rattle.tune_search.specs.IncipitForms.{entries_of_incipits, note_count, notes_of_entries};
ghost use Rattle.tune_search.specs.Inside.TextEntries.{entries_at_keys};
ghost use Rattle.tune_search.specs.Searches.{incipit_bytes};

use crate::runs::{add_entries, in_order};
use abc_fields::TuneText;
use index_keys::IndexKey;
use std::alloc::{AllocError, Global};
use tune_incipit::{key_of_incipit, key_of_twelve_notes};

/// By how many notes incipits are kept.
#[derive(Clone, Copy, Debug, PartialEq, Eq)]
pub enum IncipitNotes {
    Eight,
    Twelve,
}

impl IncipitNotes {
    /// How many notes these are.
    pub fn notes(self) -> usize
        ensures { result ≡ note_count self }
    {
        match self {
            IncipitNotes::Eight => 8,
            IncipitNotes::Twelve => 12,
        }
    }
}

/// Entries of incipits: their keys, of four bytes for each note, with the numbers of tunes.
#[derive(Drop)]
pub enum IncipitEntries {
    Eight(Vec<(IndexKey<32>, u32)>),
    Twelve(Vec<(IndexKey<48>, u32)>),
}

impl IncipitEntries {
    // No entry, and room for so many.
    pub(crate) fn with_capacity(
        alloc: Global,
        notes: IncipitNotes,
        count: usize,
    ) -> Result<IncipitEntries, AllocError>
        ensures notes { IfOk result (λ entries. notes_of_entries entries ≡ note_count notes) }
        ensures none { IfOk result (λ entries. length (entries_of_incipits entries) ≡ 0) }
    {
        match notes {
            IncipitNotes::Eight => Ok(IncipitEntries::Eight(Vec::with_capacity(alloc, count)?)),
            IncipitNotes::Twelve => Ok(IncipitEntries::Twelve(Vec::with_capacity(alloc, count)?)),
        }
    }

    // Puts the entry of a text, where it has one, behind those that are there.
    pub(crate) fn add_text(&mut self, number: u32, text: &TuneText) -> Result<(), AllocError>
        ensures notes { OnOk result (notes_of_entries self.new ≡ notes_of_entries self.old) }
        ensures added { OnOk result (entries_of_incipits self.new ≡ entries_of_incipits self.old
            ++ entries_at_keys number (incipit_keys (notes_of_entries self.old) text.now)) }
        ensures fit { AllFit (incipit_bytes (notes_of_entries self.old))
            (entries_of_incipits self.old)
            → OnOk result (AllFit (incipit_bytes (notes_of_entries self.old))
            (entries_of_incipits self.new)) }
    {
        match self {
            IncipitEntries::Eight(entries) => {
                add_entries(number, key_of_incipit(text).as_slice(), entries)
            }
            IncipitEntries::Twelve(entries) => {
                add_entries(number, key_of_twelve_notes(text).as_slice(), entries)
            }
        }
    }

    // The entries in order.
    pub(crate) fn in_order(self) -> IncipitEntries
        ensures notes { notes_of_entries result ≡ notes_of_entries self }
        ensures same { IsPermutation (entries_of_incipits self) (entries_of_incipits result) }
        ensures sorted { IsNonDecreasingBy rank (entries_of_incipits result) }
    {
        match self {
            IncipitEntries::Eight(entries) => IncipitEntries::Eight(in_order(entries)),
            IncipitEntries::Twelve(entries) => IncipitEntries::Twelve(in_order(entries)),
        }
    }
}
