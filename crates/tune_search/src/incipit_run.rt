// The incipits of all tunes by twelve notes.
ghost use Rattle.std.specs.Prelude.{◌++◌, ◌∷◌, [], ℕ, List, IfOk, OnOk};
ghost use Rattle.index_keys.specs.Holdings.{AreSmall};
ghost use Rattle.tune_search.specs.IncipitRuns.{AreIncipitsOf, GathersIncipits, NumbersRise};

use crate::runs::{add_entries, in_order};
use abc_fields::TuneText;
use index_keys::IndexKey;
use std::alloc::{AllocError, Global};
use std::marker::Model;
use tune_incipit::key_of_twelve_notes;

/// The entries of the incipits of tunes by twelve notes: what comes into the search indexes where
/// they come to keep incipits so.
#[derive(Drop)]
pub struct IncipitRun {
    pub(crate) entries: Vec<(IndexKey<48>, u32)>,
}

impl Model for IncipitRun {
    ghost use Rattle.std.specs.Prelude.{List};
    ghost use Rattle.index_keys.specs.Entries.{Entry};

    ghost Value = { List Entry };

    ghost view = { λ run. run.entries.items };
}

impl IncipitRun {
    /// No entry, and room for the incipits of so many tunes.
    ///
    /// # Errors
    ///
    /// There is no memory.
    pub fn with_capacity(alloc: Global, count: usize) -> Result<IncipitRun, AllocError>
        ensures { IfOk result (λ run. GathersIncipits [] run) }
    {
        Ok(IncipitRun {
            entries: Vec::with_capacity(alloc, count)?,
        })
    }

    /// Puts the incipit of one more tune, where it has one, behind those that are there.
    ///
    /// # Errors
    ///
    /// There is no memory.
    pub fn add(&mut self, number: u32, text: &TuneText) -> Result<(), AllocError>
        ensures { OnOk result ((tunes : List (ℕ × List ℕ)) → GathersIncipits tunes self.old
            → GathersIncipits (tunes ++ (number, text.now) ∷ []) self.new) }
    {
        add_entries(
            number,
            key_of_twelve_notes(text).as_slice(),
            &mut self.entries,
        )
    }

    /// The entries in order, for tunes that came by rising number.
    pub fn in_order(self) -> IncipitRun
        ensures { (tunes : List (ℕ × List ℕ)) → NumbersRise 0 tunes → AreSmall tunes
            → GathersIncipits tunes self → AreIncipitsOf tunes result }
    {
        IncipitRun {
            entries: in_order(self.entries),
        }
    }
}
