// The entries of texts, in order, before any page is touched.
ghost use Rattle.std.specs.Prelude.{◌≡◌, ◌<◌, ◌≤◌, ◌+◌, ◌++◌, ◌^◌, length, All, IfErr, IfOk};
ghost use Rattle.std.specs.Prelude.{OnOk, IsTrue};
ghost use Rattle.std.specs.List.Sorted.{IsNonDecreasingBy, IsPermutation};
ghost use Rattle.std.specs.List.Sorted.{IsSortedByKey, IsStableByKey};
ghost use Rattle.std.specs.Ordering.{nat_cmp};
ghost use Rattle.index_keys.specs.Entries.{AllFit, FitsLeaf, rank};
ghost use Rattle.tune_search.specs.IncipitForms.{note_count};
ghost use Rattle.tune_search.specs.Inside.TextEntries.{entries_at_keys};
ghost use Rattle.tune_search.specs.Searches.{AreRunsOf, texts_numbered};

use crate::incipit_entries::{IncipitEntries, IncipitNotes};
use abc_fields::{TuneText, fields};
use index_keys::IndexKey;
use std::alloc::{AllocError, Global};
use std::cmp::Ordering;
use std::marker::Model;
use tune_incipit::key_of_scale;
use tune_titles::{key_of_rhythm, row_of_title_keys};

/// The entries of some texts in each of the search indexes, in order: what goes into these indexes
/// or out of them.
#[derive(Drop)]
pub struct Runs {
    pub(crate) titles: Vec<(IndexKey<32>, u32)>,
    pub(crate) rhythms: Vec<(IndexKey<32>, u32)>,
    pub(crate) scales: Vec<(IndexKey<32>, u32)>,
    pub(crate) incipits: IncipitEntries,
}

impl Model for Runs {
    ghost use Rattle.tune_search.specs.IncipitForms.{entries_of_incipits, notes_of_entries};
    ghost use Rattle.tune_search.specs.Searches.{SearchRuns};

    ghost Value = { SearchRuns };

    ghost view = { λ runs. record {
      notes = notes_of_entries runs.incipits;
      titles = runs.titles.items;
      rhythms = runs.rhythms.items;
      scales = runs.scales.items;
      incipits = entries_of_incipits runs.incipits;
    } };
}

impl Runs {
    /// The entries of these texts, whose numbers are `first` and those after it, and those of
    /// incipits by so many notes.
    ///
    /// # Errors
    ///
    /// There is no memory.
    pub fn new(
        alloc: Global,
        notes: IncipitNotes,
        first: u32,
        texts: &[TuneText],
    ) -> Result<Runs, AllocError>
        requires { first + length texts.now ≤ 2 ^ 32 }
        ensures notes { IfOk result (λ runs. runs.notes ≡ note_count notes) }
        ensures runs { IfOk result (λ runs. AreRunsOf (texts_numbered first texts.now) runs) }
    {
        // Most tunes have a title or two.
        let mut titles = Vec::with_capacity(alloc, texts.len().saturating_mul(2))?;
        let mut rhythms = Vec::with_capacity(alloc, texts.len())?;
        let mut scales = Vec::with_capacity(alloc, texts.len())?;
        let mut incipits = IncipitEntries::with_capacity(alloc, notes, texts.len())?;
        for (place, text) in texts.iter().enumerate() {
            let fields = fields(text);
            let number = first + place as u32;
            add_entries(
                number,
                row_of_title_keys(&fields.titles).as_slice(),
                &mut titles,
            )?;
            add_entries(
                number,
                key_of_rhythm(fields.rhythm).as_slice(),
                &mut rhythms,
            )?;
            add_entries(number, key_of_scale(fields.key).as_slice(), &mut scales)?;
            incipits.add_text(number, text)?;
        }
        Ok(Runs {
            titles: in_order(titles),
            rhythms: in_order(rhythms),
            scales: in_order(scales),
            incipits: incipits.in_order(),
        })
    }
}

// The entries of a number at these keys, behind those that are there.
pub(crate) fn add_entries<const W: usize>(
    number: u32,
    keys: &[IndexKey<W>],
    run: &mut Vec<(IndexKey<W>, u32)>,
) -> Result<(), AllocError>
    ensures added { OnOk result
        (run.new.items ≡ run.old.items ++ entries_at_keys number keys.now) }
    ensures fit { AllFit W run.old.items → OnOk result (AllFit W run.new.items) }
{
    for key in keys {
        run.push(entry_at(key, number))?;
    }
    Ok(())
}

// The entry of a number at a key.
fn entry_at<const W: usize>(key: &IndexKey<W>, number: u32) -> (IndexKey<W>, u32)
    ensures entry { result ≡ (key.now, number) }
    ensures fits { FitsLeaf W result }
{
    // For the proof.
    let _bytes = key.bytes();
    (*key, number)
}

// The entries in order.
pub(crate) fn in_order<const W: usize>(run: Vec<(IndexKey<W>, u32)>) -> Vec<(IndexKey<W>, u32)>
    ensures same { IsPermutation run.entry.items result.items }
    ensures sorted { IsNonDecreasingBy rank result.items }
{
    if is_by_number(&run) {
        in_key_order(run)
    } else {
        in_any_order(run)
    }
}

// Entries that come by number, as those of texts do, in order. It is enough to sort them by their
// keys and to keep the order of equal ones: many tunes share a rhythm or a scale.
fn in_key_order<const W: usize>(run: Vec<(IndexKey<W>, u32)>) -> Vec<(IndexKey<W>, u32)>
    requires by_number { IsNonDecreasingBy (λ e. e.1) run.items }
    requires small { All (λ e. e.1 < 2 ^ 32) run.items }
    ensures same { IsPermutation run.entry.items result.items }
    ensures sorted { IsNonDecreasingBy rank result.items }
{
    let mut run = run;
    match sort_by_keys(&mut run) {
        Ok(()) => run,
        Err(_) => in_any_order(run),
    }
}

// Entries in order, with no memory but theirs.
fn in_any_order<const W: usize>(run: Vec<(IndexKey<W>, u32)>) -> Vec<(IndexKey<W>, u32)>
    ensures same { IsPermutation run.entry.items result.items }
    ensures sorted { IsNonDecreasingBy rank result.items }
{
    let mut run = run;
    run.sort_unstable_by(
        |one, other|
            ensures { result ≡ nat_cmp (rank one.now) (rank other.now) }
        { order_of(one, other) },
    );
    run
}

// Whether the numbers of entries do not fall.
fn is_by_number<const W: usize>(run: &[(IndexKey<W>, u32)]) -> bool
    ensures by_number { IsTrue result → IsNonDecreasingBy (λ e. e.1) run.now }
    ensures small { IsTrue result → All (λ e. e.1 < 2 ^ 32) run.now }
{
    let mut last = 0;
    for place in 0..run.len() {
        let number = run[place].1;
        if number < last {
            return false;
        }
        last = number;
    }
    true
}

// Sorts entries by their keys, equal ones in the order that they have.
fn sort_by_keys<const W: usize>(run: &mut Vec<(IndexKey<W>, u32)>) -> Result<(), AllocError>
    ensures same { IsPermutation run.old.items run.new.items }
    ensures sorted { OnOk result (IsSortedByKey (λ e. e.0) nat_cmp run.new.items) }
    ensures stable { IsStableByKey (λ e. e.0) nat_cmp run.old.items run.new.items }
    ensures err { IfErr result (λ _. run.new.items ≡ run.old.items) }
{
    run.sort_by(
        |one, other|
            ensures { result ≡ nat_cmp one.now.0 other.now.0 }
        { key_order(one, other) },
    )
}

// Which of the keys of two entries comes first.
fn key_order<const W: usize>(one: &(IndexKey<W>, u32), other: &(IndexKey<W>, u32)) -> Ordering
    ensures { result ≡ nat_cmp one.now.0 other.now.0 }
{
    one.0.compare(0, &other.0, 0)
}

// Which of two entries comes first.
fn order_of<const W: usize>(one: &(IndexKey<W>, u32), other: &(IndexKey<W>, u32)) -> Ordering
    ensures { result ≡ nat_cmp (rank one.now) (rank other.now) }
{
    one.0.compare(one.1, &other.0, other.1)
}
