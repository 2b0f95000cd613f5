// The index of numbers, changed with the rows.
ghost use Rattle.std.specs.Prelude.{◌≡◌, ◌+◌, ◌*◌, true};
ghost use Rattle.std.specs.Prelude.{length, List, IfOk, OnOk};
ghost use Rattle.tune_pages.specs.Faults.{pages_for};
ghost use Rattle.tune_pages.specs.FreePages.{TakesAtMost};
ghost use Rattle.tune_pages.specs.Kept.{HonestAt};
ghost use Rattle.index_keys.specs.Entries.{AllFit, Entry, FitsLeaf, IsRising, inserted_all};
ghost use Rattle.index_keys.specs.Entries.{removed_all};
ghost use Rattle.tune_index.specs.ListedLeaves.{index_with};
ghost use Rattle.tune_pages.specs.Editing.{Edits};
ghost use Rattle.tune_parts.specs.Parts.{Part};
ghost use Rattle.tune_search.specs.IndexParts.{HoldsIndexAmong, HoldsSomeIndex, IndexParts};
ghost use Rattle.tune_search.specs.IndexParts.{LaysIndex};
ghost use Rattle.tune_search.specs.Searches.{key_bytes};
ghost use Rattle.tune_format.specs.RootOffsets.{number_bytes};
ghost use Rattle.tune_format.specs.Written.{number_entries, number_key};
ghost use Rattle.tune_contents.specs.Claimed.{RowsRise};
ghost use Rattle.tune_contents.specs.Inside.ChangedRows.{IsMadeOf, PutsRuns};
ghost use Rattle.tune_contents.specs.Next.{rows_after};

use crate::next::RowChange;
use std::alloc::{AllocError, Global};
use std::slice;
use tiered_vector::TieredVector;
use tune_disk::Disk;
use tune_format::{Row, key_of_number};
use tune_index::{Index, IndexKey};
use tune_pages::{Edit, Fault};
use tune_search::{put_run, store_list, take_run};

// What goes out of the index of numbers with a change, and what comes in, in order.
#[derive(Drop)]
pub(crate) struct NumberRuns {
    gone: Vec<(IndexKey<32>, u32)>,
    come: Vec<(IndexKey<32>, u32)>,
}

// The entry of a number whose chain begins at that page.
fn number_entry(number: u32, first: u32) -> (IndexKey<32>, u32)
    ensures entry { result ≡ (number_key number, first) }
    ensures fits { FitsLeaf key_bytes result }
{
    (key_of_number(number), first)
}

// The entries of rows.
fn entries_of(alloc: Global, rows: &[Row]) -> Result<Vec<(IndexKey<32>, u32)>, AllocError>
    ensures entries { IfOk result (λ run. run.items ≡ number_entries rows.now) }
    ensures fit { IfOk result (λ run. AllFit key_bytes run.items) }
{
    let mut run = Vec::with_capacity(alloc, rows.len())?;
    for row in rows {
        run.push(number_entry(row.number, row.first))?;
    }
    Ok(run)
}

// The entries of rows that go, and of rows that come.
fn runs_of(alloc: Global, gone: &[Row], come: &[Row]) -> Result<NumberRuns, AllocError>
    ensures gone { IfOk result (λ runs. runs.gone.items ≡ number_entries gone.now) }
    ensures come { IfOk result (λ runs. runs.come.items ≡ number_entries come.now) }
    ensures fit { IfOk result (λ runs. AllFit key_bytes runs.come.items) }
{
    Ok(NumberRuns {
        gone: entries_of(alloc, gone)?,
        come: entries_of(alloc, come)?,
    })
}

// Those of a row with another in its place; none where both have the same entry.
fn put_runs(alloc: Global, was: &Row, is: &Row) -> Result<NumberRuns, AllocError>
    ensures runs { IfOk result (λ runs. PutsRuns was.now is.now runs.gone.items runs.come.items) }
    ensures fit { IfOk result (λ runs. AllFit key_bytes runs.come.items) }
{
    if was.number == is.number && was.first == is.first {
        return runs_of(alloc, &[], &[]);
    }
    runs_of(alloc, slice::from_ref(was), slice::from_ref(is))
}

// The entries of rows before a change and after it.
pub(crate) fn number_runs(
    alloc: Global,
    was: &TieredVector<Row>,
    made: &RowChange,
) -> Result<NumberRuns, AllocError>
    requires { IsMadeOf made.now was.now.items }
    ensures rising { IfOk result (λ runs. IsRising runs.come.items) }
    ensures entries { IfOk result (λ runs. RowsRise 0 was.now.items
        → RowsRise 0 (rows_after made.now was.now.items)
        → AllFit key_bytes (number_entries was.now.items)
        → inserted_all runs.come.items (removed_all runs.gone.items (number_entries was.now.items))
        ≡ number_entries (rows_after made.now was.now.items)) }
{
    match made {
        RowChange::Stay => runs_of(alloc, &[], &[]),
        RowChange::Add(more) => runs_of(alloc, &[], more),
        RowChange::Put { place, row } => put_runs(alloc, &was.at(*place), row),
        RowChange::Take { place } => runs_of(alloc, slice::from_ref(&was.at(*place)), &[]),
        RowChange::Move { place, row, .. } => {
            runs_of(
                alloc,
                slice::from_ref(&was.at(*place)),
                slice::from_ref(row),
            )
        }
        RowChange::Whole(all) => runs_of(alloc, &[], &all[was.len()..]),
    }
}

// Takes entries out of the index of numbers and puts others in, stores its list, and gives where
// that begins.
pub(crate) fn change_numbers<D: Disk>(
    edit: &mut Edit<D>,
    numbers: &mut Index<32>,
    runs: &NumberRuns,
) -> Result<u32, Fault>
    requires index { HonestAt D.honest edit.old.base.disk
        → HoldsSomeIndex key_bytes edit.old.next numbers.old }
    requires rising { IsRising runs.now.come.items }
    ensures lays { OnOk result (HonestAt D.honest edit.new.base.disk
        → LaysIndex key_bytes edit.old.next edit.new.next numbers.old numbers.new (λ entries.
        inserted_all runs.now.come.items (removed_all runs.now.gone.items entries))) }
    ensures list { IfOk result (λ first. (numbers.new.first ≡ first)
        × (numbers.new.listed ≡ true)) }
    ensures takes { HonestAt D.honest edit.new.base.disk
        → (before after : List Part) (parts : IndexParts) (entries : List Entry) → HoldsIndexAmong
        key_bytes edit.old.next (index_with numbers.old entries) before after parts → let count
        = length (inserted_all runs.now.come.items (removed_all runs.now.gone.items entries)) in
        TakesAtMost (count + pages_for (number_bytes * count)) result edit.old.next edit.new.next }
    ensures edits { Edits D.Disk result (Unit {0}) edit.old edit.new }
{
    take_run(edit, numbers, &runs.gone)?;
    put_run(edit, numbers, &runs.come)?;
    store_list(edit, numbers)
}
