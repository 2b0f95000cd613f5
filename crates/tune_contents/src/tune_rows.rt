// Rows of tunes, found by number, and one under another number.
ghost use Rattle.std.specs.Prelude.{◌≡◌, ◌≢◌, ◌↔◌, ◌<◌, ◌≤◌, ℕ, length, slice_index_or};
ghost use Rattle.std.specs.Prelude.{IfSome, IfNone, IsTrue, false};
ghost use Rattle.std.specs.List.{Contains, remove};
ghost use Rattle.tune_store.specs.Limits.{greatest_number};
ghost use Rattle.tune_format.specs.declared.rows.Row.{Row};
ghost use Rattle.tune_store.specs.declared.layout.Layout.{Layout};
ghost use Rattle.tune_contents.specs.Inside.TuneRows.{IsRowAfter, MovesTunes, numbers_of_rows};
ghost use Rattle.tune_contents.specs.Inside.ChangedRows.{IsSingle};
ghost use Rattle.tune_contents.specs.Claimed.{AreRows, RowsRise};
ghost use Rattle.tune_contents.specs.Next.{rows_after};

use crate::next::RowChange;
use tiered_vector::TieredVector;
use tune_format::Row;
use tune_store::{GREATEST_NUMBER, Layout};

// Whether these are rows by rising number, within the limits.
pub(crate) fn are_rows(layout: Layout, rows: &TieredVector<Row>) -> bool
    ensures { IsTrue result ↔ AreRows layout rows.now.items }
{
    let mut low = 0;
    for place in 0..rows.len() {
        let row = rows.at(place);
        if row.number <= low || row.number > GREATEST_NUMBER {
            return false;
        }
        low = row.number;
    }
    rows.len() <= layout.most_tunes()
}

// The place of the first row whose number is not below this one, or behind the last.
fn place_from(rows: &TieredVector<Row>, number: u32) -> usize
    ensures within { result ≤ length rows.now.items }
    ensures before { RowsRise 0 rows.now.items → (place : ℕ) (d : Row) → place < result
        → (slice_index_or rows.now.items place d).number < number }
    ensures after { RowsRise 0 rows.now.items → (place : ℕ) (d : Row) → result ≤ place
        → place < length rows.now.items
        → number ≤ (slice_index_or rows.now.items place d).number }
{
    let mut first = 0;
    let mut last = rows.len();
    while first < last {
        let middle = first + (last - first) / 2;
        if rows.at(middle).number < number {
            first = middle + 1;
        } else {
            last = middle;
        }
    }
    first
}

// Whether the row of a number is at a place.
fn is_at(rows: &TieredVector<Row>, place: usize, number: u32) -> bool
    ensures within { IsTrue result → (place < length rows.now.items) }
    ensures named { IsTrue result → (d : Row)
        → (slice_index_or rows.now.items place d).number ≡ number }
    ensures other { result ≡ false → place < length rows.now.items → (d : Row)
        → (slice_index_or rows.now.items place d).number ≢ number }
{
    place < rows.len() && rows.at(place).number == number
}

/// The place of the row of a number. It is found wherever the rows rise by number.
pub fn place_of(rows: &TieredVector<Row>, number: u32) -> Option<usize>
    ensures within { IfSome result (λ place. place < length rows.now.items) }
    ensures found { IfSome result (λ place. (d : Row)
        → (slice_index_or rows.now.items place d).number ≡ number) }
    ensures none { IfNone result (RowsRise 0 rows.now.items → (place : ℕ) (d : Row)
        → place < length rows.now.items → (slice_index_or rows.now.items place d).number ≢ number) }
{
    let place = place_from(rows, number);
    if is_at(rows, place, number) {
        Some(place)
    } else {
        None
    }
}

// The place of the first row of a greater number, or behind the last.
fn place_after(rows: &TieredVector<Row>, number: u32) -> usize
    ensures within { result ≤ length rows.now.items }
    ensures after { RowsRise 0 rows.now.items → IsRowAfter number rows.now.items result }
{
    let place = place_from(rows, number);
    // For the proof: no place is above what a number may be.
    let _count = rows.len();
    if is_at(rows, place, number) {
        place + 1
    } else {
        place
    }
}

// The same, once the row at a place has gone.
fn place_among_others(rows: &TieredVector<Row>, place: usize, number: u32) -> usize
    requires { place < length rows.now.items }
    ensures within { result ≤ length (remove rows.now.items place) }
    ensures after { RowsRise 0 rows.now.items
        → IsRowAfter number (remove rows.now.items place) result }
{
    let after = place_after(rows, number);
    if after > place { after - 1 } else { after }
}

// The change that gives the row of a number another one, and moves it to where that belongs.
pub(crate) fn move_row(rows: &TieredVector<Row>, number: u32, to: u32) -> RowChange
    ensures moves { MovesTunes rows.now.items (rows_after result rows.now.items) number to }
    ensures single { IsSingle result rows.now.items }
    ensures rows { (layout : Layout) → AreRows layout rows.now.items
        → ¬ Contains (numbers_of_rows rows.now.items) to → 0 < to → to ≤ greatest_number
        → AreRows layout (rows_after result rows.now.items) }
{
    let Some(place) = place_of(rows, number) else {
        return RowChange::Stay;
    };
    let mut row = rows.at(place);
    row.number = to;
    RowChange::Move {
        place,
        to: place_among_others(rows, place, to),
        row,
    }
}
