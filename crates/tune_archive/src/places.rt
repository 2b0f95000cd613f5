// Where the rows of numbers are.
ghost use Rattle.std.specs.Prelude.{length, IfOk};
ghost use Rattle.std.specs.Ordering.{nat_cmp};
ghost use Rattle.std.specs.List.Sorted.{IsStrictlySortedBy};
ghost use Rattle.tune_store.specs.Candidates.{ArePlacesOf, PlacesRise};
ghost use Rattle.tune_contents.specs.Claimed.{RowsRise};
ghost use Rattle.tune_contents.specs.Holds.{labels_in};

use std::alloc::{AllocError, Global};
use tiered_vector::TieredVector;
use tune_contents::place_of;
use tune_format::Row;

// The places of the rows of these numbers, rising, each once. The numbers may come in any order,
// and may repeat. A number that no row has is passed over. The error is out of memory.
pub(crate) fn places_of_numbers(
    alloc: Global,
    rows: &TieredVector<Row>,
    mut numbers: Vec<u32>,
) -> Result<Vec<usize>, AllocError>
    requires { RowsRise 0 rows.now.items }
    ensures rise { IfOk result
        (λ places. PlacesRise 0 (length (labels_in rows.now.items)) places.items) }
    ensures places { IfOk result
        (λ places. ArePlacesOf numbers.items (labels_in rows.now.items) places.items) }
{
    numbers.sort_unstable();
    numbers.dedup();
    places_of_rising(alloc, rows, &numbers)
}

// The same, of numbers that rise.
fn places_of_rising(
    alloc: Global,
    rows: &TieredVector<Row>,
    numbers: &[u32],
) -> Result<Vec<usize>, AllocError>
    requires rows { RowsRise 0 rows.now.items }
    requires numbers { IsStrictlySortedBy nat_cmp numbers.now }
    ensures rise { IfOk result
        (λ places. PlacesRise 0 (length (labels_in rows.now.items)) places.items) }
    ensures places { IfOk result
        (λ places. ArePlacesOf numbers.now (labels_in rows.now.items) places.items) }
{
    let most = rows.len().min(numbers.len());
    let mut places = Vec::with_capacity(alloc, most)?;
    for number in numbers {
        if let Some(place) = place_of(rows, *number) {
            places.push(place)?;
        }
    }
    Ok(places)
}
