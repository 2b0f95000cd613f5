// Lists of numbers of tunes.
ghost use Rattle.std.specs.Prelude.{◌≡◌, ◌++◌, map, filter, take, drop, ◌%◌, length, IfOk, OnOk};
ghost use Rattle.std.specs.List.Sorted.{IsNonDecreasing};
ghost use Rattle.desk_questions.specs.Inside.QuestionCalls.{has_number};

use std::alloc::{AllocError, Global};
use tune_store::IndexRow;

// Whether a number is among these, which do not fall.
fn is_among(numbers: &[u32], number: u32) -> bool
    requires { IsNonDecreasing numbers.now }
    ensures { result ≡ has_number numbers.now number }
{
    numbers.binary_search(&number).is_ok()
}

// Those of the numbers that are among the given ones.
pub(crate) fn in_both(
    alloc: Global,
    numbers: &[u32],
    given: Vec<u32>,
) -> Result<Vec<u32>, AllocError>
    ensures { IfOk result (λ both. both.items ≡ filter (has_number given.items) numbers.now) }
{
    let mut sorted = given;
    sorted.sort()?;
    Ok(in_rising(alloc, numbers, sorted.as_slice())?)
}

// Those of the numbers that are among the given ones, which do not fall.
fn in_rising(alloc: Global, numbers: &[u32], given: &[u32]) -> Result<Vec<u32>, AllocError>
    requires { IsNonDecreasing given.now }
    ensures { IfOk result (λ both. both.items ≡ filter (has_number given.now) numbers.now) }
{
    let mut both = Vec::new(alloc);
    for number in numbers {
        if is_among(given, *number) {
            both.push(*number)?;
        }
    }
    Ok(both)
}

// Puts the numbers of rows behind these.
pub(crate) fn add_numbers(numbers: &mut Vec<u32>, rows: &[IndexRow]) -> Result<(), AllocError>
    ensures { OnOk result
        (numbers.new.items ≡ numbers.old.items ++ map (λ row. row.number) rows.now) }
{
    for row in rows {
        numbers.push(row.number)?;
    }
    Ok(())
}

// The one at the place that remains of a number by their count; none of none.
pub(crate) fn chosen(numbers: &[u32], chance: u64) -> &[u32]
    ensures { result.now ≡ take 1 (drop (chance % length numbers.now) numbers.now) }
{
    if numbers.is_empty() {
        return numbers;
    }
    let at = (chance % numbers.len() as u64) as usize;
    &numbers[at..at + 1]
}
