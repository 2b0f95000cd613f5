// The numbers of all tunes.
ghost use Rattle.std.specs.Prelude.{◌≡◌, IfOk};
ghost use Rattle.tune_store.specs.Labels.{numbers_of, LabelsRise};

use std::alloc::{AllocError, Global};
use tune_store::Catalog;

/// The numbers of all tunes, which rise. The error is out of memory.
pub fn all_numbers<C: Catalog>(alloc: Global, catalog: &C) -> Result<Vec<u32>, AllocError>
    ensures all { IfOk result (λ numbers. numbers.items ≡ numbers_of (C.labels catalog.now)) }
    ensures rise { LabelsRise 0 (C.labels catalog.now) }
{
    let count = catalog.len();
    let mut numbers = Vec::with_capacity(alloc, count)?;
    for place in 0..count {
        numbers.push(catalog.label(place).number)?;
    }
    Ok(numbers)
}
