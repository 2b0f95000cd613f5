// Copies of sets.
ghost use Rattle.std.specs.Prelude.{◌≡◌, IfOk};

use crate::set_lists::TuneSet;
use std::alloc::{AllocError, Global};

// A copy of the sets.
pub(crate) fn copy_sets(alloc: Global, sets: &[TuneSet]) -> Result<Vec<TuneSet>, AllocError>
    ensures { IfOk result (λ copies. copies.items ≡ sets.now) }
{
    let mut copies = Vec::with_capacity(alloc, sets.len())?;
    for set in sets {
        copies.push(copy_set(alloc, set)?)?;
    }
    Ok(copies)
}

fn copy_set(alloc: Global, set: &TuneSet) -> Result<TuneSet, AllocError>
    ensures { IfOk result (λ copy. copy ≡ set.now) }
{
    Ok(TuneSet {
        name: set.name,
        numbers: set.numbers.copy(alloc)?,
    })
}
