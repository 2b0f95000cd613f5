// Rows of tunes as they are told.
ghost use Rattle.std.specs.Prelude.{◌≡◌, IfOk};
ghost use Rattle.tune_store.specs.Questions.{row_of};

use abc_fields::fields;
use std::alloc::{AllocError, Global};
use tune_store::{IndexRow, Tune};
use tune_titles::index_title;

// The row of a tune: its number, and its first title.
pub(crate) fn row_of(alloc: Global, tune: &Tune) -> Result<IndexRow, AllocError>
    ensures { IfOk result (λ row. row ≡ row_of tune.now) }
{
    let title = match fields(&tune.text).titles.as_slice() {
        [] => None,
        [first, ..] => Some(index_title(alloc, first)?),
    };
    Ok(IndexRow {
        number: tune.number,
        title,
    })
}
