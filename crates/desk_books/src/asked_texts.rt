// The texts that an archive has.
ghost use Rattle.std.specs.Prelude.{true};
ghost use Rattle.tune_asking.specs.AskingCalls.{Call};
ghost use Rattle.desk_books.specs.KnownSums.{texts_put, texts_told};

use chosen_books::KnownTexts;
use std::alloc::Global;
use tune_asking::{all_numbers, tune_of};
use tune_store::{Catalog, Refusal, TuneStore};

/// The texts of a store, by their sums, where only new tunes are asked for; else none is asked.
pub(crate) fn known_texts<S: TuneStore + Catalog>(
    alloc: Global,
    store: &mut S,
    only_new: bool,
) -> Result<KnownTexts, Refusal>
    ensures { Call S.TuneStore store.old store.new
        (texts_told only_new (S.Catalog.labels store.old)) result }
{
    if only_new {
        all_texts(alloc, store)
    } else {
        Ok(KnownTexts::new(alloc))
    }
}

fn all_texts<S: TuneStore + Catalog>(alloc: Global, store: &mut S) -> Result<KnownTexts, Refusal>
    ensures { Call S.TuneStore store.old store.new
        (texts_told true (S.Catalog.labels store.old)) result }
{
    let numbers = all_numbers(alloc, store)?;
    let mut known = KnownTexts::new(alloc);
    put_texts(store, numbers.as_slice(), &mut known)?;
    Ok(known)
}

// Puts the texts of the tunes of these numbers to what is known.
fn put_texts<S: TuneStore>(
    store: &mut S,
    numbers: &[u32],
    known: &mut KnownTexts,
) -> Result<(), Refusal>
    ensures { Call S.TuneStore store.old store.new
        (texts_put numbers.now known.old known.new) result }
{
    for number in numbers {
        let tune = tune_of(store, *number)?;
        known.insert(tune.text.bytes())?;
    }
    Ok(())
}
