// Brings a tune to another text.
ghost use Rattle.std.specs.Prelude.{◌≡◌, ◌+◌, [], ◌∷◌, None, Some, IfOk, if◌then◌else◌};
ghost use Rattle.std.specs.Str.{bytes_eq};
ghost use Rattle.tune_store.specs.State.{greatest};
ghost use Rattle.tune_store.specs.declared.command.Command.TheVariants.{Import, Replace};
ghost use Rattle.tune_changes.specs.Bringing.{book_with, brought_tune, renumber_commands};
ghost use Rattle.tune_changes.specs.Carrying.{Carries};

use crate::carrying::carry_out;
use crate::looking::tune_if_any;
use abc_fields::{ByteText, TuneText};
use std::alloc::{AllocError, Global};
use tune_books::BookWriter;
use tune_store::{Command, Refusal, Reply, Tune, TuneStore};

// The tune of a number gets this text; it goes in where there is none.
pub(crate) fn put_text<S: TuneStore>(
    alloc: Global,
    store: &mut S,
    number: u32,
    text: &TuneText,
) -> Result<(), Refusal>
    ensures { Carries S.TuneStore store.old store.new
        (brought_tune number (Some text.now) (S.TuneStore.state store.old)) result }
{
    match tune_if_any(store, number)? {
        None => take_in(alloc, store, number, text),
        Some(tune) => replace(alloc, store, &tune, number, text),
    }
}

// The tune of a number goes, where there is one.
pub(crate) fn take_tune<S: TuneStore>(store: &mut S, number: u32) -> Result<(), Refusal>
    ensures { Carries S.TuneStore store.old store.new
        (brought_tune number None (S.TuneStore.state store.old)) result }
{
    if tune_if_any(store, number)?.is_none() {
        return Ok(());
    }
    delete(store, number)
}

// A tune goes.
fn delete<S: TuneStore>(store: &mut S, number: u32) -> Result<(), Refusal>
    ensures { Carries S.TuneStore store.old store.new (Command.Delete number ∷ []) result }
{
    carry_out(store, &Command::Delete(number))?;
    Ok(())
}

// A tune of this text goes in, and gets a number.
fn take_in<S: TuneStore>(
    alloc: Global,
    store: &mut S,
    number: u32,
    text: &TuneText,
) -> Result<(), Refusal>
    ensures { Carries S.TuneStore store.old store.new (Import (book_with number text.now)
        ∷ renumber_commands (greatest (S.TuneStore.state store.old).tunes + 1) number) result }
{
    let book = book_of(alloc, number, text)?;
    match carry_out(store, &Command::Import(book))? {
        Reply::Imported { first, last: _ } => renumber(store, first, number),
        _ => Ok(()),
    }
}

// A tune that has one number gets another one, where that is another.
fn renumber<S: TuneStore>(store: &mut S, number: u32, to: u32) -> Result<(), Refusal>
    ensures { Carries S.TuneStore store.old store.new (renumber_commands number to) result }
{
    if number == to {
        return Ok(());
    }
    carry_out(store, &Command::Renumber { number, to })?;
    Ok(())
}

// A tune gets another text, where that is another.
fn replace<S: TuneStore>(
    alloc: Global,
    store: &mut S,
    tune: &Tune,
    number: u32,
    text: &TuneText,
) -> Result<(), Refusal>
    ensures { Carries S.TuneStore store.old store.new
        (if bytes_eq tune.now.text text.now then []
        else Replace number tune.now.revision (book_with number text.now) ∷ []) result }
{
    if tune.text.bytes() == text.bytes() {
        return Ok(());
    }
    put_over(alloc, store, number, u32::from(tune.revision), text)
}

// The tune of a number, which has this revision, gets another text.
fn put_over<S: TuneStore>(
    alloc: Global,
    store: &mut S,
    number: u32,
    revision: u32,
    text: &TuneText,
) -> Result<(), Refusal>
    ensures { Carries S.TuneStore store.old store.new
        (Replace number revision (book_with number text.now) ∷ []) result }
{
    let command = Command::Replace {
        number,
        revision,
        book: book_of(alloc, number, text)?,
    };
    carry_out(store, &command)?;
    Ok(())
}

// The book of one tune.
fn book_of(alloc: Global, number: u32, text: &TuneText) -> Result<ByteText, AllocError>
    ensures { IfOk result (λ book. book ≡ book_with number text.now) }
{
    Ok(BookWriter::new(alloc)?.with_tune(number, text)?.into_book())
}
