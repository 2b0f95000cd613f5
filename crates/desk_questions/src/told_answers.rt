// Tells what is asked.
ghost use Rattle.std.specs.Prelude.{◌≡◌, true, false, map, length, Ok, Err, IfOk};
ghost use Rattle.std.specs.Prelude.{MatchResult, drop, string_bytes};
ghost use Rattle.tune_store.specs.Answers.{asks};
ghost use Rattle.tune_store.specs.Labels.{labels_of};
ghost use Rattle.tune_store.specs.Questions.{exported};
ghost use Rattle.tune_store.specs.Step.{step};
ghost use Rattle.desk_lists.specs.ListForms.{count_line, tune_list_bytes};
ghost use Rattle.tune_asking.specs.Asking.{IsOnlyAsked, IsToldOrFault};
ghost use Rattle.desk_questions.specs.Told.{told, of_found, listed_tunes, chosen, as_told};
ghost use Rattle.desk_questions.specs.Told.{tunes_at};
ghost use Rattle.desk_questions.specs.Told.{shown_tunes, reply_told};
ghost use Rattle.tune_asking.specs.AskingCalls.{Call, told_by, told_where};
ghost use Rattle.desk_questions.specs.Inside.QuestionCalls.{AreRowsAt};
ghost use Rattle.desk_questions.specs.Inside.QuestionCalls.{AreWritten};

use crate::dumps::dump;
use crate::found_numbers::found;
use crate::numbers::chosen;
use crate::told_rows::row_of;
use crate::told_twins::twins;
use abc_fields::ByteText;
use desk_lists::{count_line, place_list, set_list, tune_list};
use desk_terms::{Condition, Form, Question};
use std::alloc::{AllocError, Global};
use tune_asking::{ask, tune_of, write_tune};
use tune_books::BookWriter;
use tune_store::{Catalog, Command, IndexRow, Refusal, Reply, Tune, TuneStore};

/// Asks a store, and tells the answer in bytes, as `specs/Told.antt` defines them of what the store
/// stands for.
///
/// - `told`, of an open store whose device was honest: the bytes, or the refusal, are those that
///   are to be told; or the refusal is `OutOfMemory`, or `Device`. Where tunes are found by
///   conditions, this is said of a store whose labels are those of its tunes, as an open archive's
///   are.
/// - `asked`: the store was asked questions alone, and is as it was.
/// - `stays`: it is closed only by a failure of its device.
pub fn tell<S: TuneStore + Catalog>(
    alloc: Global,
    store: &mut S,
    question: &Question,
) -> Result<ByteText, Refusal>
    ensures told { let state = S.TuneStore.state store.old in
        S.TuneStore.closed store.old ≡ false → S.TuneStore.honest store.new
        → S.Catalog.labels store.old ≡ labels_of state.tunes
        → IsToldOrFault (told question.now state) result }
    ensures asked { IsOnlyAsked S.TuneStore store.old store.new }
    ensures stays { S.TuneStore.closed store.old ≡ false
        → MatchResult result (λ _. S.TuneStore.closed store.new ≡ false)
        (λ refusal. S.TuneStore.closed store.new ≡ true → refusal ≡ Refusal.Device) }
{
    answer(alloc, store, question)
}

// The same, in one clause.
fn answer<S: TuneStore + Catalog>(
    alloc: Global,
    store: &mut S,
    question: &Question,
) -> Result<ByteText, Refusal>
    ensures { Call S.TuneStore store.old store.new
        (told_where (S.Catalog.labels store.old) (told question.now)) result }
{
    match question {
        Question::Find { conditions, form } => find(alloc, store, conditions.as_slice(), *form),
        Question::Count(conditions) => count(alloc, store, conditions.as_slice()),
        Question::Random {
            conditions,
            chance,
            form,
        } => random(alloc, store, conditions.as_slice(), *chance, *form),
        Question::Titles(form) => plain(alloc, store, &Command::Titles, *form),
        Question::Sets(form) => plain(alloc, store, &Command::Sets, *form),
        Question::Set { name, form } => set(alloc, store, name, *form),
        Question::Show(numbers) => show(alloc, store, numbers.as_slice()),
        Question::ExportAll => plain(alloc, store, &Command::ExportAll, Form::Rows),
        Question::ExportSet(name) => {
            let name = ByteText::copy_of(alloc, name.as_bytes())?;
            plain(alloc, store, &Command::ExportSet(name), Form::Rows)
        }
        Question::ExportTunes(numbers) => export(alloc, store, numbers.as_slice()),
        Question::Twins(form) => twins(alloc, store, *form),
        Question::Dump => dump(alloc, store),
    }
}

// Tells the places of a set list.
fn set<S: TuneStore>(
    alloc: Global,
    store: &mut S,
    name: &String,
    form: Form,
) -> Result<ByteText, Refusal>
    ensures { Call S.TuneStore store.old store.new (told_by (λ state. as_told (reply_told form)
        (step state (Command.SetShow (string_bytes name.now))).1)) result }
{
    let name = ByteText::copy_of(alloc, name.as_bytes())?;
    plain(alloc, store, &Command::SetShow(name), form)
}

// Tells the reply to a question of the store's own.
fn plain<S: TuneStore>(
    alloc: Global,
    store: &mut S,
    command: &Command,
    form: Form,
) -> Result<ByteText, Refusal>
    requires { asks command.now ≡ true }
    ensures { Call S.TuneStore store.old store.new
        (told_by (λ state. as_told (reply_told form) (step state command.now).1)) result }
{
    let reply = ask(store, command)?;
    Ok(reply_bytes(alloc, reply, form)?)
}

// The bytes of a reply to a question.
fn reply_bytes(alloc: Global, reply: Reply, form: Form) -> Result<ByteText, AllocError>
    ensures { IfOk result (λ bytes. bytes ≡ reply_told form reply) }
{
    match reply {
        Reply::Titled(rows) => tune_list(alloc, rows.as_slice(), form),
        Reply::Sets(rows) => set_list(alloc, rows.as_slice(), form),
        Reply::SetShown { name: _, rows } => place_list(alloc, rows.as_slice(), form),
        Reply::Exported(book) => Ok(book),
        Reply::SetExported { name: _, book } => Ok(book),
        _ => Ok(ByteText::from_vec(Vec::new(alloc))),
    }
}

// Tells the rows of the tunes that all conditions give.
fn find<S: TuneStore + Catalog>(
    alloc: Global,
    store: &mut S,
    conditions: &[Condition],
    form: Form,
) -> Result<ByteText, Refusal>
    ensures { Call S.TuneStore store.old store.new (told_where (S.Catalog.labels store.old)
        (of_found (listed_tunes form) conditions.now)) result }
{
    let numbers = found(alloc, store, conditions)?;
    let rows = rows_at(alloc, store, numbers.as_slice())?;
    Ok(tune_list(alloc, rows.as_slice(), form)?)
}

// Tells how many tunes all conditions give.
fn count<S: TuneStore + Catalog>(
    alloc: Global,
    store: &mut S,
    conditions: &[Condition],
) -> Result<ByteText, Refusal>
    ensures { Call S.TuneStore store.old store.new (told_where (S.Catalog.labels store.old)
        (of_found (λ tunes. count_line (length tunes)) conditions.now)) result }
{
    let numbers = found(alloc, store, conditions)?;
    Ok(count_line(alloc, numbers.len() as u64)?)
}

// Tells the row of one of the tunes that all conditions give.
fn random<S: TuneStore + Catalog>(
    alloc: Global,
    store: &mut S,
    conditions: &[Condition],
    chance: u64,
    form: Form,
) -> Result<ByteText, Refusal>
    ensures { Call S.TuneStore store.old store.new (told_where (S.Catalog.labels store.old)
        (of_found (λ tunes. listed_tunes form (chosen chance tunes)) conditions.now)) result }
{
    let numbers = found(alloc, store, conditions)?;
    let rows = rows_at(alloc, store, chosen(numbers.as_slice(), chance))?;
    Ok(tune_list(alloc, rows.as_slice(), form)?)
}

// The rows of the tunes of these numbers.
fn rows_at<S: TuneStore>(
    alloc: Global,
    store: &mut S,
    numbers: &[u32],
) -> Result<Vec<IndexRow>, Refusal>
    ensures { Call S.TuneStore store.old store.new (record {
      good = λ state rows. AreRowsAt numbers.now state rows.items;
      refused = λ state refusal. tunes_at numbers.now state.tunes ≡ Err refusal;
    }) result }
{
    let mut rows = Vec::with_capacity(alloc, numbers.len())?;
    for number in numbers {
        let tune = tune_of(store, *number)?;
        rows.push(row_of(alloc, &tune)?)?;
    }
    Ok(rows)
}

// Writes the tunes of these numbers, each after an empty line and its number.
fn write_tunes<S: TuneStore>(
    store: &mut S,
    numbers: &[u32],
    bytes: &mut Vec<u8>,
) -> Result<(), Refusal>
    ensures { Call S.TuneStore store.old store.new (record {
      good = λ state _. AreWritten numbers.now bytes.old.items bytes.new.items state;
      refused = λ state refusal. tunes_at numbers.now state.tunes ≡ Err refusal;
    }) result }
{
    for number in numbers {
        let tune = tune_of(store, *number)?;
        write_tune(bytes, &tune)?;
    }
    Ok(())
}

// Tells the tunes of these numbers, an empty line between.
fn show<S: TuneStore>(alloc: Global, store: &mut S, numbers: &[u32]) -> Result<ByteText, Refusal>
    ensures { Call S.TuneStore store.old store.new (told_by
        (λ state. as_told shown_tunes (tunes_at numbers.now state.tunes))) result }
{
    let mut bytes = Vec::new(alloc);
    write_tunes(store, numbers, &mut bytes)?;
    Ok(without_first(alloc, bytes.as_slice())?)
}

// A copy of the bytes without the first, if there is one.
fn without_first(alloc: Global, bytes: &[u8]) -> Result<ByteText, AllocError>
    ensures { IfOk result (λ rest. rest ≡ drop 1 bytes.now) }
{
    match bytes {
        [] => Ok(ByteText::from_vec(Vec::new(alloc))),
        [_, rest @ ..] => ByteText::copy_of(alloc, rest),
    }
}

// Tells the written book of the tunes of these numbers.
fn export<S: TuneStore>(alloc: Global, store: &mut S, numbers: &[u32]) -> Result<ByteText, Refusal>
    ensures { Call S.TuneStore store.old store.new (told_by
        (λ state. as_told exported (tunes_at numbers.now state.tunes))) result }
{
    let mut bytes = BookWriter::new(alloc)?.into_book().into_vec();
    write_tunes(store, numbers, &mut bytes)?;
    Ok(ByteText::from_vec(bytes))
}
