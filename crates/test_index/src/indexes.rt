// The calls of an index in a change of pages.
ghost use Rattle.std.specs.Prelude.{◌≤◌};

use crate::calls::IndexCall;
use crate::disks::InMemory;
use crate::entries::{Run, read_entries, read_key, show_values};
use std::alloc::Global;
use test_cases::Answer;
use tune_index::{Index, IndexKey};
use tune_pages::{Edit, Fault};

// Makes a call of an index, and writes its answer. Where it is refused the index is one without an
// entry.
pub(crate) fn call_index<const W: usize>(
    alloc: Global,
    edit: &mut Edit<InMemory>,
    index: &mut Index<W>,
    call: IndexCall<'_>,
    answer: &mut Answer,
)
    requires { W ≤ 4090 }
{
    if let Err(fault) = change(alloc, edit, index, call, answer) {
        answer.name(fault);
        *index = Index::new(alloc);
    }
}

fn change<const W: usize>(
    alloc: Global,
    edit: &mut Edit<InMemory>,
    index: &mut Index<W>,
    call: IndexCall<'_>,
    answer: &mut Answer,
) -> Result<(), Fault>
    requires { W ≤ 4090 }
{
    match call {
        IndexCall::Insert(entries) => insert(alloc, edit, index, entries, answer),
        IndexCall::InsertAll(entries) => insert_all(alloc, edit, index, entries, answer),
        IndexCall::Remove(entries) => remove(alloc, edit, index, entries, answer),
        IndexCall::Clear => {
            index.clear(edit)?;
            answer.say("done");
            Ok(())
        }
        IndexCall::Candidates(low, high) => candidates(edit, index, low, high, answer),
        IndexCall::Store => {
            let first = index.store(edit)?;
            answer.show(first);
            Ok(())
        }
    }
}

// Puts in each of the entries, one after the other.
fn insert<const W: usize>(
    alloc: Global,
    edit: &mut Edit<InMemory>,
    index: &mut Index<W>,
    entries: &str,
    answer: &mut Answer,
) -> Result<(), Fault>
    requires { W ≤ 4090 }
{
    let Ok(entries) = read_entries(alloc, entries) else {
        return Err(edit.refuse());
    };
    insert_each(edit, index, &entries)?;
    answer.say("done");
    Ok(())
}

fn insert_each<const W: usize>(
    edit: &mut Edit<InMemory>,
    index: &mut Index<W>,
    entries: &[(IndexKey<W>, u32)],
) -> Result<(), Fault> {
    for entry in entries {
        index.insert(edit, entry.0.copy(), entry.1)?;
    }
    Ok(())
}

// Puts in entries that rise, all at once.
fn insert_all<const W: usize>(
    alloc: Global,
    edit: &mut Edit<InMemory>,
    index: &mut Index<W>,
    entries: &str,
    answer: &mut Answer,
) -> Result<(), Fault>
    requires { W ≤ 4090 }
{
    match Run::read(alloc, entries) {
        Ok(Some(run)) => {
            index.insert_all(edit, run.entries())?;
            answer.say("done");
            Ok(())
        }
        Ok(None) => {
            answer.say("not rising");
            Ok(())
        }
        Err(_) => Err(edit.refuse()),
    }
}

// Takes out each of the entries, one after the other.
fn remove<const W: usize>(
    alloc: Global,
    edit: &mut Edit<InMemory>,
    index: &mut Index<W>,
    entries: &str,
    answer: &mut Answer,
) -> Result<(), Fault>
    requires { W ≤ 4090 }
{
    let Ok(entries) = read_entries(alloc, entries) else {
        return Err(edit.refuse());
    };
    remove_each(edit, index, &entries)?;
    answer.say("done");
    Ok(())
}

fn remove_each<const W: usize>(
    edit: &mut Edit<InMemory>,
    index: &mut Index<W>,
    entries: &[(IndexKey<W>, u32)],
) -> Result<(), Fault> {
    for entry in entries {
        index.remove(edit, &entry.0, entry.1)?;
    }
    Ok(())
}

fn candidates<const W: usize>(
    edit: &mut Edit<InMemory>,
    index: &Index<W>,
    low: &str,
    high: &str,
    answer: &mut Answer,
) -> Result<(), Fault>
    requires { W ≤ 4090 }
{
    let (low, high) = (read_key(low), read_key(high));
    let values = index.candidates(edit, &low, &high)?;
    show_values(&values, answer);
    Ok(())
}
