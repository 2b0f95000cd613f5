// The rows of changes, and what each change was made with.
ghost use Rattle.std.specs.Prelude.{◌≡◌, ◌++◌, ◌+◌, ◌∷◌, [], IfOk, OnOk, length, decimal};
ghost use Rattle.tune_undo.specs.EntryBytes.{numbers_bytes};
ghost use Rattle.desk_changes.specs.OldChanges.{changes_of_steps};
ghost use Rattle.desk_changes.specs.ToldChanges.{change_row, change_sets, change_tunes};
ghost use Rattle.desk_changes.specs.ToldChanges.{kind_of_change, last_of, loaded_bytes, name_bytes};
ghost use Rattle.desk_changes.specs.ToldChanges.{part_sets, part_tunes, rows_of_changes, set_bytes};
ghost use Rattle.desk_changes.specs.ToldChanges.{span_bytes, subject_bytes, tune_bytes};
ghost use Rattle.desk_changes.specs.Inside.ListedParts.{part_set, tunes_of_part};
ghost use Rattle.desk_changes.specs.Inside.TriedUndoings.{steps_of};

use crate::taking_back::first_of;
use abc_fields::ByteText;
use desk_lists::ChangeRow;
use itoa::Buffer;
use std::alloc::{AllocError, Global};
use tune_sets::SetName;
use tune_undo::{EntryKind, Part, Step};

// What a change was made with.
#[derive(Drop)]
struct Subjects {
    tunes: Vec<u32>,
    sets: Vec<SetName>,
}

/// The rows of the changes of these entries, the last change first.
pub(crate) fn change_rows(alloc: Global, entries: &[Step]) -> Result<Vec<ChangeRow>, AllocError>
    ensures { IfOk result
        (λ rows. rows.items ≡ rows_of_changes (changes_of_steps (steps_of entries.now))) }
{
    let mut rows = Vec::new(alloc);
    let mut left = entries.len();
    while left > 0 {
        let first = first_of(&entries[..left]);
        put_change(alloc, &mut rows, &entries[first..left])?;
        left = first;
    }
    Ok(rows)
}

// Puts the row of the change before those that have a row.
fn put_change(alloc: Global, rows: &mut Vec<ChangeRow>, change: &[Step]) -> Result<(), AllocError>
    ensures { OnOk result (rows.new.items ≡ rows.old.items
        ++ change_row (length rows.old.items + 1) (steps_of change.now) ∷ []) }
{
    let number = rows.len() as u64 + 1;
    let kind = kind_of_change(change);
    let subjects = subjects_of(alloc, change)?;
    let subject = subject_of(alloc, kind, &subjects)?;
    rows.push(ChangeRow {
        number,
        kind,
        subject,
    })?;
    Ok(())
}

fn kind_of_change(change: &[Step]) -> EntryKind
    ensures { result ≡ kind_of_change (steps_of change.now) }
{
    match change {
        [] => EntryKind::Kept,
        [step, ..] => step.entry.kind,
    }
}

fn subjects_of(alloc: Global, change: &[Step]) -> Result<Subjects, AllocError>
    ensures tunes { IfOk result
        (λ subjects. subjects.tunes.items ≡ change_tunes (steps_of change.now)) }
    ensures sets { IfOk result
        (λ subjects. subjects.sets.items ≡ change_sets (steps_of change.now)) }
{
    let mut subjects = Subjects {
        tunes: Vec::new(alloc),
        sets: Vec::new(alloc),
    };
    for step in change {
        put_parts(&mut subjects, step.entry.parts.as_slice())?;
    }
    Ok(subjects)
}

fn put_parts(subjects: &mut Subjects, parts: &[Part]) -> Result<(), AllocError>
    ensures tunes { OnOk result
        (subjects.new.tunes.items ≡ subjects.old.tunes.items ++ part_tunes parts.now) }
    ensures sets { OnOk result
        (subjects.new.sets.items ≡ subjects.old.sets.items ++ part_sets parts.now) }
{
    for part in parts {
        put_part(subjects, part)?;
    }
    Ok(())
}

fn put_part(subjects: &mut Subjects, part: &Part) -> Result<(), AllocError>
    ensures tunes { OnOk result
        (subjects.new.tunes.items ≡ subjects.old.tunes.items ++ tunes_of_part part.now) }
    ensures sets { OnOk result
        (subjects.new.sets.items ≡ subjects.old.sets.items ++ part_set part.now) }
{
    match part {
        Part::Tune {
            number,
            was: _,
            is: _,
        } => {
            subjects.tunes.push(*number)?;
        }
        Part::Set {
            name,
            was: _,
            is: _,
        } => {
            subjects.sets.push(*name)?;
        }
    }
    Ok(())
}

fn subject_of(alloc: Global, kind: EntryKind, subjects: &Subjects) -> Result<ByteText, AllocError>
    ensures { IfOk result (λ subject.
        subject ≡ subject_bytes kind subjects.now.tunes.items subjects.now.sets.items) }
{
    let mut bytes = Vec::new(alloc);
    let tunes = subjects.tunes.as_slice();
    let sets = subjects.sets.as_slice();
    match kind {
        EntryKind::Add | EntryKind::AddMore => put_span(&mut bytes, tunes)?,
        EntryKind::Load => put_loaded(&mut bytes, tunes, sets)?,
        _ => {
            put_tunes(&mut bytes, tunes)?;
            put_names(&mut bytes, sets)?;
        }
    }
    Ok(ByteText::from_vec(bytes))
}

// Each of some tunes.
fn put_tunes(bytes: &mut Vec<u8>, tunes: &[u32]) -> Result<(), AllocError>
    ensures { OnOk result (bytes.new.items ≡ bytes.old.items ++ tune_bytes tunes.now) }
{
    match tunes {
        [] => Ok(()),
        _ => {
            bytes.extend_from_slice(b"tune")?;
            put_numbers(bytes, tunes)
        }
    }
}

fn put_numbers(bytes: &mut Vec<u8>, numbers: &[u32]) -> Result<(), AllocError>
    ensures { OnOk result (bytes.new.items ≡ bytes.old.items ++ numbers_bytes numbers.now) }
{
    for number in numbers {
        bytes.extend_from_slice(b" ")?;
        put_number(bytes, u64::from(*number))?;
    }
    Ok(())
}

fn put_names(bytes: &mut Vec<u8>, names: &[SetName]) -> Result<(), AllocError>
    ensures { OnOk result (bytes.new.items ≡ bytes.old.items ++ name_bytes names.now) }
{
    for name in names {
        bytes.extend_from_slice(name.as_slice())?;
    }
    Ok(())
}

// Tunes from the first to the last.
fn put_span(bytes: &mut Vec<u8>, tunes: &[u32]) -> Result<(), AllocError>
    ensures { OnOk result (bytes.new.items ≡ bytes.old.items ++ span_bytes tunes.now) }
{
    match tunes {
        [] => bytes.extend_from_slice(b"no tune"),
        [tune] => {
            bytes.extend_from_slice(b"tune ")?;
            put_number(bytes, u64::from(*tune))
        }
        [first, rest @ ..] => {
            bytes.extend_from_slice(b"tunes ")?;
            put_number(bytes, u64::from(*first))?;
            bytes.extend_from_slice(b" to ")?;
            put_number(bytes, u64::from(last_of(*first, rest)))
        }
    }
}

// The last of some numbers.
fn last_of(first: u32, rest: &[u32]) -> u32
    ensures { result ≡ last_of first rest.now }
{
    let mut last = first;
    for number in rest {
        last = *number;
    }
    last
}

// What a load brought.
fn put_loaded(bytes: &mut Vec<u8>, tunes: &[u32], sets: &[SetName]) -> Result<(), AllocError>
    ensures { OnOk result (bytes.new.items ≡ bytes.old.items ++ loaded_bytes tunes.now sets.now) }
{
    match (tunes, sets) {
        ([], _) => put_sets(bytes, sets),
        (_, []) => put_span(bytes, tunes),
        _ => {
            put_span(bytes, tunes)?;
            bytes.extend_from_slice(b" and ")?;
            put_sets(bytes, sets)
        }
    }
}

// How many set lists these are.
fn put_sets(bytes: &mut Vec<u8>, sets: &[SetName]) -> Result<(), AllocError>
    ensures { OnOk result (bytes.new.items ≡ bytes.old.items ++ set_bytes sets.now) }
{
    match sets {
        [_] => bytes.extend_from_slice(b"1 set list"),
        _ => {
            put_number(bytes, sets.len() as u64)?;
            bytes.extend_from_slice(b" set lists")
        }
    }
}

// Puts a number in decimal behind these bytes.
fn put_number(bytes: &mut Vec<u8>, number: u64) -> Result<(), AllocError>
    ensures { OnOk result (bytes.new.items ≡ bytes.old.items ++ decimal number) }
{
    let mut buffer = Buffer::new();
    bytes.extend_from_slice(buffer.format(number).as_bytes())
}
