// Lists of changes that can be taken back.
ghost use Rattle.std.specs.Prelude.{◌≡◌, ◌++◌, IfOk, OnOk};
ghost use Rattle.desk_lists.specs.ChangeRows.{change_list_bytes, change_objects};
ghost use Rattle.desk_lists.specs.ChangeRows.{change_row_bytes, change_rows_bytes, change_table};
ghost use Rattle.desk_lists.specs.ChangeRows.{change_word, kind_members};
ghost use Rattle.desk_lists.specs.JsonLists.{array_bytes};

use crate::{json_lists, row_lists, tables};
use abc_fields::ByteText;
use desk_terms::Form;
use itoa::Buffer;
use std::alloc::{AllocError, Global};
use tune_undo::EntryKind;

/// A change that can be taken back.
#[derive(Drop)]
pub struct ChangeRow {
    /// Which change it is: 1 is the last one, 2 the one before it.
    pub number: u64,
    /// What was done.
    pub kind: EntryKind,
    /// With what: tunes, or a set list, in words.
    pub subject: ByteText,
}

/// A list of changes that can be taken back: the number of each, what was done, and with what. Its
/// only error is out of memory.
pub fn change_list(alloc: Global, rows: &[ChangeRow], form: Form) -> Result<ByteText, AllocError>
    ensures { IfOk result (λ list. list ≡ change_list_bytes form rows.now) }
{
    let bytes = match form {
        Form::Rows => change_lines(alloc, rows)?,
        Form::Json => changes_in_json(alloc, rows)?,
        Form::Csv => change_table(alloc, rows)?,
    };
    Ok(ByteText::from_vec(bytes))
}

// The command by which a change was made.
fn word_of(kind: &EntryKind) -> &str
    ensures { result.now ≡ change_word kind.now }
{
    match kind {
        EntryKind::Delete => "delete",
        EntryKind::Replace => "replace",
        EntryKind::Put => "put",
        EntryKind::Cut => "cut",
        EntryKind::Move => "move",
        EntryKind::Drop => "drop",
        EntryKind::Add | EntryKind::AddMore => "add",
        EntryKind::Load => "load",
        EntryKind::Kept => "kept",
    }
}

fn change_lines(alloc: Global, rows: &[ChangeRow]) -> Result<Vec<u8>, AllocError>
    ensures { IfOk result (λ bytes. bytes.items ≡ change_rows_bytes rows.now) }
{
    let mut out = Vec::new(alloc);
    for row in rows {
        put_row(&mut out, row)?;
    }
    Ok(out)
}

fn put_row(out: &mut Vec<u8>, row: &ChangeRow) -> Result<(), AllocError>
    ensures { OnOk result (out.new.items ≡ out.old.items ++ change_row_bytes row.now) }
{
    row_lists::put_number(out, row.number)?;
    out.extend_from_slice(b" ")?;
    out.extend_from_slice(word_of(&row.kind).as_bytes())?;
    out.extend_from_slice(b" ")?;
    out.extend_from_slice(row.subject.as_slice())?;
    out.extend_from_slice(b"\n")
}

fn changes_in_json(alloc: Global, rows: &[ChangeRow]) -> Result<Vec<u8>, AllocError>
    ensures { IfOk result (λ bytes. bytes.items ≡ array_bytes (change_objects rows.now)) }
{
    let mut out = json::Writer::new(Vec::new(alloc));
    out.begin_array()?;
    for row in rows {
        out.begin_object()?;
        put_kind(&mut out, row)?;
        json_lists::put_text(alloc, &mut out, "of", row.subject.as_slice())?;
        out.end_object()?;
    }
    json_lists::close(out)
}

// The members before the subject.
fn put_kind(out: &mut json::Writer, row: &ChangeRow) -> Result<(), AllocError>
    ensures tokens { OnOk result (out.new.tokens ≡ out.old.tokens ++ kind_members row.now) }
    ensures before { OnOk result (out.new.before ≡ out.old.before) }
{
    json_lists::put_number(out, "change", row.number)?;
    out.key("kind")?;
    out.string(word_of(&row.kind))
}

fn change_table(alloc: Global, rows: &[ChangeRow]) -> Result<Vec<u8>, AllocError>
    ensures { IfOk result (λ bytes. bytes.items ≡ change_table rows.now) }
{
    let mut table = tables::open(alloc);
    tables::put_record(
        &mut table,
        &["change".as_bytes(), "kind".as_bytes(), "of".as_bytes()],
    )?;
    for row in rows {
        let mut number = Buffer::new();
        tables::put_record(
            &mut table,
            &[
                number.format(row.number).as_bytes(),
                word_of(&row.kind).as_bytes(),
                row.subject.as_slice(),
            ],
        )?;
    }
    tables::close(table)
}
