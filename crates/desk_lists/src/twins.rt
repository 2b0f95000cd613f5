// Lists of tunes that are there twice.
ghost use Rattle.std.specs.Prelude.{◌≡◌, ◌++◌, IfOk, OnOk};
ghost use Rattle.desk_lists.specs.JsonLists.{array_bytes};
ghost use Rattle.desk_lists.specs.CsvTables.{record_bytes};
ghost use Rattle.desk_lists.specs.Inside.OpenTables.{IsOpenTable, table_bytes};
ghost use Rattle.desk_lists.specs.Twins.{alike_bytes, pair_members, twin_fields, twin_list_bytes};
ghost use Rattle.desk_lists.specs.Twins.{twin_object, twin_objects, twin_row_bytes};
ghost use Rattle.desk_lists.specs.Twins.{twin_rows_bytes, twin_table};

use crate::{json_lists, row_lists, tables};
use abc_fields::ByteText;
use csv::Writer;
use desk_terms::Form;
use itoa::Buffer;
use std::alloc::{AllocError, Global};

/// In what a tune is like its twin.
#[derive(Clone, Copy)]
pub enum Alike {
    /// They have the same text.
    Text,
    /// They begin alike, and have the same title.
    Opening,
}

impl Alike {
    /// Its name: `text` or `opening`.
    pub fn name(&self) -> &str
        ensures { result.now ≡ alike_bytes self.now }
    {
        match self {
            Alike::Text => "text",
            Alike::Opening => "opening",
        }
    }
}

/// A tune that is there twice: the later of the two, which one might delete.
#[derive(Drop)]
pub struct TwinRow {
    /// The number of the later tune.
    pub number: u32,
    /// The number of its twin, the first tune that it is like.
    pub twin: u32,
    /// In what it is like its twin.
    pub alike: Alike,
    /// The first title of the later tune, as an index shows it.
    pub title: Option<ByteText>,
}

/// A list of tunes that are there twice: the number of each, that of its twin, in what they are
/// alike, and the title of the tune, not that of its twin. Its only error is out of memory.
pub fn twin_list(alloc: Global, rows: &[TwinRow], form: Form) -> Result<ByteText, AllocError>
    ensures { IfOk result (λ list. list ≡ twin_list_bytes form rows.now) }
{
    let bytes = match form {
        Form::Rows => twin_rows(alloc, rows)?,
        Form::Json => twins_in_json(alloc, rows)?,
        Form::Csv => twin_table(alloc, rows)?,
    };
    Ok(ByteText::from_vec(bytes))
}

fn twin_rows(alloc: Global, rows: &[TwinRow]) -> Result<Vec<u8>, AllocError>
    ensures { IfOk result (λ bytes. bytes.items ≡ twin_rows_bytes rows.now) }
{
    let mut out = Vec::new(alloc);
    for row in rows {
        put_row(&mut out, row)?;
    }
    Ok(out)
}

fn put_row(out: &mut Vec<u8>, row: &TwinRow) -> Result<(), AllocError>
    ensures { OnOk result (out.new.items ≡ out.old.items ++ twin_row_bytes row.now) }
{
    row_lists::put_number(out, u64::from(row.number))?;
    out.extend_from_slice(b" ")?;
    row_lists::put_number(out, u64::from(row.twin))?;
    out.extend_from_slice(b" ")?;
    out.extend_from_slice(row.alike.name().as_bytes())?;
    row_lists::put_title(out, &row.title)?;
    out.extend_from_slice(b"\n")
}

fn twins_in_json(alloc: Global, rows: &[TwinRow]) -> Result<Vec<u8>, AllocError>
    ensures { IfOk result (λ bytes. bytes.items ≡ array_bytes (twin_objects rows.now)) }
{
    let mut out = json::Writer::new(Vec::new(alloc));
    out.begin_array()?;
    for row in rows {
        put_object(alloc, &mut out, row)?;
    }
    json_lists::close(out)
}

fn put_object(alloc: Global, out: &mut json::Writer, row: &TwinRow) -> Result<(), AllocError>
    ensures tokens { OnOk result (out.new.tokens ≡ out.old.tokens ++ twin_object row.now) }
    ensures before { OnOk result (out.new.before ≡ out.old.before) }
{
    out.begin_object()?;
    put_pair(out, row)?;
    json_lists::put_title(alloc, out, &row.title)?;
    out.end_object()
}

// The members before the title.
fn put_pair(out: &mut json::Writer, row: &TwinRow) -> Result<(), AllocError>
    ensures tokens { OnOk result (out.new.tokens ≡ out.old.tokens ++ pair_members row.now) }
    ensures before { OnOk result (out.new.before ≡ out.old.before) }
{
    json_lists::put_number(out, "number", u64::from(row.number))?;
    json_lists::put_number(out, "twin", u64::from(row.twin))?;
    out.key("alike")?;
    out.string(row.alike.name())
}

fn twin_table(alloc: Global, rows: &[TwinRow]) -> Result<Vec<u8>, AllocError>
    ensures { IfOk result (λ bytes. bytes.items ≡ twin_table rows.now) }
{
    let mut table = tables::open(alloc);
    tables::put_record(
        &mut table,
        &[
            "number".as_bytes(),
            "twin".as_bytes(),
            "alike".as_bytes(),
            "title".as_bytes(),
        ],
    )?;
    for row in rows {
        put_fields(&mut table, row)?;
    }
    tables::close(table)
}

fn put_fields(table: &mut Writer<Vec<u8>>, row: &TwinRow) -> Result<(), AllocError>
    requires { IsOpenTable table.old }
    ensures is_open { OnOk result (IsOpenTable table.new) }
    ensures bytes { OnOk result (table_bytes table.new
        ≡ table_bytes table.old ++ record_bytes (twin_fields row.now)) }
{
    let mut numbers = Buffer::new();
    let mut twins = Buffer::new();
    tables::put_record(
        table,
        &[
            numbers.format(row.number).as_bytes(),
            twins.format(row.twin).as_bytes(),
            row.alike.name().as_bytes(),
            tables::title_field(&row.title),
        ],
    )
}
