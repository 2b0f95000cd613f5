// Lists in CSV.
ghost use Rattle.std.specs.Prelude.{◌≡◌, ◌++◌, ◌∷◌, [], IfOk, OnOk, decimal, map};
ghost use Rattle.desk_lists.specs.CsvTables.{place_table, record_bytes, set_fields, set_table};
ghost use Rattle.desk_lists.specs.CsvTables.{title_field, tune_fields, tune_table};
ghost use Rattle.desk_lists.specs.Inside.OpenTables.{IsOpenTable, table_bytes};

use abc_fields::ByteText;
use csv::{Writer, WriterBuilder};
use itoa::Buffer;
use std::alloc::{AllocError, Global};
use tune_sets::SetRow;
use tune_store::IndexRow;

// A record for each tune.
pub(crate) fn tune_table(alloc: Global, rows: &[IndexRow]) -> Result<Vec<u8>, AllocError>
    ensures { IfOk result (λ bytes. bytes.items ≡ tune_table rows.now) }
{
    let mut table = open(alloc);
    put_record(&mut table, &["number".as_bytes(), "title".as_bytes()])?;
    for row in rows {
        put_tune(&mut table, row)?;
    }
    close(table)
}

// A record for each tune, with its place first.
pub(crate) fn place_table(alloc: Global, rows: &[IndexRow]) -> Result<Vec<u8>, AllocError>
    ensures { IfOk result (λ bytes. bytes.items ≡ place_table rows.now) }
{
    let mut table = open(alloc);
    put_record(
        &mut table,
        &["place".as_bytes(), "number".as_bytes(), "title".as_bytes()],
    )?;
    for i in 0..rows.len() {
        let place = i + 1;
        put_place(&mut table, place as u64, &rows[i])?;
    }
    close(table)
}

// A record for each set list.
pub(crate) fn set_table(alloc: Global, rows: &[SetRow]) -> Result<Vec<u8>, AllocError>
    ensures { IfOk result (λ bytes. bytes.items ≡ set_table rows.now) }
{
    let mut table = open(alloc);
    put_record(&mut table, &["name".as_bytes(), "places".as_bytes()])?;
    for row in rows {
        put_set(&mut table, row)?;
    }
    close(table)
}

// A table with no record.
pub(crate) fn open(alloc: Global) -> Writer<Vec<u8>>
    ensures is_open { IsOpenTable result }
    ensures bytes { table_bytes result ≡ [] }
{
    WriterBuilder::new().from_writer(Vec::new(alloc))
}

// Puts a record behind a table.
pub(crate) fn put_record(table: &mut Writer<Vec<u8>>, fields: &[&[u8]]) -> Result<(), AllocError>
    requires { IsOpenTable table.old }
    ensures is_open { OnOk result (IsOpenTable table.new) }
    ensures bytes { OnOk result (table_bytes table.new
        ≡ table_bytes table.old ++ record_bytes (map (λ field. field.now) fields.now)) }
{
    match table.write_fields(fields) {
        Ok(()) => Ok(()),
        Err(_) => Err(AllocError),
    }
}

// The bytes of a table.
pub(crate) fn close(table: Writer<Vec<u8>>) -> Result<Vec<u8>, AllocError>
    ensures { IfOk result (λ bytes. bytes.items ≡ table_bytes table) }
{
    match table.into_inner() {
        Ok(bytes) => Ok(bytes),
        Err(_) => Err(AllocError),
    }
}

fn put_tune(table: &mut Writer<Vec<u8>>, row: &IndexRow) -> Result<(), AllocError>
    requires { IsOpenTable table.old }
    ensures is_open { OnOk result (IsOpenTable table.new) }
    ensures bytes { OnOk result (table_bytes table.new
        ≡ table_bytes table.old ++ record_bytes (tune_fields row.now)) }
{
    let mut number = Buffer::new();
    put_record(
        table,
        &[
            number.format(row.number).as_bytes(),
            title_field(&row.title),
        ],
    )
}

fn put_place(table: &mut Writer<Vec<u8>>, place: u64, row: &IndexRow) -> Result<(), AllocError>
    requires { IsOpenTable table.old }
    ensures is_open { OnOk result (IsOpenTable table.new) }
    ensures bytes { OnOk result (table_bytes table.new
        ≡ table_bytes table.old ++ record_bytes (decimal place ∷ tune_fields row.now)) }
{
    let mut places = Buffer::new();
    let mut numbers = Buffer::new();
    put_record(
        table,
        &[
            places.format(place).as_bytes(),
            numbers.format(row.number).as_bytes(),
            title_field(&row.title),
        ],
    )
}

fn put_set(table: &mut Writer<Vec<u8>>, row: &SetRow) -> Result<(), AllocError>
    requires { IsOpenTable table.old }
    ensures is_open { OnOk result (IsOpenTable table.new) }
    ensures bytes { OnOk result (table_bytes table.new
        ≡ table_bytes table.old ++ record_bytes (set_fields row.now)) }
{
    let mut places = Buffer::new();
    put_record(
        table,
        &[row.name.as_slice(), places.format(row.places).as_bytes()],
    )
}

// The bytes of a title, none where there is no title.
pub(crate) fn title_field(title: &Option<ByteText>) -> &[u8]
    ensures { result.now ≡ title_field title.now }
{
    match title {
        Some(title) => title.as_slice(),
        None => b"",
    }
}
