// Lists as the language of scripts has them: a line for each row.
ghost use Rattle.std.specs.Prelude.{◌≡◌, ◌++◌, IfOk, OnOk, codes, decimal};
ghost use Rattle.tune_scripts.specs.Replies.{places_bytes, row_bytes, rows_bytes};
ghost use Rattle.tune_scripts.specs.Replies.{set_rows_bytes, title_bytes};

use abc_fields::ByteText;
use itoa::Buffer;
use std::alloc::{AllocError, Global};
use tune_sets::SetRow;
use tune_store::IndexRow;

// A row for each tune.
pub(crate) fn tune_rows(alloc: Global, rows: &[IndexRow]) -> Result<Vec<u8>, AllocError>
    ensures { IfOk result (λ bytes. bytes.items ≡ rows_bytes rows.now) }
{
    let mut out = Vec::new(alloc);
    for row in rows {
        put_row(&mut out, row)?;
    }
    Ok(out)
}

// A row for each tune, after its place.
pub(crate) fn place_rows(alloc: Global, rows: &[IndexRow]) -> Result<Vec<u8>, AllocError>
    ensures { IfOk result (λ bytes. bytes.items ≡ places_bytes 1 rows.now) }
{
    let mut out = Vec::new(alloc);
    for i in 0..rows.len() {
        let place = i + 1;
        put_number(&mut out, place as u64)?;
        out.extend_from_slice(b" ")?;
        put_row(&mut out, &rows[i])?;
    }
    Ok(out)
}

// A row for each set list.
pub(crate) fn set_rows(alloc: Global, rows: &[SetRow]) -> Result<Vec<u8>, AllocError>
    ensures { IfOk result (λ bytes. bytes.items ≡ set_rows_bytes rows.now) }
{
    let mut out = Vec::new(alloc);
    for row in rows {
        out.extend_from_slice(row.name.as_slice())?;
        out.extend_from_slice(b" ")?;
        put_number(&mut out, row.places as u64)?;
        out.extend_from_slice(b"\n")?;
    }
    Ok(out)
}

fn put_row(out: &mut Vec<u8>, row: &IndexRow) -> Result<(), AllocError>
    ensures { OnOk result (out.new.items ≡ out.old.items ++ row_bytes row.now) }
{
    put_number(out, u64::from(row.number))?;
    put_title(out, &row.title)?;
    out.extend_from_slice(b"\n")
}

// Puts a space and the title, where there is one, behind these bytes.
pub(crate) fn put_title(out: &mut Vec<u8>, title: &Option<ByteText>) -> Result<(), AllocError>
    ensures { OnOk result (out.new.items ≡ out.old.items ++ title_bytes title.now) }
{
    match title {
        Some(title) => {
            out.extend_from_slice(b" ")?;
            out.extend_from_slice(title.as_slice())
        }
        None => Ok(()),
    }
}

// Puts a number in decimal behind these bytes.
pub(crate) fn put_number(out: &mut Vec<u8>, number: u64) -> Result<(), AllocError>
    ensures { OnOk result (out.new.items ≡ out.old.items ++ decimal number) }
{
    let mut buffer = Buffer::new();
    out.extend_from_slice(buffer.format(number).as_bytes())
}
