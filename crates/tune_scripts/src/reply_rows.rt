// Writes the rows of replies.
ghost use Rattle.std.specs.Prelude.{OnOk};
ghost use Rattle.std.specs.Io.KnownBytes.{Appends};
ghost use Rattle.tune_scripts.specs.Replies.{row_bytes, rows_bytes, places_bytes, set_rows_bytes};
ghost use Rattle.tune_scripts.specs.Replies.{with_name, with_name_number};
ghost use Rattle.tune_scripts.specs.Streams.{IsWrite, streams_in};

use crate::console::Console;
use crate::numbered_words::{write_between, write_number};
use std::io;
use tune_sets::{SetName, SetRow};
use tune_store::IndexRow;

// Writes a row for each tune.
pub(crate) fn write_rows<C: Console>(console: &mut C, rows: &[IndexRow]) -> io::Result<()>
    ensures bytes { let bytes = rows_bytes rows.now in OnOk result
        (Appends (C.output console.old).bytes (C.output console.new).bytes bytes) }
    ensures rest { IsWrite (streams_in C.Console console.old console.new) result }
{
    for row in rows {
        write_row(console, row)?;
    }
    Ok(())
}

// Writes a row for each tune, after its place.
pub(crate) fn write_places<C: Console>(console: &mut C, rows: &[IndexRow]) -> io::Result<()>
    ensures bytes { let bytes = places_bytes 1 rows.now in OnOk result
        (Appends (C.output console.old).bytes (C.output console.new).bytes bytes) }
    ensures rest { IsWrite (streams_in C.Console console.old console.new) result }
{
    for i in 0..rows.len() {
        let place = i + 1;
        write_between(console, b"", place as u64, b" ")?;
        write_row(console, &rows[i])?;
    }
    Ok(())
}

// Writes a row for each set list.
pub(crate) fn write_set_rows<C: Console>(console: &mut C, rows: &[SetRow]) -> io::Result<()>
    ensures bytes { let bytes = set_rows_bytes rows.now in OnOk result
        (Appends (C.output console.old).bytes (C.output console.new).bytes bytes) }
    ensures rest { IsWrite (streams_in C.Console console.old console.new) result }
{
    for row in rows {
        write_name_number(console, b"", &row.name, row.places)?;
    }
    Ok(())
}

fn write_row<C: Console>(console: &mut C, row: &IndexRow) -> io::Result<()>
    ensures bytes { let bytes = row_bytes row.now in OnOk result
        (Appends (C.output console.old).bytes (C.output console.new).bytes bytes) }
    ensures rest { IsWrite (streams_in C.Console console.old console.new) result }
{
    let number = u64::from(row.number);
    match &row.title {
        None => write_number(console, b"", number),
        Some(title) => {
            write_between(console, b"", number, b" ")?;
            console.write(title.as_slice())?;
            console.write(b"\n")
        }
    }
}

// Writes a line of words and the name of a set list.
pub(crate) fn write_name<C: Console>(
    console: &mut C,
    words: &[u8],
    name: &SetName,
) -> io::Result<()>
    ensures bytes { let bytes = with_name words.now name.now in OnOk result
        (Appends (C.output console.old).bytes (C.output console.new).bytes bytes) }
    ensures rest { IsWrite (streams_in C.Console console.old console.new) result }
{
    console.write(words)?;
    console.write(name.as_slice())?;
    console.write(b"\n")
}

// Writes a line of words, the name of a set list, and a number.
pub(crate) fn write_name_number<C: Console>(
    console: &mut C,
    words: &[u8],
    name: &SetName,
    number: usize,
) -> io::Result<()>
    ensures bytes { let bytes = with_name_number words.now name.now number in OnOk result
        (Appends (C.output console.old).bytes (C.output console.new).bytes bytes) }
    ensures rest { IsWrite (streams_in C.Console console.old console.new) result }
{
    console.write(words)?;
    console.write(name.as_slice())?;
    write_number(console, b" ", number as u64)
}
