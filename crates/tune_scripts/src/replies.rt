// Writes replies.
ghost use Rattle.std.specs.Prelude.{◌≡◌, true, OnOk};
ghost use Rattle.std.specs.Io.KnownBytes.{Appends};
ghost use Rattle.tune_scripts.specs.Replies.{reply_bytes, shown_bytes, exported_bytes};
ghost use Rattle.tune_scripts.specs.Replies.{refusal_bytes, answer_bytes, bad_line_bytes};
ghost use Rattle.tune_scripts.specs.Replies.{line_of};
ghost use Rattle.tune_scripts.specs.Streams.{IsWrite, streams_in};
ghost use Rattle.tune_store.specs.declared.command.Reply.TheVariants as reply;

use crate::console::Console;
use crate::numbered_words::{NumberedWords, write_between, write_number, write_numbers};
use crate::reply_rows::{write_name, write_name_number, write_places, write_rows, write_set_rows};
use abc_fields::{ByteText, TuneFault};
use std::io;
use tune_sets::{SetName, SetRowList};
use tune_store::{Refusal, Reply, RowList, Tune};

/// Writes an answer to a command as a script is told it, and flushes it.
///
/// # Errors
///
/// Those of the writer.
pub fn write_answer<C: Console>(console: &mut C, answer: &Result<Reply, Refusal>) -> io::Result<()>
    ensures bytes { let bytes = answer_bytes answer.now in OnOk result
        (Appends (C.output console.old).bytes (C.output console.new).bytes bytes) }
    ensures flushed { OnOk result ((C.output console.new).flushed ≡ true) }
    ensures rest { IsWrite (streams_in C.Console console.old console.new) result }
{
    match answer {
        Ok(reply) => write_reply(console, reply)?,
        Err(refusal) => write_refusal(console, refusal)?,
    }
    console.flush()
}

// Writes that a line is no command, and flushes it.
pub(crate) fn write_bad_line<C: Console>(console: &mut C) -> io::Result<()>
    ensures bytes { let bytes = bad_line_bytes in OnOk result
        (Appends (C.output console.old).bytes (C.output console.new).bytes bytes) }
    ensures flushed { OnOk result ((C.output console.new).flushed ≡ true) }
    ensures rest { IsWrite (streams_in C.Console console.old console.new) result }
{
    console.write(b"refused 30 BadLine\n")?;
    console.flush()
}

/// Writes the layout of an archive, and how many tunes and set lists it holds, and flushes it.
///
/// # Errors
///
/// Those of the writer.
pub fn write_counts<C: Console>(
    console: &mut C,
    layout: u64,
    tunes: u64,
    sets: u64,
) -> io::Result<()>
    ensures bytes { let bytes = line_of layout tunes sets in OnOk result
        (Appends (C.output console.old).bytes (C.output console.new).bytes bytes) }
    ensures flushed { OnOk result ((C.output console.new).flushed ≡ true) }
    ensures rest { IsWrite (streams_in C.Console console.old console.new) result }
{
    let mut line = NumberedWords::new();
    line.put(b"\n");
    line.put_number(sets);
    line.put(b" sets ");
    line.put_number(tunes);
    line.put(b" tunes ");
    line.put_number(layout);
    line.put(b"layout ");
    console.write(line.as_slice())?;
    console.flush()
}

fn write_reply<C: Console>(console: &mut C, reply: &Reply) -> io::Result<()>
    ensures bytes { let bytes = reply_bytes reply.now in OnOk result
        (Appends (C.output console.old).bytes (C.output console.new).bytes bytes) }
    ensures rest { IsWrite (streams_in C.Console console.old console.new) result }
{
    match reply {
        Reply::Imported { first, last } => {
            write_numbers(console, b"ok import ", u64::from(*first), u64::from(*last))
        },
        Reply::Replaced { number, revision } => {
            write_numbers(
                console,
                b"ok replace ",
                u64::from(*number),
                u64::from(*revision),
            )
        }
        Reply::Deleted { number } => write_number(console, b"ok delete ", u64::from(*number)),
        Reply::Renumbered { number, to } => {
            write_numbers(console, b"ok renumber ", u64::from(*number), u64::from(*to))
        },
        Reply::Shown(tune) => write_shown(console, tune),
        Reply::Found(rows) => write_found(console, rows),
        Reply::Titled(rows) => write_titled(console, rows),
        Reply::SetMade { name } => write_name(console, b"ok set-new ", name),
        Reply::SetAdded { name, place } => {
            write_name_number(console, b"ok set-add ", name, *place)
        }
        Reply::SetCut { name, place } => {
            write_name_number(console, b"ok set-cut ", name, *place as usize)
        }
        Reply::SetDropped { name } => write_name(console, b"ok set-drop ", name),
        Reply::Sets(rows) => write_sets(console, rows),
        Reply::SetShown { name, rows } => write_set_shown(console, name, rows),
        Reply::Exported(book) => write_exported(console, book.as_slice()),
        Reply::SetExported { name, book } => write_set_exported(console, name, book),
        Reply::Upgraded => console.write(b"ok upgrade 2\n"),
    }
}

fn write_shown<C: Console>(console: &mut C, tune: &Tune) -> io::Result<()>
    ensures bytes { let bytes = shown_bytes tune.now in OnOk result
        (Appends (C.output console.old).bytes (C.output console.new).bytes bytes) }
    ensures rest { IsWrite (streams_in C.Console console.old console.new) result }
{
    let number = u64::from(tune.number);
    let text = tune.text.bytes();
    let mut words = NumberedWords::new();
    words.put(b"\n");
    words.put_number(number);
    words.put(b"X:");
    let len = words.as_slice().len() + text.len();
    words.put(b"\n");
    words.put_number(len as u64);
    words.put(b" ");
    words.put_number(u64::from(tune.revision));
    words.put(b" ");
    words.put_number(number);
    words.put(b"ok show ");
    console.write(words.as_slice())?;
    console.write(text)
}

fn write_exported<C: Console>(console: &mut C, book: &[u8]) -> io::Result<()>
    ensures bytes { let bytes = exported_bytes book.now in OnOk result
        (Appends (C.output console.old).bytes (C.output console.new).bytes bytes) }
    ensures rest { IsWrite (streams_in C.Console console.old console.new) result }
{
    let len = book.len();
    write_number(console, b"ok export ", len as u64)?;
    console.write(book)
}

fn write_found<C: Console>(console: &mut C, rows: &RowList) -> io::Result<()>
    ensures bytes { let bytes = reply_bytes (reply.Found rows.now) in OnOk result
        (Appends (C.output console.old).bytes (C.output console.new).bytes bytes) }
    ensures rest { IsWrite (streams_in C.Console console.old console.new) result }
{
    let rows = rows.as_slice();
    let count = rows.len();
    write_number(console, b"ok find ", count as u64)?;
    write_rows(console, rows)
}

fn write_titled<C: Console>(console: &mut C, rows: &RowList) -> io::Result<()>
    ensures bytes { let bytes = reply_bytes (reply.Titled rows.now) in OnOk result
        (Appends (C.output console.old).bytes (C.output console.new).bytes bytes) }
    ensures rest { IsWrite (streams_in C.Console console.old console.new) result }
{
    let rows = rows.as_slice();
    let count = rows.len();
    write_number(console, b"ok titles ", count as u64)?;
    write_rows(console, rows)
}

fn write_sets<C: Console>(console: &mut C, rows: &SetRowList) -> io::Result<()>
    ensures bytes { let bytes = reply_bytes (reply.Sets rows.now) in OnOk result
        (Appends (C.output console.old).bytes (C.output console.new).bytes bytes) }
    ensures rest { IsWrite (streams_in C.Console console.old console.new) result }
{
    let rows = rows.as_slice();
    let count = rows.len();
    write_number(console, b"ok sets ", count as u64)?;
    write_set_rows(console, rows)
}

fn write_set_shown<C: Console>(console: &mut C, name: &SetName, rows: &RowList) -> io::Result<()>
    ensures bytes { let bytes = reply_bytes (reply.SetShown name.now rows.now) in OnOk result
        (Appends (C.output console.old).bytes (C.output console.new).bytes bytes) }
    ensures rest { IsWrite (streams_in C.Console console.old console.new) result }
{
    let rows = rows.as_slice();
    write_name_number(console, b"ok set-show ", name, rows.len())?;
    write_places(console, rows)
}

fn write_set_exported<C: Console>(
    console: &mut C,
    name: &SetName,
    book: &ByteText,
) -> io::Result<()>
    ensures bytes { let bytes = reply_bytes (reply.SetExported name.now book.now) in OnOk result
        (Appends (C.output console.old).bytes (C.output console.new).bytes bytes) }
    ensures rest { IsWrite (streams_in C.Console console.old console.new) result }
{
    let book = book.as_slice();
    write_name_number(console, b"ok export-set ", name, book.len())?;
    console.write(book)
}

fn write_refusal<C: Console>(console: &mut C, refusal: &Refusal) -> io::Result<()>
    ensures bytes { let bytes = refusal_bytes refusal.now in OnOk result
        (Appends (C.output console.old).bytes (C.output console.new).bytes bytes) }
    ensures rest { IsWrite (streams_in C.Console console.old console.new) result }
{
    match refusal {
        Refusal::NoTune => console.write(b"refused 1 NoTune\n"),
        Refusal::BadTune { place, fault } => write_bad_tune(console, *place, *fault),
        Refusal::NotOne { count } => write_number(console, b"refused 3 NotOne ", *count as u64),
        Refusal::Unknown { number } => {
            write_number(console, b"refused 4 Unknown ", *number as u64)
        },
        Refusal::Stale { revision } => {
            write_number(console, b"refused 5 Stale ", *revision as u64)
        },
        Refusal::Worn => console.write(b"refused 6 Worn\n"),
        Refusal::Taken { number } => { write_number(console, b"refused 7 Taken ", *number as u64) },
        Refusal::InSet { name } => write_name(console, b"refused 8 InSet ", name),
        Refusal::ArchiveFull => console.write(b"refused 9 ArchiveFull\n"),
        Refusal::NumbersSpent => console.write(b"refused 10 NumbersSpent\n"),
        Refusal::NoSuchSet => console.write(b"refused 11 NoSuchSet\n"),
        Refusal::SetTaken => console.write(b"refused 12 SetTaken\n"),
        Refusal::SetFull => console.write(b"refused 13 SetFull\n"),
        Refusal::SetsFull => console.write(b"refused 14 SetsFull\n"),
        Refusal::NoSuchPlace => console.write(b"refused 15 NoSuchPlace\n"),
        Refusal::BadName => console.write(b"refused 16 BadName\n"),
        Refusal::BadNumber => console.write(b"refused 17 BadNumber\n"),
        Refusal::BadQuery => console.write(b"refused 18 BadQuery\n"),
        Refusal::BookTooLong => console.write(b"refused 19 BookTooLong\n"),
        Refusal::OutOfMemory => console.write(b"refused 21 OutOfMemory\n"),
        Refusal::Device => console.write(b"refused 22 Device\n"),
        Refusal::Closed => console.write(b"refused 23 Closed\n"),
    }
}

fn write_bad_tune<C: Console>(console: &mut C, place: usize, fault: TuneFault) -> io::Result<()>
    ensures bytes { let bytes = refusal_bytes (Refusal.BadTune place fault) in OnOk result
        (Appends (C.output console.old).bytes (C.output console.new).bytes bytes) }
    ensures rest { IsWrite (streams_in C.Console console.old console.new) result }
{
    match fault {
        TuneFault::NoKey => {
            write_between(console, b"refused 2 BadTune ", place as u64, b" NoKey\n")
        }
        TuneFault::TooLong => {
            write_between(console, b"refused 2 BadTune ", place as u64, b" TooLong\n")
        }
    }
}
