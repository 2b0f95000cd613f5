// Calls over a store that keeps a record of its device.
use crate::calls::show_end;
use abc_fields::ByteText;
use std::alloc::Global;
use std::fs::Files;
use std::io;
use test_cases::{Answer, Words, no_data, read_bytes};
use test_stores::{RecordedStore, apply_to_open};
use tune_store::{Command, Reply};

/// What an import and two questions come to, of which the second is refused, and the entries.
pub(crate) fn show_import(alloc: Global, answer: &mut Answer) -> io::Result<()> {
    let import = Command::Import(ByteText::copy_of(alloc, b"X:1\nK:C\n")?);
    let mut store = RecordedStore::new(alloc, 100)?;
    let imported = apply_to_open(&mut store, &import).map(span);
    let is_shown = apply_to_open(&mut store, &Command::Show(1)).map(shows_key);
    let refusal = apply_to_open(&mut store, &Command::Show(2)).err();
    let entries = store.entries();
    answer.show(format_args!("{imported:?} {is_shown:?} {refusal:?} {entries:?}"));
    Ok(())
}

// The first number and the last of a reply to an import.
fn span(reply: Reply) -> (u32, u32) {
    match reply {
        Reply::Imported { first, last } => (first, last),
        _ => (0, 0),
    }
}

// Whether a reply shows the tune that was imported.
fn shows_key(reply: Reply) -> bool {
    match reply {
        Reply::Shown(tune) => tune.text.bytes() == b"K:C\n".as_slice(),
        _ => false,
    }
}

/// Runs a script over a store of so many entries.
pub(crate) fn show_record<R: Files + AllocGlobal>(
    rt: &R,
    mut words: Words<'_>,
    answer: &mut Answer,
) -> io::Result<()> {
    let most = words.size().ok_or(no_data())?;
    let name = words.word();
    let script = read_bytes(rt, name, "script")?;
    let wanted = read_bytes(rt, name, "replies")?;
    let mut store = RecordedStore::new(rt.alloc(), most)?;
    show_end(rt.alloc(), &mut store, &script, &wanted, answer);
    let entries = store.entries();
    answer.show(format_args!(" {entries:?}"));
    Ok(())
}
