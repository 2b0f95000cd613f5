// Queries of each kind.
//
// - `title`, `rhythm`, `key`, `notes`, a query and a tune: whether it finds the tune, or is bad, by
//   openings of eight notes.
// - `twelve`, notes and a tune: the same by openings of twelve.
// - `length`, a text: its length, where a query keeps it.
ghost use Rattle.std.specs.Prelude.{◌≤◌};

use crate::cases::{Case, tunes_of};
use abc_fields::ByteText;
use std::alloc::Global;
use test_cases::Answer;
use tune_queries::{Query, QueryText};

pub(crate) fn answer(alloc: Global, case: &Case, out: &mut Answer) -> Option<()> {
    let text = QueryText::new(ByteText::copy_of(alloc, case.text(0)).ok()?);
    match (case.call, text) {
        ("length", Some(text)) => out.show(text.bytes().len()),
        ("length", None) => out.say("too long"),
        ("title", Some(text)) => write_outcome(alloc, Query::Title(text), 8, case.text(1), out)?,
        ("rhythm", Some(text)) => write_outcome(alloc, Query::Rhythm(text), 8, case.text(1), out)?,
        ("key", Some(text)) => write_outcome(alloc, Query::Key(text), 8, case.text(1), out)?,
        ("notes", Some(text)) => write_outcome(alloc, Query::Notes(text), 8, case.text(1), out)?,
        ("twelve", Some(text)) => write_outcome(alloc, Query::Notes(text), 12, case.text(1), out)?,
        _ => return None,
    }
    Some(())
}

fn write_outcome(
    alloc: Global,
    query: Query,
    notes: usize,
    book: &[u8],
    out: &mut Answer,
) -> Option<()>
    requires few { 2 ≤ notes }
    requires many { notes ≤ 12 }
{
    let tunes = tunes_of(alloc, book);
    let [tune] = tunes.as_slice() else {
        return None;
    };
    let outcome = match query.sought(notes) {
        Ok(sought) if sought.matches(notes, tune) => "finds it",
        Ok(_) => "does not find it",
        Err(_) => "is bad",
    };
    out.say(outcome);
    Some(())
}
