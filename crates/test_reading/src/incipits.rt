// The opening notes of tunes and of queries, as steps in semitones (this archive's profile).
//
// - `tune`, a tune: the steps of its first eight notes that count.
// - `query`, how many notes, and a query: its steps.
// - `begins`, a query or a tune, and a tune: whether the one begins the other.
use crate::cases::{Case, tunes_of};
use std::alloc::Global;
use test_cases::Answer;
use tune_incipit::{Steps, begins, query_steps, steps};

pub(crate) fn answer(alloc: Global, case: &Case, out: &mut Answer) -> Option<()> {
    match case.call {
        "tune" => write_steps(&steps_of_tune(alloc, case.text(0))?, out),
        "query" => match steps_of_query(case.text(0), case.text(1))? {
            Some(found) => write_steps(&found, out),
            None => out.say("refused"),
        },
        "begins" => {
            let front = steps_of_front(alloc, case.text(0))?;
            let whole = steps_of_tune(alloc, case.text(1))?;
            out.show(begins(&front, &whole));
        }
        _ => return None,
    }
    Some(())
}

fn write_steps(found: &Steps, out: &mut Answer) {
    let all = found.as_slice();
    for step in all {
        out.space();
        out.show(*step);
    }
    if found.len() != all.len() || found.is_empty() != all.is_empty() {
        out.say("of another length");
    }
}

fn steps_of_tune(alloc: Global, book: &[u8]) -> Option<Steps> {
    match tunes_of(alloc, book).as_slice() {
        [tune] => Some(steps(tune, 8)),
        _ => None,
    }
}

// The steps of a query, or nothing within where it is refused.
fn steps_of_query(count: &[u8], query: &[u8]) -> Option<Option<Steps>> {
    let notes = match count {
        [digit @ b'2'..=b'9'] => usize::from(*digit - b'0'),
        b"12" => 12,
        _ => return None,
    };
    if query.len() > 4_000_000 {
        return None;
    }
    match query_steps(query, notes) {
        Ok(front) => Some(Some(front.steps)),
        Err(_) => Some(None),
    }
}

fn steps_of_front(alloc: Global, text: &[u8]) -> Option<Steps> {
    if text.starts_with(b"X:") {
        return steps_of_tune(alloc, text);
    }
    steps_of_query(b"8", text)?
}
