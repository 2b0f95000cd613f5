// Titles, and which of them a query finds.
//
// - `title`, a title: what it is sorted by, and as an index shows it.
// - `prefix`, a title and a query: whether the query finds it.
// - `tune`, `rhythm`, a tune and a query: whether that finds it by a title, or by its rhythm.
// - `copied`, a tune: its titles.
use crate::cases::{Case, tunes_of};
use abc_fields::TuneText;
use std::alloc::{AllocError, Global};
use test_cases::Answer;
use tune_titles::{
    TitlePrefix, index_title, prefix_matches, rhythm_matches, sort_title, title_matches_tune,
    titles_of,
};

pub(crate) fn answer(alloc: Global, case: &Case, out: &mut Answer) -> Option<()> {
    let text = case.text(0);
    let query = case.text(1);
    match case.call {
        "title" => write_shown(alloc, text, out).ok()?,
        "prefix" => {
            let by_prefix = TitlePrefix::of(query).matches(text);
            write_found(prefix_matches(query, text), by_prefix, out);
        }
        _ => match tunes_of(alloc, text).as_slice() {
            [tune] => return answer_of_tune(alloc, case, tune, out),
            _ => return None,
        },
    }
    Some(())
}

fn answer_of_tune(alloc: Global, case: &Case, tune: &TuneText, out: &mut Answer) -> Option<()> {
    let query = case.text(1);
    match case.call {
        "tune" => {
            let by_prefix = TitlePrefix::of(query).matches_tune(tune);
            write_found(title_matches_tune(query, tune), by_prefix, out);
        }
        "rhythm" => out.show(rhythm_matches(query, tune)),
        "copied" => write_titles(alloc, tune, out).ok()?,
        _ => return None,
    }
    Some(())
}

fn write_shown(alloc: Global, title: &[u8], out: &mut Answer) -> Result<(), AllocError> {
    out.add(sort_title(alloc, title)?.as_slice());
    out.say(" | ");
    out.add(index_title(alloc, title)?.as_slice());
    Ok(())
}

// Writes whether a title is found, by the plain function and by the one that is made ready.
fn write_found(found: bool, by_prefix: bool, out: &mut Answer) {
    if found == by_prefix {
        out.show(found);
    } else {
        out.say("found by one of two");
    }
}

fn write_titles(alloc: Global, tune: &TuneText, out: &mut Answer) -> Result<(), AllocError> {
    let titles = titles_of(alloc, tune)?;
    for title in titles.as_slice() {
        out.add(title.as_slice());
        out.say("\n");
    }
    Ok(())
}
