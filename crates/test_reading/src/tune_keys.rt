// The keys at which tunes stand in an index, and the ranges in which queries look for them, in
// hexadecimal (this archive's profile).
//
// - `title`, a tune: the keys of its titles.
// - `rhythm`, a tune: the key of its rhythm.
// - `scale`, a tune: the key of its scale.
// - `incipit`, `incipit-of-twelve`, a tune: the key of its first eight notes that count, or twelve.
// - `title-range`, `rhythm-range`, a query: the first and the last key of what it finds.
// - `scale-range`, a key text: the first and the last key of its scale.
// - `incipit-range`, `incipit-of-twelve-range`, a query: the first and the last key of the incipits
//   that begin with it, by eight notes or by twelve.
use crate::cases::{Case, tunes_of};
use abc_fields::TuneText;
use abc_keys::key_of;
use index_keys::{IndexKey, Keyed};
use std::alloc::Global;
use test_cases::Answer;
use tune_incipit::{EightNoteKeys, ScaleKeys, TwelveNoteKeys, query_steps};
use tune_titles::{RhythmKeys, TitleKeys, TitlePrefix};

pub(crate) fn answer(alloc: Global, case: &Case, out: &mut Answer) -> Option<()> {
    match case.call {
        "title" => write_keys::<TitleKeys>(alloc, case.text(0), out)?,
        "rhythm" => write_keys::<RhythmKeys>(alloc, case.text(0), out)?,
        "scale" => write_keys::<ScaleKeys>(alloc, case.text(0), out)?,
        "incipit" => write_keys::<EightNoteKeys>(alloc, case.text(0), out)?,
        "incipit-of-twelve" => write_twelve_note_keys(alloc, case.text(0), out)?,
        "title-range" => write_range(&TitleKeys::range(&TitlePrefix::of(case.text(0))), out),
        "rhythm-range" => write_range(&RhythmKeys::range(&case.text(0)), out),
        "scale-range" => write_range(&ScaleKeys::range(&key_of(case.text(0)).scale()?), out),
        "incipit-range" => write_incipit_range(case.text(0), out),
        "incipit-of-twelve-range" => write_twelve_note_range(case.text(0), out),
        _ => return None,
    }
    Some(())
}

fn write_incipit_range(query: &[u8], out: &mut Answer) {
    if query.len() > 4_000_000 {
        out.say("too long");
        return;
    }
    match query_steps(query, 8) {
        Ok(front) => write_range(&EightNoteKeys::range(&front), out),
        Err(_) => out.say("refused"),
    }
}

fn write_twelve_note_range(query: &[u8], out: &mut Answer) {
    if query.len() > 4_000_000 {
        out.say("too long");
        return;
    }
    match query_steps(query, 12) {
        Ok(front) => write_range(&TwelveNoteKeys::range(&front), out),
        Err(_) => out.say("refused"),
    }
}

// The keys of a tune, a line for each.
fn write_keys<K: Keyed<32, Text = TuneText>>(
    alloc: Global,
    book: &[u8],
    out: &mut Answer,
) -> Option<()> {
    let tunes = tunes_of(alloc, book);
    let [tune] = tunes.as_slice() else {
        return None;
    };
    write_all_keys(K::keys(alloc, tune).ok()?.as_slice(), out);
    Some(())
}

fn write_twelve_note_keys(alloc: Global, book: &[u8], out: &mut Answer) -> Option<()> {
    let tunes = tunes_of(alloc, book);
    let [tune] = tunes.as_slice() else {
        return None;
    };
    write_all_keys(TwelveNoteKeys::keys(alloc, tune).ok()?.as_slice(), out);
    Some(())
}

fn write_all_keys<const W: usize>(keys: &[IndexKey<W>], out: &mut Answer) {
    if keys.is_empty() {
        out.say("no key");
    }
    for key in keys {
        if !out.as_slice().is_empty() {
            out.say("\n");
        }
        out.show_hexadecimal(key.bytes());
    }
}

fn write_range<const W: usize>(range: &(IndexKey<W>, IndexKey<W>), out: &mut Answer) {
    let (low, high) = range;
    out.show_hexadecimal(low.bytes());
    out.say(" ");
    out.show_hexadecimal(high.bytes());
}
