// The fields of a tune's header, and the values of lines.
//
// - `header`, a tune: its titles, its rhythm and its key, as lines of a header.
// - `trim`, `uncomment`, `value`, a text: what is left of it.
// - `blanks`: all blanks.
use crate::cases::{Case, tunes_of};
use abc_fields::{Titles, TuneText, field_value, fields, is_blank, trim_blanks, without_comment};
use std::alloc::Global;
use test_cases::Answer;

pub(crate) fn answer(alloc: Global, case: &Case, out: &mut Answer) -> Option<()> {
    let text = case.text(0);
    match case.call {
        "header" => match tunes_of(alloc, text).as_slice() {
            [tune] => write_header(tune, out),
            _ => out.say("not one tune"),
        },
        "trim" => out.add(trim_blanks(text)),
        "uncomment" => out.add(without_comment(text)),
        "value" => out.add(field_value(text)),
        "blanks" => write_blanks(out),
        _ => return None,
    }
    Some(())
}

fn write_header(tune: &TuneText, out: &mut Answer) {
    let found = fields(tune);
    write_titles(&found.titles, out);
    if let Some(rhythm) = found.rhythm {
        out.say("R:");
        out.add(rhythm);
        out.say("\n");
    }
    out.say("K:");
    out.add(found.key);
}

fn write_titles(titles: &Titles, out: &mut Answer) {
    let all = titles.as_slice();
    for &title in all {
        out.say("T:");
        out.add(title);
        out.say("\n");
    }
    if titles.len() != all.len() || titles.is_empty() != all.is_empty() {
        out.say("of another length\n");
    }
    if titles.first() != all.first().copied() {
        out.say("with another first\n");
    }
}

// Each character that is blank.
fn write_blanks(out: &mut Answer) {
    for number in 0..=0x10_FFFF_u32 {
        if let Some(character) = char::from_u32(number)
            && is_blank(character)
        {
            out.show(character);
        }
    }
}
