// The notes of whole tunes (ABC 2.1, 2.2 and 4).
//
// - `pitches`, a book: the pitches of the notes of its first tune, as `line` writes them, and of
//   each other one that has others.
// - `places`, a book: where each note stands, and its text.
use crate::cases::{Case, tunes_of};
use crate::notes::write_tune;
use abc_fields::TuneText;
use abc_notes::Notes;
use std::alloc::Global;
use test_cases::Answer;

pub(crate) fn answer(alloc: Global, case: &Case, out: &mut Answer) -> Option<()> {
    let tunes = tunes_of(alloc, case.text(0));
    match (case.call, tunes.as_slice()) {
        ("pitches", [tune, others @ ..]) => write_pitches(alloc, tune, others, out),
        ("places", [tune]) => write_places(tune, out),
        _ => return None,
    }
    Some(())
}

fn write_pitches(alloc: Global, tune: &TuneText, others: &[TuneText], out: &mut Answer) {
    write_tune(tune, out);
    for other in others {
        let mut found = Answer::new(alloc);
        write_tune(other, &mut found);
        if found.as_slice() != out.as_slice() {
            out.say("; then ");
            out.add(found.as_slice());
        }
    }
}

fn write_places(tune: &TuneText, out: &mut Answer) {
    for note in Notes::of_tune(tune) {
        out.show(format_args!("{} ", note.from));
        out.add(note.text);
        out.say("\n");
    }
}
