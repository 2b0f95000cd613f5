// The notes of music lines and their pitches (ABC 2.1, 4). A pitch counts semitones from `C`. A
// note that does not count for the melody stands in parentheses.
//
// - `line`, a key and a line: the pitches of its notes; and those that it has as the music of a
//   tune, where they are others.
// - `alone`, a key and a line: the pitches of its notes.
// - `octaves`: of how many pairs of octaves each F has its own accidental, up to 20 up and down.
use crate::cases::{Case, tunes_of};
use abc_fields::TuneText;
use abc_notes::{Notes, key_of};
use std::alloc::{AllocError, Global};
use test_cases::Answer;

pub(crate) fn answer(alloc: Global, case: &Case, out: &mut Answer) -> Option<()> {
    let key = case.text(0);
    let line = case.text(1);
    match case.call {
        "line" => write_both(alloc, key, line, out).ok()?,
        "alone" => write_line(key, line, out),
        "octaves" => out.show(count_of_octaves(alloc).ok()?),
        _ => return None,
    }
    Some(())
}

// Writes pitches, after nothing. Each note has to be a part of the text, behind the one before it.
fn write_pitches(text: &[u8], notes: Notes, out: &mut Answer) {
    let mut end = 0;
    for note in notes {
        out.space();
        let pitch = note.pitch;
        if note.counts {
            out.show(format_args!("{pitch}"));
        } else {
            out.show(format_args!("({pitch})"));
        }
        if note.from < end || note.to <= note.from {
            out.say(" at no place");
        }
        if text.get(note.from..note.to) != Some(note.text) {
            out.say(" of another text");
        }
        end = note.to;
    }
}

/// Writes the pitches of the notes of a tune.
pub(crate) fn write_tune(tune: &TuneText, out: &mut Answer) {
    write_pitches(tune.bytes(), Notes::of_tune(tune), out);
}

fn write_line(key: &[u8], line: &[u8], out: &mut Answer) {
    if line.len() > 4_000_000 {
        out.say("too long");
    } else {
        write_pitches(line, Notes::of_line(line, &key_of(key)), out);
    }
}

fn write_both(alloc: Global, key: &[u8], line: &[u8], out: &mut Answer) -> Result<(), AllocError> {
    write_line(key, line, out);
    let mut in_tune = Answer::new(alloc);
    write_as_music(alloc, key, line, &mut in_tune)?;
    if in_tune.as_slice() != out.as_slice() {
        out.say("; in a tune ");
        out.add(in_tune.as_slice());
    }
    Ok(())
}

fn write_as_music(
    alloc: Global,
    key: &[u8],
    line: &[u8],
    out: &mut Answer,
) -> Result<(), AllocError> {
    let mut book = b"X:1\nK:".to_vec(alloc)?;
    book.extend_from_slice(key)?;
    book.push(b'\n')?;
    book.extend_from_slice(line)?;
    match tunes_of(alloc, book.as_slice()).as_slice() {
        [] => out.say("no tune"),
        [tune, ..] => write_tune(tune, out),
    }
    Ok(())
}

fn count_of_octaves(alloc: Global) -> Result<u32, AllocError> {
    let mut kept = 0_u32;
    for first in -20..=20 {
        kept = kept.saturating_add(octaves_apart(alloc, first)?);
    }
    Ok(kept)
}

fn octaves_apart(alloc: Global, first: i32) -> Result<u32, AllocError> {
    let mut kept = 0_u32;
    for second in -20..=20 {
        if are_apart(alloc, first, second)? {
            kept = kept.saturating_add(1);
        }
    }
    Ok(kept)
}

// A sharp F, one in an octave of its own or the same, and the first one behind a bar.
fn are_apart(alloc: Global, first: i32, second: i32) -> Result<bool, AllocError> {
    let mut line = Vec::new(alloc);
    push_note(&mut line, b"^F", first)?;
    push_note(&mut line, b"F", second)?;
    push_note(&mut line, b"|F", first)?;
    let raised = f_pitch(first).saturating_add(1);
    let next = if first == second {
        raised
    } else {
        f_pitch(second)
    };
    let wanted = format!(in alloc; "{raised} {next} {}", f_pitch(first))?;
    let mut found = Answer::new(alloc);
    write_line(b"C", line.as_slice(), &mut found);
    Ok(found.is(&wanted))
}

fn push_note(line: &mut Vec<u8>, note: &[u8], octave: i32) -> Result<(), AllocError> {
    line.extend_from_slice(note)?;
    for _ in octave..0 {
        line.push(b',')?;
    }
    for _ in 0..octave {
        line.push(b'\'')?;
    }
    Ok(())
}

fn f_pitch(octave: i32) -> i32 {
    octave.saturating_mul(12).saturating_add(5)
}
