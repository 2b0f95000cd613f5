// Key texts, and what they say: a kind of key, and each letter of its signature that has a sharp or
// a flat.
//
// - `key`, a text: what it says. Between blanks it has to say the same.
// - `scales`, a tonic, and spellings of a mode in columns: what they all say.
use crate::cases::Case;
use abc_keys::{Key, Scale, Sign, Signature, key_of, signature};
use std::alloc::{AllocError, Global};
use test_cases::Answer;

pub(crate) fn answer(alloc: Global, case: &Case, out: &mut Answer) -> Option<()> {
    match case.call {
        "key" => write_text(alloc, case.text(0), out).ok(),
        "scales" => {
            let (tonic, spellings) = case.texts.split_first()?;
            write_spellings(alloc, tonic, spellings, out).ok()
        }
        _ => None,
    }
}

fn write_text(alloc: Global, text: &[u8], out: &mut Answer) -> Result<(), AllocError> {
    let key = key_of(text);
    write_key(&key, out);
    let mut padded = b"\t  ".to_vec(alloc)?;
    padded.extend_from_slice(text)?;
    padded.extend_from_slice(b" \t")?;
    let between_blanks = key_of(padded.as_slice());
    if between_blanks != key {
        out.say("; between blanks ");
        write_key(&between_blanks, out);
    }
    Ok(())
}

// Writes what the first spelling says, and what others say that say another thing.
fn write_spellings(
    alloc: Global,
    tonic: &[u8],
    spellings: &[Vec<u8>],
    out: &mut Answer,
) -> Result<(), AllocError> {
    for spelling in spellings {
        let mut text = tonic.to_vec(alloc)?;
        text.extend_from_slice(spelling.as_slice())?;
        let mut found = Answer::new(alloc);
        write_text(alloc, text.as_slice(), &mut found)?;
        if out.as_slice().is_empty() {
            out.add(found.as_slice());
        } else if out.as_slice() != found.as_slice() {
            out.say("; ");
            out.add(text.as_slice());
            out.say(": ");
            out.add(found.as_slice());
        }
    }
    Ok(())
}

fn write_key(key: &Key, out: &mut Answer) {
    match key {
        Key::Modal { scale, .. } => write_scale(scale, out),
        Key::Explicit { .. } => out.say("explicit"),
        Key::Bare { .. } => out.say("bare"),
        Key::Highland { .. } => out.say("highland"),
        Key::Unread => out.say("unread"),
    }
    let scale = match key {
        Key::Modal { scale, .. } => Some(*scale),
        _ => None,
    };
    if key.scale() != scale {
        out.say(" of another scale");
    }
    write_signature(&signature(key), out);
}

fn write_scale(scale: &Scale, out: &mut Answer) {
    let Scale { tonic, sign, mode } = scale;
    let mark = match sign {
        Sign::Natural => "",
        Sign::Sharp => "#",
        Sign::Flat => "b",
    };
    out.show(format_args!("{tonic:?}{mark} {mode:?}"));
}

// Writes the letters that are raised or lowered, each as a note.
fn write_signature(signature: &Signature, out: &mut Answer) {
    let letters = [
        ("C", signature.c),
        ("D", signature.d),
        ("E", signature.e),
        ("F", signature.f),
        ("G", signature.g),
        ("A", signature.a),
        ("B", signature.b),
    ];
    for (letter, accidental) in letters {
        match accidental.semitones() {
            0 => (),
            -2 => out.show(format_args!(" __{letter}")),
            -1 => out.show(format_args!(" _{letter}")),
            1 => out.show(format_args!(" ^{letter}")),
            2 => out.show(format_args!(" ^^{letter}")),
            other => out.show(format_args!(" {other}{letter}")),
        }
    }
}
