// Letters and accidentals, over every byte and every value. An accidental is written as its marks.
//
// - `letters`, `accidentals`: each byte that is one, and which.
// - `doubled`: each accidental and byte that come to another, and which.
// - `semitones`, `lengths`: each accidental, and its semitones or the length of its spelling.
// - `signature`, a key text: the accidental of each letter, and its semitones.
// - `front`, a text: the accidental at its front.
// - `pairs`: how many tonics there are of all modes.
use crate::cases::Case;
use abc_items::{own_accidental, spelling_length};
use abc_keys::{Accidental, Letter, accidental_of, doubled, key_of, letter_of, signature};
use std::alloc::{AllocError, Global};
use test_cases::Answer;

const ACCIDENTALS: [Accidental; 5] = [
    Accidental::DoubleFlat,
    Accidental::Flat,
    Accidental::Natural,
    Accidental::Sharp,
    Accidental::DoubleSharp,
];

const LETTERS: [Letter; 7] = [
    Letter::C,
    Letter::D,
    Letter::E,
    Letter::F,
    Letter::G,
    Letter::A,
    Letter::B,
];

pub(crate) fn answer(alloc: Global, case: &Case, out: &mut Answer) -> Option<()> {
    match case.call {
        "letters" => write_letters(out),
        "accidentals" => write_accidentals(out),
        "doubled" => write_doubled(out),
        "semitones" => write_semitones(out),
        "lengths" => write_lengths(out),
        "signature" => write_signature(case.text(0), out),
        "front" => out.say(marks(own_accidental(case.text(0)))),
        "pairs" => out.show(count_of_pairs(alloc).ok()?),
        _ => return None,
    }
    Some(())
}

// How an accidental is written.
fn marks(accidental: Option<Accidental>) -> &'static str {
    match accidental {
        Some(Accidental::DoubleFlat) => "__",
        Some(Accidental::Flat) => "_",
        Some(Accidental::Natural) => "=",
        Some(Accidental::Sharp) => "^",
        Some(Accidental::DoubleSharp) => "^^",
        None => "none",
    }
}

fn write_letters(out: &mut Answer) {
    for byte in 0..=u8::MAX {
        if let Some(letter) = letter_of(byte) {
            out.show(format_args!("{} {letter:?}\n", char::from(byte)));
        }
    }
}

fn write_accidentals(out: &mut Answer) {
    for byte in 0..=u8::MAX {
        let found = accidental_of(byte);
        if found.is_some() {
            out.show(format_args!("{} {}\n", char::from(byte), marks(found)));
        }
    }
}

fn write_doubled(out: &mut Answer) {
    for first in ACCIDENTALS {
        for second in 0..=u8::MAX {
            let found = doubled(first, second);
            if found.is_some() {
                let first = marks(Some(first));
                out.show(format_args!("{first} {} {}\n", char::from(second), marks(found)));
            }
        }
    }
}

fn write_semitones(out: &mut Answer) {
    for accidental in ACCIDENTALS {
        out.show(format_args!("{} {}\n", marks(Some(accidental)), accidental.semitones()));
    }
}

fn write_lengths(out: &mut Answer) {
    out.show(format_args!("none {}\n", spelling_length(None)));
    for accidental in ACCIDENTALS {
        let length = spelling_length(Some(accidental));
        out.show(format_args!("{} {length}\n", marks(Some(accidental))));
    }
}

fn write_signature(text: &[u8], out: &mut Answer) {
    let found = signature(&key_of(text));
    for letter in LETTERS {
        out.show(format_args!("{letter:?} {}\n", found.at(letter).semitones()));
    }
}

fn count_of_pairs(alloc: Global) -> Result<u32, AllocError> {
    let mut pairs = 0_u32;
    for mode in ["", "Lyd", "Mix", "Dor", "m", "Phr", "Loc"] {
        for sign in ["", "#", "b"] {
            pairs = pairs.saturating_add(count_of_tonics(alloc, sign, mode)?);
        }
    }
    Ok(pairs)
}

fn count_of_tonics(alloc: Global, sign: &str, mode: &str) -> Result<u32, AllocError> {
    let mut tonics = 0_u32;
    for letter in LETTERS {
        let text = format!(in alloc; "{letter:?}{sign}{mode}")?;
        if key_of(text.as_bytes()).scale().is_some() {
            tonics = tonics.saturating_add(1);
        }
    }
    Ok(tonics)
}
