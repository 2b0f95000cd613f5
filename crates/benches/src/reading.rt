// The bench of the reading of tunes.
use crate::words::{input, number};
use abc_fields::{Fields, TuneText, fields, split_book};
use abc_notes::{Letter, Notes, key_of, signature};
use anyhow::{Result, bail};
use std::fs::Files;
use tune_incipit::{Steps, steps};

const LONGEST_TEXT: usize = 64_000;

// How many notes an incipit is asked by in layout 1.
const NOTES: usize = 8;

// What is read of each tune.
#[derive(Clone, Copy)]
enum Layer {
    Split,
    Fields,
    Keys,
    Notes,
    Steps,
}

impl Layer {
    fn named(name: &str) -> Option<Layer> {
        match name {
            "split" => Some(Layer::Split),
            "fields" => Some(Layer::Fields),
            "keys" => Some(Layer::Keys),
            "notes" => Some(Layer::Notes),
            "steps" => Some(Layer::Steps),
            _ => None,
        }
    }
}

/// Reads the tunes of a book, and prints what the last pass came to.
pub(crate) fn run<R: Files + Input + Print + AllocGlobal>(rt: &R, words: &[&str]) -> Result<()> {
    let [layer, passes, from @ ..] = words else {
        bail!("usage: benches reading LAYER PASSES [BOOK]");
    };
    let Some(layer) = Layer::named(layer) else {
        bail!("LAYER is split, fields, keys, notes or steps");
    };
    let passes = number(passes, u32::MAX)?;
    let book = input(rt, from)?;
    let tunes = split_book(rt.alloc(), &book, LONGEST_TEXT)?;
    println!(rt; "{}", last_pass(&tunes, layer, passes))?;
    Ok(())
}

// What the last of so many passes came to.
fn last_pass(tunes: &[TuneText], layer: Layer, passes: u32) -> u64 {
    let mut sum = 0;
    for _ in 0..passes {
        sum = pass(tunes, layer);
    }
    sum
}

// What one pass comes to: the sum over all tunes.
fn pass(tunes: &[TuneText], layer: Layer) -> u64 {
    let mut sum: u64 = 0;
    for tune in tunes {
        sum = sum.wrapping_add(read(tune, layer));
    }
    sum
}

// The bytes of a tune; or the bytes of its titles, rhythm and key text; or these and the letters
// that its signature changes; or the semitones of all its notes above `C`, or below it; or those of
// the steps between its first eight notes.
fn read(tune: &TuneText, layer: Layer) -> u64 {
    match layer {
        Layer::Split => tune.bytes().len() as u64,
        Layer::Fields => field_bytes(&fields(tune)),
        Layer::Keys => {
            let found = fields(tune);
            field_bytes(&found).wrapping_add(changed_letters(found.key))
        }
        Layer::Notes => semitones(Notes::of_tune(tune)),
        Layer::Steps => step_semitones(&steps(tune, NOTES)),
    }
}

fn field_bytes(found: &Fields) -> u64 {
    let mut sum = found.key.len() as u64;
    sum = sum.wrapping_add(found.rhythm.map_or(0, |rhythm| rhythm.len() as u64));
    for title in found.titles.as_slice() {
        sum = sum.wrapping_add(title.len() as u64);
    }
    sum
}

const LETTERS: [Letter; 7] = [
    Letter::C,
    Letter::D,
    Letter::E,
    Letter::F,
    Letter::G,
    Letter::A,
    Letter::B,
];

fn changed_letters(key: &[u8]) -> u64 {
    let signature = signature(&key_of(key));
    let mut changed: u64 = 0;
    for letter in LETTERS {
        if signature.at(letter).semitones() != 0 {
            changed = changed.wrapping_add(1);
        }
    }
    changed
}

fn semitones(notes: Notes) -> u64 {
    let mut sum: u64 = 0;
    for note in notes {
        sum = sum.wrapping_add(u64::from(note.pitch.unsigned_abs()));
    }
    sum
}

fn step_semitones(steps: &Steps) -> u64 {
    let mut sum: u64 = 0;
    for step in steps.as_slice() {
        sum = sum.wrapping_add(u64::from(step.unsigned_abs()));
    }
    sum
}
