// How high letters sound in a signature.
ghost use Rattle.std.specs.Prelude.{◌≡◌, ℕ, ◌<◌, ◌≤ℤ◌, pos, negsuc, true};
ghost use Rattle.abc_items.specs.NoteFronts.{is_note_name};
ghost use Rattle.abc_items.specs.ItemView.{item_span};
ghost use Rattle.abc_keys.specs.declared.signatures.Signature.{Signature as AnySignature};
ghost use Rattle.abc_notes.specs.Inside.BareNotes.{IsBareNote, bare_note};
ghost use Rattle.abc_notes.specs.Inside.LetterPitches.{name_pitch, name_pitches, pitch_in};
ghost use Rattle.abc_notes.specs.Inside.LetterPitches.{with_letter};

use crate::pitches::letter_pitch;
use abc_items::Item;
use abc_keys::{Accidental, Letter, Signature};
use std::marker::Model;

// The first of the bytes that name letters, `A`.
const FIRST: usize = 65;

// How many bytes there are from `A` to `g`.
const NAMES: usize = 39;

// How far a small letter stands from its capital.
const SMALL: usize = 32;

// How many semitones higher it sounds.
const OCTAVE: i8 = 12;

// The letters of notes in a signature. A clause sees the signature.
#[derive(Drop)]
pub(crate) struct LetterPitches {
    signature: Signature,
}

impl Model for LetterPitches {
    ghost Value = { AnySignature };

    ghost view = { λ letters. letters.signature };
}

impl LetterPitches {
    #[inline(always)]
    pub fn new(signature: Signature) -> LetterPitches
        ensures { result ≡ signature }
    {
        LetterPitches { signature }
    }

    #[inline(always)]
    pub fn signature(&self) -> Signature
        ensures { result ≡ self.now }
    {
        self.signature
    }

    // The pitches of the bytes from `A` to `g`. Those that name no letter have 0.
    #[inline(always)]
    pub fn row(&self) -> [i8; NAMES]
        ensures { result ≡ name_pitches self.now }
    {
        let mut row = [0; NAMES];
        put_letter(&mut row, 0, pitch_in(Letter::A, self.signature.a));
        put_letter(&mut row, 1, pitch_in(Letter::B, self.signature.b));
        put_letter(&mut row, 2, pitch_in(Letter::C, self.signature.c));
        put_letter(&mut row, 3, pitch_in(Letter::D, self.signature.d));
        put_letter(&mut row, 4, pitch_in(Letter::E, self.signature.e));
        put_letter(&mut row, 5, pitch_in(Letter::F, self.signature.f));
        put_letter(&mut row, 6, pitch_in(Letter::G, self.signature.g));
        row
    }
}

// Puts the pitches of a letter, as a capital and as a small letter, in their places.
#[inline(always)]
fn put_letter(row: &mut [i8; NAMES], place: usize, pitch: i8)
    requires place { place < 7 }
    requires low { negsuc 1 ≤ℤ pitch }
    requires high { pitch ≤ℤ pos 13 }
    ensures { row.new ≡ with_letter place pitch row.old }
{
    row[place] = pitch;
    row[place + SMALL] = pitch + OCTAVE;
}

// The pitch of a note of one byte, where the signature alone is in force.
#[inline(always)]
pub(crate) fn bare_pitch(row: &[i8; NAMES], item: Item) -> i8
    requires { IsBareNote item }
    ensures { (s : AnySignature) → (base : ℕ) → row.now ≡ name_pitches s
        → result ≡ (bare_note s base (item_span item.entry)).pitch }
{
    pitch_of_name(row, item.text[0])
}

// The pitch that stands at a byte which names a letter.
#[inline(always)]
fn pitch_of_name(row: &[i8; NAMES], name: u8) -> i8
    requires { is_note_name name ≡ true }
    ensures { (s : AnySignature) → row.now ≡ name_pitches s → result ≡ name_pitch s name }
{
    row[name as usize - FIRST]
}

// The pitch of a letter with an accidental, in octave 0.
#[inline(always)]
fn pitch_in(letter: Letter, accidental: Accidental) -> i8
    ensures value { result ≡ pitch_in letter accidental }
    ensures low { negsuc 1 ≤ℤ result }
    ensures high { result ≤ℤ pos 13 }
{
    (letter_pitch(letter) + accidental.semitones()) as i8
}
