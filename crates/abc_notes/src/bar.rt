// The accidentals of a bar, by letter, for sixteen octaves.
ghost use Rattle.std.specs.Prelude.{◌≡◌, ◌+◌, ◌^◌, ◌<◌, ℕ, ℤ, List, [], ◌∷◌, Some, None};
ghost use Rattle.std.specs.Prelude.{slice_index_or, length, IsTrue, if◌then◌else◌};
ghost use Rattle.abc_keys.specs.declared.letters.Letter.{Letter as AnyLetter};
ghost use Rattle.abc_keys.specs.SameScales.{letter_number};
ghost use Rattle.abc_notes.specs.Events.{Event as AnyEvent, note, bar, change};
ghost use Rattle.abc_notes.specs.Inside.EventView.{written_note};
ghost use Rattle.abc_notes.specs.Inside.BarTables.{IsNearOctave, IsBarAfter, held_in, index_of};
ghost use Rattle.abc_notes.specs.Pitches.{same_note};

use crate::events::WrittenNote;
use crate::key_signatures::KeySignature;
use abc_keys::{Accidental, Letter};

const LETTERS: usize = 7;

const LOWEST_OCTAVE: i32 = -8;

const OCTAVES: i32 = 16;

const ENTRIES: usize = 112;

// What is kept of a bar so far: the signature where its reader stands and the one in force now, how
// many events came since, those of a few short bars before it among them, the accidentals that its
// notes bore, and whether one of them was borne within the sixteen octaves, and outside them.
#[derive(Drop)]
pub(crate) struct Bar<'a> {
    pub start: KeySignature<'a>,
    pub signature: KeySignature<'a>,
    pub since: usize,
    pub entries: [Option<Accidental>; ENTRIES],
    pub has_near: bool,
    pub has_far: bool,
}

impl<'a> Bar<'a> {
    // A bar that begins.
    #[inline(always)]
    pub fn new(signature: KeySignature<'a>) -> Bar<'a>
        ensures after { IsBarAfter [] result }
        ensures start { result.start ≡ signature.entry }
    {
        Bar {
            start: signature.again(),
            signature,
            since: 0,
            entries: [None; ENTRIES],
            has_near: false,
            has_far: false,
        }
    }

    // Begins anew, where a bar ends.
    pub fn begin(&mut self)
        ensures after { IsBarAfter [] self.new }
        ensures start { self.new.start ≡ self.old.signature }
    {
        self.start = self.signature.again();
        self.since = 0;
        self.entries = [None; ENTRIES];
        self.has_near = false;
        self.has_far = false;
    }

    // Takes a bar line: the accidentals before it hold no more. The table is cleared only where a
    // note set an entry.
    pub fn take_bar(&mut self)
        requires { self.old.since + 1 < 2 ^ 64 }
        ensures after { (past : List AnyEvent) → IsBarAfter past self.old
            → IsBarAfter (bar ∷ past) self.new }
        ensures start { self.new.start ≡ self.old.start }
    {
        self.since += 1;
        self.has_far = false;
        if !self.has_near {
            return;
        }
        self.entries = [None; ENTRIES];
        self.has_near = false;
    }

    // Takes a change of key.
    pub fn take_change(&mut self, signature: KeySignature<'a>)
        requires { self.old.since + 1 < 2 ^ 64 }
        ensures after { (past : List AnyEvent) → IsBarAfter past self.old
            → IsBarAfter (change signature.entry ∷ past) self.new }
        ensures start { self.new.start ≡ self.old.start }
    {
        self.since += 1;
        self.signature = signature;
    }

    // Takes a note.
    pub fn take_note(&mut self, written: WrittenNote)
        requires { self.old.since + 1 < 2 ^ 64 }
        ensures after { (past : List AnyEvent) → IsBarAfter past self.old
            → IsBarAfter (note (written_note written.entry) ∷ past) self.new }
        ensures start { self.new.start ≡ self.old.start }
    {
        self.since += 1;
        if let Some(accidental) = written.own {
            if is_near(written) {
                set_entry(&mut self.entries, written, accidental);
                self.has_near = true;
            } else {
                self.has_far = true;
            }
        }
    }
}

// Whether a note's octave is one of the sixteen.
pub(crate) fn is_near(note: WrittenNote) -> bool
    ensures yes { IsTrue result → IsNearOctave note.entry.octave }
    ensures no { IsNearOctave note.entry.octave → IsTrue result }
{
    LOWEST_OCTAVE <= note.octave && note.octave < LOWEST_OCTAVE + OCTAVES
}

// What the entry of a note's letter and octave holds.
pub(crate) fn entry(
    entries: &[Option<Accidental>; ENTRIES],
    note: WrittenNote,
) -> Option<Accidental>
    requires { IsNearOctave note.octave }
    ensures { result ≡ held_in entries.now note.entry.letter note.entry.octave }
{
    entries[index_of(note)]
}

fn set_entry(entries: &mut [Option<Accidental>; ENTRIES], note: WrittenNote, accidental: Accidental)
    requires { IsNearOctave note.octave }
    ensures { (l : AnyLetter) (o : ℤ) → IsNearOctave o
        → held_in entries.new l o
        ≡ (if same_note note.entry.letter note.entry.octave l o
        then Some accidental
        else held_in entries.old l o) }
{
    entries[index_of(note)] = Some(accidental);
}

fn index_of(note: WrittenNote) -> usize
    requires { IsNearOctave note.octave }
    ensures value { result ≡ index_of note.entry.letter note.entry.octave }
    ensures within { result < 112 }
{
    LETTERS * (note.octave - LOWEST_OCTAVE) as usize + letter_number(note.letter)
}

pub(crate) fn letter_number(letter: Letter) -> usize
    ensures { result ≡ letter_number letter }
{
    letter as usize
}
