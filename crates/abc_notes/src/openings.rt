// The notes with which a tune opens.
ghost use Rattle.std.specs.Prelude.{◌≡◌, ◌+◌, ◌<◌, ◌≤◌, ◌++◌, [], List, false, length, map, take};
ghost use Rattle.std.specs.Prelude.{FitsSigned, IsTrue};
ghost use Rattle.std.specs.Int.{w8};
ghost use Rattle.std.specs.List.{AllWithin};
ghost use Rattle.abc_fields.specs.Limits.{longest_book};
ghost use Rattle.abc_fields.specs.Values.{has_percent, uncommented};
ghost use Rattle.abc_items.specs.ItemSpans.{item_spans_of};
ghost use Rattle.abc_notes.specs.Inside.Bounds.{AreShort, LinesAreShort};
ghost use Rattle.abc_notes.specs.Music.{line_events, body_events, tune_events, tune_signature};
ghost use Rattle.abc_notes.specs.Pitches.{SoundedNote, counting, sounded_notes};

use crate::key_signatures::{KeySignature, signature_of_text};
use crate::letter_pitches::LetterPitches;
use crate::notes::Notes;
use crate::plain_pitches::take_bare_pitches;
use crate::tune_events::{TuneEvents, is_music};
use abc_fields::{Line, Lines, TuneBody, TuneText, in_part_after, up_to_comment};
use abc_items::Items;
use std::marker::Model;

/// The notes of a tune, of which the first are taken with little work where they are plain: letters
/// alone on the first line of music, outside chords. No bar is kept for them. A clause sees the
/// list of the notes that are left.
#[derive(Drop)]
pub struct OpeningNotes<'a> {
    letters: LetterPitches,
    // The items that are left of the first line, which begins at `base`.
    items: Items<'a>,
    base: usize,
    // The lines after it, and whether the next lies within a part.
    lines: Lines<'a>,
    in_part: bool,
}

impl<'a> Model for OpeningNotes<'a> {
    ghost Value = { List SoundedNote };

    ghost view = { λ o. sounded_notes o.letters []
        (line_events o.base o.items ++ body_events o.in_part o.lines) };

    ghost invariant = { λ o. AreShort o.base o.items × LinesAreShort o.lines
        × (length (line_events o.base o.items ++ body_events o.in_part o.lines) ≤ longest_book) };
}

impl<'a> OpeningNotes<'a> {
    /// The notes of a tune's body, as `Notes::of_tune` says.
    #[inline(always)]
    pub fn of_tune(text: &'a TuneText) -> OpeningNotes<'a>
        ensures { result ≡ sounded_notes (tune_signature text.now) [] (tune_events text.now) }
    {
        let TuneBody {
            key,
            lines,
            in_part,
            plain,
        } = text.body();
        let letters = LetterPitches::new(signature_of_text(key));
        let mut later = lines.again();
        if let Some(line) = later.next() {
            if is_music(line, in_part) {
                return OpeningNotes {
                    letters,
                    items: music_items(line, plain),
                    base: line.from,
                    lines: later,
                    in_part: in_part_after(in_part, line.text),
                };
            }
        }
        OpeningNotes {
            letters,
            items: Items::new(b""),
            base: 0,
            lines,
            in_part,
        }
    }

    /// Takes the first notes that are left, up to `most`, while they are plain and plain bytes
    /// alone come before them; such notes count. Puts their pitches into a row, and gives how many
    /// they are. Behind the last it may pass over what is no note.
    #[inline(always)]
    pub fn take_plain(&mut self, pitches: &mut [i8], most: usize) -> usize
        requires some { 0 < most }
        requires room { most ≤ length pitches.old }
        ensures few { result ≤ most }
        ensures fit { AllWithin (FitsSigned w8) pitches.new 0 result }
        ensures notes { map (λ note. note.pitch) (counting self.old)
            ≡ take result pitches.new ++ map (λ note. note.pitch) (counting self.new) }
    {
        take_bare_pitches(&mut self.items, self.base, &self.letters, pitches, most)
    }

    /// A second reader of the notes that are left.
    #[inline(always)]
    pub fn again(&self) -> OpeningNotes<'a>
        ensures { result ≡ self.now }
    {
        OpeningNotes {
            letters: LetterPitches::new(self.letters.signature()),
            items: self.items.again(),
            base: self.base,
            lines: self.lines.again(),
            in_part: self.in_part,
        }
    }

    /// All the notes that are left.
    pub fn into_notes(self) -> Notes<'a>
        ensures { result ≡ self.entry }
    {
        Notes::new(
            KeySignature::known(self.letters.signature()),
            TuneEvents::of_parts(self.items, self.base, self.lines, self.in_part),
        )
    }
}

// The items of a line of music; `plain` says that no percent sign stands in it.
#[inline(always)]
fn music_items<'a>(line: Line<'a>, plain: bool) -> Items<'a>
    requires within { line.from + length line.text.now ≤ longest_book }
    requires plain { IsTrue plain → has_percent line.text.now ≡ false }
    ensures value { result ≡ item_spans_of (uncommented line.entry.text.now) }
    ensures short { AreShort line.entry.from result }
{
    Items::new(up_to_comment(line.text, plain))
}
