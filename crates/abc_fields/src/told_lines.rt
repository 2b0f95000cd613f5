// Where the lines of a header stand that say what `fields` tells.
ghost use Rattle.std.specs.Prelude.{◌≡◌, ◌<◌, ◌≤◌, ◌^◌, ◌⊎◌, [], ◌∷◌, ◌++◌, take, length};
ghost use Rattle.std.specs.Prelude.{MatchOption, Some, IsTrue, true, false, slice_range};
ghost use Rattle.std.specs.List.{AllByRecursion};
ghost use Rattle.abc_fields.specs.Tunes.{has_key};
ghost use Rattle.abc_fields.specs.Inside.LinesLeft.{contents_of};
ghost use Rattle.abc_fields.specs.Inside.HeaderEnds.{key_place, has_end};
ghost use Rattle.abc_fields.specs.Inside.ToldLines.{most_told, is_told, IsShortSpan, AreTold};
ghost use Rattle.abc_fields.specs.Inside.ToldLines.{IsPlaceKept};

use crate::key_place::KeyPlace;
use crate::line_kinds::{in_part_after, is_key_line};
use crate::lines::Lines;
use crate::tune_lines::ends_tune;

// How many lines of titles and rhythms are kept at most.
const MOST_TOLD: u16 = 4;

// Where a line stands in the text of a tune, which has at most 64,000 bytes.
#[derive(Clone, Copy, Debug)]
pub(crate) struct LinePlace {
    // The index of its first byte.
    pub(crate) from: u16,
    // The index past its last byte.
    pub(crate) to: u16,
}

impl LinePlace {
    // From the index of its first byte up to the index past its last byte.
    #[inline(always)]
    pub(crate) fn new(from: usize, to: usize) -> LinePlace
        requires from { from < 2 ^ 16 }
        requires to { to < 2 ^ 16 }
        ensures { result ≡ record { from = from; to = to } }
    {
        LinePlace {
            from: from as u16,
            to: to as u16,
        }
    }

    // The line that stands here in a text.
    #[inline(always)]
    pub(crate) fn line_in<'a>(&self, text: &'a [u8]) -> &'a [u8]
        requires ordered { self.now.from ≤ self.now.to }
        requires within { self.now.to ≤ length text.now }
        ensures { result.now ≡ slice_range text.now self.now.from self.now.to }
    {
        &text[usize::from(self.from)..usize::from(self.to)]
    }
}

// Where lines stand of which none has come yet.
pub(crate) const NO_PLACES: [LinePlace; 4] = [LinePlace { from: 0, to: 0 }; 4];

// Where the lines of a header stand that give the titles, the rhythm and the key.
#[derive(Clone, Copy, Debug)]
pub(crate) struct ToldLines {
    // Those of titles and rhythms, in order.
    pub(crate) places: [LinePlace; 4],
    // How many of these there are; where there are more than places, nothing is known.
    pub(crate) count: u16,
    // The line of the key.
    pub(crate) key: LinePlace,
}

impl ToldLines {
    // Nothing is known.
    pub(crate) fn unknown() -> ToldLines
        ensures { most_told < result.count }
    {
        ToldLines {
            places: NO_PLACES,
            count: MOST_TOLD + 1,
            key: NO_PLACES[0],
        }
    }

    // Whether anything is known.
    #[inline(always)]
    pub(crate) fn is_known(&self) -> bool
        ensures { IsTrue result → self.now.count ≤ most_told }
    {
        self.count <= MOST_TOLD
    }

    // The lines of titles and rhythms, from the first on.
    #[inline(always)]
    pub(crate) fn places(&self) -> &[LinePlace]
        requires { self.now.count ≤ most_told }
        ensures { result.now ≡ take self.now.count self.now.places }
    {
        &self.places[..usize::from(self.count)]
    }
}

// Keeps where the next line of a title or a rhythm stands, behind so many others, if there is a
// place for it, and tells how many there are then. No struct holds both, so that the count stays in
// a register.
#[inline(always)]
pub(crate) fn keep_place(places: &mut [LinePlace; 4], count: u16, line: LinePlace) -> u16
    ensures { IsPlaceKept places.old count places.new result line }
{
    if count < MOST_TOLD {
        places[usize::from(count)] = line;
        count + 1
    } else {
        MOST_TOLD + 1
    }
}

// Whether a line gives a title or the rhythm.
#[inline(always)]
pub(crate) fn is_told(line: &[u8]) -> bool
    ensures { result ≡ is_told line.now }
{
    line.starts_with(b"T:") || line.starts_with(b"R:")
}

// Reads the header of a tune to its end, as `find_key` does, and tells where the lines stand that
// give the titles, the rhythm and the key.
#[inline(always)]
pub(crate) fn find_told(lines: &mut Lines) -> Option<(KeyPlace, ToldLines)>
    requires { AllByRecursion IsShortSpan lines.old }
    ensures { MatchOption result
        ((has_end (contents_of lines.old) ≡ true) ⊎ (has_key (contents_of lines.old) ≡ false))
        (λ found. (key_place false lines.old ≡ Some found.0)
        × (found.1.count ≤ most_told → AreTold lines.old found.1)
        × (has_end (contents_of lines.new) ≡ has_end (contents_of lines.old))) }
{
    let mut in_part = false;
    let mut places = NO_PLACES;
    let mut count = 0;
    while let Some(line) = lines.next() {
        if is_key_line(line.text) {
            let from = line.from;
            let key = LinePlace::new(line.from, line.to);
            return Some((KeyPlace { from, in_part }, ToldLines { places, count, key }));
        }
        if is_told(line.text) {
            count = keep_place(&mut places, count, LinePlace::new(line.from, line.to));
            continue;
        }
        if ends_tune(line.text) {
            return None;
        }
        in_part = in_part_after(in_part, line.text);
    }
    None
}
