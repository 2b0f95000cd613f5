// The pitches of the first notes of a line, where they are plain.
ghost use Rattle.std.specs.Prelude.{◌≡◌, ◌<◌, ◌≤◌, ◌++◌, [], List, FitsSigned, length, map, take};
ghost use Rattle.std.specs.Int.{w8};
ghost use Rattle.std.specs.List.{AllWithin};
ghost use Rattle.abc_notes.specs.Events.{Event as AnyEvent};
ghost use Rattle.abc_notes.specs.Inside.Bounds.{AreShort};
ghost use Rattle.abc_notes.specs.Music.{line_events};
ghost use Rattle.abc_notes.specs.Pitches.{counting, sounded_notes};

use crate::item_events::is_note;
use crate::letter_pitches::{LetterPitches, bare_pitch};
use abc_items::Items;

// Takes the first notes of items of a line, up to `most`, while they are items of one byte, and so
// are those before them. Puts their pitches into a row, and gives how many they are. Behind the
// last it may pass over items that are no notes.
#[inline(always)]
pub(crate) fn take_bare_pitches(
    items: &mut Items,
    base: usize,
    letters: &LetterPitches,
    pitches: &mut [i8],
    most: usize,
) -> usize
    requires short { AreShort base items.old }
    requires some { 0 < most }
    requires room { most ≤ length pitches.old }
    ensures few { result ≤ most }
    ensures pitches { (tail : List AnyEvent)
        → map (λ n. n.pitch) (counting (sounded_notes letters.now []
        (line_events base items.old ++ tail)))
        ≡ take result pitches.new ++ map (λ n. n.pitch) (counting (sounded_notes letters.now []
        (line_events base items.new ++ tail))) }
    ensures fit { AllWithin (FitsSigned w8) pitches.new 0 result }
    ensures short { AreShort base items.new }
    ensures fewer { length (line_events base items.new) ≤ length (line_events base items.old) }
{
    let row = letters.row();
    let mut taken = 0;
    'items: loop {
        let Some(item) = items.next_plain() else {
            return taken;
        };
        if is_note(item.kind) {
            pitches[taken] = bare_pitch(&row, item);
            taken += 1;
            if taken == most {
                return taken;
            }
        }
    }
}
