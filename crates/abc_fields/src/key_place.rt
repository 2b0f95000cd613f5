// Where the header of a tune ends.
ghost use Rattle.std.specs.Prelude.{◌≡◌, ◌⊎◌, MatchOption, Some, true, false};
ghost use Rattle.abc_fields.specs.Tunes.{has_key};
ghost use Rattle.abc_fields.specs.Inside.LinesLeft.{contents_of};
ghost use Rattle.abc_fields.specs.Inside.HeaderEnds.{key_place, has_end};

use crate::line_kinds::{in_part_after, is_key_line};
use crate::lines::Lines;
use crate::tune_lines::ends_tune;

// Where the first line that gives the key stands.
#[derive(Clone, Copy, Debug)]
pub(crate) struct KeyPlace {
    // The index of its first byte in the text.
    pub(crate) from: usize,
    // Whether it lies within a part.
    pub(crate) in_part: bool,
}

// Reads the header of a tune to its end, where the tune does not end before that.
#[inline(always)]
pub(crate) fn find_key(lines: &mut Lines) -> Option<KeyPlace>
    ensures { MatchOption result
        ((has_end (contents_of lines.old) ≡ true) ⊎ (has_key (contents_of lines.old) ≡ false))
        (λ place. (key_place false lines.old ≡ Some place)
        × (has_end (contents_of lines.new) ≡ has_end (contents_of lines.old))) }
{
    let mut in_part = false;
    while let Some(line) = lines.next() {
        if is_key_line(line.text) {
            let from = line.from;
            return Some(KeyPlace { from, in_part });
        }
        if ends_tune(line.text) {
            return None;
        }
        in_part = in_part_after(in_part, line.text);
    }
    None
}
