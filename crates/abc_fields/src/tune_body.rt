// What follows the header of a tune.
ghost use Rattle.std.specs.Prelude.{◌≡◌, Some, IsTrue, false};
ghost use Rattle.std.specs.List.{AllByRecursion};
ghost use Rattle.abc_fields.specs.Lines.{lines_of, spans_of};
ghost use Rattle.abc_fields.specs.LineKinds.{part_open_after};
ghost use Rattle.abc_fields.specs.Fields.{header_of, key_text_of, body_spans};
ghost use Rattle.abc_fields.specs.Values.{has_percent};
ghost use Rattle.abc_fields.specs.Inside.LineEndings.{has_return};
ghost use Rattle.abc_fields.specs.Inside.HeaderEnds.{key_place};

use crate::key_place::KeyPlace;
use crate::lines::Lines;
use crate::values::value_of;

/// What follows the header of a tune, and the key with which that ends (ABC 2.1, 3.1.14).
#[derive(Drop)]
pub struct TuneBody<'a> {
    /// The value of the line that ends the header.
    pub key: &'a [u8],
    /// The lines after it, which begin and end where they do in the tune's text.
    pub lines: Lines<'a>,
    /// Whether the first of them lies within a part that the header begins, as `in_part_after`
    /// says.
    pub in_part: bool,
    /// Whether it is known that no percent sign stands in the lines, so that none has a comment.
    pub plain: bool,
}

impl<'a> TuneBody<'a> {
    // What follows the header in a text whose key stands here; `plain` says that no percent sign
    // stands in it.
    #[inline(always)]
    pub(crate) fn from_key(text: &'a [u8], place: KeyPlace, plain: bool) -> TuneBody<'a>
        requires feeds { has_return text.now ≡ false }
        requires place { key_place false (spans_of text.now) ≡ Some place }
        requires plain { IsTrue plain → has_percent text.now ≡ false }
        ensures key { result.key.now ≡ key_text_of text.now }
        ensures lines { result.lines ≡ body_spans text.now }
        ensures in_part { result.in_part ≡ part_open_after (header_of (lines_of text.now)) }
        ensures plain { IsTrue result.plain
            → AllByRecursion (λ line. has_percent line.bytes ≡ false) result.lines }
    {
        let mut lines = Lines::from_index(text, place.from);
        let key = match lines.next() {
            Some(line) => value_of(line.text, plain),
            None => unreachable!(),
        };
        TuneBody {
            key,
            lines,
            in_part: place.in_part,
            plain,
        }
    }
}
