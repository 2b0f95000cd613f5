// Whether bytes that were stored are a tune text.
ghost use Rattle.std.specs.Prelude.{◌≡◌, ◌≤◌, MatchOption, Some, IsTrue, false, length};
ghost use Rattle.abc_fields.specs.Lines.{spans_of};
ghost use Rattle.abc_fields.specs.Tunes.{IsTuneText};
ghost use Rattle.abc_fields.specs.Values.{has_percent};
ghost use Rattle.abc_fields.specs.Inside.LineEndings.{has_return};
ghost use Rattle.abc_fields.specs.Inside.LinesLeft.{contents_of};
ghost use Rattle.abc_fields.specs.Inside.HeaderEnds.{key_place, has_end};
ghost use Rattle.abc_fields.specs.Inside.ToldLines.{IsTold};
ghost use Rattle.abc_fields.specs.Limits.{longest_tune};

use crate::key_place::KeyPlace;
use crate::lines::{Lines, has_return};
use crate::told_lines::{ToldLines, find_told};
use crate::tune_lines::ends_tune;
use memchr::memchr2;

// Whether neither a carriage return nor a percent sign stands in a text.
pub(crate) fn is_plain(text: &[u8]) -> bool
    ensures returns { IsTrue result → has_return text.now ≡ false }
    ensures percents { IsTrue result → has_percent text.now ≡ false }
{
    memchr2(b'\r', b'%', text).is_none()
}

// Whether there is a carriage return, where `plain` says that there is none.
fn holds_return(plain: bool, text: &[u8]) -> bool
    requires { IsTrue plain → has_return text.now ≡ false }
    ensures { result ≡ has_return text.now }
{
    !plain && has_return(text)
}

// Where the key stands in bytes that are a tune text, and the lines that say what `fields` tells;
// none where they are not. `plain` says that no carriage return stands in them.
pub(crate) fn key_of_stored(text: &[u8], plain: bool) -> Option<(KeyPlace, ToldLines)>
    requires plain { IsTrue plain → has_return text.now ≡ false }
    requires short { length text.now ≤ longest_tune }
    ensures { MatchOption result (¬ IsTuneText text.now)
        (λ found. IsTuneText text.now × (key_place false (spans_of text.now) ≡ Some found.0)
        × (IsTold text.now found.1)) }
{
    if holds_return(plain, text) || !text.ends_with(b"\n") {
        return None;
    }
    let mut lines = Lines::without_return(text);
    let Some(found) = find_told(&mut lines) else {
        return None;
    };
    if has_end(lines) { None } else { Some(found) }
}

// Whether a tune ends before one of these lines.
fn has_end(lines: Lines) -> bool
    ensures { result ≡ has_end (contents_of lines.entry) }
{
    for line in lines {
        if ends_tune(line.text) {
            return true;
        }
    }
    false
}
