// The header of a tune.
ghost use Rattle.std.specs.Prelude.{◌≡◌, option_copied};
ghost use Rattle.abc_fields.specs.Fields.{titles_of, rhythm_of, key_text_of, HeaderEndsWithKey};
ghost use Rattle.abc_fields.specs.Lines.{lines_of};

use crate::header_fields::Fields;
use crate::line_kinds::is_key_line;
use crate::lines::Lines;
use crate::texts::TuneText;
use crate::values::value_of;

/// What the header of a tune says (ABC 2.1, 3.1; this archive's profile). The header is the lines
/// up to the first that begins with `K:`, that one included. Case matters, and a line inside a
/// `%%begin` part counts as any other. It takes no memory.
pub fn fields(text: &TuneText) -> Fields<'_>
    ensures titles { result.titles ≡ titles_of text.now }
    ensures rhythm { option_copied result.rhythm ≡ rhythm_of text.now }
    ensures key { result.key.now ≡ key_text_of text.now }
    ensures key_line { HeaderEndsWithKey (lines_of text.now) result.key.now }
{
    let mut found = Fields::new();
    read_fields(text, &mut found);
    found
}

/// Puts what the header of a tune says, as [`fields`] gives it, in the place of what these fields
/// say, which nobody has to copy then.
#[inline(never)]
pub fn read_fields<'a>(text: &'a TuneText, found: &mut Fields<'a>)
    ensures titles { found.new.titles ≡ titles_of text.now }
    ensures rhythm { option_copied found.new.rhythm ≡ rhythm_of text.now }
    ensures key { found.new.key.now ≡ key_text_of text.now }
    ensures key_line { HeaderEndsWithKey (lines_of text.now) found.new.key.now }
{
    let Some(told) = text.told() else {
        *found = walked_fields(text);
        return;
    };
    found.clear();
    let bytes = text.bytes();
    let plain = text.is_plain();
    for place in told.places().iter() {
        found.take_told(place.line_in(bytes), plain);
    }
    found.key = value_of(told.key.line_in(bytes), plain);
}

// The same, where it is not known where the lines stand that tell it: each is looked at.
#[inline(never)]
fn walked_fields(text: &TuneText) -> Fields<'_>
    ensures titles { result.titles ≡ titles_of text.now }
    ensures rhythm { option_copied result.rhythm ≡ rhythm_of text.now }
    ensures key { result.key.now ≡ key_text_of text.now }
    ensures key_line { HeaderEndsWithKey (lines_of text.now) result.key.now }
{
    let plain = text.is_plain();
    let mut found = Fields::new();
    for line in Lines::of_tune(text) {
        if is_key_line(line.text) {
            found.key = value_of(line.text, plain);
            return found;
        }
        found.take_line(line.text, plain);
    }
    found
}
