// The values of fields.
ghost use Rattle.std.specs.Prelude.{◌≡◌, ℕ, ◌-◌, ◌<◌, List, ◌++◌, length, true, ◌==◌, ◌&&◌};
ghost use Rattle.std.specs.Prelude.{slice_index, nat_lt, IsTrue, false};
ghost use Rattle.abc_fields.specs.Bytes.{backslash, is_blank, is_all_blank};
ghost use Rattle.abc_fields.specs.Values.{has_percent, uncommented, field_value, IsUncommented};
ghost use Rattle.abc_fields.specs.Values.{IsTrimmed};
ghost use Rattle.abc_fields.specs.Words.{trimmed, trimmed_front, trimmed_back};

use memchr::memchr;

/// The value of a field line: what follows the colon, without a comment, and without the spaces and
/// tabs at its ends (ABC 2.1, 2.2 and 3.1; this archive's profile). The field's name and the colon
/// are the first two bytes, whatever they are; the value of a shorter line is empty.
pub fn field_value(line: &[u8]) -> &[u8]
    ensures { result.now ≡ field_value line.now }
{
    if line.len() < 2 {
        return b"";
    }
    trim_blanks(without_comment(&line[2..]))
}

// The same; `plain` says that no percent sign stands in the line, so that it has no comment.
pub(crate) fn value_of(line: &[u8], plain: bool) -> &[u8]
    requires { IsTrue plain → has_percent line.now ≡ false }
    ensures { result.now ≡ field_value line.now }
{
    if !plain {
        return field_value(line);
    }
    if line.len() < 2 {
        return b"";
    }
    trim_blanks(&line[2..])
}

/// The line up to its comment, as `without_comment` says; `plain` says that no percent sign stands
/// in it, so that it has none and nothing is looked for.
#[inline(always)]
pub fn up_to_comment(line: &[u8], plain: bool) -> &[u8]
    requires { IsTrue plain → has_percent line.now ≡ false }
    ensures { result.now ≡ uncommented line.now }
{
    if plain { line } else { without_comment(line) }
}

/// The line up to its comment, if it has one: the first percent sign that no backslash stands
/// directly before begins it (ABC 2.1, 2.2; this archive's profile). The backslashes stay.
///
/// The law of comments stands beside it: it is the front of the line, the rest is nothing or begins
/// with a percent sign that no backslash stands directly before, and a backslash stands directly
/// before each percent sign that stays.
pub fn without_comment(line: &[u8]) -> &[u8]
    ensures value { result.now ≡ uncommented line.now }
    ensures law { IsUncommented line.now result.now }
{
    let mut from = 0;
    while let Some(offset) = memchr(b'%', &line[from..]) {
        let at = from + offset;
        if !is_escaped(line, at) {
            return &line[..at];
        }
        from = at + 1;
    }
    line
}

// Whether a backslash stands directly before this index.
fn is_escaped(line: &[u8], at: usize) -> bool
    requires { at < length line.now }
    ensures { result ≡ (nat_lt 0 at && slice_index line.now (at - 1) == backslash) }
{
    at > 0 && line[at - 1] == b'\\'
}

/// Whether a character is a space or a tab: no other is blank (this archive's profile). For a byte
/// it is called with `char::from`.
pub fn is_blank(c: char) -> bool
    ensures { result ≡ is_blank c }
{
    c == ' ' || c == '\t'
}

/// Whether a text has no bytes but spaces and tabs, as an empty line.
pub fn is_all_blank(text: &[u8]) -> bool
    ensures { result ≡ is_all_blank text.now }
{
    text.iter().all(|byte| is_blank(char::from(*byte)))
}

/// The text without the spaces and tabs at its ends.
///
/// Its law stands beside it: the text is this, with spaces and tabs before and after it, and this
/// neither begins nor ends with one. So spaces and tabs that are put round a text change nothing.
pub fn trim_blanks(text: &[u8]) -> &[u8]
    ensures value { result.now ≡ trimmed text.now }
    ensures law { IsTrimmed text.now result.now }
    ensures blanks_at_ends { (front back : List ℕ)
        → is_all_blank front ≡ true → is_all_blank back ≡ true
        → trimmed (front ++ (text.now ++ back)) ≡ trimmed text.now }
{
    trim_back(trim_front(text))
}

// The text from the first byte on that is no space and no tab.
fn trim_front(text: &[u8]) -> &[u8]
    ensures { result.now ≡ trimmed_front is_blank text.now }
{
    let mut kept = text;
    while let [byte, later @ ..] = kept {
        if !is_blank(char::from(*byte)) {
            return kept;
        }
        kept = later;
    }
    kept
}

// The text up to the last byte that is no space and no tab.
fn trim_back(text: &[u8]) -> &[u8]
    ensures { result.now ≡ trimmed_back is_blank text.now }
{
    let mut kept = text;
    while let [earlier @ .., byte] = kept {
        if !is_blank(char::from(*byte)) {
            return kept;
        }
        kept = earlier;
    }
    kept
}
