// What a line of a book is, as crate `abc_fields` has it for its own use.
ghost use Rattle.std.specs.Prelude.{◌≡◌};
ghost use Rattle.abc_fields.specs.Books.{without_mark};
ghost use Rattle.abc_fields.specs.Tunes.{is_tune_start, ends_tune};
ghost use Rattle.abc_fields.specs.FileHeaders.{is_header_line, is_directive, rule_of, rule_below};
ghost use Rattle.abc_fields.specs.FileHeaders.{rule_of_field, rule_of_information};
ghost use Rattle.told_books.specs.Fates.{is_version, engraves};

use abc_fields::{
    CarryRule, field_value, is_all_blank, is_comment, is_continuation, is_field_line,
};

// The book without the byte order mark at its front.
pub(crate) fn without_mark(book: &[u8]) -> &[u8]
    ensures { result.now ≡ without_mark book.now }
{
    if book.starts_with(b"\xef\xbb\xbf") {
        &book[3..]
    } else {
        book
    }
}

pub(crate) fn starts_tune(line: &[u8]) -> bool
    ensures { result ≡ is_tune_start line.now }
{
    line.starts_with(b"X:")
}

// Whether a tune ends before a line.
pub(crate) fn ends_tune(line: &[u8]) -> bool
    ensures { result ≡ ends_tune line.now }
{
    is_all_blank(line) || starts_tune(line)
}

// Whether a line may stand in a file header.
pub(crate) fn is_header_line(line: &[u8]) -> bool
    ensures { result ≡ is_header_line line.now }
{
    !starts_tune(line) && (is_field_line(line) || is_continuation(line) || is_comment(line))
}

// Whether a first line tells the version of the standard.
pub(crate) fn is_version(line: &[u8]) -> bool
    ensures { result ≡ is_version line.now }
{
    line.starts_with(b"%abc")
}

fn is_directive(line: &[u8]) -> bool
    ensures { result ≡ is_directive line.now }
{
    line.starts_with(b"%%")
}

// Whether a line changes how a sheet is engraved.
pub(crate) fn engraves(line: &[u8]) -> bool
    ensures { result ≡ engraves line.now }
{
    is_directive(line) || line.starts_with(b"U:") || line.starts_with(b"m:")
}

// Which tunes carry a line of a file header, where this is the rule of the nearest field above it.
pub(crate) fn rule_of(above: CarryRule, line: &[u8]) -> CarryRule
    ensures { result ≡ rule_of above line.now }
{
    if is_continuation(line) {
        above
    } else if is_field_line(line) {
        rule_of_field(line)
    } else if is_directive(line) {
        CarryRule::Always
    } else {
        CarryRule::Never
    }
}

// The rule of the nearest field above the next line.
pub(crate) fn rule_below(above: CarryRule, line: &[u8]) -> CarryRule
    ensures { result ≡ rule_below above line.now }
{
    if is_field_line(line) {
        rule_of_field(line)
    } else {
        above
    }
}

// Which tunes carry a field line.
fn rule_of_field(line: &[u8]) -> CarryRule
    ensures { result ≡ rule_of_field line.now }
{
    let [letter, ..] = line else {
        return CarryRule::Never;
    };
    match *letter {
        b'I' => rule_of_information(field_value(line)),
        b'U' | b'm' => CarryRule::Always,
        b'X' | b'T' | b'K' => CarryRule::Never,
        letter => CarryRule::Unless(letter),
    }
}

// Which tunes carry an information field of this value.
fn rule_of_information(value: &[u8]) -> CarryRule
    ensures { result ≡ rule_of_information value.now }
{
    if value.starts_with(b"abc-version") || value.starts_with(b"abc-charset") {
        CarryRule::Never
    } else {
        CarryRule::Always
    }
}
