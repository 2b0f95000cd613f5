// Which tunes carry a line of a file header.
ghost use Rattle.std.specs.Prelude.{◌≡◌};
ghost use Rattle.abc_fields.specs.FileHeaders.{is_header_line, rule_of, rule_below, rule_of_field};
ghost use Rattle.abc_fields.specs.FileHeaders.{rule_of_information};
ghost use Rattle.abc_fields.specs.Inside.HeaderRows.{IsByteRule};

use crate::line_kinds::{is_comment, is_continuation, is_field_line};
use crate::values::field_value;

/// Which tunes of a book carry a line of its file header (ABC 2.1, 2.2.2; this archive's profile).
#[derive(Clone, Copy, Debug, PartialEq, Eq)]
pub enum CarryRule {
    /// No tune.
    Never,
    /// Each tune.
    Always,
    /// Each tune whose own header has no field of this letter.
    Unless(u8),
}

// Whether a line may stand in a file header.
pub(crate) fn is_header_line(line: &[u8]) -> bool
    ensures { result ≡ is_header_line line.now }
{
    !line.starts_with(b"X:") && (is_field_line(line) || is_continuation(line) || is_comment(line))
}

// Which tunes carry a line of a file header, where this is the rule of the nearest field above it.
pub(crate) fn rule_of(above: CarryRule, line: &[u8]) -> CarryRule
    requires { IsByteRule above }
    ensures value { result ≡ rule_of above line.now }
    ensures byte { IsByteRule result }
{
    if is_continuation(line) {
        above
    } else if is_field_line(line) {
        rule_of_field(line)
    } else if line.starts_with(b"%%") {
        CarryRule::Always
    } else {
        CarryRule::Never
    }
}

// The rule of the nearest field above the next line.
pub(crate) fn rule_below(above: CarryRule, line: &[u8]) -> CarryRule
    requires { IsByteRule above }
    ensures value { result ≡ rule_below above line.now }
    ensures byte { IsByteRule result }
{
    if is_field_line(line) {
        rule_of_field(line)
    } else {
        above
    }
}

// Which tunes carry a field line.
fn rule_of_field(line: &[u8]) -> CarryRule
    ensures value { result ≡ rule_of_field line.now }
    ensures byte { IsByteRule result }
{
    let [letter, ..] = line else {
        return CarryRule::Never;
    };
    match *letter {
        b'I' => rule_of_information(field_value(line)),
        b'U' | b'm' => CarryRule::Always,
        b'X' | b'T' | b'K' => CarryRule::Never,
        letter => CarryRule::Unless(letter),
    }
}

// Which tunes carry an information field of this value.
fn rule_of_information(value: &[u8]) -> CarryRule
    ensures value { result ≡ rule_of_information value.now }
    ensures byte { IsByteRule result }
{
    if value.starts_with(b"abc-version") || value.starts_with(b"abc-charset") {
        CarryRule::Never
    } else {
        CarryRule::Always
    }
}
