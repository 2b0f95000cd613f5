// The kinds of lines.
ghost use Rattle.std.specs.Prelude.{◌≡◌};
ghost use Rattle.abc_fields.specs.Tunes.{is_key_line};
ghost use Rattle.abc_fields.specs.LineKinds.{is_field_line, is_continuation, is_comment};
ghost use Rattle.abc_fields.specs.LineKinds.{in_part_after};

/// Whether a line is a field: a letter directly before a colon (ABC 2.1, 3.1).
pub fn is_field_line(line: &[u8]) -> bool
    ensures { result ≡ is_field_line line.now }
{
    match line {
        [letter, b':', ..] => letter.is_ascii_alphabetic(),
        _ => false,
    }
}

/// Whether a line gives the key: it begins with `K:`. The first one ends the header of its tune
/// (ABC 2.1, 3.1.14).
pub fn is_key_line(line: &[u8]) -> bool
    ensures { result ≡ is_key_line line.now }
{
    line.starts_with(b"K:")
}

/// Whether a line goes on with the field above it: it begins with `+:` (ABC 2.1, 3.3).
pub fn is_continuation(line: &[u8]) -> bool
    ensures { result ≡ is_continuation line.now }
{
    line.starts_with(b"+:")
}

/// Whether a line is a comment or a directive: it begins with a percent sign (ABC 2.1, 2.2).
pub fn is_comment(line: &[u8]) -> bool
    ensures { result ≡ is_comment line.now }
{
    line.starts_with(b"%")
}

/// Whether the line after this one lies within a part between a line that begins with `%%begin` and
/// the next that begins with `%%end`; `inside` says whether this one does (this archive's profile
/// of ABC 2.1, 11). A part has no parts within it.
pub fn in_part_after(inside: bool, line: &[u8]) -> bool
    ensures { result ≡ in_part_after inside line.now }
{
    if !is_comment(line) {
        return inside;
    }
    if inside {
        !line.starts_with(b"%%end")
    } else {
        line.starts_with(b"%%begin")
    }
}
