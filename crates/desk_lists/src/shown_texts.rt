// Bytes as text.
ghost use Rattle.std.specs.Prelude.{◌≡◌, ◌++◌, ◌+◌, ◌<◌, ◌≤◌, IfOk, OnOk, drop, length};
ghost use Rattle.std.specs.Prelude.{string_bytes};
ghost use Rattle.std.specs.Str.{IsUtf8};
ghost use Rattle.desk_lists.specs.ShownTexts.{text_bytes};

use std::alloc::{AllocError, Global};

/// The bytes as text: those that are UTF-8 stay, and each other byte is taken for a character of
/// Latin-1. Its only error is out of memory.
pub fn text_of(alloc: Global, bytes: &[u8]) -> Result<String, AllocError>
    ensures { IfOk result (λ text. string_bytes text ≡ text_bytes bytes.now) }
{
    let mut text = String::new(alloc);
    let mut at = 0;
    while at < bytes.len() {
        at += push_part(&mut text, &bytes[at..])?;
    }
    Ok(text)
}

// Puts a part of the bytes behind a text: all of them, or what is UTF-8 and one byte more. How many
// these are.
fn push_part(text: &mut String, bytes: &[u8]) -> Result<usize, AllocError>
    requires { 0 < length bytes.now }
    ensures within { IfOk result (λ count. (0 < count) × (count ≤ length bytes.now)) }
    ensures part { IfOk result (λ count.
        string_bytes text.new ++ text_bytes (drop count bytes.now)
        ≡ string_bytes text.old ++ text_bytes bytes.now) }
{
    match std::str::from_utf8(bytes) {
        Ok(whole) => {
            text.push_str(whole)?;
            Ok(bytes.len())
        }
        Err(fault) => {
            let good = fault.valid_up_to();
            push_front(text, &bytes[..good])?;
            text.push(char::from(bytes[good]))?;
            Ok(good + 1)
        }
    }
}

// Puts these bytes, which are UTF-8, behind a text.
fn push_front(text: &mut String, front: &[u8]) -> Result<(), AllocError>
    requires { IsUtf8 front.now }
    ensures { OnOk result (string_bytes text.new ≡ string_bytes text.old ++ front.now) }
{
    match std::str::from_utf8(front) {
        Ok(front) => text.push_str(front),
        Err(_) => Ok(()),
    }
}
