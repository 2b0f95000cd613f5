// What a key text says.
ghost use Rattle.std.specs.Prelude.{◌≡◌, ◌≤◌, ℕ, ℤ, List, Some, IfSome, length};
ghost use Rattle.std.specs.List.{prefix_len};
ghost use Rattle.std.specs.Char.{is_ascii_alphabetic};
ghost use Rattle.abc_fields.specs.Bytes.{is_blank, begins};
ghost use Rattle.abc_keys.specs.declared.signatures.Signature.{Signature as AnySignature};
ghost use Rattle.abc_keys.specs.declared.scales.Scale.{Scale as AnyScale};
ghost use Rattle.abc_keys.specs.Signatures.{of_count, HasCount};
ghost use Rattle.abc_keys.specs.Fifths.{listed_count};
ghost use Rattle.abc_keys.specs.Pairs.{Setting};
ghost use Rattle.abc_keys.specs.Accidentals.{with_words, SetsItsPairs, LastCounts};
ghost use Rattle.abc_keys.specs.declared.keys.Key.{Key as AnyKey};
ghost use Rattle.abc_keys.specs.KeyCases.{IsKeyText, tonic_text};
ghost use Rattle.abc_keys.specs.Keys.{key_of_text, SkipsBlanks};
ghost use Rattle.abc_keys.specs.Inside.KeySteps.{is_ink, is_none, pipes_signature, key_of_scale};
ghost use Rattle.abc_keys.specs.Inside.KeySteps.{key_of_mode, key_after_tonic, key_after_sign};
ghost use Rattle.abc_keys.specs.Inside.KeySteps.{key_after_letter, key_with_tonic, key_of_trimmed};

use crate::accidentals::with_words;
use crate::keys::Key;
use crate::letters::{Accidental, Letter, capital_letter};
use crate::mode_words::{ModeWord, is_word, mode_of};
use crate::scales::{Mode, Scale, Sign};
use crate::signatures::{NO_ACCIDENTALS, Signature};
use abc_fields::{is_blank, trim_blanks};

/// What a key text says (ABC 2.1, 3.1.14; this archive's profile). The text is a field's value, or
/// what follows `K:` in an inline field.
///
/// Its law stands beside it: a text without spaces and tabs at its ends is nothing; or it begins
/// with the word `none`, `HP` or `Hp`; or with a tonic and its sign, and then a mode word, no word
/// or another word. Each of these cases says its key, no text has two, and a text of no case is
/// unread.
///
/// Words that set accidentals are pairs of an accidental and a letter, one after another, of which
/// the last one for a letter counts; other words set none. A scale from seven flats to seven sharps
/// along the line of fifths has as many sharps or flats as its count says, in their order, and no
/// others. Spaces and tabs at the ends of a text say nothing.
#[tactic(auto, unfolding(crate::specs::Keys::key_of_text))]
#[inline(always)]
pub fn key_of(text: &[u8]) -> Key
    ensures key { result ≡ key_of_text text.now }
    ensures is_key { IsKeyText text.now (key_of_text text.now) }
    ensures no_other_key { (said : AnyKey) → IsKeyText text.now said → said ≡ key_of_text text.now }
    ensures words { (word : List ℕ) → SetsItsPairs word }
    ensures last_counts { (signature : AnySignature) (pairs : List Setting)
        → LastCounts signature pairs }
    ensures counted { (scale : AnyScale) (count : ℤ)
        → listed_count scale ≡ Some count → HasCount count (of_count count) }
    ensures skips_blanks { SkipsBlanks text.now }
{
    key_of_trimmed(trim_blanks(text))
}

#[inline(always)]
fn key_of_trimmed(text: &[u8]) -> Key
    ensures { result ≡ key_of_trimmed text.now }
{
    match tonic_alone(text) {
        Some(tonic) => major_key(tonic),
        None => key_of_words(text),
    }
}

// The tonic of a text that is nothing else, as most are.
#[inline(always)]
fn tonic_alone(text: &[u8]) -> Option<Letter>
    ensures { IfSome result (λ tonic. text.now ≡ tonic_text tonic) }
{
    match text {
        [byte] => capital_letter(*byte),
        _ => None,
    }
}

#[inline(always)]
fn major_key(tonic: Letter) -> Key
    ensures { result ≡ key_of_trimmed (tonic_text tonic) }
{
    let scale = Scale {
        tonic,
        sign: Sign::Natural,
        mode: Mode::Major,
    };
    key_of_scale(scale, b"")
}

#[inline(never)]
fn key_of_words(text: &[u8]) -> Key
    ensures { result ≡ key_of_trimmed text.now }
{
    let length = ink_length(text);
    let first = &text[..length];
    if is_none(first) {
        let signature = with_words(NO_ACCIDENTALS, &text[length..]);
        return Key::Bare { signature };
    }
    match pipes_signature(first) {
        Some(signature) => Key::Highland { signature },
        None => key_with_tonic(text),
    }
}

// Nothing, or `none` in any capitals.
fn is_none(word: &[u8]) -> bool
    ensures { result ≡ is_none word.now }
{
    word.is_empty() || is_word(word, b"none")
}

fn pipes_signature(word: &[u8]) -> Option<Signature>
    ensures { result ≡ pipes_signature word.now }
{
    if word == b"HP".as_slice() {
        Some(NO_ACCIDENTALS)
    } else if word == b"Hp".as_slice() {
        Some(Signature {
            c: Accidental::Sharp,
            f: Accidental::Sharp,
            ..NO_ACCIDENTALS
        })
    } else {
        None
    }
}

fn key_with_tonic(text: &[u8]) -> Key
    ensures { result ≡ key_with_tonic text.now }
{
    match text {
        [byte, rest @ ..] => match capital_letter(*byte) {
            Some(tonic) => key_after_letter(tonic, rest),
            None => Key::Unread,
        },
        [] => Key::Unread,
    }
}

fn key_after_letter(tonic: Letter, text: &[u8]) -> Key
    ensures { result ≡ key_after_letter tonic text.now }
{
    match text {
        [b'#', rest @ ..] => key_after_sign(tonic, Sign::Sharp, rest),
        [b'b', rest @ ..] => key_after_sign(tonic, Sign::Flat, rest),
        _ => key_after_sign(tonic, Sign::Natural, text),
    }
}

fn key_after_sign(tonic: Letter, sign: Sign, text: &[u8]) -> Key
    ensures { result ≡ key_after_sign tonic sign text.now }
{
    match text {
        [b' ' | b'\t' | b'^' | b'_' | b'=', ..] | [] => key_after_tonic(tonic, sign, text),
        [byte, ..] if byte.is_ascii_alphabetic() => key_after_tonic(tonic, sign, text),
        _ => Key::Unread,
    }
}

fn key_after_tonic(tonic: Letter, sign: Sign, text: &[u8]) -> Key
    ensures { result ≡ key_after_tonic tonic sign text.now }
{
    let word_on = &text[blank_length(text)..];
    let length = letters_length(word_on);
    let word = &word_on[..length];
    let after = &word_on[length..];
    let major = Scale {
        tonic,
        sign,
        mode: Mode::Major,
    };
    if word.is_empty() {
        return key_of_scale(major, text);
    }
    let named = if after.first() == Some(&b'=') {
        None
    } else {
        mode_of(word)
    };
    match named {
        Some(mode) => key_of_mode(tonic, sign, mode, after),
        None if begins_blank(text) => key_of_scale(major, text),
        None => Key::Unread,
    }
}

fn key_of_mode(tonic: Letter, sign: Sign, mode: ModeWord, after: &[u8]) -> Key
    ensures { result ≡ key_of_mode tonic sign mode after.now }
{
    match mode {
        ModeWord::Mode(mode) => key_of_scale(Scale { tonic, sign, mode }, after),
        ModeWord::Explicit => Key::Explicit {
            signature: with_words(NO_ACCIDENTALS, after),
        },
    }
}

#[inline(always)]
fn key_of_scale(scale: Scale, after: &[u8]) -> Key
    ensures { result ≡ key_of_scale scale after.now }
{
    match scale.sharp_count() {
        Some(count) => Key::Modal {
            scale,
            signature: with_any_words(Signature::of_count(count), after),
        },
        None => Key::Unread,
    }
}

// The signature after the words behind a mode, of which most texts have none.
#[inline(always)]
fn with_any_words(signature: Signature, text: &[u8]) -> Signature
    ensures { result ≡ with_words signature text.now }
{
    if text.is_empty() {
        signature
    } else {
        with_words(signature, text)
    }
}

// How many bytes stand before the first space or tab.
fn ink_length(text: &[u8]) -> usize
    ensures value { result ≡ prefix_len is_ink text.now }
    ensures within { result ≤ length text.now }
{
    text.iter()
        .take_while(|byte| !is_blank(char::from(**byte)))
        .count()
}

// How many spaces and tabs stand at the front.
fn blank_length(text: &[u8]) -> usize
    ensures value { result ≡ prefix_len is_blank text.now }
    ensures within { result ≤ length text.now }
{
    text.iter()
        .take_while(|byte| is_blank(char::from(**byte)))
        .count()
}

// How many letters stand at the front.
fn letters_length(text: &[u8]) -> usize
    ensures value { result ≡ prefix_len is_ascii_alphabetic text.now }
    ensures within { result ≤ length text.now }
{
    text.iter()
        .take_while(|byte| byte.is_ascii_alphabetic())
        .count()
}

fn begins_blank(text: &[u8]) -> bool
    ensures { result ≡ begins is_blank text.now }
{
    match text {
        [byte, ..] => is_blank(char::from(*byte)),
        [] => false,
    }
}
