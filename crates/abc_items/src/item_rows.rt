// The item at the front of a text: one function for each row of the table of items.
ghost use Rattle.std.specs.Prelude.{◌≡◌, ℕ, ◌<◌, ◌≤◌, ◌+◌, ◌==◌, ◌&&◌, is_some, List, length};
ghost use Rattle.std.specs.Prelude.{IfSome, Some, None, IsTrue, true};
ghost use Rattle.std.specs.List.{prefix_len};
ghost use Rattle.std.specs.Char.{is_ascii_digit};
ghost use Rattle.abc_fields.specs.Bytes.{begins};
ghost use Rattle.abc_items.specs.Marks.{opening_brace, closing_brace, closing_bracket};
ghost use Rattle.abc_items.specs.Marks.{is_closing_bracket, is_octave_mark, is_chord_byte};
ghost use Rattle.abc_items.specs.Grammar.{spelling_of, IsNote};
ghost use Rattle.abc_items.specs.NoteFronts.{own_accidental, is_note_name};
ghost use Rattle.abc_items.specs.Inside.ItemRows.{up_to, enclosed, inline_field, chord, colon_part};
ghost use Rattle.abc_items.specs.Inside.ItemRows.{colon_parts, tuplet, note, front, or_else};
ghost use Rattle.abc_items.specs.Inside.ItemRows.{first_item};
ghost use Rattle.abc_items.specs.Plain.{begins_longer_row, is_plain_byte};
ghost use Rattle.abc_items.specs.Inside.FrontLengths.{IsFrontLength};
ghost use Rattle.abc_items.specs.Inside.Misses.{AreMissing, IsMissing};
ghost use Rattle.abc_items.specs.Inside.PlainFronts.{lone_kind, plain_front, lone_row};

use crate::kinds::{Front, Kind};
use abc_keys::{Accidental, accidental_of, doubled};
use memchr::{memchr, memchr3};

// Closing marks that were sought and not found. No later search for one of them begins, so that a
// text of many opening marks and no closing one is read in time linear in its length; a search that
// finds its mark passes over the bytes of its own item alone. The quotation mark and the marks of
// decorations need no such memory: each closes itself, so where a search for one fails, the text
// has no further one to begin another search.
#[derive(Clone, Copy)]
pub(crate) struct Misses {
    // No `}` is left.
    pub(crate) brace: bool,
    // No `]` is left.
    pub(crate) bracket: bool,
}

// How many bytes there are up to the first closing mark, that one too.
fn up_to(bytes: &[u8], closing: u8) -> Option<usize>
    ensures value { result ≡ up_to closing bytes.now }
    ensures within { IsFrontLength bytes.now result }
{
    memchr(closing, bytes).map(|before| before + 1)
}

// The same, with no search where the mark is known to be missing. Remembers that it is.
fn up_to_or_miss(bytes: &[u8], closing: u8, missing: &mut bool) -> Option<usize>
    requires { IsMissing closing missing.old bytes.now }
    ensures value { result ≡ up_to closing bytes.now }
    ensures within { IsFrontLength bytes.now result }
    ensures missing { IsMissing closing missing.new bytes.now }
{
    if *missing {
        return None;
    }
    let found = up_to(bytes, closing);
    *missing = found.is_none();
    found
}

// A text between two marks that are the same.
#[tactic(auto, unfolding(crate::specs::Inside::ItemRows::enclosed))]
fn enclosed(bytes: &[u8], mark: u8) -> Option<usize>
    ensures value { result ≡ enclosed mark mark bytes.now }
    ensures within { IsFrontLength bytes.now result }
{
    match bytes {
        [first, rest @ ..] if *first == mark => up_to(rest, mark).map(|n| n + 1),
        _ => None,
    }
}

// Grace notes.
#[tactic(auto, unfolding(crate::specs::Inside::ItemRows::enclosed))]
fn grace(bytes: &[u8], missing: &mut bool) -> Option<usize>
    requires { IsMissing closing_brace missing.old bytes.now }
    ensures value { result ≡ enclosed opening_brace closing_brace bytes.now }
    ensures within { IsFrontLength bytes.now result }
    ensures missing { IsMissing closing_brace missing.new bytes.now }
{
    match bytes {
        [b'{', rest @ ..] => up_to_or_miss(rest, b'}', missing).map(|n| n + 1),
        _ => None,
    }
}

// An inline field.
#[tactic(auto, unfolding(crate::specs::Inside::ItemRows::inline_field))]
fn inline_field(bytes: &[u8], missing: &mut bool) -> Option<usize>
    requires { IsMissing closing_bracket missing.old bytes.now }
    ensures value { result ≡ inline_field bytes.now }
    ensures within { IsFrontLength bytes.now result }
    ensures missing { IsMissing closing_bracket missing.new bytes.now }
{
    match bytes {
        [b'[', name, b':', rest @ ..] if name.is_ascii_alphabetic() => {
            up_to_or_miss(rest, b']', missing).map(|n| n + 3)
        }
        _ => None,
    }
}

// How many bytes at the front may stand in a chord. The search begins after a `[` and stops at the
// next one at the latest, so that no two such searches pass over one byte, and those of a text take
// time linear in its length, whatever they find.
fn chord_bytes(bytes: &[u8]) -> usize
    ensures value { result ≡ prefix_len is_chord_byte bytes.now }
    ensures within { result ≤ length bytes.now }
{
    if !begins_with_chord_byte(bytes) {
        return 0;
    }
    memchr3(b'[', b']', b'|', bytes).unwrap_or(bytes.len())
}

fn begins_with_chord_byte(bytes: &[u8]) -> bool
    ensures { result ≡ begins is_chord_byte bytes.now }
{
    matches!(bytes, [byte, ..] if !matches!(*byte, b'[' | b']' | b'|'))
}

// Whether the first byte is a digit.
fn begins_with_digit(bytes: &[u8]) -> bool
    ensures { result ≡ begins is_ascii_digit bytes.now }
{
    match bytes {
        [byte, ..] => byte.is_ascii_digit(),
        [] => false,
    }
}

fn begins_with_closing_bracket(bytes: &[u8]) -> bool
    ensures value { result ≡ begins is_closing_bracket bytes.now }
    ensures some { IsTrue result → 0 < length bytes.now }
{
    matches!(bytes, [b']', ..])
}

// A chord.
#[tactic(auto, unfolding(crate::specs::Inside::ItemRows::chord))]
fn chord(bytes: &[u8]) -> Option<usize>
    ensures value { result ≡ chord bytes.now }
    ensures within { IsFrontLength bytes.now result }
{
    match bytes {
        [b'[', rest @ ..] if !begins_with_digit(rest) => {
            let inside = chord_bytes(rest);
            if 0 < inside && begins_with_closing_bracket(&rest[inside..]) {
                Some(inside + 2)
            } else {
                None
            }
        }
        _ => None,
    }
}

// How many digits are at the front.
fn digits(bytes: &[u8]) -> usize
    ensures value { result ≡ prefix_len is_ascii_digit bytes.now }
    ensures within { result ≤ length bytes.now }
{
    bytes
        .iter()
        .take_while(|byte| byte.is_ascii_digit())
        .count()
}

// How many bytes a colon at the front has, with the digits after it.
fn colon_part(bytes: &[u8]) -> usize
    ensures value { result ≡ colon_part bytes.now }
    ensures within { result ≤ length bytes.now }
{
    match bytes {
        [b':', rest @ ..] => 1 + digits(rest),
        _ => 0,
    }
}

// The same for up to two colons.
fn two_colon_parts(bytes: &[u8]) -> usize
    ensures value { result ≡ colon_parts 2 bytes.now }
    ensures within { result ≤ length bytes.now }
{
    let first = colon_part(bytes);
    first + colon_part(&bytes[first..])
}

// A tuplet.
#[tactic(auto, unfolding(crate::specs::Inside::ItemRows::tuplet))]
fn tuplet(bytes: &[u8]) -> Option<usize>
    ensures value { result ≡ tuplet bytes.now }
    ensures within { IsFrontLength bytes.now result }
{
    match bytes {
        [b'(', rest @ ..] => {
            let digits = digits(rest);
            if digits == 0 {
                return None;
            }
            Some(1 + digits + two_colon_parts(&rest[digits..]))
        }
        _ => None,
    }
}

/// The accidental that a text begins with, as it is written: one of two bytes before one of one
/// byte (ABC 2.1, 4.2). At the text of a note it is the note's own.
#[inline(always)]
pub fn own_accidental(text: &[u8]) -> Option<Accidental>
    ensures value { result ≡ own_accidental text.now }
    ensures own { (rest : List ℕ) (note : IsNote text.now rest) → result ≡ note.own }
{
    match text {
        [] => None,
        [first] => accidental_of(*first),
        [first, second, ..] => match accidental_of(*first) {
            Some(accidental) => Some(doubled(accidental, *second).unwrap_or(accidental)),
            None => None,
        },
    }
}

/// How many bytes a note's own accidental has, as it is written: 0 where it has none. The byte
/// after them names the letter (ABC 2.1, 4.1 and 4.2).
#[inline(always)]
pub fn spelling_length(own: Option<Accidental>) -> usize
    ensures value { result ≡ length (spelling_of own) }
    ensures few { result ≤ 2 }
{
    match own {
        None => 0,
        Some(Accidental::DoubleFlat | Accidental::DoubleSharp) => 2,
        Some(Accidental::Flat | Accidental::Natural | Accidental::Sharp) => 1,
    }
}

fn is_octave_mark(byte: u8) -> bool
    ensures { result ≡ is_octave_mark byte }
{
    matches!(byte, b',' | b'\'')
}

// How many octave marks are at the front.
fn octave_marks(bytes: &[u8]) -> usize
    ensures value { result ≡ prefix_len is_octave_mark bytes.now }
    ensures within { result ≤ length bytes.now }
{
    bytes
        .iter()
        .take_while(|byte| is_octave_mark(**byte))
        .count()
}

// A note.
#[tactic(auto, unfolding(crate::specs::Inside::ItemRows::note))]
fn note(bytes: &[u8]) -> Option<usize>
    ensures value { result ≡ note bytes.now }
    ensures within { IsFrontLength bytes.now result }
{
    let before = spelling_length(own_accidental(bytes));
    match bytes.get(before) {
        Some(name) if is_note_name(*name) => {
            Some(before + 1 + octave_marks(&bytes[before + 1..]))
        }
        _ => None,
    }
}

// What the item at the front of a text is, where it is one byte alone, none of those that begin the
// longer rows.
#[inline(always)]
pub(crate) fn plain_kind(bytes: &[u8]) -> Option<Kind>
    ensures value { IfSome result (λ kind. front kind 1 ≡ first_item bytes.now) }
    ensures within { IfSome result (λ kind. 0 < length bytes.now) }
    ensures name { IfSome result (λ kind. kind ≡ Kind.Note
        → begins is_note_name bytes.now ≡ true) }
    ensures plain { is_some result
        ≡ (begins is_plain_byte bytes.now && (first_item bytes.now).length == 1) }
{
    match bytes {
        [byte, rest @ ..] => alone(*byte, rest),
        [] => None,
    }
}

// What a byte is before a rest, where it is an item alone. Most bytes are notes.
#[inline(always)]
fn alone(byte: u8, rest: &[u8]) -> Option<Kind>
    ensures { result ≡ lone_row byte rest.now }
{
    if is_note_name(byte) {
        return if begins_with_octave_mark(rest) {
            None
        } else {
            Some(Kind::Note)
        };
    }
    if begins_longer_row(byte) {
        return None;
    }
    Some(lone_kind(byte))
}

fn begins_with_octave_mark(bytes: &[u8]) -> bool
    ensures { result ≡ begins is_octave_mark bytes.now }
{
    matches!(bytes, [mark, ..] if is_octave_mark(*mark))
}

fn begins_longer_row(byte: u8) -> bool
    ensures { result ≡ begins_longer_row byte }
{
    matches!(
        byte,
        b'"' | b'!' | b'+' | b'{' | b'[' | b'(' | b'^' | b'=' | b'_'
    )
}

#[inline(always)]
fn plain_front(byte: u8, rest: &[u8]) -> Front
    ensures value { result ≡ plain_front byte rest.now }
    ensures within { (0 < result.length) × (result.length ≤ length rest.now + 1) }
{
    if is_note_name(byte) {
        Front::new(Kind::Note, 1 + octave_marks(rest))
    } else {
        Front::new(lone_kind(byte), 1)
    }
}

// What an item of one byte is.
fn lone_kind(byte: u8) -> Kind
    ensures { result ≡ lone_kind byte }
{
    match byte {
        b'|' | b':' => Kind::Bar,
        _ => Kind::Other,
    }
}

// Whether a byte names a letter. A small letter is its capital with one bit more.
fn is_note_name(byte: u8) -> bool
    ensures { result ≡ is_note_name byte }
{
    matches!(byte | 0x20, b'a'..=b'g')
}

// The item at the front of a text: the first row that fits.
#[inline(always)]
pub(crate) fn first_item(bytes: &[u8], misses: &mut Misses) -> Front
    requires some { 0 < length bytes.now }
    requires misses { AreMissing misses.old bytes.now }
    ensures value { result ≡ first_item bytes.now }
    ensures some { 0 < result.length }
    ensures within { result.length ≤ length bytes.now }
    ensures misses { AreMissing misses.new bytes.now }
{
    match bytes {
        [byte, rest @ ..] if !begins_longer_row(*byte) => plain_front(*byte, rest),
        _ => marked_item(bytes, misses),
    }
}

// The same where the first byte begins one of the longer rows: of that row, or that byte alone.
#[tactic(auto, unfolding(crate::specs::Inside::ItemRows::enclosed))]
fn marked_item(bytes: &[u8], misses: &mut Misses) -> Front
    requires some { 0 < length bytes.now }
    requires mark { IsTrue (begins begins_longer_row bytes.now) }
    requires misses { AreMissing misses.old bytes.now }
    ensures value { result ≡ first_item bytes.now }
    ensures some { 0 < result.length }
    ensures within { result.length ≤ length bytes.now }
    ensures misses { AreMissing misses.new bytes.now }
{
    match bytes[0] {
        b'"' => of_row(bytes, Kind::Quoted, enclosed(bytes, b'"')),
        b'!' => of_row(bytes, Kind::Decoration, enclosed(bytes, b'!')),
        b'+' => of_row(bytes, Kind::Decoration, enclosed(bytes, b'+')),
        b'{' => of_row(bytes, Kind::Grace, grace(bytes, &mut misses.brace)),
        b'[' => match inline_field(bytes, &mut misses.bracket) {
            Some(length) => Front::new(Kind::InlineField, length),
            None => of_row(bytes, Kind::Chord, chord(bytes)),
        },
        b'(' => of_row(bytes, Kind::Tuplet, tuplet(bytes)),
        b'^' => of_row(bytes, Kind::Note, note(bytes)),
        b'=' => of_row(bytes, Kind::Note, note(bytes)),
        b'_' => of_row(bytes, Kind::Note, note(bytes)),
        byte => plain_front(byte, &bytes[1..]),
    }
}

// An item of a row, where it has a length, or the first byte alone.
#[inline(always)]
fn of_row(bytes: &[u8], kind: Kind, found: Option<usize>) -> Front
    requires some { 0 < length bytes.now }
    requires within { IsFrontLength bytes.now found }
    ensures value { result ≡ or_else kind found (front Kind.Other 1) }
    ensures some { 0 < result.length }
    ensures within { result.length ≤ length bytes.now }
{
    match found {
        Some(length) => Front::new(kind, length),
        None => Front::new(Kind::Other, 1),
    }
}
