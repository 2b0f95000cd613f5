// The lines of one tune.
ghost use Rattle.std.specs.Prelude.{◌≡◌, ◌≤◌, ◌+◌, ◌++◌, List, [], ◌∷◌, length, take, drop};
ghost use Rattle.std.specs.Prelude.{true, false, IfOk, OnOk, IfSome, MatchOption, MatchResult};
ghost use Rattle.std.specs.Prelude.{Err, ℕ, Some};
ghost use Rattle.abc_fields.specs.Lines.{spans_of};
ghost use Rattle.abc_fields.specs.Bytes.{line_feed};
ghost use Rattle.abc_fields.specs.Limits.{longest_book, longest_tune};
ghost use Rattle.abc_fields.specs.Inside.LinesLeft.{contents_of, IsRestAfter, AreRead, still};
ghost use Rattle.abc_fields.specs.Inside.HeaderEnds.{key_place, IsKeyRead};
ghost use Rattle.abc_fields.specs.Inside.ToldLines.{IsTold, IsToldOf};
ghost use Rattle.abc_fields.specs.Tunes.{is_tune_start, ends_tune, tune_run, joined, has_key};
ghost use Rattle.abc_fields.specs.Tunes.{IsTextWithin};
ghost use Rattle.abc_fields.specs.FileHeaders.{before_key, has_letter};
ghost use Rattle.abc_fields.specs.Books.{Texts, tune_answer};
ghost use Rattle.abc_fields.specs.Inside.HeaderRows.{with_rows, taken_lines};
ghost use Rattle.abc_fields.specs.Inside.CarriedBytes.{KeepsCarried};
ghost use Rattle.abc_fields.specs.Fields.{header_of};

use crate::book::{BookFault, TuneFault};
use crate::carried::Carried;
use crate::file_header::FileHeader;
use crate::header_letters::Letters;
use crate::key_place::KeyPlace;
use crate::line_kinds::{in_part_after, is_key_line};
use crate::lines::{Line, Lines};
use crate::texts::TuneText;
use crate::told_lines::{LinePlace, NO_PLACES, ToldLines, is_told, keep_place};
use crate::values::is_all_blank;
use std::alloc::{AllocError, Global};

pub(crate) fn starts_tune(line: &[u8]) -> bool
    ensures { result ≡ is_tune_start line.now }
{
    line.starts_with(b"X:")
}

// Whether a tune ends before a line. The first byte of most lines tells that it does not.
pub(crate) fn ends_tune(line: &[u8]) -> bool
    ensures { result ≡ ends_tune line.now }
{
    match line {
        [] => true,
        [b' ' | b'\t', ..] => is_all_blank(line),
        [b'X', ..] => starts_tune(line),
        _ => false,
    }
}

pub(crate) fn push_line(out: &mut Vec<u8>, line: &[u8]) -> Result<(), AllocError>
    ensures { OnOk result (out.new.items ≡ out.old.items ++ (line.now ++ line_feed ∷ [])) }
{
    out.extend_from_slice(line)?;
    out.push(b'\n').map_err(|_| AllocError)
}

// The next line of a tune, where it does not end before it.
fn next_of_tune<'a>(lines: &mut Lines<'a>) -> Option<Line<'a>>
    ensures { MatchOption result
        ((tune_run (contents_of lines.old) ≡ []) × (lines.new ≡ lines.old))
        (λ line. (ends_tune line.text.now ≡ false)
        × (contents_of lines.old ≡ line.text.now ∷ contents_of lines.new)) }
{
    let mut ahead = lines.again();
    let line = ahead.next()?;
    if ends_tune(line.text) {
        return None;
    }
    *lines = ahead;
    Some(line)
}

// What the lines of a tune have come to.
#[derive(Clone, Copy)]
struct Measured {
    // How many bytes the text of the lines has.
    length: usize,
    // Whether one of them gives the key.
    has_key: bool,
}

// Reads the lines of a tune to their end.
#[inline(never)]
fn measure(lines: &mut Lines) -> Measured
    requires { length (joined (contents_of lines.old)) ≤ longest_book + 1 }
    ensures length { result.length ≡ length (joined (tune_run (contents_of lines.old))) }
    ensures key { result.has_key ≡ has_key (tune_run (contents_of lines.old)) }
    ensures rest { IsRestAfter (contents_of lines.old) (contents_of lines.new) }
    ensures few { result.length ≤ longest_book + 1 }
{
    let mut length = 0;
    let mut has_key = false;
    let mut left = lines.again();
    while let Some(line) = next_of_tune(&mut left) {
        length += line.text.len() + 1;
        has_key = has_key || is_key_line(line.text);
    }
    *lines = left;
    Measured { length, has_key }
}

// Judges the tune of this place, of which these are the lines, with what stands behind it.
pub(crate) fn judge_tune(
    lines: &mut Lines,
    header: &FileHeader,
    longest: usize,
    place: usize,
) -> Result<(), BookFault>
    requires { length (joined (contents_of lines.old)) ≤ longest_book + 1 }
    ensures answer { let run = with_rows header.now (tune_run (contents_of lines.old)) in
        MatchResult result (λ _. (has_key run ≡ true) × (length (joined run) ≤ longest))
        (λ fault. (later : Texts)
        → tune_answer longest place (has_key run) (joined run) later ≡ Err fault) }
    ensures rest { IsRestAfter (contents_of lines.old) (contents_of lines.new) }
{
    let start = lines.again();
    let measured = measure(lines);
    if !measured.has_key {
        let fault = TuneFault::NoKey;
        return Err(BookFault::BadTune { place, fault });
    }
    let length = measured.length + length_carried(header, start);
    if length > longest {
        let fault = TuneFault::TooLong;
        return Err(BookFault::BadTune { place, fault });
    }
    Ok(())
}

// How many bytes the lines have that a tune carries, of which these are the lines.
fn length_carried(header: &FileHeader, lines: Lines) -> usize
    ensures value { let run = tune_run (contents_of lines.entry) in
        result ≡ length (joined (taken_lines (has_letter (header_of run)) header.now)) }
    ensures few { result ≤ longest_book + 1 }
{
    if header.is_empty() {
        return 0;
    }
    header.length_for(&Letters::of_tune(lines))
}

// Reads the text of the tune of which these are the lines, with the lines that it carries.
pub(crate) fn text_of_tune(
    alloc: Global,
    lines: &mut Lines,
    header: &FileHeader,
    carried: &mut Carried,
    text: &mut Vec<u8>,
) -> Result<TuneText, AllocError>
    requires good { IsTextWithin longest_tune
        (joined (with_rows header.now (tune_run (contents_of lines.old)))) }
    requires carried { KeepsCarried header.now carried.old }
    ensures text { IfOk result (λ text.
        text ≡ joined (with_rows header.now (tune_run (contents_of lines.old)))) }
    ensures carried { OnOk result (KeepsCarried header.now carried.new) }
    ensures rest { OnOk result (IsRestAfter (contents_of lines.old) (contents_of lines.new)) }
{
    carried.change_to(alloc, header, lines.again())?;
    let put = carried.last.bytes.as_slice();
    let mut after = lines.again();
    if let Some((key, told)) = read_to_end(&mut after) {
        if let Some(part) = lines.part_before(&after) {
            *lines = after;
            return text_of_part(alloc, part, key, told, put);
        }
    }
    text.clear();
    write_tune(text, lines, put)?;
    Ok(TuneText::from_vec(Vec::from_slice(alloc, text.as_slice())?))
}

// The text of a tune whose lines are this part of the book, with these bytes before its key.
fn text_of_part(
    alloc: Global,
    part: &[u8],
    key: KeyPlace,
    told: ToldLines,
    put: &[u8],
) -> Result<TuneText, AllocError>
    requires within { key.from ≤ length part.now }
    requires good { IsTextWithin longest_tune
        (take key.from part.now ++ (put.now ++ drop key.from part.now)) }
    requires key { key_place false (spans_of part.now) ≡ Some key }
    requires told { IsTold part.now told }
    ensures { IfOk result (λ text.
        text ≡ take key.from part.now ++ (put.now ++ drop key.from part.now)) }
{
    if put.is_empty() {
        return Ok(TuneText::from_keyed(Vec::from_slice(alloc, part)?, key, told));
    }
    let mut text = Vec::with_capacity(alloc, part.len() + put.len())?;
    text.extend_from_slice(&part[..key.from])?;
    text.extend_from_slice(put)?;
    text.extend_from_slice(&part[key.from..])?;
    Ok(TuneText::from_vec(text))
}

// Reads the lines of a tune to their end, where one of them gives the key, and tells where the
// lines stand in its text that give the titles, the rhythm and the key. It stands apart, so that
// the reader stays in registers.
#[inline(never)]
fn read_to_end(lines: &mut Lines) -> Option<(KeyPlace, ToldLines)>
    requires { length (joined (tune_run (contents_of lines.old))) ≤ longest_tune }
    ensures { IfSome result (λ found.
        IsKeyRead (contents_of lines.old) (contents_of lines.new) found.0
        × (tune_run (contents_of lines.new) ≡ [])
        × IsToldOf (tune_run (contents_of lines.old)) found.1) }
{
    let mut left = lines.again();
    let found = read_to_key(&mut left)?;
    read_rest(&mut left);
    *lines = left;
    Some(found)
}

// Reads the lines of a tune up to the first that gives the key, that one included.
#[inline(always)]
fn read_to_key(lines: &mut Lines) -> Option<(KeyPlace, ToldLines)>
    requires { length (joined (tune_run (contents_of lines.old))) ≤ longest_tune }
    ensures { IfSome result (λ found.
        IsKeyRead (contents_of lines.old) (contents_of lines.new) found.0
        × IsToldOf (tune_run (contents_of lines.old)) found.1) }
{
    let mut from = 0;
    let mut in_part = false;
    let mut places = NO_PLACES;
    let mut count = 0;
    while let Some(line) = next_of_tune(lines) {
        let place = LinePlace::new(from, from + line.text.len());
        if is_key_line(line.text) {
            let key = place;
            return Some((KeyPlace { from, in_part }, ToldLines { places, count, key }));
        }
        if is_told(line.text) {
            count = keep_place(&mut places, count, place);
        }
        in_part = in_part_after(in_part, line.text);
        from += line.text.len() + 1;
    }
    None
}

// Reads the lines of a tune to their end.
#[inline(always)]
fn read_rest(lines: &mut Lines)
    ensures read { AreRead (contents_of lines.old) (tune_run (contents_of lines.old))
        (contents_of lines.new) }
    ensures all { tune_run (contents_of lines.new) ≡ [] }
{
    while let Some(_line) = next_of_tune(lines) {}
}

// Writes the lines of a tune, and these bytes directly before the first that gives the key. It
// stands apart, since most tunes are a part of their book.
#[inline(never)]
fn write_tune(out: &mut Vec<u8>, lines: &mut Lines, put: &[u8]) -> Result<(), AllocError>
    ensures text { OnOk result ((carried : List (List ℕ)) → joined carried ≡ put.now → out.new.items
        ≡ out.old.items ++ joined (before_key carried (tune_run (contents_of lines.old)))) }
    ensures rest { OnOk result (IsRestAfter (contents_of lines.old) (contents_of lines.new)) }
{
    let mut has_key = false;
    while let Some(line) = next_of_tune(lines) {
        has_key = write_line(out, line.text, put, has_key)?;
    }
    Ok(())
}

// Writes the next line of a tune, and tells whether its key has come.
fn write_line(out: &mut Vec<u8>, line: &[u8], put: &[u8], has_key: bool) -> Result<bool, AllocError>
    ensures { IfOk result (λ now. (carried rest : List (List ℕ)) → joined carried ≡ put.now
        → out.new.items ++ joined (still now carried rest)
        ≡ out.old.items ++ joined (still has_key carried (line.now ∷ rest))) }
{
    if !has_key && is_key_line(line) {
        out.extend_from_slice(put)?;
        push_line(out, line)?;
        return Ok(true);
    }
    push_line(out, line)?;
    Ok(has_key)
}
