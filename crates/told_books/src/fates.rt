// What becomes of each line of a book.
ghost use Rattle.std.specs.Prelude.{◌≡◌, ℕ, ◌+◌, ◌<◌, ◌^◌, List, length, IfOk};
ghost use Rattle.std.specs.Prelude.{if◌then◌else◌};
ghost use Rattle.std.specs.List.{list_all};
ghost use Rattle.abc_fields.specs.Tunes.{tune_runs};
ghost use Rattle.abc_fields.specs.FileHeaders.{first_block, is_header_line};
ghost use Rattle.abc_fields.specs.Inside.LinesLeft.{contents_of};
ghost use Rattle.told_books.specs.Fates.{fates_of, fates_from, fate_at, other_fate, header_fate};
ghost use Rattle.told_books.specs.Fates.{stand_after, after_empty, after_other, tunes_begun};
ghost use Rattle.told_books.specs.Fates.{first_stand, with_version, some_carries};
ghost use Rattle.told_books.specs.Inside.LetterTables.{TellsCarried};

use crate::line_rules::{engraves, is_header_line, is_version, rule_below, rule_of, starts_tune};
use crate::tune_letters::SomeCarry;
use abc_fields::{CarryRule, Lines, is_all_blank};
use std::alloc::{AllocError, Global};

/// What becomes of a line of a book that is imported.
#[derive(Clone, Copy, PartialEq, Eq)]
pub enum Fate {
    /// It is a line of this tune of the book, counted from 1, of which an `X:` line is the first.
    Kept { tune: usize },
    /// It is a line of the file header, and at least one tune carries it.
    Carried,
    /// It has no bytes but spaces and tabs.
    Blank,
    /// It is the first line, and begins with `%abc`: it tells the version of the standard.
    Version,
    /// It is in nothing that is kept. A `directive` changes how a sheet is engraved: it begins with
    /// `%%`, or is a `U:` or `m:` field.
    Dropped { directive: bool },
}

// Where a line of a book stands.
#[derive(Clone, Copy)]
pub(crate) enum Stand {
    // Before the file header, or at its first line.
    Front,
    // In the file header or behind it, with this rule of the nearest field line above.
    Header(CarryRule),
    // In this tune or behind it, counted from 1.
    Tune(usize),
    // In no tune and no file header, after so many tunes.
    Outside(usize),
}

// How many tunes have begun.
fn tunes_at(stand: Stand) -> usize
    ensures { result ≡ tunes_begun stand }
{
    match stand {
        Stand::Front | Stand::Header(_) => 0,
        Stand::Tune(number) => number,
        Stand::Outside(tunes) => tunes,
    }
}

fn after_empty(stand: Stand) -> Stand
    ensures { result ≡ after_empty stand }
{
    match stand {
        Stand::Front => Stand::Front,
        Stand::Header(_) => Stand::Outside(0),
        Stand::Tune(number) => Stand::Outside(number),
        Stand::Outside(tunes) => Stand::Outside(tunes),
    }
}

fn after_other(stand: Stand, line: &[u8]) -> Stand
    ensures { result ≡ after_other stand line.now }
{
    match stand {
        Stand::Front => Stand::Header(rule_below(CarryRule::Never, line)),
        Stand::Header(above) => Stand::Header(rule_below(above, line)),
        Stand::Tune(number) => Stand::Tune(number),
        Stand::Outside(tunes) => Stand::Outside(tunes),
    }
}

// Where the line after this one stands.
fn stand_after(stand: Stand, line: &[u8]) -> Stand
    requires { tunes_begun stand + 1 < 2 ^ 64 }
    ensures { result ≡ stand_after stand line.now }
{
    if is_all_blank(line) {
        return after_empty(stand);
    }
    if starts_tune(line) {
        return Stand::Tune(tunes_at(stand) + 1);
    }
    after_other(stand, line)
}

// A line of a file header, of this rule.
fn header_fate(some: &SomeCarry, rule: CarryRule, line: &[u8]) -> Fate
    ensures { (runs : List (List (List ℕ))) → TellsCarried some.now runs
        → result ≡ header_fate (some_carries runs) rule line.now }
{
    if some.carry(rule) {
        return Fate::Carried;
    }
    let directive = engraves(line);
    Fate::Dropped { directive }
}

// A line that is not empty and starts no tune.
fn other_fate(some: &SomeCarry, stand: Stand, line: &[u8]) -> Fate
    ensures { (runs : List (List (List ℕ))) → TellsCarried some.now runs
        → result ≡ other_fate (some_carries runs) stand line.now }
{
    match stand {
        Stand::Front => header_fate(some, rule_of(CarryRule::Never, line), line),
        Stand::Header(above) => header_fate(some, rule_of(above, line), line),
        Stand::Tune(tune) => Fate::Kept { tune },
        Stand::Outside(_) => {
            let directive = engraves(line);
            Fate::Dropped { directive }
        }
    }
}

fn fate_at(some: &SomeCarry, stand: Stand, line: &[u8]) -> Fate
    requires { tunes_begun stand + 1 < 2 ^ 64 }
    ensures { (runs : List (List (List ℕ))) → TellsCarried some.now runs
        → result ≡ fate_at (some_carries runs) stand line.now }
{
    if is_all_blank(line) {
        return Fate::Blank;
    }
    if starts_tune(line) {
        let tune = tunes_at(stand) + 1;
        return Fate::Kept { tune };
    }
    other_fate(some, stand, line)
}

// The fates of lines of which the first stands there.
fn fates_from(
    alloc: Global,
    some: &SomeCarry,
    first: Stand,
    lines: Lines,
) -> Result<Vec<Fate>, AllocError>
    requires { tunes_begun first + length (contents_of lines) + 1 < 2 ^ 64 }
    ensures { IfOk result (λ fates. (runs : List (List (List ℕ))) → TellsCarried some.now runs
        → fates.items ≡ fates_from (some_carries runs) first (contents_of lines.entry)) }
{
    let mut fates = Vec::new(alloc);
    let mut stand = first;
    for line in lines {
        fates.push(fate_at(some, stand, line.text))?;
        stand = stand_after(stand, line.text);
    }
    Ok(fates)
}

// The first line may tell the version.
fn tell_version(fates: &mut [Fate], mut lines: Lines)
    ensures { fates.new ≡ with_version (contents_of lines.entry) fates.old }
{
    if let Some(line) = lines.next() {
        if is_version(line.text) {
            if let Some(fate) = fates.first_mut() {
                *fate = Fate::Version;
            }
        }
    }
}

// Whether the first block of lines is a file header.
pub(crate) fn has_header(lines: Lines) -> bool
    ensures { result ≡ list_all is_header_line (first_block (contents_of lines.entry)) }
{
    let mut begun = false;
    for line in lines {
        if is_all_blank(line.text) {
            if begun {
                return true;
            }
        } else {
            if !is_header_line(line.text) {
                return false;
            }
            begun = true;
        }
    }
    true
}

// Where the first line stands.
fn first_stand(header: bool) -> Stand
    ensures { result ≡ (if header then Stand.Front else Stand.Outside 0) }
{
    if header {
        Stand::Front
    } else {
        Stand::Outside(0)
    }
}

// What becomes of each line.
pub(crate) fn fates_of(alloc: Global, lines: Lines, header: bool) -> Result<Vec<Fate>, AllocError>
    requires room { length (contents_of lines) + 1 < 2 ^ 64 }
    requires header { header ≡ list_all is_header_line (first_block (contents_of lines)) }
    ensures { IfOk result (λ fates. fates.items ≡ fates_of (contents_of lines.entry)) }
{
    let some = SomeCarry::of_lines(lines.again());
    let mut fates = fates_from(alloc, &some, first_stand(header), lines.again())?;
    tell_version(fates.as_mut_slice(), lines);
    Ok(fates)
}
