// The tunes of a book, and why they are refused.
ghost use Rattle.std.specs.Prelude.{◌≡◌, ◌<◌, ◌+◌, ◌++◌, ◌^◌, ℕ, List, length, IfOk, Some};
ghost use Rattle.abc_fields.specs.Tunes.{tune_run, has_key, joined};
ghost use Rattle.abc_fields.specs.FileHeaders.{with_header};
ghost use Rattle.abc_fields.specs.Inside.LinesLeft.{contents_of};
ghost use Rattle.told_books.specs.ToldTunes.{fault_of_tune, told_tunes_from, first_bad};
ghost use Rattle.told_books.specs.Inside.Sums.{AreHeaderSums};
ghost use Rattle.told_books.specs.Inside.Rooms.{room_after};

use crate::line_rules::{ends_tune, starts_tune};
use crate::sums::{RuleSum, fit};
use crate::tune_letters::Letters;
use abc_fields::{BookFault, Lines, TuneFault, is_key_line};
use std::alloc::{AllocError, Global};

/// A tune of a book.
#[derive(Clone, Copy)]
pub struct ToldTune {
    /// The number of its `X:` line in the book, counted from 1.
    pub line: usize,
    /// Why it is refused, if it is, whatever the other tunes are.
    pub fault: Option<TuneFault>,
}

// What the lines of a tune have come to.
#[derive(Clone, Copy)]
struct Measured {
    // Whether one of them gives the key.
    has_key: bool,
    // How many bytes its text may still have, where the lines fit.
    room: Option<usize>,
}

// The room after so many bytes.
fn room_after(room: Option<usize>, length: usize) -> Option<usize>
    ensures { result ≡ room_after room length }
{
    room?.checked_sub(length)
}

// The lines of a tune, with what stands behind it.
fn measure(lines: Lines, longest: usize) -> Measured
    ensures key { result.has_key ≡ has_key (tune_run (contents_of lines.entry)) }
    ensures room { result.room ≡ room_after (Some longest)
        (length (joined (tune_run (contents_of lines.entry)))) }
{
    let mut has_key = false;
    let mut room = Some(longest);
    for line in lines {
        if ends_tune(line.text) {
            return Measured { has_key, room };
        }
        has_key = has_key || is_key_line(line.text);
        room = room_after(room, line.text.len() + 1);
    }
    Measured { has_key, room }
}

// Why a tune of these lines, with what stands behind it, is refused.
fn fault_of(lines: Lines, sums: &[RuleSum], longest: usize) -> Option<TuneFault>
    ensures { (header : List (List ℕ)) → AreHeaderSums sums.now header
        → result ≡ fault_of_tune longest (with_header header (tune_run (contents_of lines.entry))) }
{
    let measured = measure(lines.again(), longest);
    if !measured.has_key {
        return Some(TuneFault::NoKey);
    }
    let Some(room) = measured.room else {
        return Some(TuneFault::TooLong);
    };
    if fit(sums, &Letters::of_tune(lines), room) {
        None
    } else {
        Some(TuneFault::TooLong)
    }
}

// The tunes of lines, where these are the sums of their file header.
pub(crate) fn tunes_of(
    alloc: Global,
    mut lines: Lines,
    sums: &[RuleSum],
    longest: usize,
) -> Result<Vec<ToldTune>, AllocError>
    requires { length (contents_of lines) + 1 < 2 ^ 64 }
    ensures { IfOk result (λ tunes. (header : List (List ℕ)) → AreHeaderSums sums.now header
        → tunes.items ≡ told_tunes_from longest header 1 (contents_of lines.entry)) }
{
    let mut tunes = Vec::new(alloc);
    let mut number = 0;
    while let Some(line) = lines.next() {
        number += 1;
        if starts_tune(line.text) {
            let fault = fault_of(lines.again(), sums, longest);
            tunes.push(ToldTune {
                line: number,
                fault,
            })?;
        }
    }
    Ok(tunes)
}

// The first tune that is refused, if there is one.
pub(crate) fn first_bad(tunes: &[ToldTune]) -> Option<BookFault>
    ensures { result ≡ first_bad 1 tunes.now }
{
    for (i, tune) in tunes.iter().enumerate() {
        if let Some(fault) = tune.fault {
            let place = i + 1;
            return Some(BookFault::BadTune { place, fault });
        }
    }
    None
}
