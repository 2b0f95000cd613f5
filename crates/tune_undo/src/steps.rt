// The entries of a book of old texts that are not undone.
ghost use Rattle.std.specs.Prelude.{◌≡◌, ◌<◌, List, length, map, IfOk, OnOk};
ghost use Rattle.std.specs.Option.{option_map};
ghost use Rattle.tune_undo.specs.OldEntries.{step_value, entry_value};
ghost use Rattle.tune_undo.specs.OldItems.{Item, Entered, Top, Stands, IsItemLog, standing};
ghost use Rattle.tune_undo.specs.OldItems.{after_item, after_mark, without_last, begun_last};
ghost use Rattle.tune_undo.specs.Inside.Found.{found_value, place_of, IsLaterLog, after_found};

use crate::old_entries::{Entry, EntryKind, Mark, Step};
use crate::old_items::{Found, found_at};
use memchr::memchr;
use std::alloc::{AllocError, Global};

/// The entries of a book of old texts that are not undone, the first one first. The book may be of
/// any bytes, and may be cut anywhere: an entry counts where all of it is there. The error is out
/// of memory.
pub fn standing_steps(alloc: Global, book: &[u8]) -> Result<Vec<Step>, AllocError>
    ensures { IfOk result (λ steps. (items : List Item) × IsItemLog Top book.now items
        × (map step_value steps.items ≡ standing items)) }
{
    let mut steps = Vec::new(alloc);
    let mut rest = book;
    let mut top = true;
    while !rest.is_empty() {
        let found = found_if(alloc, top, rest)?;
        take_in(&mut steps, found)?;
        (top, rest) = next_line(rest);
    }
    Ok(steps)
}

// What begins here, if it is the top of a line after an empty line.
fn found_if(alloc: Global, top: bool, bytes: &[u8]) -> Result<Option<Found>, AllocError>
    ensures { IfOk result (λ read. Stands (place_of top) bytes.now (option_map found_value read)) }
{
    if !top {
        return Ok(None);
    }
    let found = found_at(alloc, bytes)?;
    Ok(found)
}

// What follows the first line, and whether that is empty.
fn next_line(bytes: &[u8]) -> (bool, &[u8])
    ensures shorter { 0 < length bytes.now → length result.1.now < length bytes.now }
    ensures log { (items : List Item) → 0 < length bytes.now
        → IsItemLog (place_of result.0) result.1.now items → IsLaterLog bytes.now items }
{
    match memchr(b'\n', bytes) {
        None => (false, &bytes[bytes.len()..]),
        Some(len) => (len == 0, &bytes[len + 1..]),
    }
}

// The steps after what was found.
fn take_in(steps: &mut Vec<Step>, found: Option<Found>) -> Result<(), AllocError>
    ensures { OnOk result (map step_value steps.new.items
        ≡ after_found (map step_value steps.old.items) (option_map found_value found)) }
{
    match found {
        None => Ok(()),
        Some(Found::Entry(entry)) => put_step(steps, entry),
        Some(Found::Mark(mark)) => note(steps, mark),
    }
}

fn put_step(steps: &mut Vec<Step>, entry: Entry) -> Result<(), AllocError>
    ensures { OnOk result (map step_value steps.new.items
        ≡ after_item (map step_value steps.old.items) (Entered (entry_value entry))) }
{
    if entry.kind != EntryKind::Kept {
        steps.push(Step { entry, begun: None })?;
    }
    Ok(())
}

fn note(steps: &mut Vec<Step>, mark: Mark) -> Result<(), AllocError>
    ensures { OnOk result (map step_value steps.new.items
        ≡ after_mark (map step_value steps.old.items) mark) }
{
    match mark {
        Mark::NotDone | Mark::Undone => {
            drop_last(steps);
            Ok(())
        }
        Mark::Undoing(greatest) => begin_last(steps, greatest),
    }
}

fn drop_last(steps: &mut Vec<Step>)
    ensures { map step_value steps.new.items ≡ without_last (map step_value steps.old.items) }
{
    steps.pop();
}

// The undoing of the last step is begun.
fn begin_last(steps: &mut Vec<Step>, greatest: u32) -> Result<(), AllocError>
    ensures { OnOk result (map step_value steps.new.items
        ≡ begun_last greatest (map step_value steps.old.items)) }
{
    let Some(step) = steps.pop() else {
        return Ok(());
    };
    let Step { entry, .. } = step;
    let begun = Some(greatest);
    steps.push(Step { entry, begun })?;
    Ok(())
}
