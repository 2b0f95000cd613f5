// The lines of a book that are in nothing that is kept.
ghost use Rattle.std.specs.Prelude.{◌≡◌, ◌+◌, ◌<◌, ◌^◌, map, length, IfOk};
ghost use Rattle.abc_fields.specs.Inside.LinesLeft.{contents_of};
ghost use Rattle.told_books.specs.FateLines.{dropped_row, dropped_from};

use crate::fates::Fate;
use abc_fields::Lines;
use std::alloc::{AllocError, Global};

/// A line of a book that is in nothing that is kept.
#[derive(Clone, Copy)]
pub struct DroppedLine<'a> {
    /// Its number in the book, counted from 1.
    pub number: usize,
    /// Its bytes, without what ends it.
    pub text: &'a [u8],
    /// Whether it changes how a sheet is engraved: it begins with `%%`, or is a `U:` or `m:` field.
    pub directive: bool,
}

// Those of these lines that are dropped, by their fates.
pub(crate) fn dropped_of<'a>(
    alloc: Global,
    fates: &[Fate],
    mut lines: Lines<'a>,
) -> Result<Vec<DroppedLine<'a>>, AllocError>
    ensures { IfOk result (λ dropped. map dropped_row dropped.items
        ≡ dropped_from 1 fates.now (contents_of lines.entry)) }
{
    let mut dropped = Vec::new(alloc);
    for (i, fate) in fates.iter().enumerate() {
        let Some(line) = lines.next() else {
            return Ok(dropped);
        };
        if let Fate::Dropped { directive } = *fate {
            let number = i + 1;
            let text = line.text;
            dropped.push(DroppedLine {
                number,
                text,
                directive,
            })?;
        }
    }
    Ok(dropped)
}
