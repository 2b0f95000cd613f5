// What an add keeps of the tunes that a book brings, before it brings them.
ghost use Rattle.std.specs.Prelude.{◌≡◌, ◌<◌, ◌+◌, ◌^◌, length, IfOk};
ghost use Rattle.desk_books.specs.AddedBooks.{added_kind, added_parts};

use abc_fields::TuneText;
use std::alloc::{AllocError, Global};
use tune_undo::{After, Entry, EntryKind, Part, Sum};

/// The entry of an add: its tunes come with these numbers and texts. The error is out of memory.
pub(crate) fn added_entry(
    alloc: Global,
    begun: bool,
    first: u32,
    texts: &[TuneText],
) -> Result<Entry, AllocError>
    requires { first + length texts.now < 2 ^ 32 }
    ensures kind { IfOk result (λ entry. entry.kind ≡ added_kind begun) }
    ensures parts { IfOk result (λ entry. entry.parts.items ≡ added_parts first texts.now) }
{
    let kind = if begun {
        EntryKind::AddMore
    } else {
        EntryKind::Add
    };
    let parts = added_parts(alloc, first, texts)?;
    Ok(Entry { kind, parts })
}

fn added_parts(alloc: Global, first: u32, texts: &[TuneText]) -> Result<Vec<Part>, AllocError>
    requires { first + length texts.now < 2 ^ 32 }
    ensures { IfOk result (λ parts. parts.items ≡ added_parts first texts.now) }
{
    let mut parts = Vec::with_capacity(alloc, texts.len())?;
    let mut number = first;
    for text in texts {
        let is = After::Text(Sum::of(text.bytes()));
        parts.push(Part::Tune {
            number,
            was: None,
            is,
        })?;
        number += 1;
    }
    Ok(parts)
}
