// The text of a tune, read from its pages.
ghost use Rattle.std.specs.Prelude.{◌≡◌, ℕ, List, IfNone, IfOk, IfSome};
ghost use Rattle.tune_pages.specs.Kept.{HonestAt};
ghost use Rattle.tune_pages.specs.Editing.{Consults};
ghost use Rattle.tune_contents.specs.Texts.{HoldsSomeText, HoldsText, IsTextOf};

use abc_fields::{ByteText, TuneText};
use std::alloc::{AllocError, Global};
use tune_disk::Disk;
use tune_format::read_text;
use tune_pages::{Edit, Fault};
use tune_store::Layout;

/// Reads the text of the tune whose chain begins at `first`, as the edit makes it. Images of its
/// pages are kept where it is read again: most questions read many tunes once.
///
/// # Errors
///
/// `OutOfMemory`; `Device` where the disk failed, or showed no text there, as one that lies may:
/// the pages are then closed. `Closed`.
pub fn read_tune<D: Disk>(edit: &mut Edit<D>, layout: Layout, first: u32) -> Result<TuneText, Fault>
    requires there { HonestAt D.honest edit.old.base.disk
        → HoldsSomeText layout edit.old.next first }
    ensures text { IfOk result (λ text. HonestAt D.honest edit.new.base.disk → (revision : ℕ)
        (other : List ℕ) → HoldsText layout edit.old.next first revision other → text ≡ other) }
    ensures consults { Consults D.Disk result edit.old edit.new }
{
    let keeps = edit.is_asked_again(first);
    read_tune_where(edit, layout, first, keeps)
}

// The same. Images of its pages are kept where `keeps` says so.
pub(crate) fn read_tune_where<D: Disk>(
    edit: &mut Edit<D>,
    layout: Layout,
    first: u32,
    keeps: bool,
) -> Result<TuneText, Fault>
    requires there { HonestAt D.honest edit.old.base.disk
        → HoldsSomeText layout edit.old.next first }
    ensures text { IfOk result (λ text. HonestAt D.honest edit.new.base.disk → (revision : ℕ)
        (other : List ℕ) → HoldsText layout edit.old.next first revision other → text ≡ other) }
    ensures consults { Consults D.Disk result edit.old edit.new }
{
    let bytes = edit.walk_chain(first, keeps)?;
    match text_of(edit.alloc(), layout, &bytes) {
        Ok(Some(text)) => Ok(text),
        // An honest disk shows a text.
        Ok(None) => Err(edit.close()),
        Err(_) => Err(edit.refuse()),
    }
}

// The text of these bytes, where they are a revision and the text of a tune.
fn text_of(alloc: Global, layout: Layout, bytes: &[u8]) -> Result<Option<TuneText>, AllocError>
    ensures text { IfOk result (λ found. IfSome found (λ text. (revision : ℕ) (other : List ℕ)
        → IsTextOf layout bytes.now revision other → text ≡ other)) }
    ensures none { IfOk result (λ found. IfNone found ((revision : ℕ) (other : List ℕ)
        → ¬ IsTextOf layout bytes.now revision other)) }
{
    let Some((_, text)) = read_text(bytes) else {
        return Ok(None);
    };
    let text = ByteText::copy_of(alloc, text)?;
    match TuneText::from_stored(text, layout.longest_text()) {
        Ok(text) => Ok(Some(text)),
        Err(_) => Ok(None),
    }
}
