// Texts without accents and capitals.
ghost use Rattle.std.specs.Prelude.{◌≡◌, IfOk, chars, encode_utf8_all, string_bytes};
ghost use Rattle.desk_lists.specs.Folding.{folded_bytes, without_marks};

use caseless::default_case_fold_str;
use std::alloc::{AllocError, Global};
use unicode_normalization::char::is_combining_mark;
use unicode_normalization::to_nfd;

/// The text without the marks of its letters, and with capitals and small letters made one.
/// Its only error is out of memory.
pub fn folded(alloc: Global, text: &str) -> Result<String, AllocError>
    ensures { IfOk result (λ folded. string_bytes folded ≡ folded_bytes text.now) }
{
    // ASCII has no marks, and most titles are of it.
    if text.is_ascii() {
        return text.to_ascii_lowercase(alloc);
    }
    let apart = to_nfd(alloc, text)?;
    let bare = without_marks(alloc, apart.as_str())?;
    default_case_fold_str(alloc, bare.as_str())
}

// The text without its combining marks.
fn without_marks(alloc: Global, text: &str) -> Result<String, AllocError>
    ensures { IfOk result (λ bare. string_bytes bare
        ≡ encode_utf8_all (without_marks (chars text.now))) }
{
    text.chars()
        .filter(|letter| !is_combining_mark(*letter))
        .collect(alloc)
}
