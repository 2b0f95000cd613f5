// How a title is sorted, and how an index shows it.
ghost use Rattle.std.specs.Prelude.{◌≡◌, IfOk};
ghost use Rattle.abc_fields.specs.Words.{trimmed};
ghost use Rattle.tune_titles.specs.Titles.{sorting_title, index_title, LawOfArticles};
ghost use Rattle.tune_titles.specs.Titles.{LawOfTitles};

use crate::articles::{leading, rest_of};
use abc_fields::{ByteText, trim_blanks};
use bstr::ByteSlice;
use std::alloc::{AllocError, Global};

/// The text by which a title is sorted: the title without blanks at its ends and without its
/// article, in small letters (this archive's profile).
///
/// The law of articles stands beside it: a title has a leading article exactly where it is an
/// article, blanks and more text, and a trailing one exactly where it ends with a comma, blanks and
/// an article.
pub fn sort_title(alloc: Global, title: &[u8]) -> Result<ByteText, AllocError>
    ensures value { IfOk result (λ text. text ≡ sorting_title title.now) }
    ensures articles { LawOfArticles (trimmed title.now) }
    ensures law { LawOfTitles title.now }
{
    let rest = rest_of(trim_blanks(title));
    Ok(ByteText::from_vec(rest.to_ascii_lowercase(alloc)?))
}

/// The title as an index shows it, without blanks at its ends: where it has a leading article, the
/// rest, a comma, a space, and the article as it is written (this archive's profile).
pub fn index_title(alloc: Global, title: &[u8]) -> Result<ByteText, AllocError>
    ensures { IfOk result (λ text. text ≡ index_title title.now) }
{
    let title = trim_blanks(title);
    let Some(parts) = leading(title) else {
        return ByteText::copy_of(alloc, title);
    };
    let mut text = Vec::from_slice(alloc, parts.rest)?;
    text.extend_from_slice(b", ")?;
    text.extend_from_slice(parts.article)?;
    Ok(ByteText::from_vec(text))
}
