// The titles of a tune, in memory of their own.
ghost use Rattle.std.specs.Prelude.{◌≡◌, ℕ, List, IfOk};
ghost use Rattle.abc_fields.specs.Fields.{titles_of};

use abc_fields::{ByteText, TuneText, fields};
use std::alloc::{AllocError, Global};
use std::marker::Model;

/// The titles of a tune, in the order of its header. A clause sees the list of the bytes of each.
#[derive(Debug, Drop)]
pub struct TitleList {
    titles: Vec<ByteText>,
}

impl Model for TitleList {
    ghost Value = { List (List ℕ) };

    ghost view = { λ list. list.titles.items };
}

impl TitleList {
    /// The titles, from the first on.
    pub fn as_slice(&self) -> &[ByteText]
        ensures { result.now ≡ self.now }
    {
        self.titles.as_slice()
    }
}

/// The titles of a tune: the first eight values of `T:` fields of its header that are not empty
/// (ABC 2.1, 3.1.2; this archive's profile). Its only error is out of memory.
pub fn titles_of(alloc: Global, text: &TuneText) -> Result<TitleList, AllocError>
    ensures { IfOk result (λ titles. titles ≡ titles_of text.now) }
{
    let mut titles = Vec::new(alloc);
    for title in fields(text).titles.as_slice() {
        titles.push(ByteText::copy_of(alloc, title)?)?;
    }
    Ok(TitleList { titles })
}
