// A tune of an archive, and the limits of numbers and revisions.
ghost use Rattle.std.specs.Prelude.{◌≡◌, IfOk};

use abc_fields::TuneText;
use std::alloc::{AllocError, Global};

/// The greatest number that a tune may have (this archive's profile). The least is 1.
pub const GREATEST_NUMBER: u32 = 999_999;

/// The greatest revision that a tune may have (this archive's profile). The least is 1.
pub const GREATEST_REVISION: u16 = 9_999;

/// A tune of an archive.
#[derive(Debug, Drop)]
pub struct Tune {
    /// Its number, from 1 on: no other tune has it.
    pub number: u32,
    /// Its revision: 1 where it was imported, and one more with each replacement.
    pub revision: u16,
    /// Its text.
    pub text: TuneText,
}

impl Tune {
    /// A copy of the tune. The error is out of memory.
    pub fn copy(&self, alloc: Global) -> Result<Tune, AllocError>
        ensures { IfOk result (λ tune. tune ≡ self.now) }
    {
        Ok(Tune {
            number: self.number,
            revision: self.revision,
            text: self.text.copy(alloc)?,
        })
    }
}
