// The lines of a file header that the last tune carried.
ghost use Rattle.std.specs.Prelude.{◌≡◌, List, OnOk, IfOk};
ghost use Rattle.abc_fields.specs.Tunes.{joined, tune_run};
ghost use Rattle.abc_fields.specs.Fields.{header_of};
ghost use Rattle.abc_fields.specs.FileHeaders.{has_letter};
ghost use Rattle.abc_fields.specs.Inside.LinesLeft.{contents_of};
ghost use Rattle.abc_fields.specs.Inside.HeaderRows.{taken_lines};
ghost use Rattle.abc_fields.specs.Inside.CarriedBytes.{IsKeptOfRows, KeepsCarried};

use crate::file_header::FileHeader;
use crate::header_letters::Letters;
use crate::lines::Lines;
use crate::shares::Shares;
use std::alloc::{AllocError, Global};
use std::mem::swap;

// What tunes with these letters carry of a file header.
#[derive(Drop)]
pub(crate) struct Kept {
    pub(crate) letters: Letters,
    pub(crate) bytes: Vec<u8>,
}

impl Kept {
    // What a tune without a field carries.
    fn new(alloc: Global, shares: &Shares) -> Result<Kept, AllocError>
        ensures { IfOk result (λ kept. IsKeptOfRows shares.now kept) }
    {
        let letters = Letters::none();
        let mut bytes = Vec::new(alloc);
        shares.write_for(alloc, &letters, &mut bytes)?;
        Ok(Kept { letters, bytes })
    }
}

// What the last tunes carried. Most tunes of a book have the same letters as the tune before them,
// or as the one before that, so it is made anew only where there are other letters.
#[derive(Drop)]
pub(crate) struct Carried<'h, 'a> {
    pub(crate) shares: Shares<'h, 'a>,
    pub(crate) last: Kept,
    pub(crate) before: Kept,
}

impl<'h, 'a> Carried<'h, 'a> {
    pub(crate) fn new(
        alloc: Global,
        header: &'h FileHeader<'a>,
    ) -> Result<Carried<'h, 'a>, AllocError>
        ensures { IfOk result (λ c. KeepsCarried header.now c) }
    {
        let shares = Shares::of_header(alloc, header)?;
        let last = Kept::new(alloc, &shares)?;
        let before = Kept::new(alloc, &shares)?;
        Ok(Carried {
            shares,
            last,
            before,
        })
    }

    // Makes the last one what the tune carries of which these are the lines, with what stands
    // behind it.
    pub(crate) fn change_to(
        &mut self,
        alloc: Global,
        header: &FileHeader,
        lines: Lines,
    ) -> Result<(), AllocError>
        requires { KeepsCarried header.now self.old }
        ensures kept { OnOk result (KeepsCarried header.now self.new) }
        ensures bytes { OnOk result (self.new.last.bytes.items ≡ joined (taken_lines
            (has_letter (header_of (tune_run (contents_of lines.entry)))) header.now)) }
    {
        if header.is_empty() {
            return Ok(());
        }
        let letters = Letters::of_tune(lines);
        if self.last.letters == letters {
            return Ok(());
        }
        swap(&mut self.last, &mut self.before);
        if self.last.letters == letters {
            return Ok(());
        }
        self.last.bytes.clear();
        self.shares
            .write_for(alloc, &letters, &mut self.last.bytes)?;
        self.last.letters = letters;
        Ok(())
    }
}
