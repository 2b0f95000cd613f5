// Texts that are known by their sums.
ghost use Rattle.std.specs.Prelude.{◌≡◌, ℕ, List, [], IfOk, OnErr, OnOk, not};
ghost use Rattle.chosen_books.specs.KnownTexts.{is_known, with_text_sum};

use sha2::{Digest, Sha256};
use std::alloc::{AllocError, Global};
use std::collections::BTreeSet;
use std::marker::Model;

/// Texts that are known by their SHA-256 (FIPS 180-4). A clause sees the list of the sums, which
/// rise.
#[derive(Drop)]
pub struct KnownTexts {
    sums: BTreeSet<[u8; 32]>,
}

impl Model for KnownTexts {
    ghost Value = { List (List ℕ) };

    ghost view = { λ known. known.sums.keys };
}

impl KnownTexts {
    /// No text is known. It takes no memory.
    pub fn new(alloc: Global) -> KnownTexts
        ensures { result ≡ [] }
    {
        KnownTexts {
            sums: BTreeSet::new(alloc),
        }
    }

    /// Whether a text is known: one with its sum was put in.
    pub fn contains(&self, text: &[u8]) -> bool
        ensures { result ≡ is_known self.now text.now }
    {
        self.sums.contains(&Sha256::digest(text))
    }

    /// A text is known from now on; the answer is whether it is new. The error is out of memory,
    /// and what is known stays then.
    pub fn insert(&mut self, text: &[u8]) -> Result<bool, AllocError>
        ensures is_new { IfOk result (λ is_new. is_new ≡ not (is_known self.old text.now)) }
        ensures known { OnOk result (self.new ≡ with_text_sum self.old text.now) }
        ensures err { OnErr result (self.new ≡ self.old) }
    {
        Ok(self.sums.insert(Sha256::digest(text))?)
    }
}
