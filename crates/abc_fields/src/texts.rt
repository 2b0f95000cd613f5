// Bytes that a value owns, and the texts of tunes among them.
ghost use Rattle.std.specs.Prelude.{◌≡◌, ◌≤◌, ℕ, List, length, map, IfOk, IfErr, IfSome, Some};
ghost use Rattle.std.specs.Prelude.{◌↔◌, ◌++◌, ◌∷◌, [], IsTrue, codes, false};
ghost use Rattle.std.specs.List.{AllByRecursion};
ghost use Rattle.abc_fields.specs.Bytes.{line_feed};
ghost use Rattle.abc_fields.specs.Lines.{lines_of, spans_of, SpansRise};
ghost use Rattle.abc_fields.specs.LineKinds.{part_open_after};
ghost use Rattle.abc_fields.specs.Fields.{header_of, key_text_of, body_spans};
ghost use Rattle.abc_fields.specs.Inside.HeaderEnds.{key_place, IsKnown};
ghost use Rattle.abc_fields.specs.Inside.ToldLines.{IsTold, AreTold};
ghost use Rattle.abc_fields.specs.Tunes.{IsTuneText, IsTextWithin};
ghost use Rattle.abc_fields.specs.Limits.{longest_tune};
ghost use Rattle.abc_fields.specs.Values.{has_percent};

use crate::key_place::{KeyPlace, find_key};
use crate::lines::Lines;
use crate::stored::{is_plain, key_of_stored};
use crate::told_lines::ToldLines;
use crate::tune_body::TuneBody;
use std::alloc::{AllocError, Global};
use std::marker::Model;

/// A text of any bytes, which it owns. A clause sees the list of its bytes.
#[derive(Debug, Drop)]
pub struct ByteText {
    bytes: Vec<u8>,
}

impl Model for ByteText {
    ghost Value = { List ℕ };

    ghost view = { λ t. t.bytes.items };
}

impl ByteText {
    /// A copy of the bytes. Its only error is out of memory.
    pub fn copy_of(alloc: Global, bytes: &[u8]) -> Result<ByteText, AllocError>
        ensures { IfOk result (λ text. text ≡ bytes.now) }
    {
        Ok(ByteText::from_vec(Vec::from_slice(alloc, bytes)?))
    }

    /// The bytes as a text. It takes no memory.
    pub fn from_vec(bytes: Vec<u8>) -> ByteText
        ensures { result ≡ bytes.items }
    {
        ByteText { bytes }
    }

    /// The bytes.
    pub fn as_slice(&self) -> &[u8]
        ensures { result.now ≡ self.now }
    {
        self.bytes.as_slice()
    }

    /// The bytes, in the vector that held them. It takes no memory.
    pub fn into_vec(self) -> Vec<u8>
        ensures { result.items ≡ self }
    {
        self.bytes
    }
}

/// The text of one tune: one or more lines, each ended by a line feed, with no carriage return, no
/// empty line and no `X:` line among them, and a `K:` line (ABC 2.1, 2.2.1; this archive's
/// profile). It has at most 64,000 bytes. A clause sees the list of its bytes.
#[derive(Debug, Drop)]
pub struct TuneText {
    text: Vec<u8>,
    // Where its key stands, if that is known: the test of a stored text finds it, and so does the
    // reading of a book.
    key: Option<KeyPlace>,
    // Where its titles, its rhythm and its key stand, if that is known.
    told: ToldLines,
    // Whether it is known that no percent sign stands in it, which would begin a comment.
    plain: bool,
}

impl Model for TuneText {
    ghost Value = { List ℕ };

    ghost view = { λ t. t.text.items };

    ghost invariant = { λ t. IsTextWithin longest_tune t.text.items × IsKnown t.text.items t.key
        × IsTold t.text.items t.told × (IsTrue t.plain → has_percent t.text.items ≡ false) };
}

impl TuneText {
    // The bytes as a tune text. It takes no memory.
    pub(crate) fn from_vec(text: Vec<u8>) -> TuneText
        requires { IsTextWithin longest_tune text.items }
        ensures { result ≡ text.items }
    {
        TuneText {
            text,
            key: None,
            told: ToldLines::unknown(),
            plain: false,
        }
    }

    // The bytes as a tune text whose key stands here; of its titles, its rhythm and its key this is
    // told. It takes no memory.
    pub(crate) fn from_keyed(text: Vec<u8>, key: KeyPlace, told: ToldLines) -> TuneText
        requires good { IsTextWithin longest_tune text.items }
        requires key { key_place false (spans_of text.items) ≡ Some key }
        requires told { IsTold text.items told }
        ensures { result ≡ text.items }
    {
        let plain = is_plain(text.as_slice());
        TuneText {
            text,
            key: Some(key),
            told,
            plain,
        }
    }

    /// The bytes as a tune text, where they are one of at most `longest` bytes, which is at most
    /// 64,000; else the bytes are handed back. It takes no memory.
    #[inline(always)]
    pub fn from_stored(bytes: ByteText, longest: usize) -> Result<TuneText, ByteText>
        requires { longest ≤ longest_tune }
        ensures text { IfOk result (λ text. text ≡ bytes) }
        ensures good { IfOk result (λ _. IsTextWithin longest bytes) }
        ensures back { IfErr result (λ back. back ≡ bytes) }
        ensures bad { IfErr result (λ _. ¬ IsTextWithin longest bytes) }
    {
        if bytes.as_slice().len() > longest {
            return Err(bytes);
        }
        let plain = is_plain(bytes.as_slice());
        let Some((key, told)) = key_of_stored(bytes.as_slice(), plain) else {
            return Err(bytes);
        };
        let ByteText { bytes } = bytes;
        Ok(TuneText {
            text: bytes,
            key: Some(key),
            told,
            plain,
        })
    }

    /// The shortest tune text: a line `K:`. Its only error is out of memory.
    pub fn shortest(alloc: Global) -> Result<TuneText, AllocError>
        ensures { IfOk result (λ text. text ≡ codes "K:" ++ line_feed ∷ []) }
    {
        Ok(TuneText::from_vec(Vec::from_slice(alloc, b"K:\n")?))
    }

    /// Puts these bytes in the place of the text, where they are a tune text of at most `longest`
    /// bytes, which is at most 64,000; else the text stays. They go where the text was, so that of
    /// many texts that are read one after another few take memory. Its only error is out of memory.
    #[inline(always)]
    pub fn read_stored(&mut self, bytes: &[u8], longest: usize) -> Result<bool, AllocError>
        requires { longest ≤ longest_tune }
        ensures text { IfOk result (λ is. IsTrue is → self.new ≡ bytes.now) }
        ensures good { IfOk result (λ is. IsTrue is ↔ IsTextWithin longest bytes.now) }
        ensures stays { IfOk result (λ is. is ≡ false → self.new ≡ self.old) }
        ensures err { IfErr result (λ _. self.new ≡ self.old) }
    {
        if bytes.len() > longest {
            return Ok(false);
        }
        let plain = is_plain(bytes);
        let Some((key, told)) = key_of_stored(bytes, plain) else {
            return Ok(false);
        };
        self.text.reserve(bytes.len())?;
        self.text.clear();
        self.text.extend_from_slice(bytes).unwrap();
        self.key = Some(key);
        self.told = told;
        self.plain = plain;
        Ok(true)
    }

    /// The bytes of the text.
    pub fn bytes(&self) -> &[u8]
        ensures value { result.now ≡ self.now }
        ensures tune_text { IsTuneText self.now }
        ensures short { length self.now ≤ longest_tune }
    {
        self.text.as_slice()
    }

    /// The bytes of the text, in the vector that held them. It takes no memory.
    pub fn into_vec(self) -> Vec<u8>
        ensures { result.items ≡ self }
    {
        self.text
    }

    /// A copy of the text. Its only error is out of memory.
    pub fn copy(&self, alloc: Global) -> Result<TuneText, AllocError>
        ensures { IfOk result (λ text. text ≡ self.now) }
    {
        let text = Vec::from_slice(alloc, self.bytes())?;
        Ok(TuneText {
            text,
            key: self.key,
            told: self.told,
            plain: self.plain,
        })
    }

    // Whether it is known that no percent sign stands in it.
    pub(crate) fn is_plain(&self) -> bool
        ensures { IsTrue result → has_percent self.now ≡ false }
    {
        self.plain
    }

    // Where the lines stand that give its titles, its rhythm and its key, if that is known.
    #[inline(always)]
    pub(crate) fn told(&self) -> Option<&ToldLines>
        ensures { IfSome result (λ told. AreTold (spans_of self.now) told.now) }
    {
        if self.told.is_known() {
            Some(&self.told)
        } else {
            None
        }
    }

    // Where its key stands.
    fn key_place(&self) -> KeyPlace
        ensures { key_place false (spans_of self.now) ≡ Some result }
    {
        match self.key {
            Some(place) => place,
            None => match find_key(&mut Lines::of_tune(self)) {
                Some(place) => place,
                None => unreachable!(),
            },
        }
    }

    /// What follows the header, which ends with the first line that gives the key (ABC 2.1,
    /// 3.1.14). It takes no memory.
    #[inline(always)]
    pub fn body(&self) -> TuneBody<'_>
        ensures key { result.key.now ≡ key_text_of self.now }
        ensures lines { result.lines ≡ body_spans self.now }
        ensures in_part { result.in_part ≡ part_open_after (header_of (lines_of self.now)) }
        ensures plain { IsTrue result.plain
            → AllByRecursion (λ line. has_percent line.bytes ≡ false) result.lines }
        ensures contents { map (λ s. s.bytes) (spans_of self.now) ≡ lines_of self.now }
        ensures rising { SpansRise self.now 0 (spans_of self.now) }
        ensures short { length self.now ≤ longest_tune }
    {
        TuneBody::from_key(self.bytes(), self.key_place(), self.plain)
    }
}
