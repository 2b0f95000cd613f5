// Words that are looked for in titles.
ghost use Rattle.std.specs.Prelude.{◌≡◌, ◌∷◌, [], IfOk, map, string_bytes};
ghost use Rattle.desk_lists.specs.Folding.{folded_bytes, folded_title};
ghost use Rattle.desk_lists.specs.FoldedWords.{all_begin, all_stand_in};
ghost use Rattle.desk_lists.specs.FoldedWords.{folded_words, stands_in};

use crate::folding::folded;
use crate::shown_texts::text_of;
use memchr::memmem;
use std::alloc::{AllocError, Global};
use std::marker::Model;

/// Words without accents and capitals, to be looked for in titles. A clause sees their bytes.
#[derive(Drop)]
pub struct FoldedWords {
    words: Vec<String>,
}

impl Model for FoldedWords {
    ghost use Rattle.std.specs.Prelude.{ℕ, List, map, string_bytes};

    ghost Value = { List (List ℕ) };

    ghost view = { λ folded. map string_bytes folded.words.items };
}

impl FoldedWords {
    /// Each of these words, folded. Its only error is out of memory.
    pub fn of_words(alloc: Global, words: &[String]) -> Result<FoldedWords, AllocError>
        ensures { IfOk result (λ folded. folded ≡ folded_words words.now) }
    {
        let mut all = Vec::new(alloc);
        for word in words {
            all.push(folded(alloc, word.as_str())?)?;
        }
        Ok(FoldedWords { words: all })
    }

    /// One text, folded, blanks and all. Its only error is out of memory.
    pub fn of_text(alloc: Global, text: &str) -> Result<FoldedWords, AllocError>
        ensures { IfOk result (λ folded. folded ≡ folded_bytes text.now ∷ []) }
    {
        let mut all = Vec::new(alloc);
        all.push(folded(alloc, text)?)?;
        Ok(FoldedWords { words: all })
    }

    /// Whether each of the words stands somewhere in the title, which is folded too. Its only error
    /// is out of memory.
    pub fn stand_in(&self, alloc: Global, title: &[u8]) -> Result<bool, AllocError>
        ensures { IfOk result (λ stand. stand ≡ all_stand_in self.now (folded_title title.now)) }
    {
        let title = fold_title(alloc, title)?;
        Ok(all_stand_in(self.words.as_slice(), title.as_str().as_bytes()))
    }

    /// Whether the title, which is folded too, begins with each of the words. Its only error is out
    /// of memory.
    pub fn begin(&self, alloc: Global, title: &[u8]) -> Result<bool, AllocError>
        ensures { IfOk result (λ begin. begin ≡ all_begin self.now (folded_title title.now)) }
    {
        let title = fold_title(alloc, title)?;
        Ok(all_begin(self.words.as_slice(), title.as_str().as_bytes()))
    }
}

/// The title, whose bytes need not be UTF-8, without accents and capitals. Its only error is out of
/// memory.
pub fn fold_title(alloc: Global, title: &[u8]) -> Result<String, AllocError>
    ensures { IfOk result (λ folded. string_bytes folded ≡ folded_title title.now) }
{
    match std::str::from_utf8(title) {
        Ok(text) => folded(alloc, text),
        Err(_) => {
            let text = text_of(alloc, title)?;
            folded(alloc, text.as_str())
        }
    }
}

// Whether each of the words stands in the text.
fn all_stand_in(words: &[String], text: &[u8]) -> bool
    ensures { result ≡ all_stand_in (map string_bytes words.now) text.now }
{
    for word in words {
        if !stands_in(word.as_bytes(), text) {
            return false;
        }
    }
    true
}

// Whether the text begins with each of the words.
fn all_begin(words: &[String], text: &[u8]) -> bool
    ensures { result ≡ all_begin (map string_bytes words.now) text.now }
{
    for word in words {
        if !text.starts_with(word.as_bytes()) {
            return false;
        }
    }
    true
}

// Whether the word stands in the text.
fn stands_in(word: &[u8], text: &[u8]) -> bool
    ensures { result ≡ stands_in word.now text.now }
{
    memmem::find(text, word).is_some()
}
