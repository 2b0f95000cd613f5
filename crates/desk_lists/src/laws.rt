// What holds of words in texts.
ghost use Rattle.std.specs.Prelude.{◌≡◌, ◌↔◌, ℕ, List, true};
ghost use Rattle.desk_lists.specs.FoldedWords.{BeginsWithWord, StandsIn, begins_with_word};
ghost use Rattle.desk_lists.specs.FoldedWords.{stands_in};

/// The law of words: a word stands in a text exactly where the text is some front, the word and
/// some rest, and a text begins with a word exactly where it is the word and some rest.
pub fn law_of_words()
    ensures stands { (word : List ℕ) (text : List ℕ)
        → (stands_in word text ≡ true) ↔ StandsIn word text }
    ensures begins { (word : List ℕ) (text : List ℕ)
        → (begins_with_word word text ≡ true) ↔ BeginsWithWord word text }
{}
