// What holds of each book of old texts, whatever was put into it before.
ghost use Rattle.std.specs.Prelude.{◌≡◌, ◌≢◌, ℕ, List, [], ◌++◌};
ghost use Rattle.tune_undo.specs.OldItems.{Item, Top, IsItemLog};
ghost use Rattle.tune_undo.specs.OldTextLaws.{IsWrittenItem, AddsItem, AddsNothing};

/// The law of old texts. The book may be of any bytes, and may end within an entry: its last line
/// is ended and an empty line is put first, as `joined` does.
///
/// - `one`: a book has one list of items.
/// - `adds`: with an entry or a mark put at its end, the book has the items that it had, and then
///   this one; so a new entry is the last step, and a mark is of the last step that the book had.
/// - `cut`: a front of an entry or a mark that is not all of it adds nothing.
pub fn law_of_old_texts()
    ensures one { (book : List ℕ) (items others : List Item) → IsItemLog Top book items
        → IsItemLog Top book others → items ≡ others }
    ensures adds { (book piece : List ℕ) (item : Item) → IsWrittenItem piece item
        → AddsItem book piece item }
    ensures cut { (book front more piece : List ℕ) (item : Item) → IsWrittenItem piece item
        → front ++ more ≡ piece → more ≢ [] → AddsNothing book front }
{}
