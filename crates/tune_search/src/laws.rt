// How many pages the search indexes have.
ghost use Rattle.std.specs.Prelude.{◌*◌, ◌≤◌, ℕ, length, List};
ghost use Rattle.abc_fields.specs.Limits.{most_titles};
ghost use Rattle.tune_pages.specs.Stand.{Stand};
ghost use Rattle.index_keys.specs.Entries.{Entry, IsRising};
ghost use Rattle.index_keys.specs.Holdings.{HoldsEntries};
ghost use Rattle.tune_incipit.specs.ScaleAndIncipitKeys.{incipit_keys, scale_keys};
ghost use Rattle.tune_parts.specs.Parts.{Part};
ghost use Rattle.tune_search.specs.SearchPages.{HasFewLeaves};
ghost use Rattle.tune_search.specs.Searches.{HoldsTexts, SearchParts, SearchShape};
ghost use Rattle.tune_titles.specs.TitleAndRhythmKeys.{rhythm_keys, title_keys};

/// The law of the pages of the search indexes: what tunes they hold says how many there may be.
///
/// - `titles`, `rhythms`, `scales`, `incipits`: how many entries tunes have at most, by each kind
///   of keys.
/// - `leaves`: an index has no more leaves than its tunes may have entries.
pub fn law_of_search_pages()
    ensures titles { (tunes : List (ℕ × List ℕ)) (entries : List Entry) → IsRising entries
        → HoldsEntries title_keys tunes entries
        → length entries ≤ most_titles * length tunes }
    ensures rhythms { (tunes : List (ℕ × List ℕ)) (entries : List Entry) → IsRising entries
        → HoldsEntries rhythm_keys tunes entries → length entries ≤ length tunes }
    ensures scales { (tunes : List (ℕ × List ℕ)) (entries : List Entry) → IsRising entries
        → HoldsEntries scale_keys tunes entries → length entries ≤ length tunes }
    ensures incipits { (notes : ℕ) (tunes : List (ℕ × List ℕ)) (entries : List Entry)
        → IsRising entries → HoldsEntries (incipit_keys notes) tunes entries
        → length entries ≤ length tunes }
    ensures leaves { (s : Stand) (shape : SearchShape) (before after : List Part)
        (parts : SearchParts) (tunes : List (ℕ × List ℕ))
        → HoldsTexts s shape before after parts tunes → HasFewLeaves shape tunes }
{}
