// What holds of the parts of an archive, and of what is read off its pages.
ghost use Rattle.std.specs.Prelude.{◌≡◌, ◌⊎◌, ℕ, ◌<◌, ◌≤◌, List, [], ◌∷◌, ◌++◌, length};
ghost use Rattle.std.specs.Prelude.{slice_set};
ghost use Rattle.std.specs.List.{remove, insert};
ghost use Rattle.tune_journal.specs.Image.{StandsFor, StandsForEither};
ghost use Rattle.tune_journal.specs.Pages.{page_at};
ghost use Rattle.tune_pages.specs.Stand.{Stand};
ghost use Rattle.tune_parts.specs.Parts.{Part, HoldsParts};
ghost use Rattle.tune_parts.specs.Parts.PartKind.{chain};
ghost use Rattle.tune_search.specs.IndexParts.{HoldsIndex, IndexParts};
ghost use Rattle.tune_search.specs.Searches.{SearchParts, key_bytes};
ghost use Rattle.tune_sets.specs.SetBytes.{written_sets};
ghost use Rattle.tune_sets.specs.Sets.{AreSetLists};
ghost use Rattle.tune_sets.specs.declared.set_lists.TuneSet.{TuneSet};
ghost use Rattle.tune_store.specs.Limits.{notes_of};
ghost use Rattle.tune_store.specs.State.{State, IsTunes, empty_of};
ghost use Rattle.tune_store.specs.declared.layout.Layout.{Layout};
ghost use Rattle.tune_store.specs.declared.tune.Tune.{Tune};
ghost use Rattle.tune_format.specs.Filed.{row_of_tune, rows_of_tunes, HoldTunes, HoldsTuneAt};
ghost use Rattle.tune_format.specs.Filed.{Filed};
ghost use Rattle.tune_format.specs.Filed.{archive_parts, firsts_of, numbered_texts};
ghost use Rattle.tune_format.specs.Searched.{AreSearchIndexes};
ghost use Rattle.tune_format.specs.RootOffsets.{most_pages_of};
ghost use Rattle.tune_format.specs.Reading.{tunes_in, sets_in, pages_in};
ghost use Rattle.tune_format.specs.States.{IsStateOf, Holds, state_of_pages};
ghost use Rattle.tune_format.specs.States.{state_in};
ghost use Rattle.tune_format.specs.Written.{IsRoot, no_firsts, number_entries, stored_tune};

/// The laws of texts: of the parts that hold tunes, and of the rows of both.
///
/// - `count`: there is a part for each tune.
/// - `at`: at each place stands the part of the tune there.
/// - `joined`, `rows`: parts that hold tunes, and others behind them that hold others.
/// - `put`, `rows_put`: a chain with another tune in the place of one.
/// - `cut`, `rows_cut`: the parts and the tunes without those at a place.
/// - `inserted`, `rows_inserted`: a chain and its tune more, at a place.
/// - `filed`: parts that are held, and named by the root, by the indexes and by the list of each,
///   hold tunes and sets.
pub fn law_of_texts()
    ensures count { (texts : List Part) (tunes : List Tune) → HoldTunes texts tunes
        → length texts ≡ length tunes }
    ensures at { (texts : List Part) (tunes : List Tune) (place : ℕ) → HoldTunes texts tunes
        → place < length tunes → HoldsTuneAt texts tunes place }
    ensures joined { (before after : List Part) (front back : List Tune)
        → HoldTunes before front → HoldTunes after back
        → HoldTunes (before ++ after) (front ++ back) }
    ensures rows { (before after : List Part) (front back : List Tune)
        → HoldTunes before front
        → rows_of_tunes (front ++ back) (before ++ after) ≡ rows_of_tunes front before
        ++ rows_of_tunes back after }
    ensures put { (texts : List Part) (tunes : List Tune) (place : ℕ) (part : Part) (tune : Tune)
        → HoldTunes texts tunes → part.kind ≡ chain → part.bytes ≡ stored_tune tune
        → HoldTunes (slice_set texts place part) (slice_set tunes place tune) }
    ensures rows_put { (texts : List Part) (tunes : List Tune) (place : ℕ) (part : Part)
        (tune : Tune) → rows_of_tunes (slice_set tunes place tune) (slice_set texts place part)
        ≡ slice_set (rows_of_tunes tunes texts) place (row_of_tune tune part) }
    ensures cut { (texts : List Part) (tunes : List Tune) (place : ℕ) → HoldTunes texts tunes
        → HoldTunes (remove texts place) (remove tunes place) }
    ensures rows_cut { (texts : List Part) (tunes : List Tune) (place : ℕ)
        → HoldTunes texts tunes
        → rows_of_tunes (remove tunes place) (remove texts place)
        ≡ remove (rows_of_tunes tunes texts) place }
    ensures inserted { (texts : List Part) (tunes : List Tune) (place : ℕ) (part : Part)
        (tune : Tune) → HoldTunes texts tunes → part.kind ≡ chain
        → part.bytes ≡ stored_tune tune
        → HoldTunes (insert texts place part) (insert tunes place tune) }
    ensures rows_inserted { (texts : List Part) (tunes : List Tune) (place : ℕ) (part : Part)
        (tune : Tune) → HoldTunes texts tunes
        → rows_of_tunes (insert tunes place tune) (insert texts place part)
        ≡ insert (rows_of_tunes tunes texts) place (row_of_tune tune part) }
    ensures filed { (s : Stand) (layout : Layout) (numbers : IndexParts) (searches : SearchParts)
        (set_lists : Part) (texts : List Part) (tunes : List Tune) (sets : List TuneSet)
        → HoldsParts s (archive_parts numbers searches set_lists texts)
        → IsRoot layout (page_at s.pages 0) (firsts_of numbers searches set_lists)
        → HoldsIndex key_bytes numbers (number_entries (rows_of_tunes tunes texts))
        → AreSearchIndexes (notes_of layout) (numbered_texts tunes) searches
        → set_lists.kind ≡ chain → set_lists.bytes ≡ written_sets sets → HoldTunes texts tunes
        → Filed layout s.pages tunes sets }
{}

/// The laws of files: what a file holds is read off it in one way.
///
/// - `pages`: a file is read as the pages that it stands for.
/// - `tunes`, `sets`: pages that hold tunes and sets are read as these; so they hold no others.
/// - `state`: pages are read as the state that they stand for; `file`: so is a file.
/// - `once`: a file stands for one state at most.
/// - `either`: one that stands for the pages before a commit or after it stands for the state of
///   these.
/// - `empty`: a root alone that names no chain stands for the state in which nothing is yet.
pub fn law_of_files()
    ensures pages { (file : List ℕ) (pages : List (List ℕ)) → StandsFor pages file
        → pages_in file ≡ pages }
    ensures tunes { (layout : Layout) (pages : List (List ℕ)) (tunes : List Tune)
        (sets : List TuneSet) → Filed layout pages tunes sets → IsTunes layout tunes
        → length pages ≤ most_pages_of layout → tunes_in pages ≡ tunes }
    ensures sets { (layout : Layout) (pages : List (List ℕ)) (tunes : List Tune)
        (sets : List TuneSet) → Filed layout pages tunes sets → AreSetLists sets
        → sets_in pages ≡ sets }
    ensures state { (pages : List (List ℕ)) (state : State) → IsStateOf pages state
        → state_of_pages pages ≡ state }
    ensures file { (file : List ℕ) (state : State) → Holds file state
        → state_in file ≡ state }
    ensures once { (file : List ℕ) (one other : State) → Holds file one
        → Holds file other → one ≡ other }
    ensures either { (before after : List (List ℕ)) (old new : State) (file : List ℕ)
        → IsStateOf before old → IsStateOf after new → StandsForEither before after file
        → Holds file old ⊎ Holds file new }
    ensures empty { (layout : Layout) (image : List ℕ) → IsRoot layout image no_firsts
        → IsStateOf (image ∷ []) (empty_of layout) }
{}
