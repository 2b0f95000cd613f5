// What holds of indexes that were loaded, beside the calls that load them.
ghost use Rattle.std.specs.Prelude.{◌≡◌, ℕ, ◌^◌, ◌<◌, Bool, List, ◌++◌, length};
ghost use Rattle.index_keys.specs.Entries.{Entry};
ghost use Rattle.tune_index.specs.ListedLeaves.{ClaimedPages, IndexWithEntries, IsStored};
ghost use Rattle.tune_index.specs.ListedLeaves.{LoadsIndex, pages_claimed};
ghost use Rattle.tune_parts.specs.Parts.{AreParts, Part};
ghost use Rattle.tune_search.specs.LoadedParts.{ClaimsParts, HasClaimed, HoldEachAtMost};
ghost use Rattle.tune_search.specs.LoadedParts.{HoldsAtMost, HoldsLoaded, HoldsLoadedSearch};
ghost use Rattle.tune_search.specs.LoadedParts.{search_firsts_of, parts_loaded, search_loaded};
ghost use Rattle.tune_search.specs.IndexParts.{IndexParts, parts_of_index};
ghost use Rattle.tune_search.specs.Loaded.{AreStored, LoadsSearch, SearchWithEntries};
ghost use Rattle.tune_search.specs.Searches.{SearchParts, SearchRuns, parts_of_search};
ghost use Rattle.tune_search.specs.declared.loading.SearchFirsts.{SearchFirsts};

/// The laws of loaded indexes. They speak of parts that were claimed, one after another, and of
/// those that stand there to be claimed.
///
/// - `held`: behind parts that were claimed, the parts of an index that was loaded are claimed too,
///   and memory has its entries.
/// - `there`: the parts of an index that stand behind those that were claimed are stored there, so
///   that they can be loaded.
/// - `same`: what is loaded is what stands there, its parts and its entries.
/// - `held_search`, `there_search`, `same_search`: the same of four search indexes.
pub fn law_of_loads()
    ensures held { (width most : ℕ) (was : ClaimedPages) (after : List Bool) (first : ℕ)
        (loaded : IndexWithEntries) (front : List Part) → HasClaimed was.pages was.claimed front
        → (loads : LoadsIndex width most was after first loaded)
        → HoldsLoaded width (pages_claimed was.pages after) front first (parts_loaded loads)
        loaded }
    ensures there { (width most : ℕ) (pages : List (List ℕ)) (claimed : List Bool)
        (parts : IndexParts) (entries : List Entry) (front more : List Part)
        → AreParts pages (front ++ (parts_of_index parts ++ more))
        → ClaimsParts pages claimed front → HoldsAtMost width most parts entries
        → IsStored width most pages claimed parts.list.first }
    ensures same { (width most : ℕ) (was : ClaimedPages) (after : List Bool) (first : ℕ)
        (loaded : IndexWithEntries) (loads : LoadsIndex width most was after first loaded)
        (other : IndexParts) (others : List Entry) (front more : List Part)
        → length was.claimed < 256 ^ 4
        → AreParts was.pages (front ++ (parts_of_index other ++ more))
        → ClaimsParts was.pages was.claimed front → HoldsAtMost width most other others
        → other.list.first ≡ first → (other ≡ parts_loaded loads) × (others ≡ loaded.entries) }
    ensures held_search { (most : ℕ) (was : ClaimedPages) (after : List Bool)
        (firsts : SearchFirsts) (loaded : SearchWithEntries) (front : List Part)
        → HasClaimed was.pages was.claimed front
        → (loads : LoadsSearch most was after firsts loaded)
        → HoldsLoadedSearch (pages_claimed was.pages after) front firsts (search_loaded loads)
        loaded }
    ensures there_search { (most : ℕ) (pages : List (List ℕ)) (claimed : List Bool)
        (parts : SearchParts) (entries : SearchRuns) (front more : List Part)
        → AreParts pages (front ++ (parts_of_search parts ++ more))
        → ClaimsParts pages claimed front → HoldEachAtMost most parts entries
        → AreStored entries.notes most pages claimed (search_firsts_of parts) }
    ensures same_search { (most : ℕ) (was : ClaimedPages) (after : List Bool)
        (firsts : SearchFirsts) (loaded : SearchWithEntries)
        (loads : LoadsSearch most was after firsts loaded)
        (other : SearchParts) (others : SearchRuns) (front more : List Part)
        → length was.claimed < 256 ^ 4
        → AreParts was.pages (front ++ (parts_of_search other ++ more))
        → ClaimsParts was.pages was.claimed front → others.notes ≡ loaded.runs.notes
        → HoldEachAtMost most other others → search_firsts_of other ≡ firsts
        → (other ≡ search_loaded loads) × (others ≡ loaded.runs) }
{}
