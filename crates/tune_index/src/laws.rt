// What holds of an index beside the calls that change it.
ghost use Rattle.std.specs.Prelude.{◌≡◌, ℕ, ◌≤◌, List, Bool, length};
ghost use Rattle.tune_pages.specs.Frame.{AllApart, TradesPages};
ghost use Rattle.tune_pages.specs.Stand.{AllUsed, Stand};
ghost use Rattle.tune_index.specs.Indexes.{HasPages, IsIndex, Shape, entries_of};
ghost use Rattle.tune_index.specs.ListedLeaves.{ClaimedPages, HasList, IndexWithEntries};
ghost use Rattle.tune_index.specs.ListedLeaves.{LoadsIndex, StoresList};

/// The laws of indexes. They speak of pages as a work stands for them (`Stand`), and of what
/// contracts see of an index (`Shape`).
///
/// - `few`: an index has no more leaves than entries.
/// - `beside`: where the owner of other pages traded them, an index stays, with its entries and its
///   pages, which are none of that owner's then.
/// - `opened`: what `load` gave is an index, with those entries, wherever the pages are the same,
/// - `listed`: and its list is there where the pages of the list are in use.
/// - `stored`: where `store` put the list, it is there.
pub fn law_of_indexes()
    ensures few { (width : ℕ) (s : Stand) (shape : Shape) → IsIndex width s shape
        → length shape.pages ≤ length (entries_of width s shape.pages) }
    ensures beside { (width : ℕ) (old new : Stand) (before after : List ℕ) (shape : Shape)
        → TradesPages before after old new → HasPages old shape.pages
        → AllApart shape.pages before → IsIndex width old shape
        → IsIndex width new shape × HasPages new shape.pages × AllApart shape.pages after
        × (entries_of width new shape.pages ≡ entries_of width old shape.pages) }
    ensures opened { (width most : ℕ) (was : ClaimedPages) (after : List Bool) (first : ℕ)
        (loaded : IndexWithEntries) (s : Stand) → LoadsIndex width most was after first loaded
        → s.pages ≡ was.pages → IsIndex width s loaded.shape
        × (entries_of width s loaded.shape.pages ≡ loaded.entries) }
    ensures listed { (width most : ℕ) (was : ClaimedPages) (after : List Bool) (first : ℕ)
        (loaded : IndexWithEntries) (s : Stand)
        (loads : LoadsIndex width most was after first loaded) → s.pages ≡ was.pages
        → AllUsed loads.trail s.used → HasList s loaded.shape }
    ensures stored { (old new : Stand) (was is : Shape) → HasList old was
        → StoresList old new was.first is.first is.pages → HasList new is }
{}
