// What calls with a work leave alone, and what they take.
ghost use Rattle.std.specs.Prelude.{◌≡◌, ◌+◌, ◌<◌, ◌≤◌, ◌++◌, [], ◌∷◌, ℕ, List, All, length};
ghost use Rattle.std.specs.Prelude.{Bool, true, false, slice_index_or, Result, Ok, IfOk};
ghost use Rattle.tune_journal.specs.FileOffsets.{block_bytes};
ghost use Rattle.tune_pages.specs.Chain.{IsChain};
ghost use Rattle.tune_pages.specs.Faults.{AnswersWork, free_pages, pages_for};
ghost use Rattle.tune_pages.specs.FreePages.{TakesAtMost};
ghost use Rattle.tune_pages.specs.Frame.{Apart, AllApart, Allocates, Frees, Puts, TradesPages};
ghost use Rattle.tune_pages.specs.Stand.{Stand, IsUsed, IsFree, IsFull, IsLeastFree};
ghost use Rattle.tune_pages.specs.Stand.{AllUsed, AllFree, marked, PutsChain, HasChain};
ghost use Rattle.tune_pages.specs.Stand.{taken, with_page, without_page, without_pages};
ghost use Rattle.tune_pages.specs.Work.{stand, FitsOn, stand_on};
ghost use Rattle.tune_pages.specs.declared.fault.Fault.{Fault};
ghost use Rattle.tune_pages.specs.declared.work.Work.{Work};

/// The laws of chains. They speak of pages as a work stands for them (`Stand`), and of what each
/// call with a work makes of these: its clause `stand` or `chain`.
///
/// - `once`: from a page leads one chain at most: the pages tell which pages it has, and its bytes.
/// - `put`: what `put_chain` put is a chain in use.
/// - `beside_put`: each chain that was there stays, with its bytes, and shares no page with the new
///   one.
/// - `beside_freed`: so does each chain that has none of the pages that `free_chain` freed,
/// - `beside_free`: each that has not the page that `free` freed,
/// - `beside_page`: each that has not the page that `put_page` put,
/// - `beside_root`: every chain, where that page is the root,
/// - `beside_taken`: and every chain, where `allocate` took a page.
pub fn law_of_chains()
    ensures once { (pages : List (List ℕ)) (first : ℕ) (trail other bytes more : List ℕ)
        → IsChain pages first trail bytes → IsChain pages first other more
        → (trail ≡ other) × (bytes ≡ more) }
    ensures put { (old new : Stand) (first : ℕ) (trail bytes : List ℕ)
        → PutsChain old new first trail bytes → HasChain new first trail bytes }
    ensures beside_put { (old new : Stand) (first : ℕ) (trail bytes : List ℕ) (other : ℕ)
        (along more : List ℕ) → PutsChain old new other along more
        → HasChain old first trail bytes → HasChain new first trail bytes × AllApart trail along }
    ensures beside_freed { (s : Stand) (first : ℕ) (trail bytes freed : List ℕ)
        → HasChain s first trail bytes → AllApart trail freed
        → HasChain (without_pages freed s) first trail bytes }
    ensures beside_free { (s : Stand) (first : ℕ) (trail bytes : List ℕ) (page : ℕ)
        → HasChain s first trail bytes → Apart page trail
        → HasChain (without_page page s) first trail bytes }
    ensures beside_page { (s : Stand) (first : ℕ) (trail bytes : List ℕ) (page : ℕ)
        (image : List ℕ) → page ≤ length s.pages
        → HasChain s first trail bytes → Apart page trail
        → HasChain (with_page page image s) first trail bytes }
    ensures beside_root { (s : Stand) (first : ℕ) (trail bytes image : List ℕ)
        → HasChain s first trail bytes → HasChain (with_page 0 image s) first trail bytes }
    ensures beside_taken { (s : Stand) (first : ℕ) (trail bytes : List ℕ) (page : ℕ)
        → IsFree s.used page → 0 < page → page ≤ length s.pages
        → HasChain s first trail bytes → HasChain (taken page s) first trail bytes }
{}

/// The laws of frames, for owners of pages: what `TradesPages` says of each call, how two trades
/// come to one, and that chains of others stay.
///
/// - `allocates`, `frees`, `puts`: what a call did to one page, and that no other changed.
/// - `allocated`, `freed`, `put`, `root`, `chain`, `chain_freed`: the pages that each call trades.
/// - `nothing`: no call trades nothing.
/// - `next`: two trades, one after another, are one.
/// - `beside`: an owner who has more pages trades the same.
/// - `chains`: a chain that is none of the owner's stays, with its bytes, and is none of the
///   owner's then.
/// - `claimed`: pages that were claimed while they were free are in use, each once.
/// - `beside_claimed`: and pages that were in use before that stay so, and are none of them.
/// - `beside_marked`: a page keeps its mark where others are marked.
pub fn law_of_frames()
    ensures allocates { (s : Stand) (page : ℕ) → IsFree s.used page → 0 < page
        → page ≤ length s.pages → Allocates s (taken page s) page }
    ensures frees { (s : Stand) (page : ℕ) → Frees s (without_page page s) page }
    ensures puts { (s : Stand) (page : ℕ) (image : List ℕ) → page ≤ length s.pages
        → Puts s (with_page page image s) page image }
    ensures allocated { (old new : Stand) (page : ℕ)
        → Allocates old new page → TradesPages [] (page ∷ []) old new }
    ensures freed { (old new : Stand) (page : ℕ)
        → Frees old new page → TradesPages (page ∷ []) [] old new }
    ensures put { (old new : Stand) (page : ℕ) (image : List ℕ)
        → Puts old new page image → TradesPages (page ∷ []) (page ∷ []) old new }
    ensures root { (old new : Stand) (image : List ℕ)
        → Puts old new 0 image → TradesPages [] [] old new }
    ensures chain { (old new : Stand) (first : ℕ) (trail bytes : List ℕ)
        → PutsChain old new first trail bytes → TradesPages [] trail old new }
    ensures chain_freed { (s : Stand) (trail : List ℕ)
        → TradesPages trail [] s (without_pages trail s) }
    ensures nothing { (pages : List ℕ) (s : Stand) → TradesPages pages pages s s }
    ensures next { (a b c : List ℕ) (one two three : Stand) → TradesPages a b one two
        → TradesPages b c two three → TradesPages a c one three }
    ensures beside { (a b more : List ℕ) (old new : Stand) → TradesPages a b old new
        → TradesPages (a ++ more) (b ++ more) old new }
    ensures chains { (before after : List ℕ) (old new : Stand) (first : ℕ)
        (trail bytes : List ℕ) → TradesPages before after old new
        → HasChain old first trail bytes → AllApart trail before
        → HasChain new first trail bytes × AllApart trail after }
    ensures claimed { (trail : List ℕ) (used : List Bool) → AllFree trail used
        → AllUsed trail (marked true trail used) }
    ensures beside_claimed { (trail others : List ℕ) (used : List Bool) → AllFree trail used
        → AllUsed others used → AllUsed others (marked true trail used) × AllApart others trail }
    ensures beside_marked { (mark past : Bool) (trail : List ℕ) (used : List Bool) (page : ℕ)
        → Apart page trail
        → slice_index_or (marked mark trail used) page past ≡ slice_index_or used page past }
{}

/// The laws of works: what holds of the pages that a work stands for, whatever was done with it.
///
/// - `root`: the root is in use.
/// - `inside`: each page in use is there.
/// - `marks`: there is a mark for each page up to the limit.
/// - `count`: there are no more pages than there may be.
pub fn law_of_works()
    ensures root { (pages : List (List ℕ)) (used : List Bool) (work : Work)
        → FitsOn pages used work → IsUsed (stand_on pages used work).used 0 }
    ensures inside { (pages : List (List ℕ)) (used : List Bool) (work : Work) (page : ℕ)
        → FitsOn pages used work → IsUsed (stand_on pages used work).used page
        → page < length (stand_on pages used work).pages }
    ensures marks { (pages : List (List ℕ)) (used : List Bool) (work : Work)
        → FitsOn pages used work → length (stand_on pages used work).used ≡ length used }
    ensures count { (pages : List (List ℕ)) (used : List Bool) (work : Work)
        → FitsOn pages used work → length pages ≤ length used
        → length (stand_on pages used work).pages ≤ length (stand_on pages used work).used }
{}

/// The law of free pages: how many of the pages up to the limit are free.
///
/// - `freed`: pages in use that are freed are so many more.
/// - `taken`: free pages that are taken are so many less.
/// - `full`: where all are in use, none is free.
/// - `count`: a chain has as many pages as its bytes want.
/// - `allocated`, `put`: how many `allocate` and `put_chain` take at most, by what they ensure,
/// - `next`: and how many two calls take, one after another.
pub fn law_of_free_pages<T, U>()
    ensures freed { (trail : List ℕ) (used : List Bool) → AllUsed trail used
        → free_pages (marked false trail used) ≡ free_pages used + length trail }
    ensures taken { (trail : List ℕ) (used : List Bool) → AllFree trail used
        → free_pages (marked true trail used) + length trail ≡ free_pages used }
    ensures full { (used : List Bool) → IsFull used → free_pages used ≡ 0 }
    ensures count { (pages : List (List ℕ)) (first : ℕ) (trail bytes : List ℕ)
        → All (λ page. length page ≡ block_bytes) pages → IsChain pages first trail bytes
        → length trail ≡ pages_for (length bytes) }
    ensures allocated { (result : Result ℕ Fault) (closed : Bool) (old new : Stand)
        → IfOk result (λ page. IsLeastFree old.used page × (new ≡ taken page old))
        → AnswersWork result closed (IsFull old.used) → TakesAtMost 1 result old new }
    ensures put { (result : Result ℕ Fault) (closed : Bool) (old new : Stand) (bytes : List ℕ)
        → IfOk result (λ first. (trail : List ℕ) × PutsChain old new first trail bytes)
        → AnswersWork result closed (free_pages old.used < pages_for (length bytes))
        → TakesAtMost (pages_for (length bytes)) result old new }
    ensures next { (value : T) (result : Result U Fault) (most more : ℕ) (one two three : Stand)
        → TakesAtMost most (Ok value) one two → TakesAtMost more result two three
        → TakesAtMost (most + more) result one three }
{}
