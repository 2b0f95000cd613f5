// What holds of parts, whatever is done with their pages.
ghost use Rattle.std.specs.Prelude.{◌≡◌, ◌≢◌, ℕ, ◌-◌, ◌<◌, ◌≤◌, Bool, true, false, List, []};
ghost use Rattle.std.specs.Prelude.{◌∷◌, ◌++◌, length, replicate, All};
ghost use Rattle.std.specs.List.{AllByRecursion};
ghost use Rattle.tune_journal.specs.Pages.{page_at};
ghost use Rattle.tune_pages.specs.Claim.{Claimable};
ghost use Rattle.tune_pages.specs.Frame.{TradesPages};
ghost use Rattle.tune_pages.specs.Stand.{Stand, IsUsed, AllUsed, PutsChain, HasChain, marked};
ghost use Rattle.tune_pages.specs.Stand.{with_page, without_pages};
ghost use Rattle.tune_parts.specs.Parts.{Part, IsPart, chain_part, trails, root_and_trails};
ghost use Rattle.tune_parts.specs.Parts.{AreParts, HoldsParts};
ghost use Rattle.tune_parts.specs.Parts.PartKind.{chain};

/// The laws of parts. They speak of parts by the list of them: any part may stand anywhere in it.
///
/// - `put`: a chain that `put_chain` put is a part more, and the others stay.
/// - `freed`: a part whose pages were freed, as `free_chain` does, goes, and the others stay.
/// - `root`: where `put_page` put a root, it stands there, and all parts stay.
/// - `moved`: the order in which parts are named does not matter.
/// - `has`: each part of a chain is a chain in use.
/// - `parts`: parts that are held stand on the pages; `held`: parts that stand there are held where
///   they are what is in use.
/// - `unclaimed`, `claimed`: how parts are claimed, one after another, from none on.
/// - `claimable`: of parts that stand there, each of a chain can be claimed when those before it
///   were.
/// - `opened`: what is in use once all is claimed.
pub fn law_of_parts()
    ensures put { (old new : Stand) (first : ℕ) (trail bytes : List ℕ) (before after : List Part)
        → PutsChain old new first trail bytes → HoldsParts old (before ++ after)
        → HoldsParts new (before ++ chain_part first trail bytes ∷ after) }
    ensures freed { (s : Stand) (part : Part) (before after : List Part)
        → HoldsParts s (before ++ part ∷ after)
        → HoldsParts (without_pages part.trail s) (before ++ after) }
    ensures root { (s : Stand) (image : List ℕ) (parts : List Part) → HoldsParts s parts
        → HoldsParts (with_page 0 image s) parts
        × (page_at (with_page 0 image s).pages 0 ≡ image) }
    ensures moved { (s : Stand) (part : Part) (before after front back : List Part)
        → before ++ after ≡ front ++ back → HoldsParts s (before ++ part ∷ after)
        → HoldsParts s (front ++ part ∷ back) }
    ensures has { (s : Stand) (part : Part) (before after : List Part)
        → part.kind ≡ chain → HoldsParts s (before ++ part ∷ after)
        → HasChain s part.first part.trail part.bytes }
    ensures parts { (s : Stand) (parts : List Part) → HoldsParts s parts
        → AreParts s.pages parts }
    ensures held { (s : Stand) (limit : ℕ) (parts : List Part) → AreParts s.pages parts
        → length s.pages ≤ limit
        → s.used ≡ marked true (root_and_trails parts) (replicate limit false)
        → HoldsParts s parts }
    ensures unclaimed { (pages : List (List ℕ)) → 0 < length pages → AreParts pages [] }
    ensures claimed { (pages : List (List ℕ)) (claimed : List Bool) (first : ℕ)
        (trail bytes : List ℕ) (before after : List Part) → AreParts pages (before ++ after)
        → claimed ≡ marked true (root_and_trails (before ++ after))
        (replicate (length pages) false)
        → Claimable pages claimed first trail bytes
        → let more = before ++ chain_part first trail bytes ∷ after in
        AreParts pages more × (marked true trail claimed
        ≡ marked true (root_and_trails more) (replicate (length pages) false)) }
    ensures claimable { (pages : List (List ℕ)) (claimed : List Bool) (part : Part)
        (before after : List Part) → part.kind ≡ chain
        → AreParts pages (before ++ part ∷ after)
        → claimed ≡ marked true (root_and_trails before) (replicate (length pages) false)
        → Claimable pages claimed part.first part.trail part.bytes }
    ensures opened { (pages : List (List ℕ)) (claimed used : List Bool) (limit : ℕ)
        (parts : List Part) → AreParts pages parts → length pages ≤ limit
        → claimed ≡ marked true (root_and_trails parts) (replicate (length pages) false)
        → used ≡ claimed ++ replicate (limit - length pages) false
        → used ≡ marked true (root_and_trails parts) (replicate limit false) }
{}

/// The law of trades: what an owner of parts trades is held among all others.
///
/// - `traded`: an owner gave its pages back and took others, as `TradesPages` says. Where the parts
///   that it has now stand on its pages, and these are in use, none of them twice and none of them
///   the root, they are held with the parts of all others, which stay as they were.
pub fn law_of_trades()
    ensures traded { (old new : Stand) (before mine yours after : List Part)
        → HoldsParts old (before ++ (mine ++ after))
        → TradesPages (trails mine) (trails yours) old new → length new.used ≡ length old.used
        → IsUsed new.used 0 → ((page : ℕ) → IsUsed new.used page → page < length new.pages)
        → AllUsed (trails yours) new.used → All (λ p. p ≢ 0) (trails yours)
        → AllByRecursion (IsPart new.pages) yours
        → HoldsParts new (before ++ (yours ++ after)) }
{}
