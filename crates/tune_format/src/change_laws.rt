// What holds of the parts of an archive when a tune is added, replaced, taken out or moved.
ghost use Rattle.std.specs.Prelude.{◌≡◌, ℕ, List, [], ◌∷◌, ◌++◌, length, slice_set};
ghost use Rattle.std.specs.List.{remove, insert};
ghost use Rattle.tune_pages.specs.Stand.{Stand, PutsChain, HasChain, without_pages};
ghost use Rattle.tune_parts.specs.Parts.{Part, HoldsParts, chain_part};
ghost use Rattle.tune_store.specs.declared.tune.Tune.{Tune};
ghost use Rattle.tune_format.specs.Filed.{row_of_tune, rows_of_tunes, HoldsTuneAt};

/// The laws of changes, of parts among which those of the tunes stand behind any others. A chain is
/// freed before another one is put.
///
/// - `swapped`: a part with another chain in its place, as the list of tunes and the set lists are
///   written anew.
/// - `has`: the part of the tune at a place is a chain in use; `row`: where it stands in the rows.
/// - `added`: a part more, behind all.
/// - `put`: another part at a place.
/// - `cut`: no part there.
/// - `moved`: the part of a tune at another place, as where the tune gets another number.
pub fn law_of_changes()
    ensures swapped { (s new : Stand) (part : Part) (first : ℕ) (trail bytes : List ℕ)
        (before after : List Part) → HoldsParts s (before ++ part ∷ after)
        → PutsChain (without_pages part.trail s) new first trail bytes
        → HoldsParts new (before ++ chain_part first trail bytes ∷ after) }
    ensures has { (s : Stand) (ahead texts : List Part) (tunes : List Tune) (place : ℕ)
        → HoldsParts s (ahead ++ texts) → (at : HoldsTuneAt texts tunes place)
        → HasChain s at.part.first at.part.trail at.part.bytes }
    ensures row { (texts : List Part) (tunes : List Tune) (place : ℕ)
        → (at : HoldsTuneAt texts tunes place)
        → (rows_of_tunes tunes texts
        ≡ rows_of_tunes at.front at.before ++ row_of_tune at.tune at.part
        ∷ rows_of_tunes at.back at.after)
        × (length (rows_of_tunes at.front at.before) ≡ place) }
    ensures added { (s new : Stand) (ahead texts : List Part) (first : ℕ) (trail bytes : List ℕ)
        → HoldsParts s (ahead ++ texts) → PutsChain s new first trail bytes
        → HoldsParts new (ahead ++ (texts ++ chain_part first trail bytes ∷ [])) }
    ensures put { (s new : Stand) (ahead texts : List Part) (tunes : List Tune) (place first : ℕ)
        (trail bytes : List ℕ) → HoldsParts s (ahead ++ texts)
        → (at : HoldsTuneAt texts tunes place)
        → PutsChain (without_pages at.part.trail s) new first trail bytes
        → HoldsParts new (ahead ++ slice_set texts place (chain_part first trail bytes)) }
    ensures cut { (s : Stand) (ahead texts : List Part) (tunes : List Tune) (place : ℕ)
        → HoldsParts s (ahead ++ texts) → (at : HoldsTuneAt texts tunes place)
        → HoldsParts (without_pages at.part.trail s) (ahead ++ remove texts place) }
    ensures moved { (s : Stand) (ahead texts : List Part) (tunes : List Tune) (place to : ℕ)
        → HoldsParts s (ahead ++ texts) → (at : HoldsTuneAt texts tunes place)
        → HoldsParts s (ahead ++ insert (remove texts place) to at.part) }
{}
