// The entries of incipits as an opening compares them with the tunes.
ghost use Rattle.std.specs.Prelude.{◌≡◌, ◌↔◌, ◌<◌, List, ℕ, length, slice_index};
ghost use Rattle.std.specs.Prelude.{IfOk, IfSome, IsTrue, None};
ghost use Rattle.std.specs.List.Sorted.{IsStrictlyIncreasing};
ghost use Rattle.tune_incipit.specs.ScaleAndIncipitKeys.{incipit_keys};
ghost use Rattle.tune_search.specs.SearchClaims.{AreKnown};
ghost use Rattle.tune_search.specs.IncipitForms.{entries_held, notes_held};
ghost use Rattle.tune_search.specs.Inside.HeldKeys.{AreKeysHeld, HasKeys};
ghost use Rattle.tune_search.specs.Inside.IncipitLinks.{entries_claimed, counts_claimed};
ghost use Rattle.tune_search.specs.Inside.IncipitLinks.{keys_claimed, notes_of_claims};

use crate::held_entries::HeldEntries;
use crate::single_claims::{SingleClaims, has_key, has_steps, single_claims_of};
use abc_fields::TuneText;
use std::alloc::{AllocError, Global};
use tune_incipit::{key_of_incipit, key_of_twelve_notes, steps};

// The entries of incipits, by eight notes or by twelve, with the key of each number.
#[derive(Drop)]
pub(crate) enum IncipitClaims {
    Eight(SingleClaims<32>),
    Twelve(SingleClaims<48>),
}

// The entries with the key of each number, or nothing where the number of an entry is none of the
// numbers.
pub(crate) fn incipit_claims_of(
    alloc: Global,
    numbers: &[u32],
    entries: HeldEntries,
) -> Result<Option<IncipitClaims>, AllocError>
    requires { IsStrictlyIncreasing numbers.now }
    ensures notes { IfOk result (λ made. IfSome made (λ claims.
        notes_of_claims claims ≡ notes_held entries)) }
    ensures same { IfOk result (λ made. IfSome made (λ claims.
        entries_claimed claims ≡ entries_held entries)) }
    ensures known { IfOk result (λ made. IfSome made (λ _.
        AreKnown numbers.now (entries_held entries))) }
    ensures held { IfOk result (λ made. IfSome made (λ claims.
        AreKeysHeld numbers.now (entries_held entries) (counts_claimed claims)
        (keys_claimed claims))) }
    ensures unknown { IfOk result (λ made. made ≡ None
        → AreKnown numbers.now (entries_held entries) → ⊥) }
{
    match entries {
        HeldEntries::Eight(entries) => match single_claims_of(alloc, numbers, entries)? {
            Some(claims) => Ok(Some(IncipitClaims::Eight(claims))),
            None => Ok(None),
        },
        HeldEntries::Twelve(entries) => match single_claims_of(alloc, numbers, entries)? {
            Some(claims) => Ok(Some(IncipitClaims::Twelve(claims))),
            None => Ok(None),
        },
    }
}

// Whether the number at this place stands at exactly the key of the incipit of the text.
pub(crate) fn has_incipit(claims: &IncipitClaims, place: usize, text: &TuneText) -> bool
    requires counted { place < length (counts_claimed claims.now) }
    requires keyed { place < length (keys_claimed claims.now) }
    ensures { (keys : List ℕ) → HasKeys keys (slice_index (counts_claimed claims.now) place)
        (slice_index (keys_claimed claims.now) place)
        → (IsTrue result ↔ (keys ≡ incipit_keys (notes_of_claims claims.now) text.now)) }
{
    // Most often the steps are small and the same, which is soon seen.
    match claims {
        IncipitClaims::Eight(claims) => {
            has_steps(claims, place, &steps(text, 8))
                || has_key(claims, place, key_of_incipit(text))
        }
        IncipitClaims::Twelve(claims) => {
            has_steps(claims, place, &steps(text, 12))
                || has_key(claims, place, key_of_twelve_notes(text))
        }
    }
}
