// The entries of an index in which a tune has one key at most, as an opening compares them with the
// tunes.
ghost use Rattle.std.specs.Prelude.{◌≡◌, ◌↔◌, ◌<◌, ℕ, List, length, map, replicate, slice_index};
ghost use Rattle.std.specs.Prelude.{IfOk, IfSome, IsTrue, None};
ghost use Rattle.std.specs.List.Sorted.{IsStrictlyIncreasing};
ghost use Rattle.std.specs.Option.{option_to_list};
ghost use Rattle.tune_search.specs.Inside.HeldKeys.{AreKeysHeld, HasKeys};
ghost use Rattle.tune_incipit.specs.ScaleAndIncipitKeys.{incipit_keys_of};
ghost use Rattle.tune_search.specs.HeldShapes.{held_entries, whole_entry, whole_key};
ghost use Rattle.tune_search.specs.SearchClaims.{AreKnown};

use crate::held_incipits::HeldIncipits;
use crate::held_keys::HeldKey;
use crate::key_claims::place_of;
use index_keys::IndexKey;
use std::alloc::{AllocError, Global};
use tune_incipit::Steps;

// The entries of one index, and the key of each number in the order of the numbers: an opening asks
// for them in that order, and an entry that it met there would seldom be near the one before it.
#[derive(Drop)]
pub(crate) struct SingleClaims<const W: usize> {
    pub entries: HeldIncipits<W>,
    // for each number: how many keys it has, 2 where it has more
    pub counts: Vec<u8>,
    // for each number: its first key, where it has one
    pub keys: Vec<HeldKey>,
}

// One more, up to 2.
pub(crate) fn one_more(count: u8) -> u8
    ensures none { count ≡ 0 → result ≡ 1 }
    ensures some { 0 < count → result ≡ 2 }
{
    if count == 0 { 1 } else { 2 }
}

// Puts the keys of the entries at the places of their numbers, from the last entry to the first;
// false where the number of one is none of the numbers. That is so whichever keys are kept whole.
fn lay_out(
    numbers: &[u32],
    entries: &[(HeldKey, u32)],
    counts: &mut [u8],
    keys: &mut [HeldKey],
) -> bool
    requires rising { IsStrictlyIncreasing numbers.now }
    requires none { counts.old ≡ replicate (length numbers.now) 0 }
    requires one_each { length keys.old ≡ length numbers.now }
    ensures known { (width : ℕ) (others : List ℕ)
        → (IsTrue result ↔ AreKnown numbers.now (map (whole_entry width others) entries.now)) }
    ensures held { (width : ℕ) (others : List ℕ) → IsTrue result
        → AreKeysHeld numbers.now (map (whole_entry width others) entries.now) counts.new
        (map (whole_key width others) keys.new) }
{
    let mut at = entries.len();
    while at > 0 {
        at -= 1;
        let number = entries[at].1;
        let Some(place) = place_of(numbers, number) else {
            return false;
        };
        counts[place] = one_more(counts[place]);
        keys[place] = entries[at].0;
    }
    true
}

// The entries with the key of each number, or nothing where the number of an entry is none of the
// numbers.
pub(crate) fn single_claims_of<const W: usize>(
    alloc: Global,
    numbers: &[u32],
    entries: HeldIncipits<W>,
) -> Result<Option<SingleClaims<W>>, AllocError>
    requires { IsStrictlyIncreasing numbers.now }
    ensures same { IfOk result (λ made. IfSome made (λ claims. claims.entries ≡ entries.entry)) }
    ensures known { IfOk result (λ made. IfSome made (λ _.
        AreKnown numbers.now (held_entries W entries.entry))) }
    ensures held { IfOk result (λ made. IfSome made (λ claims.
        AreKeysHeld numbers.now (held_entries W entries.entry) claims.counts.items
        (map (whole_key W entries.entry.others) claims.keys.items))) }
    ensures unknown { IfOk result (λ made. made ≡ None
        → AreKnown numbers.now (held_entries W entries.entry) → ⊥) }
{
    let mut counts = vec![in alloc; 0; numbers.len()]?;
    let mut keys = vec![in alloc; HeldKey::Other(0); numbers.len()]?;
    if !lay_out(numbers, entries.as_slice(), &mut counts, &mut keys) {
        return Ok(None);
    }
    Ok(Some(SingleClaims {
        entries,
        counts,
        keys,
    }))
}

// Whether the number at this place has one key, which is held by just these steps.
#[inline(always)]
pub(crate) fn has_steps<const W: usize>(
    claims: &SingleClaims<W>,
    place: usize,
    steps: &Steps,
) -> bool
    requires counted { place < length claims.now.counts.items }
    requires keyed { place < length claims.now.keys.items }
    ensures { (keys : List ℕ) → HasKeys keys (slice_index claims.now.counts.items place)
        (slice_index (map (whole_key W claims.now.entries.others) claims.now.keys.items) place)
        → IsTrue result → keys ≡ incipit_keys_of W steps.now }
{
    if claims.counts[place] != 1 || steps.is_empty() {
        return false;
    }
    match claims.keys[place] {
        HeldKey::Steps(held) => held.is_same(steps),
        HeldKey::Other(_) => false,
    }
}

// Whether the number at this place has exactly this key, or none.
pub(crate) fn has_key<const W: usize>(
    claims: &SingleClaims<W>,
    place: usize,
    key: Option<IndexKey<W>>,
) -> bool
    requires counted { place < length claims.now.counts.items }
    requires keyed { place < length claims.now.keys.items }
    ensures { (keys : List ℕ) → HasKeys keys (slice_index claims.now.counts.items place)
        (slice_index (map (whole_key W claims.now.entries.others) claims.now.keys.items) place)
        → (IsTrue result ↔ (keys ≡ option_to_list key.entry)) }
{
    let count = claims.counts[place];
    match key {
        Some(key) => count == 1 && claims.entries.whole(&claims.keys[place]).is_same(&key),
        None => count == 0,
    }
}
