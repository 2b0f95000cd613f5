// The entries of an index of few keys in which a tune has one at most, as an opening compares them
// with the tunes.
ghost use Rattle.std.specs.Prelude.{◌≡◌, ◌↔◌, ◌<◌, ℕ, List, length, replicate, slice_index};
ghost use Rattle.std.specs.Prelude.{IfOk, IfSome, IsTrue, None};
ghost use Rattle.std.specs.List.Sorted.{IsStrictlyIncreasing};
ghost use Rattle.std.specs.Option.{option_to_list};
ghost use Rattle.index_keys.specs.Groups.{grouped_entries};
ghost use Rattle.tune_search.specs.Inside.HeldKeys.{AreHeldInGroups, HasKeys};
ghost use Rattle.tune_search.specs.SearchClaims.{AreKnown};

use crate::key_claims::place_of;
use crate::single_claims::one_more;
use index_keys::{EntryList, GroupedEntries, IndexKey};
use std::alloc::{AllocError, Global};

// The entries of one index, and which of their keys each number has, in the order of the numbers.
#[derive(Drop)]
pub(crate) struct GroupClaims<const W: usize> {
    pub entries: GroupedEntries<W>,
    // for each number: how many keys it has, 2 where it has more
    pub counts: Vec<u8>,
    // for each number: which of the keys is its first, where it has one
    pub ids: Vec<u32>,
}

// Puts which keys the entries have at the places of their numbers, from the last entry to the
// first; false where the number of one is none of the numbers.
fn lay_out_ids<const W: usize>(
    numbers: &[u32],
    entries: &GroupedEntries<W>,
    counts: &mut [u8],
    ids: &mut [u32],
) -> bool
    requires rising { IsStrictlyIncreasing numbers.now }
    requires none { counts.old ≡ replicate (length numbers.now) 0 }
    requires one_each { length ids.old ≡ length numbers.now }
    ensures known { IsTrue result ↔ AreKnown numbers.now (grouped_entries entries.now) }
    ensures held { IsTrue result
        → AreHeldInGroups numbers.now entries.now counts.new ids.new }
{
    let mut at = entries.len();
    while at > 0 {
        at -= 1;
        let Some(place) = place_of(numbers, entries.value_at(at)) else {
            return false;
        };
        counts[place] = one_more(counts[place]);
        ids[place] = entries.id_at(at);
    }
    true
}

// The entries with which key each number has, or nothing where the number of an entry is none of
// the numbers.
pub(crate) fn group_claims_of<const W: usize>(
    alloc: Global,
    numbers: &[u32],
    entries: GroupedEntries<W>,
) -> Result<Option<GroupClaims<W>>, AllocError>
    requires { IsStrictlyIncreasing numbers.now }
    ensures same { IfOk result (λ made. IfSome made (λ claims. claims.entries ≡ entries.entry)) }
    ensures known { IfOk result (λ made. IfSome made (λ _.
        AreKnown numbers.now (grouped_entries entries.entry))) }
    ensures held { IfOk result (λ made. IfSome made (λ claims.
        AreHeldInGroups numbers.now entries.entry claims.counts.items claims.ids.items)) }
    ensures unknown { IfOk result (λ made. made ≡ None
        → AreKnown numbers.now (grouped_entries entries.entry) → ⊥) }
{
    let mut counts = vec![in alloc; 0; numbers.len()]?;
    let mut ids = vec![in alloc; 0; numbers.len()]?;
    if !lay_out_ids(numbers, &entries, &mut counts, &mut ids) {
        return Ok(None);
    }
    Ok(Some(GroupClaims {
        entries,
        counts,
        ids,
    }))
}

// Whether the number at this place has exactly this key, or none.
pub(crate) fn has_group<const W: usize>(
    claims: &GroupClaims<W>,
    place: usize,
    key: Option<IndexKey<W>>,
) -> bool
    requires counted { place < length claims.now.counts.items }
    requires placed { place < length claims.now.ids.items }
    requires within { 0 < slice_index claims.now.counts.items place
        → slice_index claims.now.ids.items place < length claims.now.entries.keys }
    ensures { (keys : List ℕ) → HasKeys keys (slice_index claims.now.counts.items place)
        (slice_index claims.now.entries.keys (slice_index claims.now.ids.items place))
        → (IsTrue result ↔ (keys ≡ option_to_list key.entry)) }
{
    let count = claims.counts[place];
    match key {
        Some(key) => count == 1 && claims.entries.key_of(claims.ids[place]).is_same(&key),
        None => count == 0,
    }
}
