// The entries of one index as an opening compares them with the tunes.
ghost use Rattle.std.specs.Prelude.{◌≡◌, ◌↔◌, ◌^◌, ◌<◌, ℕ, length, replicate};
ghost use Rattle.std.specs.Prelude.{slice_index, Contains, IfOk, IfSome, IsTrue, None};
ghost use Rattle.std.specs.List.Sorted.{IsStrictlyIncreasing};
ghost use Rattle.index_keys.specs.Holdings.{keys_at};
ghost use Rattle.tune_search.specs.Inside.EntryLinks.{AreFirsts, AreNexts, place_from};
ghost use Rattle.tune_search.specs.SearchClaims.{AreKnown};

use index_keys::IndexKey;
use std::alloc::{AllocError, Global};

// The entries of one index, those of each number linked in order. A place without an entry is how
// many entries there are.
#[derive(Drop)]
pub(crate) struct KeyClaims<const W: usize> {
    pub entries: Vec<(IndexKey<W>, u32)>,
    // for each number: where its first entry stands
    pub firsts: Vec<u32>,
    // for each entry: where the next one of its number stands
    pub nexts: Vec<u32>,
}

// Where a number stands among numbers that rise, if it is one of them. Where none is left out
// between the first and it, as is most often so, it is found at once.
pub(crate) fn place_of(numbers: &[u32], number: u32) -> Option<usize>
    requires { IsStrictlyIncreasing numbers.now }
    ensures within { IfSome result (λ place. place < length numbers.now) }
    ensures number { IfSome result (λ place. slice_index numbers.now place ≡ number) }
    ensures none { result ≡ None → Contains numbers.now number → ⊥ }
{
    let guess = number.saturating_sub(*numbers.first()?) as usize;
    if guess < numbers.len() && numbers[guess] == number {
        return Some(guess);
    }
    match numbers.binary_search(&number) {
        Ok(place) => Some(place),
        Err(_) => None,
    }
}

// Links the entries of each number, from the last entry to the first; false where the number of one
// is none of the numbers.
fn link<const W: usize>(
    numbers: &[u32],
    entries: &[(IndexKey<W>, u32)],
    firsts: &mut [u32],
    nexts: &mut [u32],
) -> bool
    requires rising { IsStrictlyIncreasing numbers.now }
    requires few { length entries.now < 2 ^ 32 }
    requires none { firsts.old ≡ replicate (length numbers.now) (length entries.now) }
    requires one_each { length nexts.old ≡ length entries.now }
    ensures known { IsTrue result ↔ AreKnown numbers.now entries.now }
    ensures firsts { IsTrue result → AreFirsts numbers.now entries.now firsts.new }
    ensures nexts { IsTrue result → AreNexts entries.now nexts.new }
{
    let mut at = entries.len();
    while at > 0 {
        at -= 1;
        let number = entries[at].1;
        let Some(place) = place_of(numbers, number) else {
            return false;
        };
        nexts[at] = firsts[place];
        firsts[place] = at as u32;
    }
    true
}

// The entries with the places where those of each number stand, or nothing where the number of an
// entry is none of the numbers.
pub(crate) fn claims_of<const W: usize>(
    alloc: Global,
    numbers: &[u32],
    entries: Vec<(IndexKey<W>, u32)>,
) -> Result<Option<KeyClaims<W>>, AllocError>
    requires rising { IsStrictlyIncreasing numbers.now }
    requires few { length entries.items < 2 ^ 32 }
    ensures same { IfOk result (λ made. IfSome made (λ claims.
        claims.entries.items ≡ entries.entry.items)) }
    ensures known { IfOk result (λ made. IfSome made (λ _.
        AreKnown numbers.now entries.entry.items)) }
    ensures firsts { IfOk result (λ made. IfSome made (λ claims.
        AreFirsts numbers.now entries.entry.items claims.firsts.items)) }
    ensures nexts { IfOk result (λ made. IfSome made (λ claims.
        AreNexts entries.entry.items claims.nexts.items)) }
    ensures unknown { IfOk result (λ made. made ≡ None
        → AreKnown numbers.now entries.entry.items → ⊥) }
{
    let count = entries.len() as u32;
    let mut firsts = vec![in alloc; count; numbers.len()]?;
    let mut nexts = vec![in alloc; count; entries.len()]?;
    if !link(numbers, &entries, &mut firsts, &mut nexts) {
        return Ok(None);
    }
    Ok(Some(KeyClaims {
        entries,
        firsts,
        nexts,
    }))
}

// Whether the number whose first entry stands at this place stands at exactly these keys.
fn stands_at<const W: usize>(
    entries: &[(IndexKey<W>, u32)],
    nexts: &[u32],
    first: u32,
    keys: &[IndexKey<W>],
) -> bool
    requires { AreNexts entries.now nexts.now }
    ensures { (number : ℕ) → first ≡ place_from number 0 entries.now
        → (IsTrue result ↔ (keys_at number entries.now ≡ keys.now)) }
{
    let mut at = first as usize;
    for key in keys {
        if at >= entries.len() || !entries[at].0.is_same(key) {
            return false;
        }
        at = nexts[at] as usize;
    }
    at == entries.len()
}

// Whether the number at this place stands at exactly these keys.
pub(crate) fn has_keys<const W: usize>(
    claims: &KeyClaims<W>,
    place: usize,
    keys: &[IndexKey<W>],
) -> bool
    requires place { place < length claims.now.firsts.items }
    requires nexts { AreNexts claims.now.entries.items claims.now.nexts.items }
    ensures { let entries = claims.now.entries.items in
        let first = slice_index claims.now.firsts.items place in
        (number : ℕ) → first ≡ place_from number 0 entries
        → (IsTrue result ↔ (keys_at number entries ≡ keys.now)) }
{
    let first = claims.firsts[place];
    stands_at(&claims.entries, &claims.nexts, first, keys)
}
