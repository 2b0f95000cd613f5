// What an opening compares: the entries of the search indexes are those of the tunes.
ghost use Rattle.std.specs.Prelude.{◌≡◌, ◌↔◌, ◌^◌, ◌<◌, ℕ, List, [], ◌∷◌, length, map};
ghost use Rattle.std.specs.Prelude.{slice_index, Contains, IfOk, IfSome, IsTrue, None};
ghost use Rattle.std.specs.List.{AllByRecursion};
ghost use Rattle.std.specs.List.Sorted.{IsStrictlyIncreasing};
ghost use Rattle.index_keys.specs.Groups.{grouped_entries};
ghost use Rattle.index_keys.specs.Holdings.{keys_at};
ghost use Rattle.index_keys.specs.KeyLists.{rising_keys};
ghost use Rattle.tune_titles.specs.TitleAndRhythmKeys.{title_keys_of};
ghost use Rattle.tune_search.specs.Inside.EntryLinks.{AreNexts, place_from};
ghost use Rattle.tune_search.specs.SearchClaims.{AreAllKnown, HoldByNumber, StandsAtKeys, runs_of};
ghost use Rattle.tune_search.specs.IncipitForms.{entries_held, notes_held};
ghost use Rattle.tune_search.specs.Searches.{SearchRuns};

use crate::group_claims::{GroupClaims, group_claims_of, has_group};
use crate::held_entries::HeldEntries;
use crate::incipit_claims::{IncipitClaims, has_incipit, incipit_claims_of};
use crate::key_claims::{KeyClaims, claims_of, has_keys};
use abc_fields::{Fields, Titles, TuneText, read_fields};
use index_keys::{GroupedEntries, IndexKey};
use std::alloc::{AllocError, Global};
use std::cmp::Ordering;
use std::marker::Model;
use tune_incipit::key_of_scale;
use tune_titles::{key_of_rhythm, key_of_title, row_of_title_keys};

/// The entries of the four search indexes as an opening compares them with the tunes, one tune
/// after another. A clause sees the numbers of the tunes and the entries of each index.
///
/// Beside these it takes in the index of titles four bytes for each entry and four for each tune,
/// in that of rhythms and in that of scales five for each tune, and in that of incipits a held
/// key and a byte for each tune.
#[derive(Drop)]
pub struct SearchClaims {
    // clauses tell the tunes by it; once the entries are linked no call reads it
    numbers: Vec<u32>,
    titles: KeyClaims<32>,
    rhythms: GroupClaims<32>,
    scales: GroupClaims<32>,
    incipits: IncipitClaims,
}

impl Model for SearchClaims {
    ghost use Rattle.index_keys.specs.Groups.{grouped_entries};
    ghost use Rattle.tune_search.specs.SearchClaims.{ClaimShape};
    ghost use Rattle.tune_search.specs.Inside.EntryLinks.{AreLinked};
    ghost use Rattle.tune_search.specs.Inside.HeldKeys.{AreKeysHeld, AreHeldInGroups};
    ghost use Rattle.tune_search.specs.Inside.IncipitLinks.{entries_claimed, counts_claimed};
    ghost use Rattle.tune_search.specs.Inside.IncipitLinks.{keys_claimed, notes_of_claims};

    ghost Value = { ClaimShape };

    ghost view = { λ claims. record {
      numbers = claims.numbers.items;
      runs = record {
        notes = notes_of_claims claims.incipits;
        titles = claims.titles.entries.items;
        rhythms = grouped_entries claims.rhythms.entries;
        scales = grouped_entries claims.scales.entries;
        incipits = entries_claimed claims.incipits;
      };
    } };

    ghost invariant = { λ claims.
        AreLinked claims.numbers.items claims.titles.entries.items
        claims.titles.firsts.items claims.titles.nexts.items
        × AreHeldInGroups claims.numbers.items claims.rhythms.entries
        claims.rhythms.counts.items claims.rhythms.ids.items
        × AreHeldInGroups claims.numbers.items claims.scales.entries
        claims.scales.counts.items claims.scales.ids.items
        × AreKeysHeld claims.numbers.items (entries_claimed claims.incipits)
        (counts_claimed claims.incipits) (keys_claimed claims.incipits) };
}

impl SearchClaims {
    /// The entries of the four indexes, made ready to be compared with the tunes of these numbers,
    /// which rise; `None` exactly where the number of some entry is none of them. An index has
    /// fewer than 2^32 entries. The place of a tune is that of its number, from 0.
    ///
    /// # Errors
    ///
    /// There is no memory.
    pub fn new(
        alloc: Global,
        numbers: Vec<u32>,
        titles: Vec<(IndexKey<32>, u32)>,
        rhythms: GroupedEntries<32>,
        scales: GroupedEntries<32>,
        incipits: HeldEntries,
    ) -> Result<Option<SearchClaims>, AllocError>
        requires rising { IsStrictlyIncreasing numbers.items }
        requires titles { length titles.items < 2 ^ 32 }
        requires rhythms { length (grouped_entries rhythms) < 2 ^ 32 }
        requires scales { length (grouped_entries scales) < 2 ^ 32 }
        requires incipits { length (entries_held incipits) < 2 ^ 32 }
        ensures numbers { IfOk result (λ made. IfSome made (λ claims.
            claims.numbers ≡ numbers.items)) }
        ensures runs { IfOk result (λ made. IfSome made (λ claims. claims.runs
            ≡ runs_of (notes_held incipits) titles.items (grouped_entries rhythms)
            (grouped_entries scales) (entries_held incipits))) }
        ensures known { IfOk result (λ made. IfSome made (λ _. AreAllKnown numbers.items
            (runs_of (notes_held incipits) titles.items (grouped_entries rhythms)
            (grouped_entries scales) (entries_held incipits)))) }
        ensures unknown { IfOk result (λ made. made ≡ None → AreAllKnown numbers.items
            (runs_of (notes_held incipits) titles.items (grouped_entries rhythms)
            (grouped_entries scales) (entries_held incipits)) → ⊥) }
    {
        // The longest list comes first, so that it finds room where entries of others were let go.
        let Some(incipits) = incipit_claims_of(alloc, &numbers, incipits)? else {
            return Ok(None);
        };
        let Some(titles) = claims_of(alloc, &numbers, titles)? else {
            return Ok(None);
        };
        let Some(rhythms) = group_claims_of(alloc, &numbers, rhythms)? else {
            return Ok(None);
        };
        let Some(scales) = group_claims_of(alloc, &numbers, scales)? else {
            return Ok(None);
        };
        Ok(Some(SearchClaims {
            numbers,
            titles,
            rhythms,
            scales,
            incipits,
        }))
    }

    /// Whether the number at this place stands at exactly the keys of the text, in each of the four
    /// indexes. It compares the keys of the text and the entries of the number alone.
    pub fn claim_tune(&self, place: usize, text: &TuneText) -> bool
        requires { place < length self.now.numbers }
        ensures { IsTrue result
            ↔ StandsAtKeys self.now.runs (slice_index self.now.numbers place) text.now }
    {
        let mut fields = Fields::new();
        read_fields(text, &mut fields);
        has_titles(&self.titles, place, &fields.titles)
            && has_group(&self.rhythms, place, key_of_rhythm(fields.rhythm))
            && has_group(&self.scales, place, key_of_scale(fields.key))
            && has_incipit(&self.incipits, place, text)
    }
}

// Whether the number at this place stands at exactly the keys of these titles. Most tunes have one
// title or two, whose keys need no row.
#[inline(always)]
fn has_titles(claims: &KeyClaims<32>, place: usize, titles: &Titles) -> bool
    requires place { place < length claims.now.firsts.items }
    requires nexts { AreNexts claims.now.entries.items claims.now.nexts.items }
    ensures { let entries = claims.now.entries.items in
        let first = slice_index claims.now.firsts.items place in
        (number : ℕ) → first ≡ place_from number 0 entries
        → (IsTrue result ↔ (keys_at number entries ≡ title_keys_of titles.now)) }
{
    match titles.as_slice() {
        [one] => has_keys(claims, place, &[key_of_title(one)]),
        [one, other] => has_pair(claims, place, key_of_title(one), key_of_title(other)),
        _ => has_row(claims, place, titles),
    }
}

// The same of any number of titles. A row is large, so only the call that needs it makes room.
#[inline(never)]
fn has_row(claims: &KeyClaims<32>, place: usize, titles: &Titles) -> bool
    requires place { place < length claims.now.firsts.items }
    requires nexts { AreNexts claims.now.entries.items claims.now.nexts.items }
    ensures { let entries = claims.now.entries.items in
        let first = slice_index claims.now.firsts.items place in
        (number : ℕ) → first ≡ place_from number 0 entries
        → (IsTrue result ↔ (keys_at number entries ≡ title_keys_of titles.now)) }
{
    has_keys(claims, place, row_of_title_keys(titles).as_slice())
}

// Whether the number at this place stands at exactly these two keys, which may be the same.
#[inline(always)]
fn has_pair(claims: &KeyClaims<32>, place: usize, one: IndexKey<32>, other: IndexKey<32>) -> bool
    requires place { place < length claims.now.firsts.items }
    requires nexts { AreNexts claims.now.entries.items claims.now.nexts.items }
    ensures { let entries = claims.now.entries.items in
        let first = slice_index claims.now.firsts.items place in
        (number : ℕ) → first ≡ place_from number 0 entries
        → (IsTrue result ↔ (keys_at number entries ≡ rising_keys (one ∷ other ∷ []))) }
{
    match one.compare(0, &other, 0) {
        Ordering::Less => has_keys(claims, place, &[one, other]),
        Ordering::Equal => has_keys(claims, place, &[one]),
        Ordering::Greater => has_keys(claims, place, &[other, one]),
    }
}

/// What the answers of an opening's comparison say of the entries of the four indexes.
///
/// - `all`: where each tune was claimed, and each entry's number is that of a tune, the entries are
///   those of the tunes, seen tune by tune.
/// - `known`, `each`: where the entries are those of the tunes, each entry's number is that of a
///   tune, and each tune is claimed.
pub fn law_of_claims()
    ensures all { (runs : SearchRuns) (tunes : List (ℕ × List ℕ))
        → AreAllKnown (map (λ tune. tune.0) tunes) runs
        → AllByRecursion (λ tune. StandsAtKeys runs tune.0 tune.1) tunes
        → HoldByNumber tunes runs }
    ensures known { (runs : SearchRuns) (tunes : List (ℕ × List ℕ)) → HoldByNumber tunes runs
        → AreAllKnown (map (λ tune. tune.0) tunes) runs }
    ensures each { (runs : SearchRuns) (tunes : List (ℕ × List ℕ)) → HoldByNumber tunes runs
        → (tune : ℕ × List ℕ) → Contains tunes tune → StandsAtKeys runs tune.0 tune.1 }
{}
