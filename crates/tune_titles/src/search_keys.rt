// The keys by which titles and rhythms are found in an index.
ghost use Rattle.std.specs.Prelude.{◌≡◌, IfOk, option_copied};
ghost use Rattle.std.specs.Option.{option_to_list};
ghost use Rattle.index_keys.specs.Cuts.{cut_number};
ghost use Rattle.tune_titles.specs.Articles.{small_letters};
ghost use Rattle.tune_titles.specs.TitleAndRhythmKeys.{rhythm_keys_of, title_keys_of};
ghost use Rattle.tune_titles.specs.Titles.{sorting_title};

use crate::articles::rest_of;
use crate::matching::{TitlePrefix, rhythm_matches};
use abc_fields::{MOST_TITLES, Titles, TuneText, fields, trim_blanks};
use arrayvec::ArrayVec;
use index_keys::{IndexKey, Keyed, add_key};
use std::alloc::{AllocError, Global};
use std::marker::PhantomData;

/// The titles of a tune, each by the first 32 bytes of its sorting title (this archive's profile).
/// It has no values.
pub struct TitleKeys<'a> {
    query: PhantomData<&'a ()>,
}

/// The rhythm of a tune, by its first 32 bytes in small letters (this archive's profile). It has no
/// values.
pub struct RhythmKeys<'a> {
    query: PhantomData<&'a ()>,
}

impl<'a> Keyed<32> for TitleKeys<'a> {
    ghost use Rattle.std.specs.Prelude.{map};
    ghost use Rattle.abc_fields.specs.Fields.{titles_of};
    ghost use Rattle.index_keys.specs.Cuts.{cut_number};
    ghost use Rattle.index_keys.proofs.FoundKeys.{begun_found};
    ghost use Rattle.index_keys.proofs.KeyOrder.{keys_rise};
    ghost use Rattle.tune_titles.specs.TitleAndRhythmKeys.{title_keys};
    ghost use Rattle.tune_titles.specs.Titles.{finds_title, sorting_title};

    type Text = TuneText;

    type Query = TitlePrefix<'a>;

    ghost keys_of = { title_keys };

    ghost low_of = { λ query. cut_number 32 0 query };

    ghost high_of = { λ query. cut_number 32 255 query };

    ghost matches = { λ query text. finds_title query text };

    ghost rise = { λ text. keys_rise
        (map (λ title. cut_number 32 0 (sorting_title title)) (titles_of text)) };

    ghost law = { λ query text is. begun_found 32 sorting_title query (titles_of text) is };

    fn keys(alloc: Global, text: &TuneText) -> Result<Vec<IndexKey<32>>, AllocError>
        ensures { IfOk result (λ keys. keys.items ≡ title_keys text.now) }
    {
        Vec::from_slice(alloc, row_of_title_keys(&fields(text).titles).as_slice())
    }

    fn range(query: &TitlePrefix<'a>) -> (IndexKey<32>, IndexKey<32>)
        ensures low { result.0 ≡ cut_number 32 0 query.now }
        ensures high { result.1 ≡ cut_number 32 255 query.now }
    {
        (query.key(0), query.key(255))
    }

    fn test(query: &TitlePrefix<'a>, text: &TuneText) -> bool {
        query.matches_tune(text)
    }
}

impl<'a> Keyed<32> for RhythmKeys<'a> {
    ghost use Rattle.std.specs.Prelude.{◌≡◌, false, true, Some, None};
    ghost use Rattle.std.proofs.Common.{sym};
    ghost use Rattle.std.proofs.lemmas.Bool.{true≢false};
    ghost use Rattle.std.specs.Option.{option_map_or};
    ghost use Rattle.abc_fields.specs.Fields.{rhythm_of};
    ghost use Rattle.index_keys.specs.Cuts.{cut_number};
    ghost use Rattle.index_keys.specs.KeyLists.{KeysRise, HasKeyWithin};
    ghost use Rattle.index_keys.proofs.FoundKeys.{one_rises, same_found};
    ghost use Rattle.tune_titles.specs.Articles.{small_letters};
    ghost use Rattle.tune_titles.specs.TitleAndRhythmKeys.{rhythm_keys, rhythm_keys_of};
    ghost use Rattle.tune_titles.specs.Titles.{finds_rhythm, same_rhythm};

    type Text = TuneText;

    type Query = &'a [u8];

    ghost keys_of = { rhythm_keys };

    ghost low_of = { λ query. cut_number 32 0 (small_letters query.now) };

    ghost high_of = { λ query. cut_number 32 255 (small_letters query.now) };

    ghost matches = { λ query text. finds_rhythm query.now text };

    ghost rise = { λ text. elim (rhythm_of text) as (λ own. KeysRise 0 (rhythm_keys_of own)) [
      | None ↦ tt
      | Some own ↦ one_rises (cut_number 32 0 (small_letters own))
    ] };

    ghost law = { λ query text. elim (rhythm_of text)
        as (λ own. option_map_or (same_rhythm query.now) own false ≡ true
        → HasKeyWithin (rhythm_keys_of own) (cut_number 32 0 (small_letters query.now))
        (cut_number 32 255 (small_letters query.now))) [
          | None ↦ λ is. absurd (true≢false (sym is))
          | Some own ↦ λ is. same_found 32 (small_letters query.now) (small_letters own) is
        ] };

    fn keys(alloc: Global, text: &TuneText) -> Result<Vec<IndexKey<32>>, AllocError>
        ensures { IfOk result (λ keys. keys.items ≡ rhythm_keys text.now) }
    {
        Vec::from_slice(alloc, key_of_rhythm(fields(text).rhythm).as_slice())
    }

    fn range(query: &&'a [u8]) -> (IndexKey<32>, IndexKey<32>)
        ensures low { result.0 ≡ cut_number 32 0 (small_letters query.now.now) }
        ensures high { result.1 ≡ cut_number 32 255 (small_letters query.now.now) }
    {
        (
            IndexKey::cut_small(query, 0),
            IndexKey::cut_small(query, 255),
        )
    }

    fn test(query: &&'a [u8], text: &TuneText) -> bool {
        rhythm_matches(query, text)
    }
}

/// The key of a tune by one of its titles.
#[inline(always)]
pub fn key_of_title(title: &[u8]) -> IndexKey<32>
    ensures { result ≡ cut_number 32 0 (sorting_title title.now) }
{
    IndexKey::cut_small(rest_of(trim_blanks(title)), 0)
}

/// The keys of a tune that has these titles, rising, each once.
pub fn row_of_title_keys(titles: &Titles) -> ArrayVec<IndexKey<32>, MOST_TITLES>
    ensures { result.items ≡ title_keys_of titles.now }
{
    let mut keys = ArrayVec::new();
    let mut left = titles.len();
    let titles = titles.as_slice();
    while left > 0 {
        left -= 1;
        add_key(&mut keys, key_of_title(titles[left]));
    }
    keys
}

/// The key of a tune that has this rhythm, where it has one.
#[inline(always)]
pub fn key_of_rhythm(rhythm: Option<&[u8]>) -> Option<IndexKey<32>>
    ensures { option_to_list result ≡ rhythm_keys_of (option_copied rhythm.entry) }
{
    match rhythm {
        Some(rhythm) => Some(IndexKey::cut_small(rhythm, 0)),
        None => None,
    }
}
