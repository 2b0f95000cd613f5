// Which titles and rhythms a query finds. Nothing here takes memory.
ghost use Rattle.std.specs.Prelude.{◌≡◌, false};
ghost use Rattle.std.specs.List.{list_any};
ghost use Rattle.std.specs.Option.{option_map_or};
ghost use Rattle.abc_fields.specs.Bytes.{begins_with};
ghost use Rattle.abc_fields.specs.Fields.{titles_of, rhythm_of};
ghost use Rattle.index_keys.specs.Cuts.{cut_number};
ghost use Rattle.tune_titles.specs.Articles.{small_letters};
ghost use Rattle.tune_titles.specs.Titles.{sorting_title, title_matches, same_rhythm};

use crate::articles::rest_of;
use abc_fields::{TuneText, fields, trim_blanks};
use index_keys::IndexKey;
use std::marker::Model;

/// A query for titles, made ready once: it finds the titles whose sorting titles begin with its
/// own. A clause sees the sorting title of the query.
#[derive(Debug, Drop)]
pub struct TitlePrefix<'a> {
    rest: &'a [u8],
}

impl<'a> Model for TitlePrefix<'a> {
    ghost use Rattle.std.specs.Prelude.{ℕ, List};
    ghost use Rattle.tune_titles.specs.Articles.{small_letters};

    ghost Value = { List ℕ };

    ghost view = { λ prefix. small_letters prefix.rest.now };
}

impl<'a> TitlePrefix<'a> {
    /// The query made ready. Blanks at its ends and its article do not matter.
    pub fn of(query: &'a [u8]) -> TitlePrefix<'a>
        ensures { result ≡ sorting_title query.now }
    {
        TitlePrefix {
            rest: rest_of(trim_blanks(query)),
        }
    }

    // Its first 32 bytes, filled up with one byte.
    pub(crate) fn key(&self, fill: u8) -> IndexKey<32>
        ensures { result ≡ cut_number 32 fill self.now }
    {
        IndexKey::cut_small(self.rest, fill)
    }

    /// Whether the sorting title of this title begins with that of the query.
    pub fn matches(&self, title: &[u8]) -> bool
        ensures { result ≡ begins_with (sorting_title title.now) self.now }
    {
        is_small_prefix(self.rest, rest_of(trim_blanks(title)))
    }

    /// Whether it matches one of the titles of the tune.
    pub fn matches_tune(&self, text: &TuneText) -> bool
        ensures { result
            ≡ list_any (λ title. begins_with (sorting_title title) self.now) (titles_of text.now) }
    {
        for title in fields(text).titles.as_slice() {
            if self.matches(title) {
                return true;
            }
        }
        false
    }
}

/// Whether the sorting title of the title begins with that of the query (this archive's profile).
pub fn prefix_matches(query: &[u8], title: &[u8]) -> bool
    ensures { result ≡ title_matches query.now title.now }
{
    TitlePrefix::of(query).matches(title)
}

/// Whether the query matches one of the titles of the tune (this archive's profile).
pub fn title_matches_tune(query: &[u8], text: &TuneText) -> bool
    ensures { result ≡ list_any (title_matches query.now) (titles_of text.now) }
{
    TitlePrefix::of(query).matches_tune(text)
}

/// Whether the query is the rhythm of the tune, but for capitals; a tune without a rhythm matches
/// none (this archive's profile).
pub fn rhythm_matches(query: &[u8], text: &TuneText) -> bool
    ensures { result ≡ option_map_or (same_rhythm query.now) (rhythm_of text.now) false }
{
    match fields(text).rhythm {
        Some(rhythm) => rhythm.eq_ignore_ascii_case(query),
        None => false,
    }
}

// Whether a text begins with another, but for capitals.
fn is_small_prefix(front: &[u8], text: &[u8]) -> bool
    ensures { result ≡ begins_with (small_letters text.now) (small_letters front.now) }
{
    if text.len() < front.len() {
        return false;
    }
    text[..front.len()].eq_ignore_ascii_case(front)
}
