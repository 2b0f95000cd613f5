// Texts that have keys, and queries that look for them.
ghost use Rattle.std.specs.Prelude.{◌≡◌, ℕ, List, Bool, true, IfOk};
ghost use Rattle.index_keys.specs.KeyLists.{HasKeyWithin, KeysRise};

use crate::index_key::IndexKey;
use std::alloc::{AllocError, Global};

/// A kind of keys: which keys of `W` bytes a text has, and in which range of keys a query looks.
/// What a query finds is said by the test alone; keys only narrow down what is to be tested.
pub trait Keyed<const W: usize> {
    type Text;

    type Query;

    /// The keys of a text.
    ghost keys_of: { Self.Text → List ℕ };

    /// The first key of a query's range.
    ghost low_of: { Self.Query → ℕ };

    /// The last key of a query's range.
    ghost high_of: { Self.Query → ℕ };

    /// Whether a query finds a text.
    ghost matches: { Self.Query → Self.Text → Bool };

    /// The keys of a text, rising, each once.
    fn keys(alloc: Global, text: &Self::Text) -> Result<Vec<IndexKey<W>>, AllocError>
        ensures { IfOk result (λ keys. keys.items ≡ keys_of text.now) };

    /// The first and the last key of the range of a query.
    fn range(query: &Self::Query) -> (IndexKey<W>, IndexKey<W>)
        ensures low { result.0 ≡ low_of query.now }
        ensures high { result.1 ≡ high_of query.now };

    /// Whether the query finds the text.
    fn test(query: &Self::Query, text: &Self::Text) -> bool
        ensures { result ≡ matches query.now text.now };

    /// The keys of a text rise, each once.
    ghost rise: { (text : Self.Text) → KeysRise 0 (keys_of text) };

    /// Where a query finds a text, one of the text's keys lies in the query's range.
    ghost law: { (query : Self.Query) (text : Self.Text) → matches query text ≡ true
        → HasKeyWithin (keys_of text) (low_of query) (high_of query) };
}
