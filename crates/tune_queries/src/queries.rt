// Queries as they are asked.
ghost use Rattle.std.specs.Prelude.{◌≡◌, ◌≤◌, ◌↔◌, length, IsSome, IfSome};
ghost use Rattle.tune_queries.specs.Limits.{longest_query};

use abc_fields::ByteText;
use std::marker::Model;

/// How many bytes the text of a query has at most (this archive's profile). A script line is far
/// shorter.
pub const LONGEST_QUERY: usize = 4_000_000;

/// The text of a query: at most `LONGEST_QUERY` bytes, of any kind. A clause sees the list of its
/// bytes.
#[derive(Debug, Drop)]
pub struct QueryText {
    text: ByteText,
}

impl Model for QueryText {
    ghost use Rattle.std.specs.Prelude.{ℕ, ◌≤◌, List, length};
    ghost use Rattle.tune_queries.specs.Limits.{longest_query};

    ghost Value = { List ℕ };

    ghost view = { λ query. query.text };

    ghost invariant = { λ query. length query.text ≤ longest_query };
}

impl QueryText {
    /// The text as that of a query, unless it is too long. It takes no memory.
    pub fn new(text: ByteText) -> Option<QueryText>
        ensures value { IfSome result (λ query. query ≡ text) }
        ensures fits { IsSome result ↔ length text ≤ longest_query }
    {
        if text.as_slice().len() <= LONGEST_QUERY {
            Some(QueryText { text })
        } else {
            None
        }
    }

    /// The bytes of the text.
    pub fn bytes(&self) -> &[u8]
        ensures value { result.now ≡ self.now }
        ensures short { length self.now ≤ longest_query }
    {
        self.text.as_slice()
    }
}

/// What is asked for. The text is not a field's value: only that of a query for notes is cut at a
/// comment (this archive's profile).
#[derive(Debug, Drop)]
pub enum Query {
    /// Tunes with a title whose sorting title begins with that of the text.
    Title(QueryText),
    /// Tunes whose rhythm is the text, but for capitals.
    Rhythm(QueryText),
    /// Tunes in the same scale (tonic, sign and mode) as the key that the text says.
    Key(QueryText),
    /// Tunes whose incipit begins with that of the text, a music line in C.
    Notes(QueryText),
}
