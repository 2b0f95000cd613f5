// What tunes are found by.

/// What a tune is found by.
#[derive(Drop)]
pub enum Condition {
    /// One of its titles begins so, articles, capitals and accents aside.
    Title(String),
    /// In one of its titles each of these words stands, capitals and accents aside.
    Within(Vec<String>),
    /// Its rhythm is this, capitals aside.
    Rhythm(String),
    /// It is in the scale of this key.
    Key(String),
    /// Its opening: the notes as they are printed in one of the fifteen signatures, or in this key.
    Notes { notes: String, key: Option<String> },
}
