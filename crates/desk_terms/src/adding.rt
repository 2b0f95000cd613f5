// How books are taken in.

/// How books are taken in.
#[derive(Clone, Copy)]
pub struct Adding {
    /// Only tunes that are not there yet.
    pub only_new: bool,
    /// The good tunes of a book, where others of it are refused.
    pub good: bool,
    /// A book that is too long, by parts.
    pub split: bool,
    /// It is only tried, and nothing changes.
    pub dry: bool,
    /// Each line that goes into no tune is told.
    pub show_lost: bool,
    /// Directives between the tunes of a book go into the tunes behind them.
    pub carry: bool,
}
