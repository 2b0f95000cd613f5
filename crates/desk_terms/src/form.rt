// The forms of a list.

/// How a list is written.
#[derive(Clone, Copy, PartialEq, Eq)]
pub enum Form {
    /// A line for each row: its columns, with a space between two of them.
    Rows,
    /// JSON: an array with an object for each row, and a line feed.
    Json,
    /// CSV: a line of the names of the columns, and a record for each row.
    Csv,
}
