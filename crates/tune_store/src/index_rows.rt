// Rows of tunes, as an index lists them.
ghost use Rattle.std.specs.Prelude.{◌≡◌, List};
ghost use Rattle.tune_store.specs.declared.index_rows.IndexRow.{IndexRow};

use abc_fields::ByteText;
use std::marker::Model;

/// A tune's number, and a title of it as an index shows it; none where it has no title.
#[derive(Debug, Drop)]
pub struct IndexRow {
    /// The number.
    pub number: u32,
    /// The title.
    pub title: Option<ByteText>,
}

/// Rows of tunes. A clause sees the list.
#[derive(Debug, Drop)]
pub struct RowList {
    rows: Vec<IndexRow>,
}

impl Model for RowList {
    ghost use Rattle.std.specs.Prelude.{List};
    ghost use Rattle.tune_store.specs.declared.index_rows.IndexRow.{IndexRow};

    ghost Value = { List IndexRow };

    ghost view = { λ list. list.rows.items };
}

impl RowList {
    // The rows of a vector.
    pub(crate) fn from_vec(rows: Vec<IndexRow>) -> RowList
        ensures { result ≡ rows.items }
    {
        RowList { rows }
    }

    /// The rows, from the first on.
    pub fn as_slice(&self) -> &[IndexRow]
        ensures { result.now ≡ self.now }
    {
        self.rows.as_slice()
    }
}
