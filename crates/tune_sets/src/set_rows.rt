// The names of sets, and how many places each has.
ghost use Rattle.std.specs.Prelude.{◌≡◌, ◌++◌, List, length, OnOk};
ghost use Rattle.tune_sets.specs.Calls.{set_rows_of};
ghost use Rattle.tune_sets.specs.declared.set_rows.SetRow.{SetRow};

use crate::names::SetName;
use crate::set_lists::TuneSet;
use std::alloc::AllocError;
use std::marker::Model;

/// A set's name, and how many places it has.
#[derive(Clone, Copy, Debug, PartialEq, Eq)]
pub struct SetRow {
    /// The name.
    pub name: SetName,
    /// How many places the set has.
    pub places: usize,
}

/// A row for each set. A clause sees the list.
#[derive(Debug, Drop)]
pub struct SetRowList {
    rows: Vec<SetRow>,
}

impl Model for SetRowList {
    ghost use Rattle.std.specs.Prelude.{List};
    ghost use Rattle.tune_sets.specs.declared.set_rows.SetRow.{SetRow};

    ghost Value = { List SetRow };

    ghost view = { λ list. list.rows.items };
}

impl SetRowList {
    // The rows of a vector.
    pub(crate) fn from_vec(rows: Vec<SetRow>) -> SetRowList
        ensures { result ≡ rows.items }
    {
        SetRowList { rows }
    }

    /// The rows, by name.
    pub fn as_slice(&self) -> &[SetRow]
        ensures { result.now ≡ self.now }
    {
        self.rows.as_slice()
    }
}

// Puts a row for each set behind these rows.
pub(crate) fn push_rows(rows: &mut Vec<SetRow>, sets: &[TuneSet]) -> Result<(), AllocError>
    ensures { OnOk result (rows.new.items ≡ rows.old.items ++ set_rows_of sets.now) }
{
    for set in sets {
        let row = SetRow {
            name: set.name,
            places: set.numbers.len(),
        };
        rows.push(row)?;
    }
    Ok(())
}
