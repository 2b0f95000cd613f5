// The titles of tunes in order, as an index shows them.
ghost use Rattle.std.specs.Prelude.{◌≡◌, List, map, IfOk, OnOk, OnErr};
ghost use Rattle.tune_titles.specs.Order.{PlacedTitle, row_order, in_order};
ghost use Rattle.tune_titles.specs.ShownRows.{shown_row, shown_order};

use crate::articles::rest_of;
use crate::fronts::{front_of, order_by_fronts};
use crate::shown::index_title;
use abc_fields::{ByteText, trim_blanks};
use std::alloc::{AllocError, Global};
use std::cmp::Ordering;
use std::marker::Model;

/// A row of an index of titles as the index shows it: the text that it shows, in memory of its own,
/// the number of the tune, and the place among the titles of that tune. A clause sees these, and
/// by what the title is sorted.
#[derive(Debug, Drop)]
pub struct ShownRow {
    shown: ByteText,
    // How many bytes of that text the title is sorted by.
    rest: usize,
    front: u128,
    number: u32,
    place: u8,
}

impl Model for ShownRow {
    ghost use Rattle.std.specs.Prelude.{◌≡◌, ◌≤◌, length, take};
    ghost use Rattle.index_keys.specs.Cuts.{cut_number};
    ghost use Rattle.tune_titles.specs.Articles.{small_letters};
    ghost use Rattle.tune_titles.specs.ShownRows.{Shown};

    ghost Value = { Shown };

    ghost view = { λ row. record {
      sorting = small_letters (take row.rest row.shown);
      title = row.shown;
      number = row.number;
      place = row.place;
    } };

    ghost invariant = { λ row. (row.rest ≤ length row.shown)
        × (row.front ≡ cut_number 16 0 (small_letters (take row.rest row.shown))) };
}

impl ShownRow {
    /// The row of a title of a tune. Its only error is out of memory.
    pub fn new(alloc: Global, title: &[u8], number: u32, place: u8) -> Result<ShownRow, AllocError>
        ensures { IfOk result (λ row.
            row ≡ shown_row (record { title = title.now; number = number; place = place })) }
    {
        let rest = rest_of(trim_blanks(title));
        Ok(ShownRow {
            shown: index_title(alloc, title)?,
            rest: rest.len(),
            front: front_of(rest),
            number,
            place,
        })
    }

    /// The number of its tune.
    pub fn number(&self) -> u32
        ensures { result ≡ self.now.number }
    {
        self.number
    }

    /// The text that the index shows. It takes no memory.
    pub fn into_title(self) -> ByteText
        ensures { result ≡ self.title }
    {
        self.shown
    }

    // Which of two rows comes first.
    fn order(&self, other: &ShownRow) -> Ordering
        ensures { result ≡ shown_order self.now other.now }
    {
        let rest = &self.shown.as_slice()[..self.rest];
        let other_rest = &other.shown.as_slice()[..other.rest];
        match order_by_fronts(self.front, rest, other.front, other_rest) {
            Ordering::Equal => match self.number.cmp(&other.number) {
                Ordering::Equal => self.place.cmp(&other.place),
                unequal => unequal,
            },
            unequal => unequal,
        }
    }
}

/// Puts the rows of titles in the order of an index, as `sort_rows` puts these titles. Its only
/// error is out of memory, and the rows then stay as they were.
pub fn sort_shown(rows: &mut Vec<ShownRow>) -> Result<(), AllocError>
    ensures ok { OnOk result ((titles : List PlacedTitle) → rows.old.items ≡ map shown_row titles
        → rows.new.items ≡ map shown_row (in_order row_order titles)) }
    ensures err { OnErr result (rows.new.items ≡ rows.old.items) }
{
    rows.sort_by(|row, other| row.order(other))
}
