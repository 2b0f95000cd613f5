// The titles of tunes in order.
ghost use Rattle.std.specs.Prelude.{◌≡◌, OnOk, OnErr};
ghost use Rattle.tune_titles.specs.Order.{row_order, in_order, LawOfOrder};

use crate::articles::rest_of;
use crate::fronts::{front_of, order_by_fronts};
use abc_fields::trim_blanks;
use std::alloc::AllocError;
use std::cmp::Ordering;
use std::marker::Model;

/// A row of an index of titles: a title, the number of its tune, and its place among the titles of
/// that tune, from 1. A clause sees these three.
#[derive(Debug, Drop)]
pub struct TitleRow<'a> {
    title: &'a [u8],
    rest: &'a [u8],
    front: u128,
    number: u32,
    place: u8,
}

impl<'a> Model for TitleRow<'a> {
    ghost use Rattle.std.specs.Prelude.{◌≡◌};
    ghost use Rattle.abc_fields.specs.Words.{trimmed};
    ghost use Rattle.index_keys.specs.Cuts.{cut_number};
    ghost use Rattle.tune_titles.specs.Articles.{title_rest};
    ghost use Rattle.tune_titles.specs.Order.{PlacedTitle};
    ghost use Rattle.tune_titles.specs.Titles.{sorting_title};

    ghost Value = { PlacedTitle };

    ghost view = { λ row. record {
      title = row.title.now;
      number = row.number;
      place = row.place;
    } };

    ghost invariant = { λ row. (row.rest.now ≡ title_rest (trimmed row.title.now))
        × (row.front ≡ cut_number 16 0 (sorting_title row.title.now)) };
}

impl<'a> TitleRow<'a> {
    /// A row.
    pub fn new(title: &'a [u8], number: u32, place: u8) -> TitleRow<'a>
        ensures { result ≡ record { title = title.now; number = number; place = place } }
    {
        let rest = rest_of(trim_blanks(title));
        TitleRow {
            title,
            rest,
            front: front_of(rest),
            number,
            place,
        }
    }

    /// The title, as it was passed.
    pub fn title(&self) -> &'a [u8]
        ensures { result.now ≡ self.now.title }
    {
        self.title
    }

    /// The number of its tune.
    pub fn number(&self) -> u32
        ensures { result ≡ self.now.number }
    {
        self.number
    }

    /// Its place among the titles of that tune.
    pub fn place(&self) -> u8
        ensures { result ≡ self.now.place }
    {
        self.place
    }

    // Which of two rows comes first.
    fn order(&self, other: &TitleRow) -> Ordering
        ensures { result ≡ row_order self.now other.now }
    {
        match order_by_fronts(self.front, self.rest, other.front, other.rest) {
            Ordering::Equal => match self.number.cmp(&other.number) {
                Ordering::Equal => self.place.cmp(&other.place),
                unequal => unequal,
            },
            unequal => unequal,
        }
    }
}

/// Puts rows in the order of an index: by sorting title in byte order, then by number, then by
/// place (this archive's profile). Its only error is out of memory, and the rows then stay as they
/// were.
///
/// The law of that order stands beside it: no row comes before one above it, and rows that differ
/// in one of the three have no other such order.
pub fn sort_rows(rows: &mut Vec<TitleRow>) -> Result<(), AllocError>
    ensures ok { OnOk result (rows.new.items ≡ in_order row_order rows.old.items) }
    ensures err { OnErr result (rows.new.items ≡ rows.old.items) }
    ensures law { LawOfOrder rows.old.items }
{
    rows.sort_by(|row, other| row.order(other))
}
