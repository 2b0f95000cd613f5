// Which tunes are there twice.
ghost use Rattle.std.specs.Prelude.{◌≡◌, ◌++◌, ◌∷◌, [], List, IfOk, OnOk, option_map};
ghost use Rattle.std.specs.Prelude.{if◌then◌else◌, false, None, Some};
ghost use Rattle.std.specs.BTreeMap.{get};
ghost use Rattle.std.specs.Option.{option_map_or, option_or};
ghost use Rattle.std.specs.Ordering.{is_eq};
ghost use Rattle.tune_incipit.specs.Incipits.{incipit_of, tune_notes};
ghost use Rattle.desk_questions.specs.SameTunes.{rows_under, titled_opening, twins};
ghost use Rattle.desk_questions.specs.Inside.SeenTunes.{HasSeen, as_opening};

use crate::told_rows::row_of;
use abc_fields::{ByteText, TuneText};
use desk_lists::{Alike, TwinRow, fold_title};
use std::alloc::{AllocError, Global};
use std::collections::BTreeMap;
use tune_incipit::steps;
use tune_store::{IndexRow, Tune};

// Between how many notes, at most, the steps of an opening are.
const OPENING_NOTES: usize = 12;

// The steps of an opening, and a title without accents and capitals.
type TitledOpening = (Vec<i32>, String);

// What is known of tunes that were seen: the first number at each text and at each opening, and the
// rows of those that are there twice.
#[derive(Drop)]
pub(crate) struct SeenTunes {
    texts: BTreeMap<Vec<u8>, u32>,
    openings: BTreeMap<TitledOpening, u32>,
    rows: Vec<TwinRow>,
}

impl SeenTunes {
    // No tunes yet.
    pub(crate) fn new(alloc: Global) -> SeenTunes
        ensures { HasSeen [] result }
    {
        SeenTunes {
            texts: BTreeMap::new(alloc),
            openings: BTreeMap::new(alloc),
            rows: Vec::new(alloc),
        }
    }

    // Takes one tune more, and keeps its text.
    pub(crate) fn add(&mut self, alloc: Global, tune: Tune) -> Result<(), AllocError>
        ensures { (tunes : List Tune) → HasSeen tunes self.old
            → OnOk result (HasSeen (tunes ++ tune ∷ []) self.new) }
    {
        let number = tune.number;
        let row = row_of(alloc, &tune)?;
        let opening = opening_of(alloc, &tune.text, &row.title)?;
        let by_text = first_at(&mut self.texts, tune.text.into_vec(), number)?;
        let by_opening = first_at_some(&mut self.openings, opening, number)?;
        put_row(&mut self.rows, row, by_text, by_opening)
    }

    // The rows of those that are there twice.
    pub(crate) fn into_rows(self) -> Vec<TwinRow>
        ensures { (tunes : List Tune) → HasSeen tunes self → result.items ≡ twins tunes }
    {
        self.rows
    }
}

// The opening of a text with this title, where it has one.
fn opening_of(
    alloc: Global,
    text: &TuneText,
    title: &Option<ByteText>,
) -> Result<Option<TitledOpening>, AllocError>
    ensures { IfOk result (λ opening. option_map as_opening opening
        ≡ titled_opening (incipit_of 12 (tune_notes text.now)) title.now) }
{
    let steps = steps(text, OPENING_NOTES);
    match (steps.as_slice(), title) {
        ([], _) => Ok(None),
        (_, None) => Ok(None),
        (steps, Some(title)) => {
            let title = fold_title(alloc, title.as_slice())?;
            Ok(Some((Vec::from_slice(alloc, steps)?, title)))
        }
    }
}

// Puts the row of a tune under the tune of the same text, or else under that of the same opening.
fn put_row(
    rows: &mut Vec<TwinRow>,
    row: IndexRow,
    by_text: Option<u32>,
    by_opening: Option<u32>,
) -> Result<(), AllocError>
    ensures { OnOk result (rows.new.items ≡ rows.old.items ++ rows_under row by_text by_opening) }
{
    let (twin, alike) = match (by_text, by_opening) {
        (Some(twin), _) => (twin, Alike::Text),
        (None, Some(twin)) => (twin, Alike::Opening),
        (None, None) => return Ok(()),
    };
    rows.push(TwinRow {
        number: row.number,
        twin,
        alike,
        title: row.title,
    })?;
    Ok(())
}

// The number at a key. Where there is none yet, this one is put there.
fn first_at<K: Ord + Drop>(
    numbers: &mut BTreeMap<K, u32>,
    key: K,
    number: u32,
) -> Result<Option<u32>, AllocError>
    ensures first { IfOk result (λ first. first ≡ get K.cmp numbers.old key) }
    ensures put { OnOk result ((other : K) → get K.cmp numbers.new other
        ≡ option_or (get K.cmp numbers.old other)
        (if is_eq (K.cmp other key) then Some number else None)) }
{
    if let Some(first) = numbers.get(&key) {
        return Ok(Some(*first));
    }
    numbers.insert(key, number)?;
    Ok(None)
}

// The same of a key that may be missing.
fn first_at_some<K: Ord + Drop>(
    numbers: &mut BTreeMap<K, u32>,
    key: Option<K>,
    number: u32,
) -> Result<Option<u32>, AllocError>
    ensures first { IfOk result (λ first. first ≡ option_map_or (get K.cmp numbers.old) key None) }
    ensures put { OnOk result ((other : K) → get K.cmp numbers.new other
        ≡ option_or (get K.cmp numbers.old other)
        (if option_map_or (λ own. is_eq (K.cmp other own)) key false then Some number else None)) }
{
    match key {
        Some(key) => first_at(numbers, key, number),
        None => Ok(None),
    }
}
