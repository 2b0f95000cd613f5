// Where an entry is in a list, and lists with an entry more or less.
ghost use Rattle.std.specs.Prelude.{◌≡◌, ◌≤◌, ◌+◌, ◌<◌, length, OnOk, IsTrue, false};
ghost use Rattle.std.specs.List.{HoldsAt};
ghost use Rattle.index_keys.specs.Entries.{IsRising, entry_inserted, rank, removed};
ghost use Rattle.tune_index.specs.Inside.EntryPlaces.{AllBelow, IsPlace};

use crate::leaf::Leaf;
use index_keys::IndexKey;
use std::alloc::AllocError;

// Where an entry is, or where it would go.
pub(crate) fn place_of<const W: usize>(
    entries: &[(IndexKey<W>, u32)],
    key: &IndexKey<W>,
    value: u32,
) -> usize
    ensures within { result ≤ length entries.now }
    ensures place { IsRising entries.now → IsPlace (rank (key.now, value)) entries.now result }
{
    let mut low = 0;
    let mut high = entries.len();
    while low < high {
        let middle = low + (high - low) / 2;
        let entry = &entries[middle];
        if entry.0.is_before(entry.1, key, value) {
            low = middle + 1;
        } else {
            high = middle;
        }
    }
    low
}

// Whether the entry stands at the place.
pub(crate) fn is_at<const W: usize>(
    entries: &[(IndexKey<W>, u32)],
    place: usize,
    key: &IndexKey<W>,
    value: u32,
) -> bool
    ensures here { IsTrue result → (place < length entries.now) }
    ensures equal { IsPlace (rank (key.now, value)) entries.now place → IsTrue result
        → HoldsAt (λ e. rank e ≡ rank (key.now, value)) entries.now place }
    ensures other { result ≡ false → place < length entries.now
        → IsPlace (rank (key.now, value)) entries.now place
        → HoldsAt (λ e. rank (key.now, value) < rank e) entries.now place }
{
    if place < entries.len() {
        let entry = &entries[place];
        !key.is_before(value, &entry.0, entry.1)
    } else {
        false
    }
}

// Whether an entry stands behind all of a list.
fn follows_all<const W: usize>(
    entries: &[(IndexKey<W>, u32)],
    key: &IndexKey<W>,
    value: u32,
) -> bool
    ensures { IsRising entries.now → IsTrue result
        → AllBelow (rank (key.now, value)) entries.now }
{
    let count = entries.len();
    if count == 0 {
        return true;
    }
    let last = &entries[count - 1];
    last.0.is_before(last.1, key, value)
}

// The entry goes into the list, unless it is there.
pub(crate) fn insert_in<const W: usize>(
    entries: &mut Leaf<W>,
    key: IndexKey<W>,
    value: u32,
) -> Result<(), AllocError>
    ensures ok { IsRising entries.old.items
        → OnOk result (entries.new.items ≡ entry_inserted (key.entry, value) entries.old.items) }
    ensures some { OnOk result (1 ≤ length entries.new.items) }
    ensures within { OnOk result (length entries.new.items ≤ length entries.old.items + 1) }
{
    if follows_all(entries, &key, value) {
        entries.push((key, value))?;
        return Ok(());
    }
    let place = place_of(entries, &key, value);
    if !is_at(entries, place, &key, value) {
        entries.insert(place, (key, value))?;
    }
    Ok(())
}
