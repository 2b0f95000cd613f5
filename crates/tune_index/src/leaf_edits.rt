// Leaves written, and with an entry more or less, as bytes of a page.
ghost use Rattle.std.specs.Prelude.{◌≡◌, ℕ, ◌+◌, ◌-◌, ◌*◌, ◌≤◌, ◌<◌, ◌++◌, List, [], length, drop};
ghost use Rattle.std.specs.Prelude.{take, IsTrue, false, true};
ghost use Rattle.std.specs.List.{HoldsAt, insert, remove};
ghost use Rattle.index_keys.specs.Entries.{FitsLeaf, IsRising, entry_inserted, rank, removed};
ghost use Rattle.tune_index.specs.Inside.EntryPlaces.{IsPlace};
ghost use Rattle.tune_index.specs.Leaves.{capacity, count_bytes, entries_in, leaf_entry_bytes};
ghost use Rattle.tune_index.specs.Leaves.{leaf_in};
ghost use Rattle.tune_index.specs.Leaves.{IsLeaf, slice_entry};

use crate::leaf::{capacity_of, entry_of, first_from, leaf_length, page_bytes};
use byteorder::{BigEndian, ByteOrder};
use index_keys::IndexKey;
use tune_journal::PageImage;

// Whether the entry stands at the place of the bytes.
fn stands_at<const W: usize>(
    bytes: &[u8],
    count: usize,
    place: usize,
    key: &IndexKey<W>,
    value: u32,
) -> bool
    requires width { W ≤ 4090 }
    requires room { count * (W + 4) ≤ length bytes.now }
    ensures here { IsTrue result → (place < count) }
    ensures equal { let es = entries_in W count bytes.now in
        IsPlace (rank (key.now, value)) es place → IsTrue result
        → HoldsAt (λ e. rank e ≡ rank (key.now, value)) es place }
    ensures other { let es = entries_in W count bytes.now in
        result ≡ false → place < count → IsPlace (rank (key.now, value)) es place
        → HoldsAt (λ e. rank (key.now, value) < rank e) es place }
{
    if place < count {
        let entry = entry_of(bytes, place);
        !key.is_before(value, &entry.0, entry.1)
    } else {
        false
    }
}

// The entry is written at the place of the bytes.
fn write_entry<const W: usize>(bytes: &mut [u8], place: usize, key: &IndexKey<W>, value: u32)
    requires width { W ≤ 4090 }
    requires room { (place + 1) * (W + 4) ≤ length bytes.old }
    ensures bytes { bytes.new ≡ take (place * (W + 4)) bytes.old
        ++ (leaf_entry_bytes W (key.now, value) ++ drop ((place + 1) * (W + 4)) bytes.old) }
    ensures fits { FitsLeaf W (key.now, value) }
{
    let from = place * (W + 4);
    bytes[from..from + W].copy_from_slice(key.bytes());
    BigEndian::write_u32(&mut bytes[from + W..], value);
}

// The bytes of the entry at the place become zeros.
fn clear_entry<const W: usize>(bytes: &mut [u8], place: usize)
    requires width { W ≤ 4090 }
    requires room { (place + 1) * (W + 4) ≤ length bytes.old }
    ensures front { (rest : List ℕ) × (bytes.new ≡ take (place * (W + 4)) bytes.old ++ rest) }
    ensures length { length bytes.new ≡ length bytes.old }
{
    let from = place * (W + 4);
    bytes[from..from + W + 4].fill(0);
}

// The entry comes to the place, and those from there on go one place further.
fn put_in<const W: usize>(
    bytes: &mut [u8],
    count: usize,
    place: usize,
    key: &IndexKey<W>,
    value: u32,
)
    requires width { W ≤ 4090 }
    requires place { place ≤ count }
    requires room { (count + 1) * (W + 4) ≤ length bytes.old }
    ensures entries { entries_in W (count + 1) bytes.new
        ≡ insert (entries_in W count bytes.old) place (key.now, value) }
    ensures length { length bytes.new ≡ length bytes.old }
    ensures fits { FitsLeaf W (key.now, value) }
{
    let size = W + 4;
    bytes.copy_within(place * size..count * size, (place + 1) * size);
    write_entry(bytes, place, key, value);
}

// The entry at the place goes out, and those behind it go one place back.
fn take_out<const W: usize>(bytes: &mut [u8], count: usize, place: usize)
    requires width { W ≤ 4090 }
    requires place { place < count }
    requires room { count * (W + 4) ≤ length bytes.old }
    ensures entries { entries_in W (count - 1) bytes.new
        ≡ remove (entries_in W count bytes.old) place }
    ensures length { length bytes.new ≡ length bytes.old }
{
    let size = W + 4;
    bytes.copy_within((place + 1) * size..count * size, place * size);
    clear_entry::<W>(bytes, count - 1);
}

// The page says that it has so many entries.
#[tactic(auto, unfolding(crate::specs::Leaves::count_bytes))]
fn write_count(image: &mut PageImage, count: u16)
    ensures { image.new.bytes ≡ count_bytes count ++ drop 2 image.old.bytes }
{
    BigEndian::write_u16(&mut image.bytes, count);
}

// The entries are written at the front of the bytes.
fn write_entries<const W: usize>(bytes: &mut [u8], entries: &[(IndexKey<W>, u32)])
    requires width { W ≤ 4090 }
    requires room { length entries.now * (W + 4) ≤ length bytes.old }
    ensures { entries_in W (length entries.now) bytes.new ≡ entries.now }
{
    for place in 0..entries.len() {
        let entry = &entries[place];
        write_entry(bytes, place, &entry.0, entry.1);
    }
}

// The image becomes that of a leaf.
pub(crate) fn write_leaf<const W: usize>(entries: &[(IndexKey<W>, u32)], image: &mut PageImage)
    requires width { W ≤ 4090 }
    requires some { 1 ≤ length entries.now }
    requires within { length entries.now ≤ capacity W }
    ensures form { IsLeaf W image.new.bytes }
    ensures entries { leaf_in W image.new.bytes ≡ entries.now }
{
    // For the proof.
    let _most = capacity_of(W);
    write_entries(&mut image.bytes[2..], entries);
    write_count(image, entries.len() as u16);
}

// The entry comes to the place of a leaf that has room for it.
fn insert_entry_at<const W: usize>(
    image: &mut PageImage,
    count: usize,
    place: usize,
    key: &IndexKey<W>,
    value: u32,
)
    requires width { W ≤ 4090 }
    requires count { count ≡ length (leaf_in W image.old.bytes) }
    requires place { place ≤ count }
    requires room { count < capacity W }
    ensures form { IsLeaf W image.new.bytes }
    ensures entries { leaf_in W image.new.bytes
        ≡ insert (leaf_in W image.old.bytes) place (key.now, value) }
    ensures fits { FitsLeaf W (key.now, value) }
{
    // For the proof.
    let _most = capacity_of(W);
    put_in(&mut image.bytes[2..], count, place, key, value);
    write_count(image, (count + 1) as u16);
}

// The entry at the place goes out of a leaf that has others.
fn remove_entry_at<const W: usize>(image: &mut PageImage, count: usize, place: usize)
    requires width { W ≤ 4090 }
    requires count { count ≡ length (leaf_in W image.old.bytes) }
    requires place { place < count }
    requires some { 1 < count }
    requires within { count ≤ capacity W }
    ensures form { IsLeaf W image.new.bytes }
    ensures entries { leaf_in W image.new.bytes ≡ remove (leaf_in W image.old.bytes) place }
{
    // For the proof.
    let _most = capacity_of(W);
    take_out::<W>(&mut image.bytes[2..], count, place);
    write_count(image, (count - 1) as u16);
}

// The entry goes into the leaf, unless it is there. Where there is no room for it, the leaf stays,
// and the answer is false.
pub(crate) fn insert_in_image<const W: usize>(
    image: &mut PageImage,
    key: &IndexKey<W>,
    value: u32,
) -> bool
    requires width { W ≤ 4090 }
    requires form { IsLeaf W image.old.bytes }
    ensures form { IsLeaf W image.new.bytes }
    ensures entries { result ≡ true → IsRising (leaf_in W image.old.bytes)
        → leaf_in W image.new.bytes ≡ entry_inserted (key.now, value) (leaf_in W image.old.bytes) }
    ensures full { result ≡ false → image.new.bytes ≡ image.old.bytes }
{
    let count = leaf_length::<W>(image);
    let place = first_from(&image.bytes[2..], count, key, value);
    if stands_at(&image.bytes[2..], count, place, key, value) {
        return true;
    }
    if count >= capacity_of(W) {
        return false;
    }
    insert_entry_at(image, count, place, key, value);
    true
}

// The entry goes out of the leaf, if it is there. Where it is the only one, the leaf stays, and the
// answer is false.
pub(crate) fn remove_in_image<const W: usize>(
    image: &mut PageImage,
    key: &IndexKey<W>,
    value: u32,
) -> bool
    requires width { W ≤ 4090 }
    requires form { IsLeaf W image.old.bytes }
    ensures form { IsLeaf W image.new.bytes }
    ensures entries { result ≡ true → IsRising (leaf_in W image.old.bytes)
        → leaf_in W image.new.bytes ≡ removed (key.now, value) (leaf_in W image.old.bytes) }
    ensures none { result ≡ false → IsRising (leaf_in W image.old.bytes)
        → removed (key.now, value) (leaf_in W image.old.bytes) ≡ [] }
{
    let count = leaf_length::<W>(image);
    let place = first_from(&image.bytes[2..], count, key, value);
    if !stands_at(&image.bytes[2..], count, place, key, value) {
        return true;
    }
    if count == 1 {
        return false;
    }
    remove_entry_at::<W>(image, count, place);
    true
}

// The entry that begins a leaf.
pub(crate) fn first_in_image<const W: usize>(image: &PageImage) -> (IndexKey<W>, u32)
    requires width { W ≤ 4090 }
    requires form { IsLeaf W image.now.bytes }
    ensures { result ≡ slice_entry (leaf_in W image.now.bytes) 0 }
{
    // For the proof.
    let _count = leaf_length::<W>(image);
    entry_of(&page_bytes(image)[2..], 0)
}
