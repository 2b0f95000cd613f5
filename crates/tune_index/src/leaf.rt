// Leaves as bytes of a page.
ghost use Rattle.std.specs.Prelude.{◌≡◌, ◌↔◌, ℕ, ◌+◌, ◌*◌, ◌≤◌, ◌++◌, List, length};
ghost use Rattle.std.specs.Prelude.{drop, IfOk, IfSome, IsSome, IsTrue, OnOk, false, true};
ghost use Rattle.index_keys.specs.Entries.{AllFit, FitsLeaf, IsRising, rank, values_within};
ghost use Rattle.tune_index.specs.Inside.EntryPlaces.{IsPlace};
ghost use Rattle.tune_index.specs.Leaves.{capacity, value_in, value_bytes, count_in};
ghost use Rattle.tune_index.specs.Leaves.{entry_in, entries_in, leaf_in, IsLeaf};

use byteorder::{BigEndian, ByteOrder};
use index_keys::IndexKey;
use std::alloc::{AllocError, Global};
use tune_journal::PageImage;

// The entries of a leaf, in memory.
pub(crate) type Leaf<const W: usize> = Vec<(IndexKey<W>, u32)>;

#[tactic(auto, unfolding(crate::specs::Leaves::value_in))]
pub(crate) fn read_value(bytes: &[u8]) -> u32
    requires { 4 ≤ length bytes.now }
    ensures { result ≡ value_in bytes.now }
{
    BigEndian::read_u32(bytes)
}

#[tactic(auto, unfolding(crate::specs::Leaves::count_in))]
fn read_count(bytes: &[u8]) -> usize
    requires { 2 ≤ length bytes.now }
    ensures { result ≡ count_in bytes.now }
{
    BigEndian::read_u16(bytes) as usize
}

#[tactic(auto, unfolding(crate::specs::Leaves::value_bytes))]
pub(crate) fn push_value(bytes: &mut Vec<u8>, value: u32) -> Result<(), AllocError>
    ensures { OnOk result (bytes.new.items ≡ bytes.old.items ++ value_bytes value) }
{
    let mut number = [0; 4];
    BigEndian::write_u32(&mut number, value);
    bytes.extend_from_slice(&number)
}

// How many entries a leaf has at most.
#[tactic(auto, unfolding(crate::specs::Leaves::capacity))]
pub(crate) fn capacity_of(width: usize) -> usize
    requires { width ≤ 4090 }
    ensures exact { result ≡ capacity width }
    ensures some { 1 ≤ result }
    ensures within { result ≤ 1023 }
{
    4094 / (width + 4)
}

// The entry that the bytes begin with.
pub(crate) fn entry_at<const W: usize>(bytes: &[u8]) -> (IndexKey<W>, u32)
    requires width { W ≤ 4090 }
    requires room { W + 4 ≤ length bytes.now }
    ensures entry { result ≡ entry_in W bytes.now }
    ensures fits { FitsLeaf W result }
{
    let mut key = [0; W];
    key.copy_from_slice(&bytes[..W]);
    (IndexKey::new(key), read_value(&bytes[W..]))
}

// The bytes of a page.
pub(crate) fn page_bytes(image: &PageImage) -> &[u8]
    ensures bytes { result.now ≡ image.now.bytes }
    ensures length { length result.now ≡ 4096 }
{
    &image.bytes
}

// Whether a page has the form of a leaf.
pub(crate) fn is_leaf<const W: usize>(image: &PageImage) -> bool
    requires { W ≤ 4090 }
    ensures { IsTrue result ↔ IsLeaf W image.now.bytes }
{
    let count = read_count(page_bytes(image));
    count > 0 && count <= capacity_of(W)
}

// How many entries a leaf has.
pub(crate) fn leaf_length<const W: usize>(image: &PageImage) -> usize
    requires width { W ≤ 4090 }
    requires form { IsLeaf W image.now.bytes }
    ensures count { result ≡ length (leaf_in W image.now.bytes) }
    ensures some { 1 ≤ result }
    ensures within { result ≤ capacity W }
    ensures few { result ≤ 1023 }
    ensures room { 2 + result * (W + 4) ≤ length image.now.bytes }
{
    // For the proof.
    let _most = capacity_of(W);
    read_count(page_bytes(image))
}

// The entries of a leaf, in memory that has room for more.
pub(crate) fn leaf_entries<const W: usize>(
    alloc: Global,
    image: &PageImage,
    more: usize,
) -> Result<Leaf<W>, AllocError>
    requires width { W ≤ 4090 }
    requires form { IsLeaf W image.now.bytes }
    ensures entries { IfOk result (λ leaf. leaf.items ≡ leaf_in W image.now.bytes) }
    ensures fit { IfOk result (λ leaf. AllFit W leaf.items) }
{
    let count = leaf_length::<W>(image);
    read_entries(alloc, &page_bytes(image)[2..], count, more)
}

// The first entries in the bytes, in memory that has room for more.
fn read_entries<const W: usize>(
    alloc: Global,
    bytes: &[u8],
    count: usize,
    more: usize,
) -> Result<Leaf<W>, AllocError>
    requires width { W ≤ 4090 }
    requires room { count * (W + 4) ≤ length bytes.now }
    ensures entries { IfOk result (λ leaf. leaf.items ≡ entries_in W count bytes.now) }
    ensures fit { IfOk result (λ leaf. AllFit W leaf.items) }
{
    let mut entries = Vec::with_capacity(alloc, count.saturating_add(more))?;
    let mut rest = bytes;
    for done in 0..count {
        entries.push(entry_at(rest))?;
        rest = &rest[W + 4..];
    }
    Ok(entries)
}

// The entry at a place of the bytes.
pub(crate) fn entry_of<const W: usize>(bytes: &[u8], place: usize) -> (IndexKey<W>, u32)
    requires width { W ≤ 4090 }
    requires room { (place + 1) * (W + 4) ≤ length bytes.now }
    ensures entry { result ≡ entry_in W (drop (place * (W + 4)) bytes.now) }
    ensures fits { FitsLeaf W result }
{
    entry_at(&bytes[place * (W + 4)..])
}

// Where the first of the entries in the bytes stands that is not before this one.
pub(crate) fn first_from<const W: usize>(
    bytes: &[u8],
    count: usize,
    key: &IndexKey<W>,
    value: u32,
) -> usize
    requires width { W ≤ 4090 }
    requires room { count * (W + 4) ≤ length bytes.now }
    ensures within { result ≤ count }
    ensures place { IsRising (entries_in W count bytes.now)
        → IsPlace (rank (key.now, value)) (entries_in W count bytes.now) result }
{
    let mut first = 0;
    let mut last = count;
    while first < last {
        let middle = first + (last - first) / 2;
        let entry = entry_of(bytes, middle);
        if entry.0.is_before(entry.1, key, value) {
            first = middle + 1;
        } else {
            last = middle;
        }
    }
    first
}

// The values of those of the first entries in the bytes that are in the range go to the end of the
// list. No entry is read that stands behind the range.
fn add_values<const W: usize>(
    bytes: &[u8],
    count: usize,
    low: &IndexKey<W>,
    high: &IndexKey<W>,
    values: &mut Vec<u32>,
) -> Result<(), AllocError>
    requires width { W ≤ 4090 }
    requires room { count * (W + 4) ≤ length bytes.now }
    ensures { OnOk result (IsRising (entries_in W count bytes.now)
        → AllFit W (entries_in W count bytes.now) → values.new.items
        ≡ values.old.items ++ values_within low.now high.now (entries_in W count bytes.now)) }
{
    let from = first_from(bytes, count, low, 0);
    for place in from..count {
        let entry = entry_of(bytes, place);
        if high.is_before(0, &entry.0, 0) {
            return Ok(());
        }
        values.push(entry.1)?;
    }
    Ok(())
}

// The values of the entries of a page that are in the range go to the end of the list, where the
// page has the form of a leaf; otherwise false. No entry is kept: a look for few of them takes no
// memory for the others.
pub(crate) fn add_values_of<const W: usize>(
    image: &PageImage,
    low: &IndexKey<W>,
    high: &IndexKey<W>,
    values: &mut Vec<u32>,
) -> Result<bool, AllocError>
    requires { W ≤ 4090 }
    ensures form { IfOk result (λ added. added ≡ false → IsLeaf W image.now.bytes → ⊥) }
    ensures values { IfOk result (λ added. added ≡ true → IsRising (leaf_in W image.now.bytes)
        → AllFit W (leaf_in W image.now.bytes) → values.new.items
        ≡ values.old.items ++ values_within low.now high.now (leaf_in W image.now.bytes)) }
{
    let bytes = page_bytes(image);
    let count = read_count(bytes);
    if count < 1 {
        return Ok(false);
    }
    if count > capacity_of(W) {
        return Ok(false);
    }
    add_values(&bytes[2..], count, low, high, values)?;
    Ok(true)
}
