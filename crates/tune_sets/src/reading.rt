// Set lists of bytes.
ghost use Rattle.std.specs.Prelude.{◌≡◌, ◌≢◌, ◌⊎◌, ℕ, ◌*◌, ◌^◌, ◌<◌, ◌≤◌, List, [], ◌∷◌, ◌++◌};
ghost use Rattle.std.specs.Prelude.{length, take, drop, true, IfOk, IfErr, IfNone, IfSome};
ghost use Rattle.std.specs.List.{AllByRecursion};
ghost use Rattle.byteorder.specs.Endian.{big_bytes};
ghost use Rattle.tune_sets.specs.Limits.{most_places};
ghost use Rattle.tune_sets.specs.Names.{is_good_name, is_before};
ghost use Rattle.tune_sets.specs.Sets.{IsTuneSet, AreSetLists};
ghost use Rattle.tune_sets.specs.SetBytes.{written_numbers, written_name, stored_set};
ghost use Rattle.tune_sets.specs.SetBytes.{written_sets};
ghost use Rattle.tune_sets.specs.Inside.Search.{last_name};
ghost use Rattle.tune_sets.specs.declared.set_lists.TuneSet.{TuneSet};

use crate::faults::ReadFault;
use crate::names::SetName;
use crate::number_list::NumberList;
use crate::set_lists::{MOST_PLACES, MOST_SETS, SetLists, TuneSet};
use byteorder::{BigEndian, ByteOrder};
use std::alloc::{AllocError, Global};

impl SetLists {
    /// The set lists of these bytes, of which `write` gives the same bytes again. What `write` gave
    /// is read as the same set lists.
    ///
    /// # Errors
    ///
    /// `Damaged` exactly where no set lists within the limits have these bytes, unless it is
    /// `OutOfMemory`.
    pub fn read(alloc: Global, bytes: &[u8]) -> Result<SetLists, ReadFault>
        ensures same { IfOk result (λ lists. written_sets lists ≡ bytes.now) }
        ensures only { IfOk result (λ lists. (sets : List TuneSet) → AreSetLists sets
            → written_sets sets ≡ bytes.now → sets ≡ lists) }
        ensures damaged { IfErr result (λ fault. (fault ≡ ReadFault.OutOfMemory)
            ⊎ ((fault ≡ ReadFault.Damaged) × ((sets : List TuneSet) → AreSetLists sets
            → written_sets sets ≢ bytes.now))) }
    {
        let mut lists = SetLists::new(alloc);
        let mut rest = bytes;
        while !rest.is_empty() {
            let (set, later) = read_set(alloc, rest)?;
            lists = with_last(lists, set)?;
            rest = later;
        }
        Ok(lists)
    }
}

// The lists with one more set at their end.
fn with_last(lists: SetLists, set: TuneSet) -> Result<SetLists, ReadFault>
    requires { IsTuneSet set }
    ensures ok { IfOk result (λ more. more ≡ lists ++ set ∷ []) }
    ensures damaged { IfErr result (λ fault. (fault ≡ ReadFault.OutOfMemory)
        ⊎ ((fault ≡ ReadFault.Damaged)
        × ((more : List TuneSet) → ¬ AreSetLists (lists ++ (set ∷ more))))) }
{
    let SetLists { alloc, mut sets } = lists;
    if sets.len() >= MOST_SETS {
        return Err(ReadFault::Damaged);
    }
    if !comes_last(&sets, &set) {
        return Err(ReadFault::Damaged);
    }
    sets.push(set)?;
    Ok(SetLists { alloc, sets })
}

// Whether the name of a set stands after those of all sets.
fn comes_last(sets: &[TuneSet], set: &TuneSet) -> bool
    ensures { result ≡ is_before (last_name [] sets.now) set.now.name }
{
    match sets.last() {
        None => is_before(b"", set.name.as_slice()),
        Some(last) => is_before(last.name.as_slice(), set.name.as_slice()),
    }
}

fn is_before(name: &[u8], other: &[u8]) -> bool
    ensures { result ≡ is_before name.now other.now }
{
    name.cmp(other).is_lt()
}

// The set at the front of bytes, and the rest of them.
fn read_set(alloc: Global, bytes: &[u8]) -> Result<(TuneSet, &[u8]), ReadFault>
    ensures ok { IfOk result (λ r. IsTuneSet r.0 × (stored_set r.0 ++ r.1.now ≡ bytes.now)) }
    ensures damaged { IfErr result (λ fault. (fault ≡ ReadFault.OutOfMemory)
        ⊎ ((fault ≡ ReadFault.Damaged) × ((set : TuneSet) (later : List ℕ) → IsTuneSet set
        → stored_set set ++ later ≢ bytes.now))) }
{
    let Some((name_bytes, rest)) = name_at_front(bytes) else {
        return Err(ReadFault::Damaged);
    };
    let Some(name) = SetName::new(name_bytes) else {
        return Err(ReadFault::Damaged);
    };
    let Some((places, rest)) = places_at_front(rest) else {
        return Err(ReadFault::Damaged);
    };
    let numbers = read_numbers(alloc, places, places.len() / 4)?;
    Ok((TuneSet { name, numbers }, rest))
}

// The bytes of a name at the front of bytes, good or not, and the rest of them.
fn name_at_front(bytes: &[u8]) -> Option<(&[u8], &[u8])>
    ensures found { IfSome result (λ r. written_name r.0.now ++ r.1.now ≡ bytes.now) }
    ensures none { IfNone result ((name later : List ℕ)
        → written_name name ++ later ≢ bytes.now) }
{
    let [len, rest @ ..] = bytes else {
        return None;
    };
    let len = usize::from(*len);
    if rest.len() < len {
        return None;
    }
    Some(parted(rest, len))
}

// The bytes before an offset, and those from it on.
fn parted(bytes: &[u8], offset: usize) -> (&[u8], &[u8])
    requires { offset ≤ length bytes.now }
    ensures front { result.0.now ≡ take offset bytes.now }
    ensures back { result.1.now ≡ drop offset bytes.now }
{
    bytes.split_at(offset)
}

// The bytes of the numbers of a set, at the front of bytes, and the rest of these.
fn places_at_front(bytes: &[u8]) -> Option<(&[u8], &[u8])>
    ensures found { IfSome result (λ r. (count : ℕ) × (count ≤ most_places)
        × (length r.0.now ≡ 4 * count)
        × (big_bytes 2 count ++ (r.0.now ++ r.1.now) ≡ bytes.now)) }
    ensures none { IfNone result ((count : ℕ) (places later : List ℕ) → count ≤ most_places
        → length places ≡ 4 * count → big_bytes 2 count ++ (places ++ later) ≢ bytes.now) }
{
    if bytes.len() < 2 {
        return None;
    }
    let count = usize::from(BigEndian::read_u16(bytes));
    let (_, rest) = parted(bytes, 2);
    if count > MOST_PLACES || rest.len() < 4 * count {
        return None;
    }
    Some(parted(rest, 4 * count))
}

// The numbers of these bytes.
fn read_numbers(alloc: Global, bytes: &[u8], count: usize) -> Result<NumberList, AllocError>
    requires { length bytes.now ≡ 4 * count }
    ensures same { IfOk result (λ numbers. written_numbers numbers ≡ bytes.now) }
    ensures narrow { IfOk result (λ numbers. AllByRecursion (λ n. n < 2 ^ 32) numbers) }
{
    let mut numbers = Vec::with_capacity(alloc, count)?;
    for i in 0..count {
        numbers.push(BigEndian::read_u32(rest_of(bytes, 4 * i)))?;
    }
    Ok(NumberList::from_vec(numbers))
}

// The bytes from an offset on.
fn rest_of(bytes: &[u8], offset: usize) -> &[u8]
    requires { offset ≤ length bytes.now }
    ensures { result.now ≡ drop offset bytes.now }
{
    &bytes[offset..]
}
