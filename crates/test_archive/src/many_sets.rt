// Set lists that are made by one call: those that many cases begin with, and some up to the limits.
use std::alloc::Global;
use std::io;
use std::io::Write;
use test_cases::no_data;
use tune_sets::{SetFault, SetLists};

// Three sets: two tunes on Friday, one of them twice, one on Saturday, and none at the pub.
pub(crate) fn make_week(lists: &mut SetLists) -> Result<(), SetFault> {
    lists.create(b"saturday")?;
    lists.create(b"friday")?;
    lists.create(b"The_Pub-2")?;
    for number in [2, 40, 2] {
        lists.add(b"friday", number)?;
    }
    lists.add(b"saturday", 40)?;
    Ok(())
}

// Adds the numbers from 0 on to a set, so many of them.
pub(crate) fn fill_set(lists: &mut SetLists, name: &[u8], count: u32) -> io::Result<()> {
    for number in 0..count {
        lists.add(name, number).map_err(|_| no_data())?;
    }
    Ok(())
}

// The name of the set that is made for a number: `s0` to `s9`, `s10` to `s99` and so on.
fn name_of(alloc: Global, number: u32) -> io::Result<Vec<u8>> {
    let mut name = Vec::new(alloc);
    write!(name, "s{number}")?;
    Ok(name)
}

// Makes a set for each number below this one.
pub(crate) fn make_sets(alloc: Global, lists: &mut SetLists, most: u32) -> io::Result<()> {
    for number in 0..most {
        let name = name_of(alloc, number)?;
        lists.create(&name).map_err(|_| no_data())?;
    }
    Ok(())
}

// Adds to each of these sets its number, and counts the sets that hold theirs alone, and are found
// by it.
pub(crate) fn own_sets(alloc: Global, lists: &mut SetLists, most: u32) -> io::Result<u32> {
    for number in 0..most {
        let name = name_of(alloc, number)?;
        lists.add(&name, number).map_err(|_| no_data())?;
    }
    count_own(alloc, lists, most)
}

fn count_own(alloc: Global, lists: &SetLists, most: u32) -> io::Result<u32> {
    let mut found: u32 = 0;
    for number in 0..most {
        if owns(lists, &name_of(alloc, number)?, number) {
            found = found.saturating_add(1);
        }
    }
    Ok(found)
}

// Whether the set of this name holds the number alone, and is found by it.
fn owns(lists: &SetLists, name: &[u8], number: u32) -> bool {
    let holds_it = matches!(lists.places(name), Ok([held]) if *held == number);
    match lists.holds(number) {
        Some(holder) => holds_it && holder.as_slice() == name,
        None => false,
    }
}

// The bytes of one set of so many places, each with the number 1.
pub(crate) fn of_places(alloc: Global, count: u32) -> io::Result<Vec<u8>> {
    let mut bytes = Vec::from_slice(alloc, b"\x01a")?;
    let [.., high, low] = count.to_be_bytes();
    bytes.extend_from_slice(&[high, low])?;
    for _ in 0..count {
        bytes.extend_from_slice(b"\x00\x00\x00\x01")?;
    }
    Ok(bytes)
}

// The bytes of sets without a place, each with a number from 1,000 up to the last as its name.
pub(crate) fn of_sets(alloc: Global, last: u32) -> io::Result<Vec<u8>> {
    let mut bytes = Vec::new(alloc);
    for number in 1000..=last {
        bytes.push(4)?;
        write!(bytes, "{number}")?;
        bytes.extend_from_slice(b"\x00\x00")?;
    }
    Ok(bytes)
}
