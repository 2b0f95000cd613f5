// The bench of an index on pages.
use crate::entries::{Run, key, next_number};
use crate::noted::{DiskCall, Noted};
use crate::pages::{done, make, open};
use crate::part::Part;
use crate::words::{Place, Shown, number, split_place, split_shown};
use anyhow::{Result, bail, ensure};
use std::alloc::{AllocError, Global};
use std::fs::{File, Files};
use std::io;
use std::rt::Clock;
use tune_disk::{Disk, FileDisk, MemoryDisk, UnknownHistory};
use tune_index::Index;
use tune_pages::{ClaimFault, Edit, Fault, Opening};

/// How many indexes are copied together.
const COPIES: u32 = 5;

/// How many values are looked for at once.
const SOUGHT: u32 = 100;

// How many entries go into the lesser index and into the greater one; and how often an entry is put
// in, values are looked for, and indexes are copied.
#[derive(Clone, Copy)]
struct Size {
    few: u32,
    many: u32,
    rounds: u32,
}

/// Goes through the parts, and prints what each came to.
pub(crate) fn run<R>(rt: &R, words: &[&str]) -> Result<()>
where
    R: Files<File = File> + Clock + Print + AllocGlobal,
{
    let (words, shown) = split_shown(words);
    let Some((place, [few, many, rounds])) = split_place(words) else {
        bail!("usage: benches index (memory | file PATH) FEW MANY ROUNDS [times | calls]");
    };
    // Few enough for the limit on pages.
    let size = Size {
        few: number(few, 100_000)?,
        many: number(many, 500_000)?,
        rounds: number(rounds, 100_000)?,
    };
    match place {
        Place::Memory => run_parts(rt, MemoryDisk::new(rt.alloc()), size, shown),
        Place::File(path) => {
            let disk = FileDisk::try_create(rt, path, &UnknownHistory)?;
            run_parts(rt, disk, size, shown)
        }
    }
}

fn run_parts<R: Clock + Print + AllocGlobal, D: Disk>(
    rt: &R,
    disk: D,
    size: Size,
    shown: Shown,
) -> Result<()> {
    let index = build(rt, size.few, shown)?;
    let disk = Noted::new(rt.alloc(), disk, shown == Shown::Calls);
    run_on_disk(rt, disk, size, shown)?;
    copy(rt, &index, size.rounds, shown)
}

// The parts on a disk, and its calls in each of them but those by which the index is loaded again.
fn run_on_disk<R: Clock + Print + AllocGlobal, D: Disk>(
    rt: &R,
    disk: Noted<D>,
    size: Size,
    shown: Shown,
) -> Result<()> {
    let (mut disk, first) = fill(rt, disk, size.many, shown)?;
    let _ = print_calls(rt, &mut disk, 0)?;
    let mut disk = load(rt, disk, first, size.many, shown)?;
    let loading = print_calls(rt, &mut disk, 0)?;
    let mut disk = find(rt, disk, first, size, shown)?;
    let _ = print_calls(rt, &mut disk, loading)?;
    let mut disk = add(rt, disk, first, size.rounds, shown)?;
    let _ = print_calls(rt, &mut disk, loading)?;
    Ok(())
}

// Prints the calls of a disk but for the first ones; the answer is how many there were.
fn print_calls<R: Print + AllocGlobal, D: Disk>(
    rt: &R,
    disk: &mut Noted<D>,
    first: usize,
) -> io::Result<usize> {
    let calls = disk.take_calls(rt.alloc());
    for call in calls.get(first..).unwrap_or(&[]) {
        match call {
            DiskCall::Length => println!(rt; "length 0 0")?,
            DiskCall::Read(at, size) => println!(rt; "read {at} {size}")?,
            DiskCall::Write(at, size) => println!(rt; "write {at} {size}")?,
            DiskCall::Sync => println!(rt; "sync 0 0")?,
        }
    }
    Ok(calls.len())
}

// Builds the lesser index, which asks nothing of a disk.
fn build<R: Clock + Print + AllocGlobal>(rt: &R, few: u32, shown: Shown) -> Result<Index<32>> {
    let memory = Noted::new(rt.alloc(), MemoryDisk::new(rt.alloc()), false);
    let mut edit = Edit::over(make(rt.alloc(), memory)?);
    let run = Run::spread(rt.alloc(), few)?;
    let part = Part::begin(rt, "build", shown)?;
    edit.begin()?;
    let index = insert_run(rt.alloc(), &mut edit, &run)?;
    part.end(rt, few)?;
    Ok(index)
}

// Puts entries into an index that has none.
fn insert_run<D: Disk>(
    alloc: Global,
    edit: &mut Edit<Noted<D>>,
    run: &Run,
) -> Result<Index<32>, Fault> {
    let mut index = Index::new(alloc);
    match index.insert_all(edit, run.entries()) {
        Ok(()) => Ok(index),
        Err(fault) => Err(fault),
    }
}

// Makes pages, and puts the greater index into them; where the list of its leaves begins.
fn fill<R: Clock + Print + AllocGlobal, D: Disk>(
    rt: &R,
    disk: Noted<D>,
    many: u32,
    shown: Shown,
) -> Result<(Noted<D>, u32)> {
    let run = Run::spread(rt.alloc(), many)?;
    let part = Part::begin(rt, "fill", shown)?;
    let mut edit = Edit::over(make(rt.alloc(), disk)?);
    let first = store_run(rt.alloc(), &mut edit, &run)?;
    let disk = edit.into_pages().into_disk();
    part.end(rt, first)?;
    Ok((disk, first))
}

// Puts an index of the entries into the pages; where the list of its leaves begins.
fn store_run<D: Disk>(alloc: Global, edit: &mut Edit<Noted<D>>, run: &Run) -> Result<u32, Fault> {
    edit.begin()?;
    let mut index = insert_run(alloc, edit, run)?;
    let first = index.store(edit)?;
    edit.finish()?;
    Ok(first)
}

fn load<R: Clock + Print + AllocGlobal, D: Disk>(
    rt: &R,
    disk: Noted<D>,
    first: u32,
    many: u32,
    shown: Shown,
) -> Result<Noted<D>> {
    let part = Part::begin(rt, "load", shown)?;
    let (edit, _, count) = loaded(rt.alloc(), disk, first)?;
    ensure!(count == many, "{count} entries were loaded");
    part.end(rt, count)?;
    Ok(edit.into_pages().into_disk())
}

// Opens the pages and loads the index, and counts its entries.
fn loaded<D: Disk>(
    alloc: Global,
    disk: Noted<D>,
    first: u32,
) -> Result<(Edit<Noted<D>>, Index<32>, u32)> {
    let mut opening = open(alloc, disk)?;
    let (index, count) = load_index(alloc, &mut opening, first)?;
    Ok((Edit::over(done(opening)?), index, count))
}

fn load_index<D: Disk>(
    alloc: Global,
    opening: &mut Opening<Noted<D>>,
    first: u32,
) -> Result<(Index<32>, u32), ClaimFault> {
    let (index, entries) = Index::load::<_, Vec<_>>(alloc, opening, first, u32::MAX)?;
    Ok((index, u32::try_from(entries.len()).unwrap_or(u32::MAX)))
}

// Looks for values.
fn find<R: Clock + Print + AllocGlobal, D: Disk>(
    rt: &R,
    disk: Noted<D>,
    first: u32,
    size: Size,
    shown: Shown,
) -> Result<Noted<D>> {
    let (mut edit, index, _) = loaded(rt.alloc(), disk, first)?;
    let part = Part::begin(rt, "find", shown)?;
    let found = find_each(&mut edit, &index, size)?;
    part.end(rt, found)?;
    Ok(edit.into_pages().into_disk())
}

fn find_each<D: Disk>(
    edit: &mut Edit<Noted<D>>,
    index: &Index<32>,
    size: Size,
) -> Result<u32, Fault> {
    let mut found: u32 = 0;
    let mut number = 1;
    for _ in 0..size.rounds {
        number = next_number(number);
        let count = find_some(edit, index, number, size.many)?;
        found = found.wrapping_add(count);
    }
    Ok(found)
}

// Looks for the values of entries that stand beside one another; how many there were.
fn find_some<D: Disk>(
    edit: &mut Edit<Noted<D>>,
    index: &Index<32>,
    number: u32,
    many: u32,
) -> Result<u32, Fault> {
    edit.begin()?;
    let step = u32::MAX / many.max(1);
    let place = number % many.saturating_sub(SOUGHT).max(1);
    let low = key(place.wrapping_mul(step));
    let high = key(place.wrapping_add(SOUGHT - 1).wrapping_mul(step));
    match index.candidates(edit, &low, &high) {
        Ok(values) => Ok(u32::try_from(values.len()).unwrap_or(u32::MAX)),
        Err(fault) => Err(fault),
    }
}

// Puts in entries, each in a change of its own.
fn add<R: Clock + Print + AllocGlobal, D: Disk>(
    rt: &R,
    disk: Noted<D>,
    first: u32,
    rounds: u32,
    shown: Shown,
) -> Result<Noted<D>> {
    let (mut edit, mut index, _) = loaded(rt.alloc(), disk, first)?;
    let part = Part::begin(rt, "add", shown)?;
    let last = add_each(&mut edit, &mut index, rounds)?;
    part.end(rt, last)?;
    Ok(edit.into_pages().into_disk())
}

fn add_each<D: Disk>(
    edit: &mut Edit<Noted<D>>,
    index: &mut Index<32>,
    rounds: u32,
) -> Result<u32, Fault> {
    let mut last = 0;
    let mut number = 1;
    for _ in 0..rounds {
        number = next_number(number);
        last = add_one(edit, index, number)?;
    }
    Ok(last)
}

// Puts in one entry; where the list of leaves begins then.
fn add_one<D: Disk>(
    edit: &mut Edit<Noted<D>>,
    index: &mut Index<32>,
    number: u32,
) -> Result<u32, Fault> {
    edit.begin()?;
    index.insert(edit, key(number), number)?;
    let first = index.store(edit)?;
    edit.finish()?;
    Ok(first)
}

// Copies an index's copies over others, which have the memory for it.
fn copy<R: Clock + Print + AllocGlobal>(
    rt: &R,
    index: &Index<32>,
    rounds: u32,
    shown: Shown,
) -> Result<()> {
    let indexes = copies(rt.alloc(), index)?;
    let mut others = copies(rt.alloc(), index)?;
    let part = Part::begin(rt, "copy", shown)?;
    copy_rounds(&mut others, &indexes, rounds)?;
    part.end(rt, rounds)?;
    Ok(())
}

fn copies(alloc: Global, index: &Index<32>) -> Result<Vec<Index<32>>, AllocError> {
    let mut copies = Vec::new(alloc);
    for _ in 0..COPIES {
        copies.push(index.copy(alloc)?)?;
    }
    Ok(copies)
}

fn copy_rounds(
    copies: &mut [Index<32>],
    indexes: &[Index<32>],
    rounds: u32,
) -> Result<(), AllocError> {
    for _ in 0..rounds {
        copy_each(copies, indexes)?;
    }
    Ok(())
}

fn copy_each(copies: &mut [Index<32>], indexes: &[Index<32>]) -> Result<(), AllocError> {
    for (copy, index) in copies.iter_mut().zip(indexes) {
        copy.copy_from(index)?;
    }
    Ok(())
}
