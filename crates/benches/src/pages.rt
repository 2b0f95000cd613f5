// The bench of pages.
use crate::part::Part;
use crate::words::{Place, Shown, number, split_place, split_shown};
use anyhow::{Result, bail};
use std::alloc::Global;
use std::fs::{File, Files};
use std::rt::Clock;
use tune_disk::{Disk, FileDisk, MemoryDisk, UnknownHistory};
use tune_journal::{OpenFault, PageImage};
use tune_pages::{ClaimFault, Fault, Opening, Pages};

/// How many pages there may be.
const LIMIT: u32 = 1_000_000;

// How many chains are put in one work, and how many works of one chain come behind it.
#[derive(Clone, Copy)]
struct Size {
    chains: u32,
    works: u32,
}

/// Goes through the parts, and prints what each came to.
pub(crate) fn run<R>(rt: &R, words: &[&str]) -> Result<()>
where
    R: Files<File = File> + Clock + Print + AllocGlobal,
{
    let (words, shown) = split_shown(words);
    let Some((place, [chains, works])) = split_place(words) else {
        bail!("usage: benches pages (memory | file PATH) CHAINS WORKS [times]");
    };
    // Few enough for the limit on pages.
    let size = Size {
        chains: number(chains, 500_000)?,
        works: number(works, 100_000)?,
    };
    match place {
        Place::Memory => run_parts(rt, MemoryDisk::new(rt.alloc()), size, shown),
        Place::File(path) => {
            let disk = FileDisk::try_create(rt, path, &UnknownHistory)?;
            run_parts(rt, disk, size, shown)
        }
    }
}

fn run_parts<R: Clock + Print + AllocGlobal, D: Disk>(
    rt: &R,
    disk: D,
    size: Size,
    shown: Shown,
) -> Result<()> {
    let mut pages = make(rt.alloc(), disk)?;
    put(rt, &mut pages, size.chains, shown)?;
    let mut pages = claim(rt, pages.into_disk(), size.chains, shown)?;
    add(rt, &mut pages, size.works, shown)
}

/// New pages on a disk.
pub(crate) fn make<D: Disk>(alloc: Global, disk: D) -> Result<Pages<D>, OpenFault> {
    match Pages::make(alloc, disk, &PageImage::blank(), LIMIT) {
        Ok(pages) => Ok(pages),
        Err(refused) => Err(refused.why),
    }
}

/// The pages on a disk, to be claimed.
pub(crate) fn open<D: Disk>(alloc: Global, disk: D) -> Result<Opening<D>, OpenFault> {
    match Pages::open(alloc, disk) {
        Ok(opening) => Ok(opening),
        Err(refused) => Err(refused.why),
    }
}

/// The pages that were opened.
pub(crate) fn done<D: Disk>(opening: Opening<D>) -> Result<Pages<D>, OpenFault> {
    match opening.done(LIMIT) {
        Ok(pages) => Ok(pages),
        Err(refused) => Err(refused.why),
    }
}

fn put<R: Clock + Print, D: Disk>(
    rt: &R,
    pages: &mut Pages<D>,
    chains: u32,
    shown: Shown,
) -> Result<()> {
    let part = Part::begin(rt, "put", shown)?;
    let last = put_all(pages, chains)?;
    part.end(rt, last)?;
    Ok(())
}

// Opens pages, and claims a chain on each but the root.
fn claim<R: Clock + Print + AllocGlobal, D: Disk>(
    rt: &R,
    disk: D,
    chains: u32,
    shown: Shown,
) -> Result<Pages<D>> {
    let part = Part::begin(rt, "claim", shown)?;
    let mut opening = open(rt.alloc(), disk)?;
    let bytes = claim_each(&mut opening, chains)?;
    let pages = done(opening)?;
    part.end(rt, bytes)?;
    Ok(pages)
}

fn add<R: Clock + Print, D: Disk>(
    rt: &R,
    pages: &mut Pages<D>,
    works: u32,
    shown: Shown,
) -> Result<()> {
    let part = Part::begin(rt, "add", shown)?;
    let last = put_each(pages, works)?;
    part.end(rt, last)?;
    Ok(())
}

// Puts so many chains in one work, and gives the last page.
fn put_all<D: Disk>(pages: &mut Pages<D>, chains: u32) -> Result<u32, Fault> {
    let mut work = pages.begin()?;
    let mut last = 0;
    for _ in 0..chains {
        last = pages.put_chain(&mut work, &[0x5a; 200])?;
    }
    pages.finish(work)?;
    Ok(last)
}

// Puts so many chains, each in a work of its own, and gives the last page.
fn put_each<D: Disk>(pages: &mut Pages<D>, works: u32) -> Result<u32, Fault> {
    let mut last = 0;
    for _ in 0..works {
        last = put_all(pages, 1)?;
    }
    Ok(last)
}

// Claims chains, and counts their bytes.
fn claim_each<D: Disk>(opening: &mut Opening<D>, chains: u32) -> Result<u32, ClaimFault> {
    let _ = opening.read_root()?;
    let mut bytes: u32 = 0;
    for first in 0..chains {
        let chain = opening.claim_chain(first + 1)?;
        bytes = bytes.wrapping_add(u32::try_from(chain.len()).unwrap_or(u32::MAX));
    }
    Ok(bytes)
}
