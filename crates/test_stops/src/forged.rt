// Files that no archive wrote: changed at one place, or cut.
use crate::cuts::{is_cut_refused, is_cut_whole};
use crate::files::{bad_line, change_file, part, write_bytes};
use crate::page_numbers::{PageNumbers, page_offset};
use crate::scripts::{file_after, held};
use std::alloc::Global;
use std::fs::Files;
use std::{fs, io};
use tune_archive::{Archive, Counts};
use tune_disk::MemoryDisk;
use tune_journal::OpenFault;

// Opens all forged files, and says whether each is answered as the form of the file says.
pub(crate) fn forge_all<R: Files + Print + AllocGlobal>(rt: &R, made: &[u8]) -> io::Result<bool> {
    let alloc = rt.alloc();
    let table = forge_table(rt, made)?;
    let again = say(rt, "a made file, made again", is_made_once(alloc, made)?)?;
    let cut = say(rt, "a made file, cut", is_cut_refused(alloc, made)?)?;
    let script = fs::read(rt, "jig")?;
    let jig = file_after(alloc, made, &script)?;
    let jig_cut = say(rt, "a file of one tune, cut", is_cut_refused(alloc, &jig)?)?;
    let jig = say(rt, "its pages, changed", are_pages_refused(alloc, &jig)?)?;
    let kinds = forge_kinds(rt, made)?;
    Ok(table && again && cut && jig_cut && jig && kinds)
}

// Changes and cuts the file of an archive with pages of all kinds.
fn forge_kinds<R: Files + Print + AllocGlobal>(rt: &R, made: &[u8]) -> io::Result<bool> {
    let alloc = rt.alloc();
    let script = fs::read(rt, "kinds")?;
    let file = file_after(alloc, made, &script)?;
    let pages = are_pages_refused(alloc, &file)?;
    let pages = say(rt, "pages of all kinds, changed", pages)?;
    let Some(state) = held(alloc, MemoryDisk::from_bytes(alloc, &file)?)? else {
        return Ok(false);
    };
    let whole = is_cut_whole(alloc, &file, &state)?;
    if whole {
        println!(rt; "cuts: each leaves no archive, a damaged one, or the last state")?;
    } else {
        println!(rt; "cuts: one leaves another state, or is refused otherwise")?;
    }
    Ok(pages && whole)
}

// Prints what came of forged files.
fn say<R: Print>(rt: &R, name: &str, is_good: bool) -> io::Result<bool> {
    if is_good {
        println!(rt; "{name}: each is refused")?;
    } else {
        println!(rt; "{name}: one is not refused as it should be")?;
    }
    Ok(is_good)
}

// Opens the files of the table, each with changes of a made one.
fn forge_table<R: Files + Print + AllocGlobal>(rt: &R, made: &[u8]) -> io::Result<bool> {
    let text = fs::read_to_string(rt, "forged")?;
    let mut all = true;
    for line in text.lines() {
        let is_so = is_answered(rt.alloc(), made, line)?;
        if !is_so {
            println!(rt; "a made file, changed: not answered so: {line}")?;
        }
        all &= is_so;
    }
    if all {
        println!(rt; "a made file, changed: each is answered as the table says")?;
    }
    Ok(all)
}

// Whether a made file has the bytes of one page, and no archive is made over it or over one byte of
// it, which stay as they are.
fn is_made_once(alloc: Global, made: &[u8]) -> io::Result<bool> {
    for file in [made, part(made, 0, 1)] {
        let Err(refused) = Archive::make(alloc, MemoryDisk::from_bytes(alloc, file)?) else {
            return Ok(false);
        };
        if refused.why != OpenFault::NotEmpty || refused.disk.bytes() != file {
            return Ok(false);
        }
    }
    Ok(made.len() == 20_480)
}

// Whether a file with the changes of a line is answered as it says.
fn is_answered(alloc: Global, made: &[u8], line: &str) -> io::Result<bool> {
    let (what, wanted) = line.split_once(" -> ").ok_or(bad_line())?;
    let (_, changes) = what.split_once(": ").ok_or(bad_line())?;
    let mut disk = MemoryDisk::from_bytes(alloc, made)?;
    for change in changes.split(' ') {
        change_file(alloc, &mut disk, change)?;
    }
    Ok(answer_of(alloc, disk) == wanted)
}

// How a disk is answered, by the words of the table.
fn answer_of(alloc: Global, disk: MemoryDisk) -> &'static str {
    match Archive::open(alloc, disk) {
        Ok(archive) => match archive.counts() {
            Ok(counts) => name_of(counts),
            Err(_) => "closed",
        },
        Err(refused) => match refused.why {
            OpenFault::NotArchive => "NotArchive",
            OpenFault::Damaged => "Damaged",
            _ => "another fault",
        },
    }
}

// The layout of an archive in which nothing is.
fn name_of(counts: Counts) -> &'static str {
    let Counts {
        layout,
        tunes,
        sets,
    } = counts;
    match layout {
        _ if tunes != 0 || sets != 0 => "not empty",
        1 => "layout 1",
        2 => "layout 2",
        _ => "another layout",
    }
}

// Whether a file is refused with a change to any of its links, and to any of its leaves.
fn are_pages_refused(alloc: Global, file: &[u8]) -> io::Result<bool> {
    let pages = PageNumbers::of(alloc, file)?;
    let links = are_links_refused(alloc, file, &pages.links)?;
    Ok(links && are_leaves_refused(alloc, file, &pages.leaves)?)
}

// Whether a file is refused where a link names itself, or has no byte, or too many.
fn are_links_refused(alloc: Global, file: &[u8], links: &[usize]) -> io::Result<bool> {
    for page in links {
        let at = page_offset(*page);
        let next = u32::try_from(*page).map_err(|_| bad_line())?;
        if !is_damaged(alloc, file, at, &next.to_be_bytes())?
            || !is_damaged(alloc, file, at.saturating_add(4), &[0, 0])?
            || !is_damaged(alloc, file, at.saturating_add(4), &4_091_u16.to_be_bytes())?
        {
            return Ok(false);
        }
    }
    Ok(!links.is_empty())
}

// Whether a file is refused where a leaf has no entry, or one more than go into it.
fn are_leaves_refused(alloc: Global, file: &[u8], leaves: &[(usize, u8)]) -> io::Result<bool> {
    for (page, most) in leaves {
        let at = page_offset(*page);
        if !is_damaged(alloc, file, at, &[0, 0])?
            || !is_damaged(alloc, file, at, &[0, most.saturating_add(1)])?
        {
            return Ok(false);
        }
    }
    Ok(!leaves.is_empty())
}

// Whether a file is refused as a damaged one with these bytes at this offset.
fn is_damaged(alloc: Global, file: &[u8], at: usize, bytes: &[u8]) -> io::Result<bool> {
    let mut disk = MemoryDisk::from_bytes(alloc, file)?;
    let at = u32::try_from(at).map_err(|_| bad_line())?;
    write_bytes(&mut disk, at, bytes)?;
    Ok(answer_of(alloc, disk) == "Damaged")
}
