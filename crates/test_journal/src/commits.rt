// Commits of pages of one byte each.
ghost use Rattle.std.specs.Prelude.{◌≡◌, ◌<◌, ◌≤◌, All, IfOk, IfSome, IsTrue, length};
ghost use Rattle.tune_journal.specs.Pages.{NamesAll};

use crate::disks::FaultyDisk;
use crate::images::image;
use crate::stand::Held;
use std::alloc::{AllocError, Global};
use test_cases::Answer;
use tune_journal::{Broken, Changes, Journal};

// Changes of pages below a count, each to one byte; none where a page is at the count or past it.
fn changes(alloc: Global, pages: &[(u32, u8)], count: u32) -> Result<Option<Changes>, AllocError>
    ensures { IfOk result (λ made. IfSome made (λ changes.
        All (λ change. change.0 < count) changes)) }
{
    let mut changes = Changes::new(alloc);
    for (page, byte) in pages {
        if *page >= count {
            return Ok(None);
        }
        changes.put(*page, &image(*byte))?;
    }
    Ok(Some(changes))
}

// Are all pages from one to another among the changes?
fn has_all(changes: &Changes, from: u32, to: u32) -> bool
    ensures { IsTrue result → NamesAll from to changes.now }
{
    for page in from..to {
        if changes.get(page).is_none() {
            return false;
        }
    }
    true
}

// May changes of pages below a count be committed?
fn fits(count: u32, new_count: u32, changes: &Changes) -> bool
    ensures grows { IsTrue result → count ≤ new_count }
    ensures most { IsTrue result → new_count ≤ 4000000 }
    ensures some { IsTrue result → 0 < length changes.now }
    ensures names { IsTrue result → NamesAll count new_count changes.now }
{
    if count > new_count || new_count > 4_000_000 || changes.is_empty() {
        return false;
    }
    has_all(changes, count, new_count)
}

/// Commits changes of pages, at once or by its four parts, and answers what comes of it.
pub(crate) fn commit(
    alloc: Global,
    journal: Journal<FaultyDisk>,
    new_count: u32,
    pages: &[(u32, u8)],
    by_parts: bool,
    answer: &mut Answer,
) -> Held {
    match changes(alloc, pages, new_count) {
        Ok(Some(changes)) => commit_changes(journal, new_count, &changes, by_parts, answer),
        _ => {
            answer.say("no such commit");
            Held::Open(journal)
        }
    }
}

fn commit_changes(
    journal: Journal<FaultyDisk>,
    new_count: u32,
    changes: &Changes,
    by_parts: bool,
    answer: &mut Answer,
) -> Held
    requires { All (λ change. change.0 < new_count) changes.now }
{
    if !fits(journal.count(), new_count, changes) {
        answer.say("no such commit");
        return Held::Open(journal);
    }
    if by_parts {
        committed(go_through(journal, new_count, changes), answer)
    } else {
        committed(journal.commit(new_count, changes), answer)
    }
}

fn committed(
    journal: Result<Journal<FaultyDisk>, Broken<FaultyDisk>>,
    answer: &mut Answer,
) -> Held {
    match journal {
        Ok(journal) => {
            answer.say("ok");
            Held::Open(journal)
        }
        Err(broken) => {
            answer.say("broken");
            Held::Disk(broken.into_disk())
        }
    }
}

// The four parts of a commit.
fn go_through(
    journal: Journal<FaultyDisk>,
    new_count: u32,
    changes: &Changes,
) -> Result<Journal<FaultyDisk>, Broken<FaultyDisk>>
    requires grows { length journal.pages ≤ new_count }
    requires most { new_count ≤ 4000000 }
    requires some { 0 < length changes.now }
    requires below { All (λ change. change.0 < new_count) changes.now }
    requires names { NamesAll (length journal.pages) new_count changes.now }
{
    let logged = journal.log(new_count, changes)?;
    let opened = logged.open_gate()?;
    opened.apply(changes)?.close()
}
