// Archives that are put on pages by hand, and what is claimed of them.
ghost use Rattle.std.specs.Prelude.{◌≤◌, OnSome};
ghost use Rattle.tune_pages.specs.Work.{Fits};

use crate::calls::{key, page, show_firsts};
use std::alloc::Global;
use test_cases::{Answer, line_of, unquoted};
use tune_archive::Archive;
use tune_contents::{Contents, claim};
use tune_disk::MemoryDisk;
use tune_journal::PageImage;
use tune_pages::{Pages, Work};

// The file of a case, of which there may be 100 pages.
fn file_of(alloc: Global, block: &str) -> Option<MemoryDisk> {
    let root = root_of(alloc, block)?;
    let mut pages = Pages::make(alloc, MemoryDisk::new(alloc), &root, 100).ok()?;
    let is_put = put_archive(alloc, &mut pages, block).is_some();
    let disk = pages.into_disk();
    if is_put { Some(disk) } else { None }
}

fn root_of(alloc: Global, block: &str) -> Option<PageImage> {
    let bytes = unquoted(alloc, line_of(block, "root ")?).ok()?;
    Some(page(&bytes))
}

fn put_archive(alloc: Global, pages: &mut Pages<MemoryDisk>, block: &str) -> Option<()> {
    let mut work = pages.begin().ok()?;
    put_parts(alloc, pages, &mut work, block)?;
    pages.finish(work).ok()
}

// Puts the chains and the leaves of a case, each on the next pages.
fn put_parts(alloc: Global, pages: &Pages<MemoryDisk>, work: &mut Work, block: &str) -> Option<()>
    requires { Fits pages.now work.old }
    ensures { OnSome result (Fits pages.now work.new) }
{
    for line in block.lines() {
        put_part(alloc, pages, work, line)?;
    }
    Some(())
}

// Puts the chain or the leaf of a line; another line puts none.
fn put_part(alloc: Global, pages: &Pages<MemoryDisk>, work: &mut Work, line: &str) -> Option<()>
    requires { Fits pages.now work.old }
    ensures { OnSome result (Fits pages.now work.new) }
{
    if let Some(bytes) = line.strip_prefix("chain ") {
        return put_chain(pages, work, &unquoted(alloc, bytes).ok()?);
    }
    if let Some(entries) = line.strip_prefix("leaf ") {
        return put_leaf(pages, work, &leaf_of::<32>(alloc, entries)?);
    }
    if let Some(entries) = line.strip_prefix("wide ") {
        return put_leaf(pages, work, &leaf_of::<48>(alloc, entries)?);
    }
    Some(())
}

// Puts a chain on the next pages.
fn put_chain(pages: &Pages<MemoryDisk>, work: &mut Work, bytes: &[u8]) -> Option<()>
    requires { Fits pages.now work.old }
    ensures { OnSome result (Fits pages.now work.new) }
{
    match pages.put_chain(work, bytes) {
        Ok(_) => Some(()),
        Err(_) => None,
    }
}

// Puts a leaf on the next page.
fn put_leaf(pages: &Pages<MemoryDisk>, work: &mut Work, bytes: &[u8]) -> Option<()>
    requires { Fits pages.now work.old }
    ensures { OnSome result (Fits pages.now work.new) }
{
    let leaf = pages.allocate(work).ok()?;
    if !pages.in_use(work, leaf) {
        return None;
    }
    match pages.put_page(work, leaf, &page(bytes)) {
        Ok(()) => Some(()),
        Err(_) => None,
    }
}

// The bytes of a leaf of these entries, each a key of so many bytes and a value: how many there
// are, and each of them.
fn leaf_of<const W: usize>(alloc: Global, entries: &str) -> Option<Vec<u8>>
    requires { W ≤ 48 }
{
    let count = entries.split(", ").count();
    let mut bytes = Vec::new(alloc);
    bytes.push(0).ok()?;
    bytes.push(u8::try_from(count).ok()?).ok()?;
    for entry in entries.split(", ") {
        let (word, value) = entry.split_once(' ')?;
        let value: u32 = value.parse().ok()?;
        bytes
            .extend_from_slice(key::<W>(&unquoted(alloc, word).ok()?).bytes())
            .ok()?;
        bytes.extend_from_slice(&value.to_be_bytes()).ok()?;
    }
    Some(bytes)
}

/// Shows what is claimed of the pages of a case.
pub(crate) fn claim_pages(alloc: Global, block: &str, answer: &mut Answer) {
    match file_of(alloc, block) {
        Some(file) => claim_file(alloc, file, answer),
        None => answer.say("no file"),
    }
}

fn claim_file(alloc: Global, file: MemoryDisk, answer: &mut Answer) {
    match Pages::open(alloc, file) {
        Ok(mut opening) => match claim(alloc, &mut opening) {
            Ok(contents) => show_contents(&contents, answer),
            Err(fault) => answer.name(fault),
        },
        Err(refused) => answer.name(refused.why),
    }
}

/// Shows what comes of opening an archive of the pages of a case.
pub(crate) fn open_archive(alloc: Global, block: &str, answer: &mut Answer) {
    match file_of(alloc, block) {
        Some(file) => open_file(alloc, file, answer),
        None => answer.say("no file"),
    }
}

fn open_file(alloc: Global, file: MemoryDisk, answer: &mut Answer) {
    match Archive::open(alloc, file) {
        Ok(archive) => {
            let _ = archive.into_disk();
            answer.say("an archive");
        }
        Err(refused) => answer.name(refused.why),
    }
}

fn show_contents(contents: &Contents, answer: &mut Answer) {
    answer.say("layout ");
    answer.show(contents.layout.number());
    answer.say(" firsts ");
    show_firsts(contents.firsts, answer);
    for place in 0..contents.rows.len() {
        let row = contents.rows.at(place);
        let (number, revision, first) = (row.number, row.revision, row.first);
        answer.show(format_args!(", tune {number} {revision} {first}"));
    }
    show_sets(contents, answer);
}

fn show_sets(contents: &Contents, answer: &mut Answer) {
    for set in contents.sets.as_slice() {
        answer.say(", set ");
        answer.quote(set.name.as_slice());
        answer.say(" ");
        answer.name(set.numbers.as_slice());
    }
}
