// The calls of a change of pages.
ghost use Rattle.std.specs.Prelude.{◌≤◌};

use crate::calls::EditCall;
use crate::disks::InMemory;
use crate::entries::read_entries;
use std::alloc::{AllocError, Global};
use test_cases::{Answer, lay_bytes, read_hexadecimal};
use tune_journal::PageImage;
use tune_pages::{Edit, Fault};

// Makes a call of a change, and writes its answer.
pub(crate) fn call_edit<const W: usize>(
    alloc: Global,
    edit: &mut Edit<InMemory>,
    call: EditCall<'_>,
    answer: &mut Answer,
)
    requires { W ≤ 4090 }
{
    if let Err(fault) = alter::<W>(alloc, edit, call, answer) {
        answer.name(fault);
    }
}

fn alter<const W: usize>(
    alloc: Global,
    edit: &mut Edit<InMemory>,
    call: EditCall<'_>,
    answer: &mut Answer,
) -> Result<(), Fault>
    requires { W ≤ 4090 }
{
    match call {
        EditCall::Allocate => {
            let page = edit.allocate()?;
            answer.show(page);
            Ok(())
        }
        EditCall::PutLeaf(page, count, entries) => {
            put_leaf::<W>(alloc, edit, page, count, entries, answer)
        }
        EditCall::PutChain(digits) => put_chain(alloc, edit, digits, answer),
        EditCall::ReadBytes(page, from, to) => show_bytes(edit, page, from, to, answer),
        EditCall::InUse(count) => {
            show_used(edit, count, answer);
            Ok(())
        }
    }
}

// Puts a leaf that somebody forged on a page.
fn put_leaf<const W: usize>(
    alloc: Global,
    edit: &mut Edit<InMemory>,
    page: u32,
    count: u16,
    entries: &str,
    answer: &mut Answer,
) -> Result<(), Fault>
    requires { W ≤ 4090 }
{
    if !edit.in_use(page) {
        answer.say("not in use");
        return Ok(());
    }
    let Ok(bytes) = leaf::<W>(alloc, count, entries) else {
        return Err(edit.refuse());
    };
    let mut image = PageImage::blank();
    lay_bytes(&bytes, &mut image.bytes);
    edit.put_page(page, &image)?;
    answer.say("done");
    Ok(())
}

// The bytes of a leaf: how many entries it says that it has, and entries.
fn leaf<const W: usize>(alloc: Global, count: u16, entries: &str) -> Result<Vec<u8>, AllocError>
    requires { W ≤ 4090 }
{
    let mut bytes = Vec::new(alloc);
    bytes.extend_from_slice(&count.to_be_bytes())?;
    for entry in &read_entries::<W>(alloc, entries)? {
        bytes.extend_from_slice(entry.0.bytes())?;
        bytes.extend_from_slice(&entry.1.to_be_bytes())?;
    }
    Ok(bytes)
}

fn put_chain(
    alloc: Global,
    edit: &mut Edit<InMemory>,
    digits: &str,
    answer: &mut Answer,
) -> Result<(), Fault> {
    let Ok(bytes) = read_hexadecimal(alloc, digits) else {
        return Err(edit.refuse());
    };
    let first = edit.put_chain(&bytes)?;
    answer.show(first);
    Ok(())
}

// Shows the bytes of a page from an offset to another, two digits for each.
fn show_bytes(
    edit: &mut Edit<InMemory>,
    page: u32,
    from: usize,
    to: usize,
    answer: &mut Answer,
) -> Result<(), Fault> {
    if !edit.in_use(page) {
        answer.say("not in use");
        return Ok(());
    }
    let image = edit.read_page(page)?;
    answer.show_hexadecimal(image.bytes.get(from..to).unwrap_or(&[]));
    Ok(())
}

// Shows which of the first pages are in use.
fn show_used(edit: &Edit<InMemory>, count: u32, answer: &mut Answer) {
    for page in 0..count {
        answer.say(if edit.in_use(page) { "+" } else { "-" });
    }
}
