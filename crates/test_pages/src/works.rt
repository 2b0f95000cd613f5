// The calls of a work. One function holds the pages and the work, and lends them to the others.
ghost use Rattle.std.specs.Prelude.{OnOk};
ghost use Rattle.tune_pages.specs.Work.{Fits};

use crate::calls::WorkCall;
use crate::disks::InMemory;
use crate::held::{Begun, Held};
use std::alloc::Global;
use test_cases::{Answer, Bytes, lay_bytes};
use tune_journal::PageImage;
use tune_pages::{Fault, Pages, Work};

// Makes a call of a work, and writes its answer. A work of which a call is refused is dropped.
pub(crate) fn call_work(
    alloc: Global,
    begun: Begun,
    call: WorkCall<'_>,
    answer: &mut Answer,
) -> Held {
    let Begun {
        mut pages,
        mut work,
    } = begun;
    match change(alloc, &mut pages, &mut work, call, answer) {
        Ok(()) => Held::Begun(Begun { pages, work }),
        Err(fault) => {
            answer.name(fault);
            Held::Pages(pages)
        }
    }
}

pub(crate) fn finish(begun: Begun, answer: &mut Answer) -> Held {
    let Begun { mut pages, work } = begun;
    match pages.finish(work) {
        Ok(()) => answer.say("done"),
        Err(fault) => answer.name(fault),
    }
    Held::Pages(pages)
}

fn change(
    alloc: Global,
    pages: &mut Pages<InMemory>,
    work: &mut Work,
    call: WorkCall<'_>,
    answer: &mut Answer,
) -> Result<(), Fault>
    requires { Fits pages.old work.old }
    ensures { OnOk result (Fits pages.new work.new) }
{
    match call {
        WorkCall::Allocate => allocate(pages, work, answer),
        WorkCall::Free(page) => free(pages, work, page, answer),
        WorkCall::PutPage(page, image) => {
            let image = page_of(alloc, image)?;
            put_page(pages, work, page, &image, answer)
        }
        WorkCall::PutLink(page, next, size) => {
            put_page(pages, work, page, &link(next, size), answer)
        }
        WorkCall::PutChain(bytes) => put_chain(alloc, pages, work, bytes, answer),
        WorkCall::FreeChain(first) => free_chain(pages, work, first, answer),
        WorkCall::Reserve(count, bytes) => reserve(pages, work, count, bytes, answer),
        WorkCall::ReadBytes(page, from, to) => read_page(pages, work, page, from, to, answer),
        WorkCall::ReadChain(first) => read_chain(pages, work, first, answer),
        WorkCall::IsAskedAgain(page) => {
            answer.show(pages.is_asked_again(page));
            Ok(())
        }
        WorkCall::InUse(count) => {
            show_used(pages, work, count, answer);
            Ok(())
        }
    }
}

// A page that begins with the bytes, and has zeros behind them.
pub(crate) fn page_of(alloc: Global, bytes: Bytes<'_>) -> Result<PageImage, Fault> {
    match bytes.to_vec(alloc) {
        Ok(bytes) => {
            let mut page = PageImage::blank();
            lay_bytes(&bytes, &mut page.bytes);
            Ok(page)
        }
        Err(_) => Err(Fault::OutOfMemory),
    }
}

fn allocate(pages: &mut Pages<InMemory>, work: &mut Work, answer: &mut Answer) -> Result<(), Fault>
    requires { Fits pages.old work.old }
    ensures { OnOk result (Fits pages.new work.new) }
{
    let page = pages.allocate(work)?;
    answer.show(page);
    Ok(())
}

fn free(
    pages: &mut Pages<InMemory>,
    work: &mut Work,
    page: u32,
    answer: &mut Answer,
) -> Result<(), Fault>
    requires { Fits pages.old work.old }
    ensures { OnOk result (Fits pages.new work.new) }
{
    if page == 0 || !pages.in_use(work, page) {
        answer.say("not in use");
        return Ok(());
    }
    pages.free(work, page)?;
    answer.say("done");
    Ok(())
}

fn put_page(
    pages: &mut Pages<InMemory>,
    work: &mut Work,
    page: u32,
    image: &PageImage,
    answer: &mut Answer,
) -> Result<(), Fault>
    requires { Fits pages.old work.old }
    ensures { OnOk result (Fits pages.new work.new) }
{
    if !pages.in_use(work, page) {
        answer.say("not in use");
        return Ok(());
    }
    pages.put_page(work, page, image)?;
    answer.say("done");
    Ok(())
}

// A page of a chain that somebody forged: the page behind it, and how many of its bytes count.
fn link(next: u32, size: u16) -> PageImage {
    let mut image = PageImage {
        bytes: [0x41; 4096],
    };
    image.bytes[..4].copy_from_slice(&next.to_be_bytes());
    image.bytes[4..6].copy_from_slice(&size.to_be_bytes());
    image
}

fn put_chain(
    alloc: Global,
    pages: &mut Pages<InMemory>,
    work: &mut Work,
    bytes: Bytes<'_>,
    answer: &mut Answer,
) -> Result<(), Fault>
    requires { Fits pages.old work.old }
    ensures { OnOk result (Fits pages.new work.new) }
{
    let Ok(bytes) = bytes.to_vec(alloc) else {
        return Err(Fault::OutOfMemory);
    };
    let first = pages.put_chain(work, &bytes)?;
    answer.show(first);
    Ok(())
}

fn free_chain(
    pages: &mut Pages<InMemory>,
    work: &mut Work,
    first: u32,
    answer: &mut Answer,
) -> Result<(), Fault>
    requires { Fits pages.old work.old }
    ensures { OnOk result (Fits pages.new work.new) }
{
    pages.free_chain(work, first)?;
    answer.say("done");
    Ok(())
}

// Takes memory for so many pages, and for so many bytes on some of them.
fn reserve(
    pages: &mut Pages<InMemory>,
    work: &mut Work,
    count: usize,
    bytes: usize,
    answer: &mut Answer,
) -> Result<(), Fault>
    requires { Fits pages.old work.old }
    ensures { OnOk result (Fits pages.new work.new) }
{
    pages.reserve(work, count, bytes)?;
    answer.say("done");
    Ok(())
}

// Shows the bytes of a page from an offset to another.
fn read_page(
    pages: &mut Pages<InMemory>,
    work: &mut Work,
    page: u32,
    from: usize,
    to: usize,
    answer: &mut Answer,
) -> Result<(), Fault>
    requires { Fits pages.old work.old }
    ensures { OnOk result (Fits pages.new work.new) }
{
    if !pages.in_use(work, page) {
        answer.say("not in use");
        return Ok(());
    }
    let image = pages.read_page(work, page)?;
    answer.show_bytes(image.bytes.get(from..to).unwrap_or(&[]));
    Ok(())
}

fn read_chain(
    pages: &mut Pages<InMemory>,
    work: &mut Work,
    first: u32,
    answer: &mut Answer,
) -> Result<(), Fault>
    requires { Fits pages.old work.old }
    ensures { OnOk result (Fits pages.new work.new) }
{
    let bytes = pages.read_chain(work, first)?;
    answer.show_bytes(&bytes);
    Ok(())
}

// Shows which of the first pages are in use.
fn show_used(pages: &Pages<InMemory>, work: &Work, count: u32, answer: &mut Answer)
    requires { Fits pages.now work.now }
{
    for page in 0..count {
        answer.say(if pages.in_use(work, page) { "+" } else { "-" });
    }
}
