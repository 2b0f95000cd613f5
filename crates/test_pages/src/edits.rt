// The calls of pages that are held as an edit.
use crate::calls::{Call, EditCall, WorkCall};
use crate::disks::InMemory;
use crate::held::is_limit;
use crate::works::page_of;
use std::alloc::Global;
use test_cases::{Answer, Bytes};
use tune_pages::{Edit, Fault};

// Makes a call of an edit, and writes its answer.
pub(crate) fn call_edit(
    alloc: Global,
    edit: &mut Edit<InMemory>,
    call: Call<'_>,
    answer: &mut Answer,
) {
    match call {
        Call::Begin => show_done(edit.begin(), answer),
        Call::Finish => show_done(edit.finish(), answer),
        Call::Limit(limit) => set_limit(edit, limit, answer),
        Call::Edit(EditCall::End) => {
            edit.end();
            answer.say("done");
        }
        Call::Edit(EditCall::Check) => show_done(edit.check(), answer),
        Call::Edit(EditCall::Refuse) => answer.name(edit.refuse()),
        Call::Work(call) => alter(alloc, edit, call, answer),
        _ => answer.say("not in hand"),
    }
}

fn alter(alloc: Global, edit: &mut Edit<InMemory>, call: WorkCall<'_>, answer: &mut Answer) {
    match call {
        WorkCall::Allocate => show_page(edit.allocate(), answer),
        WorkCall::Free(page) => free(edit, page, answer),
        WorkCall::PutPage(page, image) => put_page(alloc, edit, page, image, answer),
        WorkCall::PutChain(bytes) => put_chain(alloc, edit, bytes, answer),
        WorkCall::FreeChain(first) => show_done(edit.free_chain(first), answer),
        WorkCall::Reserve(count, bytes) => show_done(edit.reserve(count, bytes), answer),
        WorkCall::ReadBytes(page, from, to) => read_page(edit, page, from, to, answer),
        WorkCall::ReadChain(first) => read_chain(edit, first, answer),
        WorkCall::InUse(count) => show_used(edit, count, answer),
        _ => answer.say("not in hand"),
    }
}

fn show_done(done: Result<(), Fault>, answer: &mut Answer) {
    match done {
        Ok(()) => answer.say("done"),
        Err(fault) => answer.name(fault),
    }
}

fn show_page(page: Result<u32, Fault>, answer: &mut Answer) {
    match page {
        Ok(page) => answer.show(page),
        Err(fault) => answer.name(fault),
    }
}

// Changes how many pages there may be, to as many as before or more.
fn set_limit(edit: &mut Edit<InMemory>, limit: u32, answer: &mut Answer) {
    // Of pages that are closed nobody knows how many there are.
    if let Err(fault) = edit.begin() {
        answer.name(fault);
    } else if limit < edit.limit() || !is_limit(limit) {
        answer.say("no limit");
    } else {
        edit.set_limit(limit);
        answer.say("done");
    }
}

fn free(edit: &mut Edit<InMemory>, page: u32, answer: &mut Answer) {
    if page == 0 || !edit.in_use(page) {
        answer.say("not in use");
    } else {
        show_done(edit.free(page), answer);
    }
}

fn put_page(
    alloc: Global,
    edit: &mut Edit<InMemory>,
    page: u32,
    image: Bytes<'_>,
    answer: &mut Answer,
) {
    match page_of(alloc, image) {
        Ok(image) if edit.in_use(page) => show_done(edit.put_page(page, &image), answer),
        Ok(_) => answer.say("not in use"),
        Err(_) => answer.name(edit.refuse()),
    }
}

fn put_chain(alloc: Global, edit: &mut Edit<InMemory>, bytes: Bytes<'_>, answer: &mut Answer) {
    match bytes.to_vec(alloc) {
        Ok(bytes) => show_page(edit.put_chain(&bytes), answer),
        Err(_) => answer.name(edit.refuse()),
    }
}

// Shows the bytes of a page from an offset to another.
fn read_page(edit: &mut Edit<InMemory>, page: u32, from: usize, to: usize, answer: &mut Answer) {
    if !edit.in_use(page) {
        answer.say("not in use");
        return;
    }
    match edit.read_page(page) {
        Ok(image) => answer.show_bytes(image.bytes.get(from..to).unwrap_or(&[])),
        Err(fault) => answer.name(fault),
    }
}

fn read_chain(edit: &mut Edit<InMemory>, first: u32, answer: &mut Answer) {
    match edit.walk_chain(first, true) {
        Ok(bytes) => answer.show_bytes(&bytes),
        Err(fault) => answer.name(fault),
    }
}

// Shows which of the first pages are in use.
fn show_used(edit: &Edit<InMemory>, count: u32, answer: &mut Answer) {
    for page in 0..count {
        answer.say(if edit.in_use(page) { "+" } else { "-" });
    }
}
