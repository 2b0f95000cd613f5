// The calls of an opening.
ghost use Rattle.std.specs.Prelude.{◌≤◌};

use crate::calls::OpeningCall;
use crate::disks::InMemory;
use crate::entries::{are_same, read_entries};
use crate::held::{File, is_limit};
use std::alloc::Global;
use test_cases::Answer;
use tune_index::{Index, IndexKey};
use tune_pages::{Edit, Fault, Opening};

// Makes a call of an opening, and writes its answer.
pub(crate) fn call_opening<const W: usize>(
    alloc: Global,
    mut opening: Opening<InMemory>,
    index: &mut Index<W>,
    call: OpeningCall<'_>,
    answer: &mut Answer,
) -> File
    requires { W ≤ 4090 }
{
    match call {
        OpeningCall::ClaimPage(page) => claim(&mut opening, page, answer),
        OpeningCall::Load(first, most, entries) => {
            load(alloc, &mut opening, index, first, most, entries, answer)
        }
    }
    File::Opening(opening)
}

fn claim(opening: &mut Opening<InMemory>, page: u32, answer: &mut Answer) {
    match opening.claim_page(page) {
        Ok(_) => answer.say("done"),
        Err(fault) => answer.name(fault),
    }
}

// Loads the index, and looks whether it has these entries.
fn load<const W: usize>(
    alloc: Global,
    opening: &mut Opening<InMemory>,
    index: &mut Index<W>,
    first: u32,
    most: u32,
    entries: &str,
    answer: &mut Answer,
)
    requires { W ≤ 4090 }
{
    match Index::load::<_, Vec<_>>(alloc, opening, first, most) {
        Ok((loaded, found)) => {
            *index = loaded;
            compare(alloc, &found, entries, answer);
        }
        Err(fault) => answer.name(fault),
    }
}

// Whether the entries that were found are those that a text writes down.
fn compare<const W: usize>(
    alloc: Global,
    found: &[(IndexKey<W>, u32)],
    entries: &str,
    answer: &mut Answer,
) {
    match read_entries(alloc, entries) {
        Ok(entries) if are_same(found, &entries) => answer.say("done"),
        Ok(_) => answer.show(format_args!("{} others", found.len())),
        Err(_) => answer.name(Fault::OutOfMemory),
    }
}

// The pages that were claimed.
pub(crate) fn end_opening(opening: Opening<InMemory>, limit: u32, answer: &mut Answer) -> File {
    if !is_limit(limit) {
        answer.say("no limit");
        return File::Opening(opening);
    }
    match opening.done(limit) {
        Ok(pages) => {
            answer.say("done");
            File::Edit(Edit::over(pages))
        }
        Err(refused) => {
            answer.name(refused.why);
            File::Disk(refused.disk)
        }
    }
}
