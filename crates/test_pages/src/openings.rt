// The calls of an opening.
use crate::calls::OpeningCall;
use crate::disks::InMemory;
use crate::held::{Held, is_limit};
use test_cases::Answer;
use tune_journal::PageImage;
use tune_pages::{ClaimFault, Opening};

// Makes a call of an opening, and writes its answer.
pub(crate) fn call_opening(
    mut opening: Opening<InMemory>,
    call: OpeningCall,
    answer: &mut Answer,
) -> Held {
    claim(&mut opening, call, answer);
    Held::Opening(opening)
}

fn claim(opening: &mut Opening<InMemory>, call: OpeningCall, answer: &mut Answer) {
    match call {
        OpeningCall::Root => show_page(opening.read_root(), answer),
        OpeningCall::ClaimPage(page) => show_page(opening.claim_page(page), answer),
        OpeningCall::ClaimChain(first) => show_chain(opening.claim_chain(first), answer),
        OpeningCall::ClaimChainWithin(first, most) => {
            show_chain(opening.claim_chain_within(first, most), answer)
        }
        OpeningCall::Count => answer.show(opening.count()),
    }
}

fn show_page(page: Result<PageImage, ClaimFault>, answer: &mut Answer) {
    match page {
        Ok(image) => answer.show_bytes(&image.bytes),
        Err(fault) => answer.name(fault),
    }
}

fn show_chain(chain: Result<Vec<u8>, ClaimFault>, answer: &mut Answer) {
    match chain {
        Ok(bytes) => answer.show_bytes(&bytes),
        Err(fault) => answer.name(fault),
    }
}

// The pages that were claimed.
pub(crate) fn end_opening(opening: Opening<InMemory>, limit: u32, answer: &mut Answer) -> Held {
    if !is_limit(limit) {
        answer.say("no limit");
        return Held::Opening(opening);
    }
    match opening.done(limit) {
        Ok(pages) => {
            answer.say("done");
            Held::Pages(pages)
        }
        Err(refused) => {
            answer.name(refused.why);
            Held::Disk(refused.disk)
        }
    }
}
