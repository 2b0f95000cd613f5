// Calls, as a line of a case writes them down.
use test_cases::{Bytes, Words};
use tune_disk::StopChoice;

/// A call.
#[derive(Clone, Copy)]
pub(crate) enum Call<'a> {
    Disk(DiskCall<'a>),
    Opening(OpeningCall),
    Done(u32),
    Limit(u32),
    Begin,
    Work(WorkCall<'a>),
    Edit(EditCall),
    Finish,
    Close,
}

/// A call of a disk.
#[derive(Clone, Copy)]
pub(crate) enum DiskCall<'a> {
    Passing(u64),
    Failing(u64),
    Stop(StopChoice),
    Magic,
    Size,
    Make(u32, Bytes<'a>),
    Open,
}

/// A call of an opening.
#[derive(Clone, Copy)]
pub(crate) enum OpeningCall {
    Root,
    ClaimPage(u32),
    ClaimChain(u32),
    ClaimChainWithin(u32, usize),
    Count,
}

/// A call of a work.
#[derive(Clone, Copy)]
pub(crate) enum WorkCall<'a> {
    Allocate,
    Free(u32),
    PutPage(u32, Bytes<'a>),
    PutLink(u32, u32, u16),
    PutChain(Bytes<'a>),
    FreeChain(u32),
    Reserve(usize, usize),
    ReadBytes(u32, usize, usize),
    ReadChain(u32),
    IsAskedAgain(u32),
    InUse(u32),
}

/// A call of an edit that a work has not, and that by which pages are held as one.
#[derive(Clone, Copy)]
pub(crate) enum EditCall {
    Over,
    End,
    Check,
    Refuse,
}

impl<'a> Call<'a> {
    // The call of a name, if it is one.
    pub(crate) fn read(name: &str, mut words: Words<'a>) -> Option<Call<'a>> {
        match name {
            "done" => return Some(Call::Done(words.number()?)),
            "limit" => return Some(Call::Limit(words.number()?)),
            "begin" => return Some(Call::Begin),
            "finish" => return Some(Call::Finish),
            "close" => return Some(Call::Close),
            _ => {}
        }
        if let Some(call) = DiskCall::read(name, words) {
            return Some(Call::Disk(call));
        }
        if let Some(call) = OpeningCall::read(name, words) {
            return Some(Call::Opening(call));
        }
        if let Some(call) = EditCall::read(name) {
            return Some(Call::Edit(call));
        }
        Some(Call::Work(WorkCall::read(name, words)?))
    }
}

impl<'a> DiskCall<'a> {
    fn read(name: &str, mut words: Words<'a>) -> Option<DiskCall<'a>> {
        match name {
            "passing" => Some(DiskCall::Passing(words.long()?)),
            "failing" => Some(DiskCall::Failing(words.long()?)),
            "stop" => Some(DiskCall::Stop(choice(words.rest())?)),
            "magic" => Some(DiskCall::Magic),
            "size" => Some(DiskCall::Size),
            "make" => Some(DiskCall::Make(words.number()?, Bytes::read(words.rest())?)),
            "open" => Some(DiskCall::Open),
            _ => None,
        }
    }
}

impl OpeningCall {
    fn read(name: &str, mut words: Words<'_>) -> Option<OpeningCall> {
        match name {
            "root" => Some(OpeningCall::Root),
            "claim-page" => Some(OpeningCall::ClaimPage(words.number()?)),
            "claim-chain" => Some(OpeningCall::ClaimChain(words.number()?)),
            "claim-chain-within" => {
                Some(OpeningCall::ClaimChainWithin(words.number()?, words.size()?))
            }
            "count" => Some(OpeningCall::Count),
            _ => None,
        }
    }
}

impl<'a> WorkCall<'a> {
    fn read(name: &str, mut words: Words<'a>) -> Option<WorkCall<'a>> {
        match name {
            "allocate" => Some(WorkCall::Allocate),
            "free" => Some(WorkCall::Free(words.number()?)),
            "put-page" => Some(WorkCall::PutPage(words.number()?, Bytes::read(words.rest())?)),
            "put-link" => {
                Some(WorkCall::PutLink(words.number()?, words.number()?, words.short()?))
            }
            "put-chain" => Some(WorkCall::PutChain(Bytes::read(words.rest())?)),
            "free-chain" => Some(WorkCall::FreeChain(words.number()?)),
            "reserve" => Some(WorkCall::Reserve(words.size()?, words.size()?)),
            "read-page" => Some(WorkCall::ReadBytes(words.number()?, 0, 4096)),
            "read-bytes" => {
                Some(WorkCall::ReadBytes(words.number()?, words.size()?, words.size()?))
            }
            "read-chain" => Some(WorkCall::ReadChain(words.number()?)),
            "is-asked-again" => Some(WorkCall::IsAskedAgain(words.number()?)),
            "in-use" => Some(WorkCall::InUse(words.number()?)),
            _ => None,
        }
    }
}

impl EditCall {
    fn read(name: &str) -> Option<EditCall> {
        match name {
            "edit" => Some(EditCall::Over),
            "end" => Some(EditCall::End),
            "check" => Some(EditCall::Check),
            "refuse" => Some(EditCall::Refuse),
            _ => None,
        }
    }
}

fn choice(text: &str) -> Option<StopChoice> {
    match text {
        "Lost" => Some(StopChoice::Lost),
        "Kept" => Some(StopChoice::Kept),
        _ => None,
    }
}
