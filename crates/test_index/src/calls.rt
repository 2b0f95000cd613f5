// Calls, as a line of a case writes them down.
use test_cases::Words;

/// A call.
#[derive(Clone, Copy)]
pub(crate) enum Call<'a> {
    Disk(DiskCall),
    Opening(OpeningCall<'a>),
    Done(u32),
    Begin,
    Edit(EditCall<'a>),
    Finish,
    Index(IndexCall<'a>),
    Close,
}

/// A call of a disk.
#[derive(Clone, Copy)]
pub(crate) enum DiskCall {
    Failing(u64),
    Lying(u64, u8),
    Make(u32),
    Open,
}

/// A call of an opening.
#[derive(Clone, Copy)]
pub(crate) enum OpeningCall<'a> {
    ClaimPage(u32),
    Load(u32, u32, &'a str),
}

/// A call of a change of pages.
#[derive(Clone, Copy)]
pub(crate) enum EditCall<'a> {
    Allocate,
    PutLeaf(u32, u16, &'a str),
    PutChain(&'a str),
    ReadBytes(u32, usize, usize),
    InUse(u32),
}

/// A call of an index in a change of pages.
#[derive(Clone, Copy)]
pub(crate) enum IndexCall<'a> {
    Insert(&'a str),
    InsertAll(&'a str),
    Remove(&'a str),
    Clear,
    Candidates(&'a str, &'a str),
    Store,
}

/// What is done with the two indexes in hand.
#[derive(Clone, Copy)]
pub(crate) enum KeepCall {
    New,
    Copy,
    CopyFrom,
    Swap,
    InPlace,
}

impl<'a> Call<'a> {
    // The call of a name, if it is one.
    pub(crate) fn read(name: &str, mut words: Words<'a>) -> Option<Call<'a>> {
        match name {
            "done" => return Some(Call::Done(words.number()?)),
            "begin" => return Some(Call::Begin),
            "finish" => return Some(Call::Finish),
            "close" => return Some(Call::Close),
            _ => {}
        }
        if let Some(call) = DiskCall::read(name, words) {
            return Some(Call::Disk(call));
        }
        if let Some(call) = OpeningCall::read(name, words) {
            return Some(Call::Opening(call));
        }
        if let Some(call) = IndexCall::read(name, words) {
            return Some(Call::Index(call));
        }
        Some(Call::Edit(EditCall::read(name, words)?))
    }
}

impl DiskCall {
    fn read(name: &str, mut words: Words<'_>) -> Option<DiskCall> {
        match name {
            "failing" => Some(DiskCall::Failing(words.long()?)),
            "lying" => Some(DiskCall::Lying(words.long()?, words.byte()?)),
            "make" => Some(DiskCall::Make(words.number()?)),
            "open" => Some(DiskCall::Open),
            _ => None,
        }
    }
}

impl<'a> OpeningCall<'a> {
    fn read(name: &str, mut words: Words<'a>) -> Option<OpeningCall<'a>> {
        match name {
            "claim-page" => Some(OpeningCall::ClaimPage(words.number()?)),
            "load" => Some(OpeningCall::Load(words.number()?, words.number()?, words.rest())),
            _ => None,
        }
    }
}

impl<'a> EditCall<'a> {
    fn read(name: &str, mut words: Words<'a>) -> Option<EditCall<'a>> {
        match name {
            "allocate" => Some(EditCall::Allocate),
            "put-leaf" => { Some(EditCall::PutLeaf(words.number()?, words.short()?, words.rest())) }
            "put-chain" => Some(EditCall::PutChain(words.rest())),
            "read-bytes" => {
                Some(EditCall::ReadBytes(words.number()?, words.size()?, words.size()?))
            }
            "in-use" => Some(EditCall::InUse(words.number()?)),
            _ => None,
        }
    }
}

impl<'a> IndexCall<'a> {
    fn read(name: &str, mut words: Words<'a>) -> Option<IndexCall<'a>> {
        match name {
            "insert" => Some(IndexCall::Insert(words.rest())),
            "insert-all" => Some(IndexCall::InsertAll(words.rest())),
            "remove" => Some(IndexCall::Remove(words.rest())),
            "clear" => Some(IndexCall::Clear),
            "candidates" => Some(IndexCall::Candidates(words.word(), words.rest())),
            "store" => Some(IndexCall::Store),
            _ => None,
        }
    }
}

impl KeepCall {
    // The call of this name, if it is one.
    pub(crate) fn read(name: &str) -> Option<KeepCall> {
        match name {
            "new" => Some(KeepCall::New),
            "copy" => Some(KeepCall::Copy),
            "copy-from" => Some(KeepCall::CopyFrom),
            "swap" => Some(KeepCall::Swap),
            "in-place" => Some(KeepCall::InPlace),
            _ => None,
        }
    }
}
