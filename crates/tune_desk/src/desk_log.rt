// What a desk was asked.
ghost use Rattle.std.specs.Prelude.{◌≡◌, ◌++◌, ◌∷◌, [], string_bytes};
ghost use Rattle.tune_desk.specs.DeskDeeds.{looked, compared, tested, followed, read, listed};
ghost use Rattle.tune_desk.specs.DeskDeeds.{made, named, named_over, removed, opened, closed};
ghost use Rattle.tune_desk.specs.DeskDeeds.{grown, created, linked, shared};
ghost use Rattle.tune_desk.specs.DeskDeeds.{path_of, names_of};
ghost use Rattle.tune_desk.specs.DeskLog.{desk_deeds_of, bytes_of};

use crate::{DeskFault, Standing};
use abc_fields::ByteText;
use http_server::Log;
use std::snapshot::Snapshot;
use tune_disk::Access;

/// What a desk was asked and what it answered, kept for clauses alone: it takes no memory. A clause
/// reads it by `deeds_of`.
#[derive(Drop)]
pub struct DeskLog<D: Drop> {
    log: Log<String, Told<D>>,
}

// What a desk was asked of a path, and what it answered.
#[derive(Drop)]
pub(crate) enum Told<D: Drop> {
    Looked(Snapshot<Result<Standing, DeskFault>>),
    Compared(Snapshot<String>, Snapshot<Result<bool, DeskFault>>),
    Tested(Log<u8, ()>, Snapshot<Result<bool, DeskFault>>),
    Followed(Snapshot<Result<String, DeskFault>>),
    Read(Snapshot<Result<ByteText, DeskFault>>),
    Listed(Snapshot<Result<Vec<String>, DeskFault>>),
    Made(Log<u8, ()>, Snapshot<Result<(), DeskFault>>),
    Named(Snapshot<String>, Snapshot<Result<(), DeskFault>>),
    NamedOver(Snapshot<String>, Snapshot<Result<(), DeskFault>>),
    Removed(Snapshot<Result<(), DeskFault>>),
    Opened(Snapshot<Access>, Snapshot<Result<D, DeskFault>>),
    Closed(Snapshot<D>),
    Grown(Log<u8, ()>, Snapshot<Result<(), DeskFault>>),
    Created(Snapshot<Result<D, DeskFault>>),
    Linked(Snapshot<String>, Snapshot<Result<(), DeskFault>>),
    Shared(Snapshot<String>, Snapshot<Result<(), DeskFault>>),
}

// The bytes, for clauses alone.
fn told_bytes(bytes: &[u8]) -> Log<u8, ()>
    ensures { bytes_of result ≡ bytes.now }
{
    let mut told = Log::new();
    for byte in bytes {
        told = told.and(byte, &());
    }
    told
}

impl<D: Drop> DeskLog<D> {
    /// Nothing yet.
    pub fn new() -> DeskLog<D>
        ensures { desk_deeds_of result ≡ [] }
    {
        DeskLog { log: Log::new() }
    }

    /// It was asked what stands at a path, with this answer.
    pub fn look(&mut self, path: &String, answer: &Result<Standing, DeskFault>)
        ensures { desk_deeds_of self.new
            ≡ desk_deeds_of self.old ++ looked (string_bytes path.now) answer.now ∷ [] }
    {
        self.log = self.log.and(path, &Told::Looked(Snapshot::of(answer)));
    }

    /// It was asked whether two paths lead to one file or folder, with this answer.
    pub fn is_same(&mut self, path: &String, other: &String, answer: &Result<bool, DeskFault>)
        ensures { desk_deeds_of self.new ≡ desk_deeds_of self.old
            ++ compared (string_bytes path.now) (string_bytes other.now) answer.now ∷ [] }
    {
        self.log = self.log.and(
            path,
            &Told::Compared(Snapshot::of(other), Snapshot::of(answer)),
        );
    }

    /// It was asked whether a file begins with these bytes, with this answer.
    pub fn begins(&mut self, path: &String, with: &[u8], answer: &Result<bool, DeskFault>)
        ensures { desk_deeds_of self.new
            ≡ desk_deeds_of self.old ++ tested (string_bytes path.now) with.now answer.now ∷ [] }
    {
        self.log = self.log.and(path, &Told::Tested(told_bytes(with), Snapshot::of(answer)));
    }

    /// A path was followed, with this answer.
    pub fn follow(&mut self, path: &String, answer: &Result<String, DeskFault>)
        ensures { desk_deeds_of self.new
            ≡ desk_deeds_of self.old ++ followed (string_bytes path.now) (path_of answer.now) ∷ [] }
    {
        self.log = self.log.and(path, &Told::Followed(Snapshot::of(answer)));
    }

    /// A file was read, with this answer.
    pub fn read(&mut self, path: &String, answer: &Result<ByteText, DeskFault>)
        ensures { desk_deeds_of self.new
            ≡ desk_deeds_of self.old ++ read (string_bytes path.now) answer.now ∷ [] }
    {
        self.log = self.log.and(path, &Told::Read(Snapshot::of(answer)));
    }

    /// The names in a folder were asked for, with this answer.
    pub fn names(&mut self, path: &String, answer: &Result<Vec<String>, DeskFault>)
        ensures { desk_deeds_of self.new
            ≡ desk_deeds_of self.old ++ listed (string_bytes path.now) (names_of answer.now) ∷ [] }
    {
        self.log = self.log.and(path, &Told::Listed(Snapshot::of(answer)));
    }

    /// A file was made of these bytes, with this answer.
    pub fn make(&mut self, path: &String, bytes: &[u8], answer: &Result<(), DeskFault>)
        ensures { desk_deeds_of self.new
            ≡ desk_deeds_of self.old ++ made (string_bytes path.now) bytes.now answer.now ∷ [] }
    {
        self.log = self
            .log
            .and(path, &Told::Made(told_bytes(bytes), Snapshot::of(answer)));
    }

    /// A file was named, with this answer.
    pub fn name(&mut self, from: &String, to: &String, answer: &Result<(), DeskFault>)
        ensures { desk_deeds_of self.new ≡ desk_deeds_of self.old
            ++ named (string_bytes from.now) (string_bytes to.now) answer.now ∷ [] }
    {
        self.log = self
            .log
            .and(from, &Told::Named(Snapshot::of(to), Snapshot::of(answer)));
    }

    /// A file was named in the place of another, with this answer.
    pub fn name_over(&mut self, from: &String, to: &String, answer: &Result<(), DeskFault>)
        ensures { desk_deeds_of self.new ≡ desk_deeds_of self.old
            ++ named_over (string_bytes from.now) (string_bytes to.now) answer.now ∷ [] }
    {
        self.log = self.log.and(
            from,
            &Told::NamedOver(Snapshot::of(to), Snapshot::of(answer)),
        );
    }

    /// A file was taken away, with this answer.
    pub fn remove(&mut self, path: &String, answer: &Result<(), DeskFault>)
        ensures { desk_deeds_of self.new
            ≡ desk_deeds_of self.old ++ removed (string_bytes path.now) answer.now ∷ [] }
    {
        self.log = self.log.and(path, &Told::Removed(Snapshot::of(answer)));
    }

    /// A file was opened, with this answer.
    pub fn open(&mut self, path: &String, access: Access, answer: &Result<D, DeskFault>)
        ensures { desk_deeds_of self.new
            ≡ desk_deeds_of self.old ++ opened (string_bytes path.now) access answer.now ∷ [] }
    {
        self.log = self.log.and(
            path,
            &Told::Opened(Snapshot::of(&access), Snapshot::of(answer)),
        );
    }

    /// This disk was closed.
    pub fn close(&mut self, path: &String, disk: &D)
        ensures { desk_deeds_of self.new
            ≡ desk_deeds_of self.old ++ closed (string_bytes path.now) disk.now ∷ [] }
    {
        self.log = self.log.and(path, &Told::Closed(Snapshot::of(disk)));
    }

    /// Bytes were put at the end of a file, with this answer.
    pub fn grow(&mut self, path: &String, bytes: &[u8], answer: &Result<(), DeskFault>)
        ensures { desk_deeds_of self.new
            ≡ desk_deeds_of self.old ++ grown (string_bytes path.now) bytes.now answer.now ∷ [] }
    {
        self.log = self.log.and(path, &Told::Grown(told_bytes(bytes), Snapshot::of(answer)));
    }

    /// An empty file was made and opened, with this answer.
    pub fn create(&mut self, path: &String, answer: &Result<D, DeskFault>)
        ensures { desk_deeds_of self.new
            ≡ desk_deeds_of self.old ++ created (string_bytes path.now) answer.now ∷ [] }
    {
        self.log = self.log.and(path, &Told::Created(Snapshot::of(answer)));
    }

    /// A file got one name more, with this answer.
    pub fn link(&mut self, from: &String, to: &String, answer: &Result<(), DeskFault>)
        ensures { desk_deeds_of self.new ≡ desk_deeds_of self.old
            ++ linked (string_bytes from.now) (string_bytes to.now) answer.now ∷ [] }
    {
        self.log = self.log.and(from, &Told::Linked(Snapshot::of(to), Snapshot::of(answer)));
    }

    /// A file was shared as another is, with this answer.
    pub fn share(&mut self, path: &String, like: &String, answer: &Result<(), DeskFault>)
        ensures { desk_deeds_of self.new ≡ desk_deeds_of self.old
            ++ shared (string_bytes path.now) (string_bytes like.now) answer.now ∷ [] }
    {
        self.log = self.log.and(
            path,
            &Told::Shared(Snapshot::of(like), Snapshot::of(answer)),
        );
    }
}
