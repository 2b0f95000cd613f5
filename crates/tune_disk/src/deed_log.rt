// What a drive was asked.
ghost use Rattle.std.specs.Prelude.{◌≡◌, ◌++◌, ◌∷◌, [], List, string_bytes};
ghost use Rattle.tune_disk.specs.DeedLog.{deeds_of};
ghost use Rattle.tune_disk.specs.Deeds.{opened, created, closed};

use crate::DeviceFault;
use http_server::Log;
use std::snapshot::Snapshot;

/// What a drive was asked and what it gave, kept for clauses alone: it takes no memory. A clause
/// reads it by `deeds_of`.
#[derive(Drop)]
pub struct DeedLog<D: Drop> {
    log: Log<String, Gave<D>>,
}

// What a drive gave for a path, or took.
#[derive(Drop)]
pub(crate) enum Gave<D: Drop> {
    Opened(Snapshot<Result<D, DeviceFault>>),
    Created(Snapshot<Result<D, DeviceFault>>),
    Closed(Snapshot<D>),
}

impl<D: Drop> DeedLog<D> {
    /// Nothing yet.
    pub fn new() -> DeedLog<D>
        ensures { deeds_of result ≡ [] }
    {
        DeedLog { log: Log::new() }
    }

    /// A file was opened as it is, with this answer.
    pub fn open(&mut self, path: &String, answer: &Result<D, DeviceFault>)
        ensures { deeds_of self.new
            ≡ deeds_of self.old ++ opened (string_bytes path.now) answer.now ∷ [] }
    {
        self.log = self.log.and(path, &Gave::Opened(Snapshot::of(answer)));
    }

    /// A file was opened, or made where nothing was there, with this answer.
    pub fn create(&mut self, path: &String, answer: &Result<D, DeviceFault>)
        ensures { deeds_of self.new
            ≡ deeds_of self.old ++ created (string_bytes path.now) answer.now ∷ [] }
    {
        self.log = self.log.and(path, &Gave::Created(Snapshot::of(answer)));
    }

    /// This disk was closed.
    pub fn close(&mut self, path: &String, disk: &D)
        ensures { deeds_of self.new
            ≡ deeds_of self.old ++ closed (string_bytes path.now) disk.now ∷ [] }
    {
        self.log = self.log.and(path, &Gave::Closed(Snapshot::of(disk)));
    }
}
