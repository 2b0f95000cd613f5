// A disk over a file of the operating system.
ghost use Rattle.std.specs.Prelude.{◌≡◌, ◌≢◌, ◌+◌, ◌^◌, ◌≤◌, ◌↔◌, length, [], IfOk, OnOk, OnErr};
ghost use Rattle.std.specs.Prelude.{IfSome, IsErr, IsTrue, MatchResult};
ghost use Rattle.std.specs.Path.{path_parent};
ghost use Rattle.tune_disk.specs.Disk.{CountsFailure, CountsUp, Calls, Looks, Shows, Writes, Syncs};
ghost use Rattle.tune_disk.specs.Inside.MayStay.{TellingMayStay};
ghost use Rattle.tune_disk.specs.Inside.ToldMore.{IsToldMore, IsToldRead, IsToldWrite};
ghost use Rattle.tune_disk.specs.Inside.ToldMore.{IsToldBroken, IsToldTaken};

mod calls;
mod history;
mod told;

use crate::{DeviceFault, Disk};
use calls::{make_stable, measure, read_part, write_part};
pub use history::{FileHistory, UnknownHistory};
use http_server::Log;
use std::fs::{File, Files, OpenOptions};
use std::os::unix::fs::MetadataExt;
use std::path::{AsPath, Path};
use std::snapshot::Snapshot;
use std::{fs, io};
use told::Told;

/// What a file is opened for.
#[derive(Clone, Copy, Debug, PartialEq, Eq)]
pub enum Access {
    /// To read alone, beside others that do.
    Read,
    /// To read and write, alone.
    Change,
}

// How often a file is opened, where its path leads to another each time that one is locked.
const MOST_OPENINGS: u32 = 8;

/// A file of the operating system, open for reading and writing, and locked as long as it is: no
/// other `FileDisk` has the same file, in this program or another; or open to read alone, beside
/// others that read. (The lock is the system's `flock`, which binds only those who ask for it.) It
/// is the file to which its path led when it was locked. Its answers are kept for clauses alone,
/// which speak of files whose answers fit the history that was handed in at the opening.
///
/// A sync that failed is final: each later call is a fault. Linux forgets what an `fdatasync` that
/// failed did not write, and answers that a second one went well.
#[derive(Drop)]
pub struct FileDisk<H> {
    file: File,
    sync_failed: bool,
    // What was handed in at the opening, and what the file told since. Clauses alone read them:
    // they take no memory.
    history: Snapshot<H>,
    log: Log<u64, Told>,
    faults: Faults,
    // While what the file tells fits, what a read gives is one of the files that a stop may leave.
    ghost stays: { TellingMayStay log.items },
}

// How many calls have failed, and what the system answered the first of them.
#[derive(Drop)]
struct Faults {
    count: u64,
    first: Option<io::Error>,
}

impl<H: FileHistory> FileDisk<H> {
    ghost use Rattle.tune_disk.specs.FileDisk.{HasJustOpened, file_history};

    /// The file at this path, as it is. A fault where the path leads to no regular file (but to a
    /// device, a pipe, a folder or nothing), where the file may not be read and written, or where
    /// another has locked it.
    pub fn open<R: Files<File = File>, P: AsPath>(
        rt: &R,
        path: P,
        history: &H,
    ) -> Result<FileDisk<H>, DeviceFault>
        ensures opened { IfOk result HasJustOpened }
        ensures history { IfOk result
            (λ disk. file_history H.history disk ≡ H.history history.now) }
    {
        match FileDisk::try_open(rt, path, history) {
            Ok(disk) => Ok(disk),
            Err(_) => Err(DeviceFault),
        }
    }

    /// As `open`, with the answer of the system in the place of a fault: `InvalidInput` where the
    /// path leads to no regular file, and `WouldBlock` where another has locked the file, or the
    /// path leads to another file each time that one is locked.
    pub fn try_open<R: Files<File = File>, P: AsPath>(
        rt: &R,
        path: P,
        history: &H,
    ) -> io::Result<FileDisk<H>>
        ensures opened { IfOk result HasJustOpened }
        ensures history { IfOk result
            (λ disk. file_history H.history disk ≡ H.history history.now) }
    {
        let file = open_locked(rt, path.path_text(), Access::Change)?;
        Ok(FileDisk::over(file, history))
    }

    /// As `try_open`, to read alone: the file need not be one that may be written, and its lock is
    /// one that readers share, so several may have the file at once in this way, and none that
    /// writes. Each write of such a disk is a fault.
    pub fn try_open_to_read<R: Files<File = File>, P: AsPath>(
        rt: &R,
        path: P,
        history: &H,
    ) -> io::Result<FileDisk<H>>
        ensures opened { IfOk result HasJustOpened }
        ensures history { IfOk result
            (λ disk. file_history H.history disk ≡ H.history history.now) }
    {
        let file = open_locked(rt, path.path_text(), Access::Read)?;
        Ok(FileDisk::over(file, history))
    }

    /// The file at this path, as it is, or a new empty one where nothing is there. The folder that
    /// the path names is synced, so that a stop leaves a new file there. A fault where none can be
    /// made, also where a symbolic link leads to nothing, and where `open` has one.
    pub fn create<R: Files<File = File>, P: AsPath>(
        rt: &R,
        path: P,
        history: &H,
    ) -> Result<FileDisk<H>, DeviceFault>
        ensures opened { IfOk result HasJustOpened }
        ensures history { IfOk result
            (λ disk. file_history H.history disk ≡ H.history history.now) }
    {
        match FileDisk::try_create(rt, path, history) {
            Ok(disk) => Ok(disk),
            Err(_) => Err(DeviceFault),
        }
    }

    /// As `create`, with the answer of the system in the place of a fault.
    pub fn try_create<R: Files<File = File>, P: AsPath>(
        rt: &R,
        path: P,
        history: &H,
    ) -> io::Result<FileDisk<H>>
        ensures opened { IfOk result HasJustOpened }
        ensures history { IfOk result
            (λ disk. file_history H.history disk ≡ H.history history.now) }
    {
        let file = make_locked(rt, path.path_text())?;
        sync_folder(rt, path.path_text())?;
        Ok(FileDisk::over(file, history))
    }

    /// What the system answered the first call that failed, if one did. (It is for people: no
    /// clause speaks of it.)
    pub fn cause(&self) -> Option<&io::Error> {
        self.faults.first.as_ref()
    }

    fn over(file: File, history: &H) -> FileDisk<H>
        ensures opened { HasJustOpened result }
        ensures history { file_history H.history result ≡ H.history history.now }
    {
        FileDisk {
            file,
            sync_failed: false,
            history: Snapshot::of(history),
            log: Log::new(),
            faults: Faults {
                count: 0,
                first: None,
            },
        }
    }
}

// The file that a path leads to, locked. Between the opening and the lock another program may give
// the path to another file, which is then opened in the place of the first.
fn open_locked<R: Files<File = File>>(rt: &R, path: &str, access: Access) -> io::Result<File> {
    for _ in 0..MOST_OPENINGS {
        let file = open_regular(rt, path, access)?;
        if let Some(file) = lock(rt, path, file, access)? {
            return Ok(file);
        }
    }
    Err(io::ErrorKind::WouldBlock.into())
}

// Likewise, and where the path leads to nothing, also after the lock, a new file.
fn make_locked<R: Files<File = File>>(rt: &R, path: &str) -> io::Result<File> {
    for _ in 0..MOST_OPENINGS {
        match lock(rt, path, open_or_make(rt, path)?, Access::Change) {
            Err(error) if error.kind() == io::ErrorKind::NotFound => {}
            Err(error) => return Err(error),
            Ok(Some(file)) => return Ok(file),
            Ok(None) => {}
        }
    }
    Err(io::ErrorKind::WouldBlock.into())
}

// A path that leads to a device or a pipe is not opened at all, since that alone may do something.
fn open_regular<R: Files<File = File>>(rt: &R, path: &str, access: Access) -> io::Result<File> {
    if !fs::metadata(rt, path)?.is_file() {
        return Err(io::ErrorKind::InvalidInput.into());
    }
    let mut how = OpenOptions::new();
    how.read(true)
        .write(access == Access::Change)
        .open(rt, path)
}

// A file that is made follows no link, so it stands in the folder that the path names.
fn open_or_make<R: Files<File = File>>(rt: &R, path: &str) -> io::Result<File> {
    match open_regular(rt, path, Access::Change) {
        Err(error) if error.kind() == io::ErrorKind::NotFound => File::create_new(rt, path),
        opened => opened,
    }
}

// The file with its lock, which it has until it is closed; or none, where the path leads to another
// by now. What was opened is asked again whether it is a regular file, since it may be another than
// the one that was asked before.
fn lock<R: Files<File = File>>(
    rt: &R,
    path: &str,
    file: File,
    access: Access,
) -> io::Result<Option<File>> {
    let opened = file.metadata()?;
    if !opened.is_file() {
        return Err(io::ErrorKind::InvalidInput.into());
    }
    match access {
        Access::Read => file.try_lock_shared()?,
        Access::Change => file.try_lock()?,
    }
    let named = fs::metadata(rt, path)?;
    if named.dev() == opened.dev() && named.ino() == opened.ino() {
        Ok(Some(file))
    } else {
        Ok(None)
    }
}

// Syncs the folder that a path names, so that a stop leaves a new file there.
fn sync_folder<R: Files<File = File>>(rt: &R, path: &str) -> io::Result<()> {
    File::open(rt, folder_of(path))?.sync_all()
}

// The parent of a path, and `.` where it has none of a name.
fn folder_of(path: &str) -> &str
    ensures { IfSome (path_parent path.now) (λ folder. folder ≢ [] → result.now ≡ folder) }
{
    match Path::new(path).parent() {
        Some(folder) if !folder.as_str().is_empty() => folder.as_str(),
        _ => ".",
    }
}

impl<H: FileHistory> Disk for FileDisk<H> {
    ghost use Rattle.tune_disk.specs.FileDisk.{file_state, file_failures, file_history};
    ghost use Rattle.tune_disk.specs.FileDisk.{FileIsHonest, SyncHasFailed};

    ghost state = { file_state H.history };

    ghost failures = { file_failures };

    ghost honest = { FileIsHonest H.history };

    ghost seen_may_stay = { λ disk honest.
        disk.stays (file_history H.history disk) honest.opened honest.told };

    fn len(&mut self) -> Result<u64, DeviceFault>
        ensures len { IfOk result (λ n. FileIsHonest H.history self.new
            → n ≡ length (file_state H.history self.old).seen) }
        ensures looks { Looks (FileIsHonest H.history) file_failures (file_state H.history)
            result self.old self.new }
        ensures refused { SyncHasFailed self.old → IsErr result }
        ensures syncs { SyncHasFailed self.new ↔ SyncHasFailed self.old }
    {
        go_on(self.sync_failed, &mut self.faults)?;
        let size = measure(&self.file, &mut self.log);
        counted(size, &mut self.faults)
    }

    fn read(&mut self, at: u64, into: &mut [u8]) -> Result<(), DeviceFault>
        requires { at + length into.old ≤ 2 ^ 40 }
        ensures read { OnOk result (FileIsHonest H.history self.new
            → Shows (file_state H.history self.old).seen at into.new) }
        ensures looks { Looks (FileIsHonest H.history) file_failures (file_state H.history)
            result self.old self.new }
        ensures refused { SyncHasFailed self.old → IsErr result }
        ensures syncs { SyncHasFailed self.new ↔ SyncHasFailed self.old }
    {
        go_on(self.sync_failed, &mut self.faults)?;
        let done = read_all(&self.file, &mut self.log, at, into);
        counted(done, &mut self.faults)
    }

    fn write_at(&mut self, at: u64, bytes: &[u8]) -> Result<(), DeviceFault>
        requires { at + length bytes.now ≤ 2 ^ 40 }
        ensures write { FileIsHonest H.history self.new → Writes at bytes.now result
            (file_state H.history self.old) (file_state H.history self.new) }
        ensures calls { Calls (FileIsHonest H.history) file_failures result self.old self.new }
        ensures refused { SyncHasFailed self.old → IsErr result }
        ensures syncs { SyncHasFailed self.new ↔ SyncHasFailed self.old }
    {
        go_on(self.sync_failed, &mut self.faults)?;
        let done = write_all(&self.file, &mut self.log, at, bytes);
        counted(done, &mut self.faults)
    }

    fn sync(&mut self) -> Result<(), DeviceFault>
        ensures sync { FileIsHonest H.history self.new
            → Syncs result (file_state H.history self.old) (file_state H.history self.new) }
        ensures calls { Calls (FileIsHonest H.history) file_failures result self.old self.new }
        ensures refused { SyncHasFailed self.old → IsErr result }
        ensures syncs { SyncHasFailed self.new ↔ IsErr result }
    {
        go_on(self.sync_failed, &mut self.faults)?;
        let done = make_stable(&self.file, &mut self.log);
        self.sync_failed = done.is_err();
        counted(done, &mut self.faults)
    }
}

// Fails where a sync has failed.
fn go_on(sync_failed: bool, faults: &mut Faults) -> Result<(), DeviceFault>
    ensures refused { IsErr result ↔ IsTrue sync_failed }
    ensures counted { CountsFailure result faults.old.count faults.new.count }
{
    if sync_failed {
        return Err(fault(faults));
    }
    Ok(())
}

// The answer without its error, which is counted, and kept where it is the first.
fn counted<T: Drop>(done: io::Result<T>, faults: &mut Faults) -> Result<T, DeviceFault>
    ensures same { MatchResult done (λ v. result ≡ Ok v) (λ _. IsErr result) }
    ensures counted { CountsFailure result faults.old.count faults.new.count }
{
    match done {
        Ok(value) => Ok(value),
        Err(error) => {
            if faults.first.is_none() {
                faults.first = Some(error);
            }
            Err(fault(faults))
        }
    }
}

fn fault(faults: &mut Faults) -> DeviceFault
    ensures { CountsUp faults.old.count faults.new.count }
{
    faults.count = faults.count.saturating_add(1);
    DeviceFault
}

// Reads until all the bytes are there; past the end of the file they are zeros.
fn read_all(file: &File, log: &mut Log<u64, Told>, at: u64, into: &mut [u8]) -> io::Result<()>
    requires { at + length into.old ≤ 2 ^ 40 }
    ensures ok { OnOk result
        (IsToldRead at (length into.new) into.new log.old.items log.new.items) }
    ensures err { OnErr result (IsToldMore log.old.items log.new.items) }
{
    let size = into.len();
    let mut done = 0;
    while done < size {
        done += read_part(file, log, at + done as u64, &mut into[done..])?;
    }
    Ok(())
}

// Writes all of these bytes, and tells how that ended.
fn write_all(file: &File, log: &mut Log<u64, Told>, at: u64, bytes: &[u8]) -> io::Result<()>
    requires { at + length bytes.now ≤ 2 ^ 40 }
    ensures ok { OnOk result (IsToldWrite at bytes.now log.old.items log.new.items) }
    ensures err { OnErr result (IsToldBroken at (length bytes.now) log.old.items log.new.items) }
{
    *log = log.and(&at, &Told::Begun);
    let done = write_parts(file, log, at, bytes);
    match done {
        Ok(()) => *log = log.and(&at, &Told::Wrote),
        Err(_) => *log = log.and(&at, &Told::Broke(bytes.len() as u64)),
    }
    done
}

// Writes until the system has taken all the bytes.
fn write_parts(file: &File, log: &mut Log<u64, Told>, at: u64, bytes: &[u8]) -> io::Result<()>
    requires { at + length bytes.now ≤ 2 ^ 40 }
    ensures ok { OnOk result (IsToldTaken bytes.now log.old.items log.new.items) }
    ensures err { OnErr result (IsToldMore log.old.items log.new.items) }
{
    let mut done = 0;
    while done < bytes.len() {
        done += write_part(file, log, at + done as u64, &bytes[done..])?;
    }
    Ok(())
}
