// The files of the operating system as disks, and what it answered, told to people.
ghost use Rattle.std.specs.Prelude.{IfOk};
ghost use Rattle.tune_disk.specs.FileDisk.{HasJustOpened};

use std::alloc::{Alloc, Global};
use std::fs::{File, Files};
use std::io;
use tune_disk::{DeedLog, DeviceFault, Drive, FileDisk, FileHistory};

/// The device that gives no bytes.
pub(crate) const NOTHING: &str = "/dev/null";

/// Opens files as disks. Why one cannot be opened, and why its device failed, is told on standard
/// error, with its path.
#[derive(Drop)]
pub(crate) struct FileDrive<'a, R, H> {
    rt: &'a R,
    // The history of the file that is opened, for clauses alone.
    history: &'a H,
    // Standard input, output and error are the descriptors 0, 1 and 2. Where one of them is closed,
    // the next file that is opened takes its number, and replies would be written over an archive.
    // These three are opened before it, and kept as long.
    _first: [File; 3],
    // What was asked of it: it takes no memory.
    log: DeedLog<FileDisk<H>>,
}

impl<'a, R: Files<File = File>, H> FileDrive<'a, R, H> {
    /// The error is that of `NOTHING`.
    pub(crate) fn new(rt: &'a R, history: &'a H) -> io::Result<FileDrive<'a, R, H>> {
        let first = File::open(rt, NOTHING)?;
        let second = File::open(rt, NOTHING)?;
        let third = File::open(rt, NOTHING)?;
        Ok(FileDrive {
            rt,
            history,
            _first: [first, second, third],
            log: DeedLog::new(),
        })
    }
}

impl<'a, R: AllocGlobal, H> Alloc for FileDrive<'a, R, H> {
    type A = Global;

    fn alloc(&self) -> Global {
        self.rt.alloc()
    }
}

impl<'a, R: Files<File = File> + Eprint, H: FileHistory> Drive for FileDrive<'a, R, H> {
    ghost use Rattle.tune_disk.specs.DeedLog.{deeds_of};

    type Disk = FileDisk<H>;

    ghost deeds = { λ drive. deeds_of drive.log };

    ghost is_new = { HasJustOpened };

    fn open(&mut self, path: &String) -> Result<FileDisk<H>, DeviceFault> {
        let answer = told(
            self.rt,
            path,
            FileDisk::try_open(self.rt, path.as_str(), self.history),
        );
        self.log.open(path, &answer);
        answer
    }

    fn create(&mut self, path: &String) -> Result<FileDisk<H>, DeviceFault> {
        let answer = told(
            self.rt,
            path,
            FileDisk::try_create(self.rt, path.as_str(), self.history),
        );
        self.log.create(path, &answer);
        answer
    }

    fn close(&mut self, path: &String, disk: FileDisk<H>) {
        if let Some(error) = disk.cause() {
            tell(self.rt, path.as_str(), error);
        }
        self.log.close(path, &disk);
    }
}

// The answer to an opening, whose error is told.
fn told<R: Eprint, H: FileHistory>(
    rt: &R,
    path: &String,
    answer: io::Result<FileDisk<H>>,
) -> Result<FileDisk<H>, DeviceFault>
    requires { IfOk answer HasJustOpened }
    ensures { IfOk result HasJustOpened }
{
    match answer {
        Ok(disk) => Ok(disk),
        Err(error) => {
            tell(rt, path.as_str(), &error);
            Err(DeviceFault)
        }
    }
}

/// Tells what the system answered of a path, or of a stream. Where that cannot be written, the
/// status says enough.
pub(crate) fn tell<R: Eprint>(rt: &R, path: &str, error: &io::Error) {
    let _ = match error.kind() {
        io::ErrorKind::InvalidInput => eprintln!(rt; "tunes: {path}: not a regular file"),
        io::ErrorKind::WouldBlock => eprintln!(rt; "tunes: {path}: another program has it"),
        _ => eprintln!(rt; "tunes: {path}: {error}"),
    };
}
