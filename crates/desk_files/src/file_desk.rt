// The files of the operating system as a desk, and what the system answered, told to people.
ghost use Rattle.std.specs.Prelude.{IfOk};
ghost use Rattle.tune_disk.specs.FileDisk.{HasJustOpened};

use crate::voice::ProgressLine;
use abc_fields::ByteText;
use desk_copies::{ByteWork, tell_bytes};
use desk_scenes::Progress;
use std::alloc::{Alloc, Global};
use std::fs::{File, Files, OpenOptions, Permissions};
use std::io::{Read, Write};
use std::os::unix::fs::{MetadataExt, PermissionsExt};
use std::path::Path;
use std::rt::Clock;
use std::time::Duration;
use std::{fs, io, thread};
use tune_desk::{Desk, DeskFault, DeskLog, Standing};
use tune_disk::{Access, FileDisk, FileHistory};

/// The device that gives no bytes.
pub const NOTHING: &str = "/dev/null";

// How long is waited between two tries for a lock.
const PAUSE_MILLIS: u64 = 100;

const TRIES_A_SECOND: u64 = 10;

// What the system answers to a write to a file that is open to read alone: `EBADF`.
const NOT_OPEN_TO_WRITE: i32 = 9;

// How many links are followed, one after another.
const MOST_LINKS: u32 = 40;

// How many bytes of a file are copied, or written, at once.
const PART: usize = 65_536;

// Of the permissions of a file: that its owner may read and write it, and that others may.
const OWN_BITS: u32 = 0o600;

const SHARED_BITS: u32 = 0o066;

/// The files of a program, by their paths. Why the device failed is told on standard error, with
/// the path.
#[derive(Drop)]
pub struct FileDesk<'a, R, H> {
    rt: &'a R,
    // The line that tells how far an order is.
    line: &'a ProgressLine<'a, R>,
    // How many seconds are waited while another program has a file.
    wait: u32,
    // The history of the file that is opened, for clauses alone.
    history: &'a H,
    // Standard input, output and error are the descriptors 0, 1 and 2. Where one of them is closed,
    // the next file that is opened takes its number, and a list would be written over a result.
    // These three are opened before it, and kept as long.
    _first: [File; 3],
    // What was asked of it: it takes no memory.
    log: DeskLog<FileDisk<H>>,
}

impl<'a, R: Files<File = File>, H> FileDesk<'a, R, H> {
    /// The error is that of `NOTHING`.
    pub fn new(
        rt: &'a R,
        line: &'a ProgressLine<'a, R>,
        wait: u32,
        history: &'a H,
    ) -> io::Result<FileDesk<'a, R, H>> {
        let first = File::open(rt, NOTHING)?;
        let second = File::open(rt, NOTHING)?;
        let third = File::open(rt, NOTHING)?;
        Ok(FileDesk {
            rt,
            line,
            wait,
            history,
            _first: [first, second, third],
            log: DeskLog::new(),
        })
    }
}

impl<'a, R: AllocGlobal, H> Alloc for FileDesk<'a, R, H> {
    type A = Global;

    fn alloc(&self) -> Global {
        self.rt.alloc()
    }
}

impl<'a, R: Files<File = File> + AllocGlobal + Clock + Eprint + Clone + Drop, H: FileHistory> Desk
    for FileDesk<'a, R, H> {
    ghost use Rattle.tune_desk.specs.DeskLog.{desk_deeds_of};

    type Disk = FileDisk<H>;

    ghost deeds = { λ desk. desk_deeds_of desk.log };

    ghost is_new = { HasJustOpened };

    fn look(&mut self, path: &String) -> Result<Standing, DeskFault> {
        let answer = told(self.line, path, standing(self.rt, path.as_str()));
        self.log.look(path, &answer);
        answer
    }

    fn is_same(&mut self, path: &String, other: &String) -> Result<bool, DeskFault> {
        let answer = are_same(self.rt, self.line, path, other);
        self.log.is_same(path, other, &answer);
        answer
    }

    fn begins(&mut self, path: &String, with: &[u8]) -> Result<bool, DeskFault> {
        let answer = told(self.line, path, begins_with(self.rt, path.as_str(), with));
        self.log.begins(path, with, &answer);
        answer
    }

    fn follow(&mut self, alloc: Global, path: &String) -> Result<String, DeskFault> {
        let answer = told(self.line, path, followed(self.rt, alloc, path.as_str()));
        self.log.follow(path, &answer);
        answer
    }

    fn read(&mut self, alloc: Global, path: &String) -> Result<ByteText, DeskFault> {
        let answer = told(self.line, path, read_whole(self.rt, alloc, path.as_str()));
        self.log.read(path, &answer);
        answer
    }

    fn names(&mut self, alloc: Global, path: &String) -> Result<Vec<String>, DeskFault> {
        let answer = told(
            self.line,
            path,
            names_in(self.rt, alloc, self.line, path.as_str()),
        );
        self.log.names(path, &answer);
        answer
    }

    fn make(&mut self, path: &String, bytes: &[u8]) -> Result<(), DeskFault> {
        let answer = told(
            self.line,
            path,
            make_whole(self.rt, self.line, path.as_str(), bytes),
        );
        self.log.make(path, bytes, &answer);
        answer
    }

    fn name(&mut self, from: &String, to: &String) -> Result<(), DeskFault> {
        let answer = match give_name(self.rt, self.line, from, to) {
            Ok(()) => kept(self.rt, self.line, to),
            Err(fault) => Err(fault),
        };
        self.log.name(from, to, &answer);
        answer
    }

    fn name_over(&mut self, from: &String, to: &String) -> Result<(), DeskFault> {
        let named = told(
            self.line,
            to,
            fs::rename(self.rt, from.as_str(), to.as_str()),
        );
        let answer = match named {
            Ok(()) => kept(self.rt, self.line, to),
            Err(fault) => Err(fault),
        };
        self.log.name_over(from, to, &answer);
        answer
    }

    fn remove(&mut self, path: &String) -> Result<(), DeskFault> {
        let answer = told(self.line, path, fs::remove_file(self.rt, path.as_str()));
        self.log.remove(path, &answer);
        answer
    }

    fn open(&mut self, path: &String, access: Access) -> Result<FileDisk<H>, DeskFault> {
        let opened = opened_in_time(self.rt, path.as_str(), access, self.wait, self.history);
        let answer = told_opening(self.line, path, opened);
        self.log.open(path, access, &answer);
        answer
    }

    fn grow(&mut self, path: &String, bytes: &[u8]) -> Result<(), DeskFault> {
        let answer = told(self.line, path, grow_by(self.rt, path.as_str(), bytes));
        self.log.grow(path, bytes, &answer);
        answer
    }

    fn create(&mut self, path: &String) -> Result<FileDisk<H>, DeskFault> {
        let created = created_in_time(self.rt, self.line, path.as_str(), self.wait, self.history);
        let answer = told_opening(self.line, path, created);
        self.log.create(path, &answer);
        answer
    }

    fn link(&mut self, from: &String, to: &String) -> Result<(), DeskFault> {
        let answer = match give_second_name(self.rt, self.line, from, to) {
            Ok(()) => kept(self.rt, self.line, to),
            Err(fault) => Err(fault),
        };
        self.log.link(from, to, &answer);
        answer
    }

    fn share(&mut self, path: &String, like: &String) -> Result<(), DeskFault> {
        let answer = match share_as(self.rt, path.as_str(), like.as_str()) {
            Ok(()) => Ok(()),
            Err(error) => Err(fault_of(&error)),
        };
        self.log.share(path, like, &answer);
        answer
    }

    fn close(&mut self, path: &String, disk: FileDisk<H>) {
        if let Some(error) = disk.cause() {
            tell_cause(self.line, path, error);
        }
        self.log.close(path, &disk);
    }
}

// ANSWERS

// Where a part of a path before its last is no folder, nothing stands at the path.
fn fault_of(error: &io::Error) -> DeskFault {
    match error.kind() {
        io::ErrorKind::NotFound | io::ErrorKind::NotADirectory => DeskFault::Missing,
        io::ErrorKind::AlreadyExists => DeskFault::Taken,
        io::ErrorKind::InvalidInput => DeskFault::NotFile,
        io::ErrorKind::WouldBlock => DeskFault::Busy,
        io::ErrorKind::OutOfMemory => DeskFault::OutOfMemory,
        _ => DeskFault::Device,
    }
}

// The fault of an error, which is told where it is one of the device.
fn told_fault<R: Eprint>(line: &ProgressLine<R>, path: &String, error: &io::Error) -> DeskFault {
    let fault = fault_of(error);
    if fault == DeskFault::Device {
        line.tell(path.as_str(), error);
    }
    fault
}

fn told<R: Eprint, T: Drop>(
    line: &ProgressLine<R>,
    path: &String,
    answer: io::Result<T>,
) -> Result<T, DeskFault> {
    match answer {
        Ok(value) => Ok(value),
        Err(error) => Err(told_fault(line, path, &error)),
    }
}

fn told_opening<R: Eprint, H: FileHistory>(
    line: &ProgressLine<R>,
    path: &String,
    answer: io::Result<FileDisk<H>>,
) -> Result<FileDisk<H>, DeskFault>
    requires { IfOk answer HasJustOpened }
    ensures { IfOk result HasJustOpened }
{
    match answer {
        Ok(disk) => Ok(disk),
        Err(error) => Err(told_fault(line, path, &error)),
    }
}

// Tells why the device of a disk failed. That a disk which was opened to read took no write is no
// failure: an archive that a stop left within a change is then opened once more.
fn tell_cause<R: Eprint>(line: &ProgressLine<R>, path: &String, error: &io::Error) {
    if error.raw_os_error() != Some(NOT_OPEN_TO_WRITE) {
        line.tell(path.as_str(), error);
    }
}

// LOOKING

fn standing<R: Files<File = File>>(rt: &R, path: &str) -> io::Result<Standing> {
    match fs::metadata(rt, path) {
        Ok(about) if about.is_file() => Ok(Standing::File),
        Ok(about) if about.is_dir() => Ok(Standing::Folder),
        Ok(_) => Ok(Standing::Other),
        Err(error) if fault_of(&error) == DeskFault::Missing => Ok(Standing::Nothing),
        Err(error) => Err(error),
    }
}

fn are_same<R: Files<File = File> + Eprint>(
    rt: &R,
    line: &ProgressLine<R>,
    path: &String,
    other: &String,
) -> Result<bool, DeskFault> {
    let one = told(line, path, fs::metadata(rt, path.as_str()))?;
    match told(line, other, fs::metadata(rt, other.as_str())) {
        Ok(two) => Ok(one.dev() == two.dev() && one.ino() == two.ino()),
        // What is not there is no file that stands: an archive that is about to be made.
        Err(DeskFault::Missing) => Ok(false),
        Err(fault) => Err(fault),
    }
}

// A regular file, open to read alone. A pipe, whose opening would wait, is not opened.
fn open_file<R: Files<File = File>>(rt: &R, path: &str) -> io::Result<File> {
    if !fs::metadata(rt, path)?.is_file() {
        return Err(io::ErrorKind::InvalidInput.into());
    }
    OpenOptions::new().read(true).open(rt, path)
}

fn begins_with<R: Files<File = File>>(rt: &R, path: &str, with: &[u8]) -> io::Result<bool> {
    let mut file = open_file(rt, path)?;
    let mut buffer = [0u8; 64];
    let mut rest = with;
    for _ in 0..u64::MAX {
        if rest.is_empty() {
            return Ok(true);
        }
        let wanted = rest.len().min(buffer.len());
        let count = file.read(&mut buffer[..wanted])?;
        if count == 0 || rest[..count] != buffer[..count] {
            return Ok(false);
        }
        rest = &rest[count..];
    }
    Ok(false)
}

fn read_whole<R: Files<File = File>>(rt: &R, alloc: Global, path: &str) -> io::Result<ByteText> {
    let mut file = open_file(rt, path)?;
    let mut bytes = Vec::new(alloc);
    file.read_to_end(&mut bytes)?;
    Ok(ByteText::from_vec(bytes))
}

// The names in a folder. One that is not UTF-8 can be given to no call: it is passed over, and that
// is told.
fn names_in<R: Files<File = File> + AllocGlobal + Eprint + Clone + Drop>(
    rt: &R,
    alloc: Global,
    line: &ProgressLine<R>,
    path: &str,
) -> io::Result<Vec<String>> {
    let mut names = Vec::new(alloc);
    for entry in fs::read_dir(rt, path)? {
        match entry {
            Ok(entry) => names.push(String::from_str(alloc, entry.file_name())?)?,
            Err(error) if error.kind() == io::ErrorKind::InvalidFilename => {
                line.clear();
                let _ = eprintln!(rt;
                    "tunes-book: {path}: a name in it is not UTF-8, and is passed over"
                );
            }
            Err(error) => return Err(error),
        }
    }
    names.sort()?;
    Ok(names)
}

// LINKS

fn folder_of(path: &str) -> &str {
    match Path::new(path).parent() {
        Some(folder) if !folder.as_str().is_empty() => folder.as_str(),
        _ => ".",
    }
}

// Where a link leads, from the folder that it stands in.
fn led(alloc: Global, link: &str, target: &str) -> io::Result<String> {
    if target.starts_with('/') {
        return Ok(String::from_str(alloc, target)?);
    }
    let folder = folder_of(link);
    Ok(format!(in alloc; "{folder}/{target}")?)
}

// The path to which a link leads, by one step; none where the path is no link.
fn step<R: Files<File = File>>(rt: &R, alloc: Global, path: &str) -> io::Result<Option<String>> {
    match fs::symlink_metadata(rt, path) {
        Ok(about) if about.is_symlink() => {
            let target = rt.read_link(alloc, path)?;
            Ok(Some(led(alloc, path, target.as_path().as_str())?))
        }
        Ok(_) => Ok(None),
        Err(error) if fault_of(&error) == DeskFault::Missing => Ok(None),
        Err(error) => Err(error),
    }
}

fn followed<R: Files<File = File>>(rt: &R, alloc: Global, path: &str) -> io::Result<String> {
    let mut at = String::from_str(alloc, path)?;
    for _ in 0..MOST_LINKS {
        match step(rt, alloc, at.as_str())? {
            Some(next) => at = next,
            None => return Ok(at),
        }
    }
    match step(rt, alloc, at.as_str())? {
        Some(_) => Err(io::ErrorKind::FilesystemLoop.into()),
        None => Ok(at),
    }
}

// WRITING

// A new file of these bytes; where it cannot be whole, nothing of it stays.
fn make_whole<R: Files<File = File> + Clock + Eprint>(
    rt: &R,
    line: &ProgressLine<R>,
    path: &str,
    bytes: &[u8],
) -> io::Result<()> {
    let mut file = File::create_new(rt, path)?;
    let mut teller = line;
    let done = fill_by_parts(&mut file, bytes, &mut teller);
    if done.is_err() {
        take_back(rt, line, path);
    }
    done
}

// Puts bytes into a file, part by part, and tells how far it is.
fn fill_by_parts<E: Progress>(file: &mut File, bytes: &[u8], teller: &mut E) -> io::Result<()> {
    let mut rest = bytes;
    for _ in 0..u64::MAX {
        if rest.is_empty() {
            return file.sync_all();
        }
        let (part, behind) = rest.split_at(rest.len().min(PART));
        file.write_all(part)?;
        rest = behind;
        let done = bytes.len().saturating_sub(rest.len());
        tell_bytes(teller, ByteWork::Write, done as u64, bytes.len() as u64);
    }
    file.sync_all()
}

// Takes away a file that is not whole. Where the system does not let it go, that is told.
fn take_back<R: Files<File = File> + Eprint>(rt: &R, line: &ProgressLine<R>, path: &str) {
    if let Err(error) = fs::remove_file(rt, path) {
        line.clear();
        let _ = eprintln!(rt;
            "tunes-book: {path}: it is not whole, and could not be taken away: {error}"
        );
    }
}

fn fill(file: &mut File, bytes: &[u8]) -> io::Result<()> {
    file.write_all(bytes)?;
    file.sync_all()
}

// Puts bytes at the end of a file.
fn grow_by<R: Files<File = File>>(rt: &R, path: &str, bytes: &[u8]) -> io::Result<()> {
    match fs::symlink_metadata(rt, path) {
        Ok(_) => grow_standing(rt, path, bytes),
        Err(error) if fault_of(&error) == DeskFault::Missing => grow_new(rt, path, bytes),
        Err(error) => Err(error),
    }
}

// Something stands there: a link that leads nowhere is `NotFound`, and a pipe is not opened.
fn grow_standing<R: Files<File = File>>(rt: &R, path: &str, bytes: &[u8]) -> io::Result<()> {
    if !fs::metadata(rt, path)?.is_file() {
        return Err(io::ErrorKind::InvalidInput.into());
    }
    let mut file = OpenOptions::new().append(true).open(rt, path)?;
    fill(&mut file, bytes)
}

fn grow_new<R: Files<File = File>>(rt: &R, path: &str, bytes: &[u8]) -> io::Result<()> {
    let mut file = File::create_new(rt, path)?;
    fill(&mut file, bytes)?;
    sync_folder(rt, path)
}

// Lets those use a file who may use another.
fn share_as<R: Files<File = File>>(rt: &R, path: &str, like: &str) -> io::Result<()> {
    let mode = fs::metadata(rt, like)?.permissions().mode();
    fs::set_permissions(
        rt,
        path,
        Permissions::from_mode(mode & SHARED_BITS | OWN_BITS),
    )
}

// Gives a file a second name, which nobody has. Where a file system has no links, a copy is made.
fn give_second_name<R: Files<File = File> + Eprint>(
    rt: &R,
    line: &ProgressLine<R>,
    from: &String,
    to: &String,
) -> Result<(), DeskFault> {
    match fs::hard_link(rt, from.as_str(), to.as_str()) {
        Ok(()) => Ok(()),
        Err(error) => match error.kind() {
            io::ErrorKind::AlreadyExists | io::ErrorKind::NotFound => {
                Err(told_fault(line, to, &error))
            }
            _ => told(line, to, copy_file(rt, line, from.as_str(), to.as_str())),
        },
    }
}

// A new file of the bytes of another, for those who may use that; where it cannot be whole, nothing
// of it stays.
fn copy_file<R: Files<File = File> + Eprint>(
    rt: &R,
    line: &ProgressLine<R>,
    from: &str,
    to: &str,
) -> io::Result<()> {
    if !fs::symlink_metadata(rt, from)?.is_file() {
        return Err(io::ErrorKind::InvalidInput.into());
    }
    let mut source = open_file(rt, from)?;
    let mut copy = File::create_new(rt, to)?;
    let _ = share_as(rt, to, from);
    let done = copy_all(&mut source, &mut copy);
    if done.is_err() {
        take_back(rt, line, to);
    }
    done
}

fn copy_all(source: &mut File, copy: &mut File) -> io::Result<()> {
    let mut buffer = [0u8; PART];
    for _ in 0..u64::MAX {
        let count = source.read(&mut buffer)?;
        if count == 0 {
            return copy.sync_all();
        }
        copy.write_all(&buffer[..count])?;
    }
    copy.sync_all()
}

// Gives a file another name, which nobody has, in the place of its own. The system itself refuses a
// second link of one name. Where a file system has no links, the file is renamed after a look.
fn give_name<R: Files<File = File> + Eprint>(
    rt: &R,
    line: &ProgressLine<R>,
    from: &String,
    to: &String,
) -> Result<(), DeskFault> {
    match fs::hard_link(rt, from.as_str(), to.as_str()) {
        Ok(()) => leave_name(rt, line, from, to),
        Err(error) => match error.kind() {
            io::ErrorKind::AlreadyExists | io::ErrorKind::NotFound => {
                Err(told_fault(line, to, &error))
            }
            _ => told(line, to, rename_to_free(rt, from.as_str(), to.as_str())),
        },
    }
}

// Takes the old name of two away; where that fails, the new one. Where neither goes, the file has
// the new name, and nothing makes the device keep it.
fn leave_name<R: Files<File = File> + Eprint>(
    rt: &R,
    line: &ProgressLine<R>,
    from: &String,
    to: &String,
) -> Result<(), DeskFault> {
    let Err(error) = fs::remove_file(rt, from.as_str()) else {
        return Ok(());
    };
    let fault = told_fault(line, from, &error);
    match fs::remove_file(rt, to.as_str()) {
        Ok(()) => Err(fault),
        Err(error) => {
            line.tell(to.as_str(), &error);
            Err(DeskFault::Unkept)
        }
    }
}

fn rename_to_free<R: Files<File = File>>(rt: &R, from: &str, to: &str) -> io::Result<()> {
    match fs::symlink_metadata(rt, to) {
        Ok(_) => Err(io::ErrorKind::AlreadyExists.into()),
        Err(error) if fault_of(&error) == DeskFault::Missing => fs::rename(rt, from, to),
        Err(error) => Err(error),
    }
}

// Has the device keep a name that was given.
fn kept<R: Files<File = File> + Eprint>(
    rt: &R,
    line: &ProgressLine<R>,
    path: &String,
) -> Result<(), DeskFault> {
    match sync_folder(rt, path.as_str()) {
        Ok(()) => Ok(()),
        Err(error) => {
            line.tell(path.as_str(), &error);
            Err(DeskFault::Unkept)
        }
    }
}

fn sync_folder<R: Files<File = File>>(rt: &R, path: &str) -> io::Result<()> {
    File::open(rt, folder_of(path))?.sync_all()
}

// OPENING

fn opened<R: Files<File = File>, H: FileHistory>(
    rt: &R,
    path: &str,
    access: Access,
    history: &H,
) -> io::Result<FileDisk<H>>
    ensures { IfOk result HasJustOpened }
{
    match access {
        Access::Read => FileDisk::try_open_to_read(rt, path, history),
        Access::Change => FileDisk::try_open(rt, path, history),
    }
}

// Tries again for so many seconds while another program has the file.
fn opened_in_time<R: Files<File = File> + Clock, H: FileHistory>(
    rt: &R,
    path: &str,
    access: Access,
    wait: u32,
    history: &H,
) -> io::Result<FileDisk<H>>
    ensures { IfOk result HasJustOpened }
{
    for _ in 0..u64::from(wait) * TRIES_A_SECOND {
        match opened(rt, path, access, history) {
            Err(error) if error.kind() == io::ErrorKind::WouldBlock => {
                thread::sleep(rt, Duration::from_millis(PAUSE_MILLIS));
            }
            answer => return answer,
        }
    }
    opened(rt, path, access, history)
}

// A new file without a byte, as a disk. Where it cannot be opened, nothing of it stays.
fn create_disk<R: Files<File = File> + Eprint, H: FileHistory>(
    rt: &R,
    line: &ProgressLine<R>,
    path: &str,
    history: &H,
) -> io::Result<FileDisk<H>>
    ensures { IfOk result HasJustOpened }
{
    let made = File::create_new(rt, path)?;
    match FileDisk::try_open(rt, path, history) {
        Ok(disk) => match leads_to(rt, path, &made) {
            Ok(true) => Ok(disk),
            Ok(false) => Err(io::ErrorKind::WouldBlock.into()),
            Err(error) => Err(error),
        },
        Err(error) => {
            take_back(rt, line, path);
            Err(error)
        }
    }
}

// Tries again for so many seconds while another program makes a file there.
fn created_in_time<R: Files<File = File> + Clock + Eprint, H: FileHistory>(
    rt: &R,
    line: &ProgressLine<R>,
    path: &str,
    wait: u32,
    history: &H,
) -> io::Result<FileDisk<H>>
    ensures { IfOk result HasJustOpened }
{
    for tried in 0..u64::from(wait) * TRIES_A_SECOND {
        match create_disk(rt, line, path, history) {
            Err(error) if is_in_work(rt, path, tried, &error, history) => {
                thread::sleep(rt, Duration::from_millis(PAUSE_MILLIS));
            }
            answer => return answer,
        }
    }
    create_disk(rt, line, path, history)
}

// Whether another program makes the file for which this is the answer. One that was just made may
// not be locked yet, so for a second each is taken for one in work; what a crash left has no lock.
fn is_in_work<R: Files<File = File>, H: FileHistory>(
    rt: &R,
    path: &str,
    tried: u64,
    error: &io::Error,
    history: &H,
) -> bool {
    match error.kind() {
        io::ErrorKind::WouldBlock => true,
        io::ErrorKind::AlreadyExists => tried < TRIES_A_SECOND || is_held(rt, path, history),
        _ => false,
    }
}

// Whether another program has a file open to change it.
fn is_held<R: Files<File = File>, H: FileHistory>(rt: &R, path: &str, history: &H) -> bool {
    match FileDisk::try_open_to_read(rt, path, history) {
        Ok(_) => false,
        Err(error) => error.kind() == io::ErrorKind::WouldBlock,
    }
}

// Whether a path leads to this file: another program may have given it to another by now.
fn leads_to<R: Files<File = File>>(rt: &R, path: &str, file: &File) -> io::Result<bool> {
    let named = fs::metadata(rt, path)?;
    let opened = file.metadata()?;
    Ok(named.dev() == opened.dev() && named.ino() == opened.ino())
}
