// Files as others see them.
use crate::bytes::{bytes_of, show_word};
use std::alloc::Global;
use std::fs::{File, Files, Permissions};
use std::io::{PipeReader, PipeWriter};
use std::os::fd::AsRawFd;
use std::os::unix::fs::{PermissionsExt, symlink};
use std::path::Path;
use std::{fs, io};
use test_cases::{Answer, no_data};
use tune_disk::{FileDisk, UnknownHistory};

/// The folder of a case, and what others have open.
#[derive(Drop)]
pub(crate) struct Others<'a> {
    folder: Path<'a>,
    locked: Option<File>,
    pipe: Option<(PipeReader, PipeWriter)>,
}

impl<'a> Others<'a> {
    /// With nothing open.
    pub(crate) fn new(folder: Path<'a>) -> Others<'a> {
        Others {
            folder,
            locked: None,
            pipe: None,
        }
    }

    /// Makes a call with a file, and answers it.
    pub(crate) fn call<R: Files<File = File> + AllocGlobal>(
        &mut self,
        rt: &R,
        name: &str,
        rest: &str,
        answer: &mut Answer,
    ) -> io::Result<()> {
        match name {
            "unlock" => self.locked = None,
            "pipe" => self.pipe = Some(io::pipe(rt)?),
            _ => return self.call_with_path(rt, name, rest, answer),
        }
        answer.say("ok");
        Ok(())
    }

    fn call_with_path<R: Files<File = File> + AllocGlobal>(
        &mut self,
        rt: &R,
        name: &str,
        rest: &str,
        answer: &mut Answer,
    ) -> io::Result<()> {
        let (word, second) = rest.split_once(' ').unwrap_or((rest, ""));
        let path = self.path(rt.alloc(), word)?;
        match name {
            "lock" => self.lock(rt, &path, answer),
            "link" | "rename" => {
                let to = self.path(rt.alloc(), second)?;
                if name == "link" {
                    symlink(rt, to.as_str(), path.as_str())?;
                } else {
                    fs::rename(rt, path.as_str(), to.as_str())?;
                }
                answer.say("ok");
                Ok(())
            }
            _ => use_file(rt, name, &path, second, answer),
        }
    }

    // Another's lock of a file.
    fn lock<R: Files<File = File>>(
        &mut self,
        rt: &R,
        path: &str,
        answer: &mut Answer,
    ) -> io::Result<()> {
        let file = fs::open(rt, path)?;
        answer.say(if file.try_lock().is_ok() {
            "ok"
        } else {
            "locked by another"
        });
        self.locked = Some(file);
        Ok(())
    }

    /// The path that a word says.
    pub(crate) fn path(&self, alloc: Global, word: &str) -> io::Result<String> {
        if let Some(below) = word.strip_prefix('@') {
            return Ok(format!(in alloc; "{}{below}", self.folder.as_str())?);
        }
        match (&self.pipe, word) {
            (Some((reader, _)), "<") => descriptor(alloc, reader.as_raw_fd()),
            (Some((_, writer)), ">") => descriptor(alloc, writer.as_raw_fd()),
            _ => String::from_utf8(bytes_of(alloc, word)?).map_err(|_| no_data()),
        }
    }
}

// Makes a file, or looks at it.
fn use_file<R: Files<File = File> + AllocGlobal>(
    rt: &R,
    name: &str,
    path: &str,
    second: &str,
    answer: &mut Answer,
) -> io::Result<()> {
    match name {
        "put" => {
            fs::write(rt, path, bytes_of(rt.alloc(), second)?.as_slice())?;
            answer.say("ok");
        }
        "remove" => {
            fs::remove_file(rt, path)?;
            answer.say("ok");
        }
        "read-only" => {
            fs::set_permissions(rt, path, Permissions::from_mode(0o444))?;
            answer.say("ok");
        }
        "get" => show_word(&fs::read(rt, path)?, answer),
        "exists" => say_yes(fs::exists(rt, path)?, answer),
        "opens-as-system" => say_yes(opens_as_system(rt, path), answer),
        _ => return Err(no_data()),
    }
    Ok(())
}

fn say_yes(is_so: bool, answer: &mut Answer) {
    answer.say(if is_so { "yes" } else { "no" });
}

// Whether a disk is opened and made there just where the system lets this user write: a superuser
// may write to any file.
fn opens_as_system<R: Files<File = File> + AllocGlobal>(rt: &R, path: &str) -> bool {
    let opens = FileDisk::open(rt, path, &UnknownHistory).is_ok();
    let makes = FileDisk::create(rt, path, &UnknownHistory).is_ok();
    let writes = File::options().write(true).open(rt, path).is_ok();
    opens == writes && makes == writes
}

// The path of a descriptor of this process.
fn descriptor(alloc: Global, number: i32) -> io::Result<String> {
    Ok(format!(in alloc; "/proc/self/fd/{number}")?)
}
