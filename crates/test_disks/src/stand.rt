// The stand on which the calls of a case are made.
use crate::bytes::{byte_of, bytes_of, show_word};
use crate::devices::Device;
use crate::disk_calls::{DiskCall, say_whether_done};
use crate::files::Others;
use std::alloc::{AllocError, Global};
use std::fs::{File, Files};
use std::path::Path;
use std::{fs, io, mem};
use test_cases::{Answer, Bench, Words, no_data};
use tune_disk::{FileDisk, MemoryDisk, StopChoice, UnknownHistory};

/// The disk that calls are made of, another that was put aside, and the files round them.
#[derive(Drop)]
pub(crate) struct Stand<'a, R> {
    rt: &'a R,
    folder: Path<'a>,
    device: Device,
    aside: Device,
    others: Others<'a>,
}

impl<'a, R: Files<File = File> + AllocGlobal> Bench for Stand<'a, R> {
    fn begin(&mut self, _given: &str) -> io::Result<()> {
        self.device = Device::None;
        self.aside = Device::None;
        self.others = Others::new(self.folder);
        fs::remove_dir_all(self.rt, self.folder)?;
        fs::create_dir(self.rt, self.folder)
    }

    fn call(&mut self, name: &str, words: Words<'_>, answer: &mut Answer) -> io::Result<()> {
        match name {
            "len" | "sync" | "read" | "write" => self.call_disk(name, words, answer),
            "bytes" | "lost" | "kept" | "fill" => self.look(name, words, answer),
            "leave" => self.leave(answer),
            "create" | "open" => self.open_file(name, words, answer),
            "memory" | "fuse" | "one-fault" | "inner" | "swap" | "close" => {
                self.change(name, words)?;
                answer.say("ok");
                Ok(())
            }
            _ => self.others.call(self.rt, name, words.rest(), answer),
        }
    }
}

impl<'a, R: Files<File = File> + AllocGlobal> Stand<'a, R> {
    /// Without a disk.
    pub(crate) fn new(rt: &'a R, folder: Path<'a>) -> Stand<'a, R> {
        Stand {
            rt,
            folder,
            device: Device::None,
            aside: Device::None,
            others: Others::new(folder),
        }
    }

    // Makes a call of the disk.
    fn call_disk(&mut self, name: &str, words: Words<'_>, answer: &mut Answer) -> io::Result<()> {
        let (call, mut bytes) = read_call(self.rt.alloc(), name, words)?;
        self.device.call(call, &mut bytes, answer);
        Ok(())
    }

    // Goes on with another disk.
    fn change(&mut self, name: &str, words: Words<'_>) -> io::Result<()> {
        match name {
            "memory" => self.device = Device::Memory(memory_disk(self.rt.alloc(), words.rest())?),
            "inner" => self.device = self.take().inner(),
            "swap" => mem::swap(&mut self.device, &mut self.aside),
            "close" => self.device = Device::None,
            _ => return self.cover(name, words),
        }
        Ok(())
    }

    // The disk, in whose place there is none.
    fn take(&mut self) -> Device {
        mem::replace(&mut self.device, Device::None)
    }

    // Puts something round the disk.
    fn cover(&mut self, name: &str, mut words: Words<'_>) -> io::Result<()> {
        let number = words.long().ok_or(no_data())?;
        let device = self.take();
        self.device = if name == "fuse" {
            device.fused(number)
        } else {
            device.faulted(number)
        };
        Ok(())
    }

    // Looks at a disk in memory.
    fn look(&self, name: &str, words: Words<'_>, answer: &mut Answer) -> io::Result<()> {
        let Device::Memory(disk) = &self.device else {
            answer.say("no disk");
            return Ok(());
        };
        match name {
            "bytes" => show_word(disk.bytes(), answer),
            "lost" => show_stopped(disk, StopChoice::Lost, answer)?,
            "kept" => show_stopped(disk, StopChoice::Kept, answer)?,
            _ => {
                let byte = words.rest().as_bytes().first().copied().ok_or(no_data())?;
                show_stopped(disk, StopChoice::Fill(byte_of(byte)), answer)?
            }
        }
        Ok(())
    }

    // Goes on with what a stop leaves, and puts the disk aside.
    fn leave(&mut self, answer: &mut Answer) -> io::Result<()> {
        let Device::Memory(disk) = &self.device else {
            answer.say("no disk");
            return Ok(());
        };
        let left = disk.stopped(StopChoice::Kept)?;
        self.aside = mem::replace(&mut self.device, Device::Memory(left));
        answer.say("ok");
        Ok(())
    }

    // Goes on with a disk over a file.
    fn open_file(&mut self, name: &str, words: Words<'_>, answer: &mut Answer) -> io::Result<()> {
        let path = self.others.path(self.rt.alloc(), words.rest())?;
        let opened = if name == "create" {
            FileDisk::create(self.rt, path.as_str(), &UnknownHistory)
        } else {
            FileDisk::open(self.rt, path.as_str(), &UnknownHistory)
        };
        say_whether_done(opened.is_ok(), answer);
        if let Ok(disk) = opened {
            self.device = Device::File(disk);
        }
        Ok(())
    }
}

// The call of a name, and the bytes beside it: a buffer that holds other bytes, or those to write.
fn read_call(alloc: Global, name: &str, mut words: Words<'_>) -> io::Result<(DiskCall, Vec<u8>)> {
    match name {
        "len" => Ok((DiskCall::Len, Vec::new(alloc))),
        "sync" => Ok((DiskCall::Sync, Vec::new(alloc))),
        "read" => {
            let at = words.long().ok_or(no_data())?;
            Ok((DiskCall::Read(at), buffer(alloc, words)?))
        }
        _ => {
            let at = words.long().ok_or(no_data())?;
            Ok((DiskCall::Write(at), bytes_of(alloc, words.rest())?))
        }
    }
}

// A buffer of so many bytes.
fn buffer(alloc: Global, mut words: Words<'_>) -> io::Result<Vec<u8>> {
    let size = words.short().ok_or(no_data())?;
    Ok(vec![in alloc; 0xee; size as usize]?)
}

fn show_stopped(
    disk: &MemoryDisk,
    choice: StopChoice,
    answer: &mut Answer,
) -> Result<(), AllocError> {
    let left = disk.stopped(choice)?;
    show_word(left.bytes(), answer);
    Ok(())
}

// A disk in memory that holds these bytes.
fn memory_disk(alloc: Global, word: &str) -> Result<MemoryDisk, AllocError> {
    let bytes = bytes_of(alloc, word)?;
    if bytes.is_empty() {
        return Ok(MemoryDisk::new(alloc));
    }
    MemoryDisk::from_bytes(alloc, &bytes)
}
