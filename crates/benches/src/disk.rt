// The bench of a disk over a file.
use crate::words::number;
use anyhow::{Result, bail};
use std::fs::{File, Files};
use tune_disk::{DeviceFault, Disk, FileDisk, UnknownHistory};

const PAGES: u32 = 256;

const PAGE: u32 = 4_096;

/// Fills a file, and prints how long it then is.
pub(crate) fn run<R: Files<File = File> + Print>(rt: &R, words: &[&str]) -> Result<()> {
    let [path, rounds] = words else {
        bail!("usage: benches disk FILE ROUNDS");
    };
    let rounds = number(rounds, u32::MAX)?;
    let mut disk = FileDisk::try_create(rt, *path, &UnknownHistory)?;
    let size = fill(&mut disk, rounds)?;
    println!(rt; "{size}")?;
    Ok(())
}

// The rounds, and the length after them.
fn fill<D: Disk>(disk: &mut D, rounds: u32) -> Result<u64, DeviceFault> {
    let page = [0x5a; PAGE as usize];
    for round in 0..rounds {
        disk.write_at(u64::from(round % PAGES * PAGE), &page)?;
        disk.sync()?;
    }
    disk.len()
}
