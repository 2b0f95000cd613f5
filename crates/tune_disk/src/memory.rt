// A disk in memory, which keeps a record of its writes and syncs.
ghost use Rattle.std.specs.Prelude.{◌≡◌, ◌∷◌, ◌++◌, [], ◌<◌, ◌≤◌, ◌^◌, ◌+◌, IfOk, OnOk, OnErr};
ghost use Rattle.std.specs.Prelude.{IsOk, is_ok, ℕ, List, length, take, drop, ◌-◌, replicate};
ghost use Rattle.tune_disk.specs.Inside.Fills.{Fills, IsLastSync};
ghost use Rattle.tune_disk.specs.Inside.MayStay.{SeenMayStay};
ghost use Rattle.tune_disk.specs.Disk.{Written, Writes, Shows, CountsFailure};
ghost use Rattle.tune_disk.specs.Records.{state_of_records};

use crate::buffers::{clear_from, copy_front};
use crate::{DeviceFault, Disk};
use std::alloc::{AllocError, Global};

/// What was done to a file: these bytes were written at this offset, or it was synced.
#[derive(Drop)]
pub(crate) enum Record {
    Write(u64, Vec<u8>),
    Sync,
}

/// Which of the files that a stop (a crash or power loss) may leave.
#[derive(Clone, Copy, Debug, PartialEq, Eq)]
pub enum StopChoice {
    /// What the last sync left, as where nothing written since came to the disk.
    Lost,
    /// The present content, as where all that was written came to the disk.
    Kept,
    /// A file as long as the present one, in which each byte that was written since the last sync,
    /// and each past the end that this left, is this one.
    Fill(u8),
}

/// A file in memory, which is always honest. It keeps a record of all its writes and syncs, so that
/// it can show what a stop would leave; a write or a sync that finds no memory for its record is a
/// fault, and changes nothing.
#[derive(Drop)]
pub struct MemoryDisk {
    alloc: Global,
    first: Vec<u8>,
    records: Vec<Record>,
    content: Vec<u8>,
    failed: u64,
    ghost replays: { content.items ≡ (state_of_records first.items records.items).seen },
    // What a read gives is one of the files that a stop may leave.
    ghost stays: { SeenMayStay (state_of_records first.items records.items) },
}

impl MemoryDisk {
    ghost use Rattle.tune_disk.specs.Disk.{fresh, MayLeave};
    ghost use Rattle.tune_disk.specs.Memory.{memory_state, IsFilled};

    /// A file without a byte. It takes no memory yet.
    pub fn new(alloc: Global) -> MemoryDisk
        ensures { memory_state result ≡ fresh [] }
    {
        MemoryDisk {
            alloc,
            first: Vec::new(alloc),
            records: Vec::new(alloc),
            content: Vec::new(alloc),
            failed: 0,
        }
    }

    /// A file of these bytes, all of them stable. `AllocError` where there is no memory for it.
    pub fn from_bytes(alloc: Global, bytes: &[u8]) -> Result<MemoryDisk, AllocError>
        ensures { IfOk result (λ disk. memory_state disk ≡ fresh bytes.now) }
    {
        MemoryDisk::holding(alloc, bytes.to_vec(alloc)?)
    }

    /// The present content.
    pub fn bytes(&self) -> &[u8]
        ensures { result.now ≡ (memory_state self.now).seen }
    {
        &self.content
    }

    /// One of the files that a stop may leave now, as a disk that holds just that. `AllocError`
    /// where there is no memory for it.
    pub fn stopped(&self, choice: StopChoice) -> Result<MemoryDisk, AllocError>
        ensures file { IfOk result (λ disk.
            MayLeave (memory_state self.now).now (memory_state disk).seen) }
        ensures fresh { IfOk result (λ disk. memory_state disk ≡ fresh (memory_state disk).seen) }
        ensures lost { IfOk result (λ disk. choice ≡ StopChoice.Lost
            → (memory_state disk).seen ≡ (memory_state self.now).now.stable) }
        ensures kept { IfOk result (λ disk. choice ≡ StopChoice.Kept
            → (memory_state disk).seen ≡ (memory_state self.now).seen) }
        ensures fill { IfOk result (λ disk. (byte : ℕ) → choice ≡ StopChoice.Fill byte
            → IsFilled byte (memory_state self.now) (memory_state disk).seen) }
    {
        let file = match choice {
            StopChoice::Lost => {
                let synced = &self.records[..up_to_last_sync(&self.records)];
                replay(self.alloc, &self.first, synced)?
            }
            StopChoice::Kept => self.content.to_vec(self.alloc)?,
            StopChoice::Fill(byte) => self.filled_with(byte)?,
        };
        MemoryDisk::holding(self.alloc, file)
    }

    // What the last sync left, with this byte wherever was written since, and up to the new end.
    fn filled_with(&self, byte: u8) -> Result<Vec<u8>, AllocError>
        ensures { IfOk result (λ file. IsFilled byte (memory_state self.now) file.items) }
    {
        let synced = up_to_last_sync(&self.records);
        let mut file = replay(self.alloc, &self.first, &self.records[..synced])?;
        lengthen(&mut file, self.content.len(), byte)?;
        fill_written(&mut file, &self.records, synced, byte);
        Ok(file)
    }

    // A disk that holds this file, all of it stable.
    fn holding(alloc: Global, file: Vec<u8>) -> Result<MemoryDisk, AllocError>
        ensures { IfOk result (λ disk. memory_state disk ≡ fresh file.items) }
    {
        Ok(MemoryDisk {
            alloc,
            first: file.to_vec(alloc)?,
            records: Vec::new(alloc),
            content: file,
            failed: 0,
        })
    }
}

// How many records there are up to the last sync: after them stands what that sync left.
fn up_to_last_sync(records: &[Record]) -> usize
    ensures bound { result ≤ length records.now }
    ensures left { (first : List ℕ) → (state_of_records first (take result records.now)).seen
        ≡ (state_of_records first records.now).now.stable }
    ensures last { IsLastSync result records.now }
{
    let mut synced = 0;
    for i in 0..records.len() {
        match &records[i] {
            Record::Write(_, _) => {}
            Record::Sync => synced = i + 1,
        }
    }
    synced
}

// The content after all of these records.
fn replay(alloc: Global, first: &[u8], records: &[Record]) -> Result<Vec<u8>, AllocError>
    ensures { IfOk result (λ file. file.items ≡ (state_of_records first.now records.now).seen) }
{
    let mut content = first.to_vec(alloc)?;
    for one in records {
        match one {
            Record::Write(at, bytes) => overwrite(&mut content, *at, bytes)?,
            Record::Sync => {}
        }
    }
    Ok(content)
}

// Puts this byte wherever was written after the last sync, up to which these are so many records.
fn fill_written(file: &mut [u8], records: &[Record], synced: usize, byte: u8)
    requires bound { synced ≤ length records.now }
    requires last { IsLastSync synced records.now }
    ensures { (first : List ℕ) → Fills
        byte (state_of_records first records.now).now.written file.old file.new }
{
    for i in synced..records.len() {
        match &records[i] {
            Record::Write(at, bytes) => fill_range(file, *at, bytes.len(), byte),
            Record::Sync => {}
        }
    }
}

// Puts this byte into the part of a file from an offset on, of so many bytes.
fn fill_range(file: &mut [u8], at: u64, count: usize, byte: u8)
    ensures { Fills byte ((at, count) ∷ []) file.old file.new }
{
    let from = (at as usize).min(file.len());
    let end = (at as usize).saturating_add(count).min(file.len());
    file[from..end].fill(byte);
}

impl Disk for MemoryDisk {
    ghost use Rattle.tune_disk.specs.Memory.{memory_state, memory_failures};

    ghost state = { memory_state };

    ghost failures = { memory_failures };

    ghost honest = { λ _. Unit {0} };

    ghost seen_may_stay = { λ disk _. disk.stays };

    // It never fails.
    fn len(&mut self) -> Result<u64, DeviceFault>
        ensures len { IfOk result (λ n. n ≡ length (memory_state self.old).seen) }
        ensures ok { IsOk result }
        ensures state { memory_state self.new ≡ memory_state self.old }
        ensures failures { memory_failures self.new ≡ memory_failures self.old }
    {
        Ok(self.content.len() as u64)
    }

    // It never fails.
    fn read(&mut self, at: u64, into: &mut [u8]) -> Result<(), DeviceFault>
        requires { at + length into.old ≤ 2 ^ 40 }
        ensures read { Shows (memory_state self.old).seen at into.new }
        ensures ok { IsOk result }
        ensures state { memory_state self.new ≡ memory_state self.old }
        ensures failures { memory_failures self.new ≡ memory_failures self.old }
    {
        show(&self.content, at as usize, into);
        Ok(())
    }

    // A fault changes nothing.
    fn write_at(&mut self, at: u64, bytes: &[u8]) -> Result<(), DeviceFault>
        requires { at + length bytes.now ≤ 2 ^ 40 }
        ensures write { Writes
            at bytes.now result (memory_state self.old) (memory_state self.new) }
        ensures err { OnErr result (memory_state self.new ≡ memory_state self.old) }
        ensures counted { CountsFailure
            result (memory_failures self.old) (memory_failures self.new) }
    {
        let done = write_and_record(self.alloc, &mut self.content, &mut self.records, at, bytes);
        count(done, &mut self.failed)
    }

    fn sync(&mut self) -> Result<(), DeviceFault> {
        let done = keep_record(&mut self.records, Record::Sync);
        count(done, &mut self.failed)
    }
}

// Counts a call that was out of memory as a fault.
fn count(done: Result<(), AllocError>, failed: &mut u64) -> Result<(), DeviceFault>
    ensures same { is_ok result ≡ is_ok done }
    ensures counted { CountsFailure result failed.old failed.new }
{
    if done.is_err() {
        *failed = failed.saturating_add(1);
        return Err(DeviceFault);
    }
    Ok(())
}

fn keep_record(records: &mut Vec<Record>, one: Record) -> Result<(), AllocError>
    ensures ok { OnOk result (records.new.items ≡ records.old.items ++ one ∷ []) }
    ensures err { OnErr result (records.new.items ≡ records.old.items) }
{
    records.push(one)?;
    Ok(())
}

// Keeps the record of a write and makes it, or does neither.
fn write_and_record(
    alloc: Global,
    content: &mut Vec<u8>,
    records: &mut Vec<Record>,
    at: u64,
    bytes: &[u8],
) -> Result<(), AllocError>
    ensures content { OnOk result (Written at bytes.now content.old.items content.new.items) }
    ensures records { OnOk result ((v : _) × (v.items ≡ bytes.now)
        × (records.new.items ≡ records.old.items ++ Record.Write at v ∷ [])) }
    ensures content_err { OnErr result (content.new.items ≡ content.old.items) }
    ensures records_err { OnErr result (records.new.items ≡ records.old.items) }
{
    keep_record(records, Record::Write(at, bytes.to_vec(alloc)?))?;
    if let Err(error) = overwrite(content, at, bytes) {
        let _ = records.pop();
        return Err(error);
    }
    Ok(())
}

// Writes over a part of a file.
fn paste(file: &mut [u8], at: usize, bytes: &[u8])
    requires { at + length bytes.now ≤ length file.old }
    ensures { file.new ≡ take at file.old ++ bytes.now ++ drop (at + length bytes.now) file.old }
{
    file[at..at + bytes.len()].copy_from_slice(bytes);
}

// Puts this byte behind a file, up to this length.
fn lengthen(file: &mut Vec<u8>, size: usize, byte: u8) -> Result<(), AllocError>
    ensures ok { OnOk result (file.new.items
        ≡ file.old.items ++ replicate (size - length file.old.items) byte) }
    ensures err { OnErr result (file.new.items ≡ file.old.items) }
{
    if size > file.len() {
        file.resize(size, byte)?;
    }
    Ok(())
}

fn overwrite(file: &mut Vec<u8>, at: u64, bytes: &[u8]) -> Result<(), AllocError>
    ensures ok { OnOk result (Written at bytes.now file.old.items file.new.items) }
    ensures err { OnErr result (file.new.items ≡ file.old.items) }
{
    if bytes.is_empty() {
        return Ok(());
    }
    let at = at as usize;
    let end = at.checked_add(bytes.len()).ok_or(AllocError)?;
    lengthen(file, end, 0)?;
    paste(file, at, bytes);
    Ok(())
}

// Fills a buffer from an offset on; past the file's end with zeros.
fn show(file: &[u8], at: usize, into: &mut [u8])
    ensures { Shows file.now at into.new }
{
    let from = at.min(file.len());
    let known = into.len().min(file.len() - from);
    copy_front(into, &file[from..from + known]);
    clear_from(into, known);
}
