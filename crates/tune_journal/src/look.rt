// What opening finds in a file that a stop may have left.
ghost use Rattle.std.specs.Prelude.{◌≡◌, ◌≤◌, ◌^◌, ◌+◌, ◌↔◌, IsTrue, length, OnOk, IfOk};
ghost use Rattle.tune_disk.specs.Disk.{Calls, Looks};
ghost use Rattle.tune_journal.specs.Image.{number, entry_offset, gate_of, magic_of};
ghost use Rattle.tune_journal.specs.Inside.Looking.{Climbs, Sees, SeesOpen};
ghost use Rattle.tune_journal.specs.Inside.Looking.{SeesClosed, IsBounded};
ghost use Rattle.tune_journal.specs.FileOffsets.{magic, magic_bytes, gate_open};
ghost use Rattle.tune_journal.specs.FileOffsets.{least_length, most_pages};
ghost use Rattle.tune_journal.specs.Refusal.{IsSynced, IsUnwritten};

use crate::file_offsets::{
    COUNT_OFFSET, DESCRIPTOR_OFFSET, ENTRY_COUNT_OFFSET, GATE_OFFSET, GATE_OPEN, LEAST_LENGTH,
    MAGIC, MAGIC_OFFSET, MOST_PAGES, entry_offset, page_offset,
};
use byteorder::{BigEndian, ByteOrder};
use tune_disk::{DeviceFault, Disk};

// Syncs, and asks for the length.
pub(crate) fn settle<D: Disk>(disk: &mut D) -> Result<u64, DeviceFault>
    ensures ok { let old = D.state disk.old in let new = D.state disk.new in
        IfOk result (λ size. D.honest disk.new → IsSynced old new × (size ≡ length old.seen)) }
    ensures err { D.honest disk.new → IsUnwritten (D.state disk.old) (D.state disk.new) }
    ensures calls { Calls D.honest D.failures result disk.old disk.new }
{
    disk.sync()?;
    disk.len()
}

fn read_number<D: Disk>(disk: &mut D, at: u64) -> Result<u32, DeviceFault>
    requires { at + 4 ≤ 2 ^ 40 }
    ensures number { let file = (D.state disk.old).seen in
        IfOk result (λ n. D.honest disk.new → at + 4 ≤ length file → n ≡ number at file) }
    ensures looks { Looks D.honest D.failures D.state result disk.old disk.new }
{
    let mut bytes = [0; 4];
    disk.read(at, &mut bytes)?;
    Ok(BigEndian::read_u32(&bytes))
}

// Whether the entries of a log name pages below `count`, each above the last.
fn check_log<D: Disk>(disk: &mut D, count: u32, entries: u32) -> Result<bool, DeviceFault>
    requires { (count ≤ most_pages) × (entries ≤ count) }
    ensures climbs { let file = (D.state disk.old).seen in
        IfOk result (λ yes. D.honest disk.new → entry_offset count entries ≤ length file
        → IsTrue yes ↔ Climbs count entries file) }
    ensures looks { Looks D.honest D.failures D.state result disk.old disk.new }
{
    let mut least = 0;
    for entry in 0..entries {
        let page = read_number(disk, entry_offset(count, entry))?;
        if page < least || page >= count {
            return Ok(false);
        }
        least = page + 1;
    }
    Ok(true)
}

// What the front of a file says.
pub(crate) enum Found {
    NotArchive,
    Damaged,
    Closed(u32),
    Open(u32, u32),
}

fn is_magic(bytes: &[u8]) -> bool
    ensures { IsTrue result ↔ (bytes.now ≡ magic) }
{
    bytes == MAGIC.as_slice()
}

// Whether the magic is at the front.
fn read_magic<D: Disk>(disk: &mut D) -> Result<bool, DeviceFault>
    ensures magic { let file = (D.state disk.old).seen in
        IfOk result (λ yes. D.honest disk.new → magic_bytes ≤ length file
        → IsTrue yes ↔ (magic_of file ≡ magic)) }
    ensures looks { Looks D.honest D.failures D.state result disk.old disk.new }
{
    let mut bytes = [0; 8];
    disk.read(MAGIC_OFFSET, &mut bytes)?;
    Ok(is_magic(&bytes))
}

// Whether the gate is open.
fn read_gate<D: Disk>(disk: &mut D) -> Result<bool, DeviceFault>
    ensures gate { let file = (D.state disk.old).seen in
        IfOk result (λ yes. D.honest disk.new → IsTrue yes ↔ (gate_of file ≡ gate_open)) }
    ensures looks { Looks D.honest D.failures D.state result disk.old disk.new }
{
    let mut bytes = [0];
    disk.read(GATE_OFFSET, &mut bytes)?;
    Ok(bytes[0] == GATE_OPEN)
}

fn look_closed<D: Disk>(disk: &mut D, size: u64) -> Result<Found, DeviceFault>
    ensures sees { let file = (D.state disk.old).seen in
        IfOk result (λ found. D.honest disk.new → size ≡ length file → least_length ≤ size
        → SeesClosed found file) }
    ensures bounded { IfOk result IsBounded }
    ensures looks { Looks D.honest D.failures D.state result disk.old disk.new }
{
    let count = read_number(disk, COUNT_OFFSET)?;
    if count == 0 || count > MOST_PAGES || size < page_offset(count) {
        Ok(Found::Damaged)
    } else {
        Ok(Found::Closed(count))
    }
}

fn look_open<D: Disk>(disk: &mut D, size: u64) -> Result<Found, DeviceFault>
    ensures sees { let file = (D.state disk.old).seen in
        IfOk result (λ found. D.honest disk.new → size ≡ length file → least_length ≤ size
        → SeesOpen found file) }
    ensures bounded { IfOk result IsBounded }
    ensures looks { Looks D.honest D.failures D.state result disk.old disk.new }
{
    let count = read_number(disk, DESCRIPTOR_OFFSET)?;
    let entries = read_number(disk, ENTRY_COUNT_OFFSET)?;
    if count > MOST_PAGES || entries == 0 || entries > count {
        return Ok(Found::Damaged);
    }
    if size < entry_offset(count, entries) {
        return Ok(Found::Damaged);
    }
    if check_log(disk, count, entries)? {
        Ok(Found::Open(count, entries))
    } else {
        Ok(Found::Damaged)
    }
}

// Syncs, and looks at the front of the file and at its log. It writes nothing.
pub(crate) fn look<D: Disk>(disk: &mut D) -> Result<Found, DeviceFault>
    ensures synced { OnOk result (D.honest disk.new
        → IsSynced (D.state disk.old) (D.state disk.new)) }
    ensures state { D.honest disk.new → IsUnwritten (D.state disk.old) (D.state disk.new) }
    ensures sees { IfOk result (λ found. D.honest disk.new → Sees found (D.state disk.old).seen) }
    ensures bounded { IfOk result IsBounded }
    ensures calls { Calls D.honest D.failures result disk.old disk.new }
{
    let size = settle(disk)?;
    if size < MAGIC.len() as u64 || !read_magic(disk)? {
        return Ok(Found::NotArchive);
    }
    if size < LEAST_LENGTH {
        return Ok(Found::Damaged);
    }
    if read_gate(disk)? {
        look_open(disk, size)
    } else {
        look_closed(disk, size)
    }
}
