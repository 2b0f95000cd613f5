// Recovery: the images of a log are copied into their pages.
ghost use Rattle.std.specs.Prelude.{◌≡◌, ◌<◌, ◌≤◌, ◌+◌, OnOk};
ghost use Rattle.tune_disk.specs.Disk.{Writes};
ghost use Rattle.tune_disk.specs.Inside.Spares.{SparesOffsets};
ghost use Rattle.tune_journal.specs.Image.{window, number, page_offset, entry_offset};
ghost use Rattle.tune_journal.specs.Image.{entries as entries_in, pages_of, count_of};
ghost use Rattle.tune_journal.specs.Inside.Looking.{HasEntries, HasEntry};
ghost use Rattle.tune_journal.specs.Inside.Phases.{WritesAndSyncs, KeepsBoth, IsInNoPage, CallsIf};
ghost use Rattle.tune_journal.specs.FileOffsets.{block_bytes, most_pages};
ghost use Rattle.tune_journal.specs.Pages.{changed_pages};

use crate::commit::write_synced;
use crate::file_offsets::{COUNT_OFFSET, ENTRY_BYTES, entry_offset, number_bytes, page_offset};
use byteorder::{BigEndian, ByteOrder};
use tune_disk::{DeviceFault, Disk};

// Copies the image of an entry into its page. `least` is the least page that the entry may name,
// and becomes that of the next entry.
fn copy_entry<D: Disk>(
    disk: &mut D,
    count: u32,
    entry: u32,
    least: &mut u32,
) -> Result<(), DeviceFault>
    requires { (count ≤ most_pages) × (entry < count) }
    ensures copies { let old = D.state disk.old in let at = entry_offset count entry in
        D.honest disk.new → HasEntry count entry least.old old.seen
        → Writes (page_offset (number at old.seen)) (window (at + 4) block_bytes old.seen)
        result old (D.state disk.new) }
    ensures least { let old = D.state disk.old in OnOk result (D.honest disk.new
        → HasEntry count entry least.old old.seen
        → least.new ≡ number (entry_offset count entry) old.seen + 1) }
    ensures calls { CallsIf D.honest D.failures result disk.old disk.new
        (HasEntry count entry least.old (D.state disk.old).seen) }
{
    let mut bytes = [0; ENTRY_BYTES];
    disk.read(entry_offset(count, entry), &mut bytes)?;
    let page = BigEndian::read_u32(&bytes[..4]);
    // Only a disk that is not honest answers other bytes than those that were tested.
    if page < *least || page >= count {
        return Err(DeviceFault);
    }
    *least = page + 1;
    disk.write_at(page_offset(page), &bytes[4..])
}

// Copies the images of the first entries into their pages.
fn copy_entries<D: Disk>(disk: &mut D, count: u32, entries: u32) -> Result<(), DeviceFault>
    requires { (count ≤ most_pages) × (entries ≤ count) }
    ensures spares { let old = D.state disk.old in let new = D.state disk.new in
        D.honest disk.new → HasEntries count entries old.seen
        → SparesOffsets (IsInNoPage (entries_in count entries old.seen)) old new }
    ensures images { let old = D.state disk.old in let new = D.state disk.new in
        let log = entries_in count entries old.seen in
        OnOk result (D.honest disk.new → HasEntries count entries old.seen
        → pages_of count new.seen ≡ changed_pages (pages_of count old.seen) log) }
    ensures calls { CallsIf D.honest D.failures result disk.old disk.new
        (HasEntries count entries (D.state disk.old).seen) }
{
    let mut least = 0;
    for entry in 0..entries {
        copy_entry(disk, count, entry, &mut least)?;
    }
    Ok(())
}

// Copies a log into its pages, and syncs.
pub(crate) fn copy_log<D: Disk>(disk: &mut D, count: u32, entries: u32) -> Result<(), DeviceFault>
    requires { (count ≤ most_pages) × (entries ≤ count) }
    ensures writes { let old = D.state disk.old in let new = D.state disk.new in
        D.honest disk.new → HasEntries count entries old.seen
        → WritesAndSyncs (KeepsBoth (entries_in count entries old.seen)) result old new }
    ensures images { let old = D.state disk.old in let new = D.state disk.new in
        let log = entries_in count entries old.seen in
        OnOk result (D.honest disk.new → HasEntries count entries old.seen
        → pages_of count new.seen ≡ changed_pages (pages_of count old.seen) log) }
    ensures count { OnOk result (D.honest disk.new → count_of (D.state disk.new).seen ≡ count) }
    ensures calls { CallsIf D.honest D.failures result disk.old disk.new
        (HasEntries count entries (D.state disk.old).seen) }
{
    copy_entries(disk, count, entries)?;
    write_synced(disk, COUNT_OFFSET, &number_bytes(count))
}
