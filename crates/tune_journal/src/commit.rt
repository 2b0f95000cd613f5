// The disk calls of a commit.
ghost use Rattle.std.specs.Prelude.{◌≡◌, ◌<◌, ◌≤◌, ◌^◌, ◌+◌, ◌*◌, ◌++◌, ℕ, All, length, drop};
ghost use Rattle.std.specs.Prelude.{OnOk};
ghost use Rattle.byteorder.specs.Endian.{big_bytes};
ghost use Rattle.tune_disk.specs.Disk.{Writes, Written, Calls};
ghost use Rattle.tune_disk.specs.Inside.Spares.{SparesOffsets};
ghost use Rattle.tune_journal.specs.ChangeList.{change_at};
ghost use Rattle.tune_journal.specs.Image.{count_of, IsLog, page_offset, entry_offset};
ghost use Rattle.tune_journal.specs.Image.{pages_of};
ghost use Rattle.tune_journal.specs.Inside.Phases.{log_entry, WritesAndSyncs, IsNoLog, IsOutside};
ghost use Rattle.tune_journal.specs.Inside.Phases.{IsInNoPage, HoldsLogEntries, HoldsDescriptor};
ghost use Rattle.tune_journal.specs.Inside.Phases.{KeepsBoth};
ghost use Rattle.tune_journal.specs.Inside.ShortImages.{IsBlankFrom};
ghost use Rattle.tune_journal.specs.FileOffsets.{block_bytes, log_entry_bytes, most_pages};
ghost use Rattle.tune_journal.specs.Pages.{changed_pages};

use crate::changes::{Changes, PageImage};
use crate::file_offsets::{
    COUNT_OFFSET, DESCRIPTOR_OFFSET, ENTRY_BYTES, number_bytes, page_offset,
};
use tune_disk::{DeviceFault, Disk};

// Puts an entry of the log in the place of another. Of `used`, `ahead` and the answer holds what
// `Changes::fill_next` says.
fn fill_entry(
    entry: &mut [u8; 4100],
    changes: &Changes,
    place: usize,
    used: usize,
    ahead: &mut usize,
) -> usize
    requires place { place < length changes.now }
    requires used { IsBlankFrom used (drop 4 entry.old) }
    ensures entry { entry.new
        ≡ log_entry (change_at changes.now place).0 (change_at changes.now place).1 }
    ensures used { IsBlankFrom result (drop 4 entry.new) }
{
    entry[..4].copy_from_slice(&number_bytes(changes.page_at(place)));
    changes.fill_next(place, &mut entry[4..], used, ahead)
}

// The descriptor of a log.
fn descriptor_of(new_count: u32, entries: u32) -> [u8; 8]
    ensures { result ≡ big_bytes 4 new_count ++ big_bytes 4 entries }
{
    let mut descriptor = [0; 8];
    descriptor[..4].copy_from_slice(&number_bytes(new_count));
    descriptor[4..].copy_from_slice(&number_bytes(entries));
    descriptor
}

// Writes an entry of the log.
fn write_entry<D: Disk>(disk: &mut D, at: u64, entry: &[u8; 4100]) -> Result<(), DeviceFault>
    requires { at + log_entry_bytes ≤ 2 ^ 40 }
    ensures size { length entry.now ≡ log_entry_bytes }
    ensures write { let old = D.state disk.old in let new = D.state disk.new in
        D.honest disk.new → Writes at entry.now result old new }
    ensures calls { Calls D.honest D.failures result disk.old disk.new }
{
    disk.write_at(at, entry)
}

// Writes an image into its page.
fn write_image<D: Disk>(disk: &mut D, page: u32, image: &PageImage) -> Result<(), DeviceFault>
    requires { page < most_pages }
    ensures size { length image.now.bytes ≡ block_bytes }
    ensures write { let old = D.state disk.old in let new = D.state disk.new in
        D.honest disk.new → Writes (page_offset page) image.now.bytes result old new }
    ensures calls { Calls D.honest D.failures result disk.old disk.new }
{
    disk.write_at(page_offset(page), &image.bytes)
}

// Writes the image of the change at this place into its page. One that is not held whole is put in
// the place of `image` before. Of `used` and `ahead` holds what `Changes::fill_next` says.
fn write_change<D: Disk>(
    disk: &mut D,
    changes: &Changes,
    place: usize,
    image: &mut PageImage,
    used: &mut usize,
    ahead: &mut usize,
) -> Result<(), DeviceFault>
    requires place { place < length changes.now }
    requires pages { All (λ e. e.0 < most_pages) changes.now }
    requires used { IsBlankFrom used.old image.old.bytes }
    ensures used { IsBlankFrom used.new image.new.bytes }
    ensures size { length (change_at changes.now place).1 ≡ block_bytes }
    ensures write { let old = D.state disk.old in let new = D.state disk.new in
        let change = change_at changes.now place in
        D.honest disk.new → Writes (page_offset change.0) change.1 result old new }
    ensures calls { Calls D.honest D.failures result disk.old disk.new }
{
    let page = changes.page_at(place);
    if let Some(whole) = changes.whole_at(place) {
        return write_image(disk, page, whole);
    }
    *used = changes.fill_next(place, &mut image.bytes, *used, ahead);
    write_image(disk, page, image)
}

// Writes all entries of a log, one behind another.
fn write_entries<D: Disk>(disk: &mut D, base: u64, changes: &Changes) -> Result<(), DeviceFault>
    requires { base + log_entry_bytes * length changes.now ≤ 2 ^ 40 }
    ensures spares { D.honest disk.new
        → SparesOffsets (λ i. i < base) (D.state disk.old) (D.state disk.new) }
    ensures entries { OnOk result (D.honest disk.new
        → HoldsLogEntries base changes.now (length changes.now) (D.state disk.new).seen) }
    ensures calls { Calls D.honest D.failures result disk.old disk.new }
{
    let mut entry = [0; ENTRY_BYTES];
    let mut used = 0;
    let mut ahead = 0;
    let mut at = base;
    for place in 0..changes.len() {
        used = fill_entry(&mut entry, changes, place, used, &mut ahead);
        write_entry(disk, at, &entry)?;
        at += ENTRY_BYTES as u64;
    }
    Ok(())
}

// Writes all images into their pages.
fn write_images<D: Disk>(disk: &mut D, changes: &Changes) -> Result<(), DeviceFault>
    requires { All (λ e. e.0 < most_pages) changes.now }
    ensures spares { D.honest disk.new
        → SparesOffsets (IsInNoPage changes.now) (D.state disk.old) (D.state disk.new) }
    ensures images { let old = D.state disk.old in let new = D.state disk.new in
        OnOk result (D.honest disk.new → (n : ℕ)
        → page_offset n ≤ length old.seen → All (λ e. e.0 < n) changes.now
        → pages_of n new.seen ≡ changed_pages (pages_of n old.seen) changes.now) }
    ensures calls { Calls D.honest D.failures result disk.old disk.new }
{
    let mut image = PageImage::blank();
    let mut used = 0;
    let mut ahead = 0;
    for place in 0..changes.len() {
        write_change(disk, changes, place, &mut image, &mut used, &mut ahead)?;
    }
    Ok(())
}

// Writes, and syncs.
pub(crate) fn write_synced<D: Disk>(disk: &mut D, at: u64, bytes: &[u8]) -> Result<(), DeviceFault>
    requires { at + length bytes.now ≤ 2 ^ 40 }
    ensures writes { let old = D.state disk.old in let new = D.state disk.new in
        D.honest disk.new → WritesAndSyncs (IsOutside at (length bytes.now)) result old new }
    ensures written { OnOk result (D.honest disk.new
        → Written at bytes.now (D.state disk.old).seen (D.state disk.new).seen) }
    ensures calls { Calls D.honest D.failures result disk.old disk.new }
{
    disk.write_at(at, bytes)?;
    disk.sync()
}

// Writes the entries and the descriptor of a log, and syncs.
pub(crate) fn write_log<D: Disk>(
    disk: &mut D,
    new_count: u32,
    changes: &Changes,
) -> Result<(), DeviceFault>
    requires count { new_count ≤ most_pages }
    requires some { 0 < length changes.now }
    requires below { All (λ e. e.0 < new_count) changes.now }
    ensures writes { D.honest disk.new
        → WritesAndSyncs (IsNoLog new_count) result (D.state disk.old) (D.state disk.new) }
    ensures entries { let base = entry_offset new_count 0 in OnOk result (D.honest disk.new
        → HoldsLogEntries base changes.now (length changes.now) (D.state disk.new).seen) }
    ensures log { OnOk result (IsLog new_count changes.now) }
    ensures descriptor { OnOk result (D.honest disk.new
        → HoldsDescriptor new_count (length changes.now) (D.state disk.new).seen) }
    ensures calls { Calls D.honest D.failures result disk.old disk.new }
{
    let entries = changes.len() as u32;
    write_entries(disk, page_offset(new_count), changes)?;
    write_synced(disk, DESCRIPTOR_OFFSET, &descriptor_of(new_count, entries))
}

// Writes the images into their pages, and the count, and syncs.
pub(crate) fn write_pages<D: Disk>(
    disk: &mut D,
    count: u32,
    changes: &Changes,
) -> Result<(), DeviceFault>
    requires { All (λ e. e.0 < most_pages) changes.now }
    ensures writes { D.honest disk.new
        → WritesAndSyncs (KeepsBoth changes.now) result (D.state disk.old) (D.state disk.new) }
    ensures images { let old = D.state disk.old in let new = D.state disk.new in
        OnOk result (D.honest disk.new → (n : ℕ)
        → page_offset n ≤ length old.seen → All (λ e. e.0 < n) changes.now
        → pages_of n new.seen ≡ changed_pages (pages_of n old.seen) changes.now) }
    ensures count { OnOk result (D.honest disk.new → count_of (D.state disk.new).seen ≡ count) }
    ensures calls { Calls D.honest D.failures result disk.old disk.new }
{
    write_images(disk, changes)?;
    write_synced(disk, COUNT_OFFSET, &number_bytes(count))
}
