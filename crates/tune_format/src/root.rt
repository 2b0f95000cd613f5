// The root of an archive.
ghost use Rattle.std.specs.Prelude.{◌≡◌, ◌≢◌, ◌-◌, ◌≤◌, ◌++◌, length, replicate, IfSome, IfNone};
ghost use Rattle.tune_format.specs.RootOffsets.{most_pages_of, version_offset};
ghost use Rattle.tune_format.specs.Written.{IsRoot, head_of_root, number_at, root_bytes};
ghost use Rattle.tune_store.specs.Limits.{layout_number};
ghost use Rattle.tune_store.specs.declared.layout.Layout.{Layout};

use crate::stored_numbers::number_at;
use byteorder::{BigEndian, ByteOrder};
use tune_journal::PageImage;
use tune_search::SearchFirsts;
use tune_store::Layout;

// How many bytes of a root say something.
const HEAD_BYTES: usize = 28;

/// Where the chains begin that the root of an archive names; 0 for one without a byte.
#[derive(Clone, Copy, Debug, PartialEq, Eq)]
pub struct Firsts {
    /// The list of the leaves of the index of numbers.
    pub numbers: u32,
    /// Those of the search indexes.
    pub searches: SearchFirsts,
    /// The set lists.
    pub sets: u32,
}

/// The root of an archive of this layout whose chains begin at these pages.
pub fn write_root(layout: Layout, firsts: Firsts) -> PageImage
    ensures bytes { result.bytes ≡ root_bytes layout firsts }
    ensures root { IsRoot layout result.bytes firsts }
{
    PageImage {
        bytes: padded(&head_bytes(layout, firsts)),
    }
}

// Bytes, and zeros to the end of a page.
fn padded(head: &[u8]) -> [u8; 4096]
    requires { length head.now ≤ 4096 }
    ensures { result ≡ head.now ++ replicate (4096 - length head.now) 0 }
{
    let mut bytes = [0; 4096];
    bytes[..head.len()].copy_from_slice(head);
    bytes
}

// What a root says.
fn head_bytes(layout: Layout, firsts: Firsts) -> [u8; HEAD_BYTES]
    ensures { result ≡ head_of_root layout firsts }
{
    let mut bytes = [0; HEAD_BYTES];
    BigEndian::write_u32(&mut bytes[..4], layout.number());
    BigEndian::write_u32(&mut bytes[4..8], firsts.numbers);
    BigEndian::write_u32(&mut bytes[8..12], firsts.searches.titles);
    BigEndian::write_u32(&mut bytes[12..16], firsts.searches.rhythms);
    BigEndian::write_u32(&mut bytes[16..20], firsts.searches.scales);
    BigEndian::write_u32(&mut bytes[20..24], firsts.searches.incipits);
    BigEndian::write_u32(&mut bytes[24..], firsts.sets);
    bytes
}

// The layout of a version.
fn layout_of(version: u32) -> Option<Layout>
    ensures some { IfSome result (λ layout. version ≡ layout_number layout) }
    ensures none { IfNone result ((layout : Layout) → version ≢ layout_number layout) }
{
    match version {
        1 => Some(Layout::One),
        2 => Some(Layout::Two),
        _ => None,
    }
}

/// The layout of an archive with this root, and where its chains begin. `None` exactly where the
/// root is one of another version.
pub fn read_root(image: &PageImage) -> Option<(Layout, Firsts)>
    ensures some { IfSome result (λ root. IsRoot root.0 image.now.bytes root.1) }
    ensures none { IfNone result ((layout : Layout)
        → number_at version_offset image.now.bytes ≢ layout_number layout) }
{
    let bytes = &image.bytes;
    let layout = match layout_of(number_at(bytes, 0)) {
        Some(layout) => layout,
        None => return None,
    };
    let firsts = Firsts {
        numbers: number_at(bytes, 4),
        searches: SearchFirsts {
            titles: number_at(bytes, 8),
            rhythms: number_at(bytes, 12),
            scales: number_at(bytes, 16),
            incipits: number_at(bytes, 20),
        },
        sets: number_at(bytes, 24),
    };
    Some((layout, firsts))
}

/// How many pages an archive of this layout has at most (this archive's profile).
pub fn most_pages(layout: Layout) -> u32
    ensures most { result ≡ most_pages_of layout }
    ensures some { 1 ≤ result }
    ensures bound { result ≤ 4000000 }
{
    match layout {
        Layout::One => 1_000_000,
        Layout::Two => 4_000_000,
    }
}
