// Changes that are laid on pages of which there may be few.
ghost use Rattle.std.specs.Prelude.{◌≡◌, ◌<◌, ◌≤◌, List, []};
ghost use Rattle.tune_store.specs.declared.layout.Layout.TheVariants.{One};

use crate::disks::TestDisk;
use abc_fields::{ByteText, TuneText};
use std::alloc::Global;
use std::process::Abort;
use std::test::Fail;
use tiered_vector::TieredVector;
use tune_contents::{Contents, Room, lay};
use tune_format::{Firsts, write_root};
use tune_index::Index;
use tune_pages::{Edit, Fault, Pages};
use tune_search::{IncipitNotes, SearchFirsts, SearchIndexes};
use tune_sets::SetLists;
use tune_store::{Change, Layout};

const LULLABY: &[u8] = b"T:Lullaby\nK:C\n";

const MARCH: &[u8] = b"T:March\nK:D\nDFA\n";

// The pages of an archive without tunes, of which there may be so many.
fn made_up_to<D: TestDisk>(alloc: Global, limit: u32) -> Result<Pages<D>, Fail>
    requires within { (0 < limit) × (limit ≤ 100) }
{
    match Pages::make(
        alloc,
        D::empty(alloc),
        &write_root(Layout::One, firsts([0; 6])),
        limit,
    ) {
        Ok(pages) => Ok(pages),
        Err(_) => Err(Fail::from("not made")),
    }
}

// Nothing, as an archive without tunes has it in memory.
fn nothing(alloc: Global) -> Contents
    ensures rows { result.rows.items ≡ [] }
    ensures layout { result.layout ≡ One }
    ensures sets { result.sets ≡ [] }
{
    Contents {
        layout: Layout::One,
        rows: TieredVector::new(alloc),
        numbers: Index::new(alloc),
        searches: SearchIndexes::new(alloc, IncipitNotes::Eight),
        sets: SetLists::new(alloc),
        firsts: firsts([0; 6]),
    }
}

// Where the lists of the indexes and the set lists begin.
fn firsts(pages: [u32; 6]) -> Firsts {
    let [numbers, titles, rhythms, scales, incipits, sets] = pages;
    Firsts {
        numbers,
        searches: SearchFirsts {
            titles,
            rhythms,
            scales,
            incipits,
        },
        sets,
    }
}

fn text(alloc: Global, bytes: &[u8]) -> Result<TuneText, Fail> {
    match TuneText::from_stored(ByteText::copy_of(alloc, bytes)?, 16_000) {
        Ok(text) => Ok(text),
        Err(_) => Err(Fail::from("no text")),
    }
}

// Two tunes find no page among these, which stay open.
fn finds_no_page<D: TestDisk>(alloc: Global, edit: &mut Edit<D>) -> Result<(), Fail> {
    let mut texts = Vec::new(alloc);
    texts.push(text(alloc, LULLABY)?)?;
    texts.push(text(alloc, MARCH)?)?;
    let change = Change::Add { first: 1, texts };
    edit.begin()?;
    match lay(&mut Room::new(alloc), edit, &nothing(alloc), change) {
        Err(Fault::FileFull) => Ok(()),
        _ => Err(Fail::from("the file is not full")),
    }
}

// One tune finds its pages: where all begins then, once they are finished.
fn finds_pages<D: TestDisk>(alloc: Global, edit: &mut Edit<D>) -> Result<Firsts, Fail> {
    let mut texts = Vec::new(alloc);
    texts.push(text(alloc, MARCH)?)?;
    let change = Change::Add { first: 1, texts };
    edit.begin()?;
    let left = lay(&mut Room::new(alloc), edit, &nothing(alloc), change)?;
    edit.finish()?;
    Ok(left.firsts)
}

// Beside the root two tunes ask for ten pages, and one for nine: its own, and a leaf and a list of
// numbers, titles, scales and incipits.
pub(crate) fn refuses_what_finds_no_page<R: AllocGlobal + Abort, D: TestDisk>(
    rt: &R,
) -> Result<(), Fail> {
    let mut edit = Edit::over(made_up_to::<D>(rt.alloc(), 10)?);
    finds_no_page(rt.alloc(), &mut edit)?;
    let left = finds_pages(rt.alloc(), &mut edit)?;
    assert_eq!(rt; left, firsts([3, 7, 0, 8, 9, 0]));
    Ok(())
}
