// The pages of an archive, as the form of the file has them.
use crate::files::{number_at, part};
use std::alloc::Global;
use std::io;

/// How many pages a chain has at most, of those that are followed.
const MOST_PAGES: usize = 1_000;

/// Where in the root the first page of the list of the numbers' leaves stands, and that of the set
/// lists.
const NUMBERS_OFFSET: usize = 16_388;

const SETS_OFFSET: usize = 16_408;

/// Where those of the search indexes stand, and how many entries go into a leaf of each.
const SEARCHES: [(usize, u8); 4] = [(16_392, 113), (16_396, 113), (16_400, 113), (16_404, 78)];

/// The numbers of the links of chains, and of leaves, with the entries that go into each.
#[derive(Drop)]
pub(crate) struct PageNumbers {
    pub(crate) links: Vec<usize>,
    pub(crate) leaves: Vec<(usize, u8)>,
}

impl PageNumbers {
    // Follows what the root names.
    pub(crate) fn of(alloc: Global, file: &[u8]) -> io::Result<PageNumbers> {
        let mut pages = PageNumbers {
            links: Vec::new(alloc),
            leaves: Vec::new(alloc),
        };
        let tunes = pages.follow_index(alloc, file, NUMBERS_OFFSET, 113)?;
        for first in &tunes {
            let _ = pages.follow_chain(alloc, file, *first)?;
        }
        for (at, most) in SEARCHES {
            let _ = pages.follow_index(alloc, file, at, most)?;
        }
        let _ = pages.follow_chain(alloc, file, number_at(file, SETS_OFFSET, 4))?;
        Ok(pages)
    }

    // Follows a chain, and gives its bytes.
    fn follow_chain(&mut self, alloc: Global, file: &[u8], first: usize) -> io::Result<Vec<u8>> {
        let mut bytes = Vec::new(alloc);
        let mut page = first;
        for _ in 0..MOST_PAGES {
            if page == 0 {
                break;
            }
            self.links.push(page)?;
            let at = page_offset(page);
            let used = number_at(file, at.saturating_add(4), 2);
            bytes.extend_from_slice(part(file, at.saturating_add(6), used))?;
            page = number_at(file, at, 4);
        }
        Ok(bytes)
    }

    // Follows the index that is named here, into a leaf of which so many entries go, and gives
    // the values of its entries, if it is that of numbers.
    fn follow_index(
        &mut self,
        alloc: Global,
        file: &[u8],
        named: usize,
        most: u8,
    ) -> io::Result<Vec<usize>> {
        let list = self.follow_chain(alloc, file, number_at(file, named, 4))?;
        let mut values = Vec::new(alloc);
        for leaf in list.chunks(4) {
            let page = number_at(leaf, 0, 4);
            self.leaves.push((page, most))?;
            add_values(file, page_offset(page), &mut values)?;
        }
        Ok(values)
    }
}

// Adds the values of a leaf of keys of 32 bytes.
fn add_values(file: &[u8], at: usize, values: &mut Vec<usize>) -> io::Result<()> {
    for entry in 0..number_at(file, at, 2) {
        let behind_key = at
            .saturating_add(34)
            .saturating_add(entry.saturating_mul(36));
        values.push(number_at(file, behind_key, 4))?;
    }
    Ok(())
}

// Where a page of this number stands.
pub(crate) fn page_offset(page: usize) -> usize {
    page.saturating_mul(4_096).saturating_add(16_384)
}
