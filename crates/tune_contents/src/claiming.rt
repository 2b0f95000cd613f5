// Claims what an archive has on its pages, and so finds whether a state stands there.
ghost use Rattle.std.specs.Prelude.{◌≡◌, ◌≢◌, ◌↔◌, ℕ, ◌^◌, ◌<◌, ◌≤◌, ◌+◌, List, ◌++◌, Bool, length};
ghost use Rattle.std.specs.Prelude.{drop, slice_index, take};
ghost use Rattle.std.specs.Prelude.{IfOk, IfErr, IfSome, IfNone, IsTrue, OnOk};
ghost use Rattle.tune_index.specs.Indexes.{Shape};
ghost use Rattle.tune_index.specs.ListedLeaves.{index_with, pages_claimed};
ghost use Rattle.tune_pages.specs.Claim.{IsChainFault, LooksOpening};
ghost use Rattle.tune_pages.specs.OpenedPages.{only_root};
ghost use Rattle.tune_parts.specs.Parts.{Part};
ghost use Rattle.tune_search.specs.LoadedParts.{HasClaimed};
ghost use Rattle.tune_search.specs.SearchClaims.{AreAllKnown};
ghost use Rattle.tune_search.specs.Searches.{SearchRuns, SearchShape};
ghost use Rattle.tune_search.specs.IncipitForms.{note_count};
ghost use Rattle.tune_search.specs.Loaded.{runs_in, search_with};
ghost use Rattle.tune_sets.specs.Sets.{AreSetLists};
ghost use Rattle.tune_sets.specs.SetBytes.{written_sets};
ghost use Rattle.tune_sets.specs.declared.set_lists.TuneSet.{TuneSet};
ghost use Rattle.tune_store.specs.Limits.{greatest_number, notes_of};
ghost use Rattle.tune_store.specs.State.{State};
ghost use Rattle.tune_format.specs.States.{IsStateOf};
ghost use Rattle.tune_format.specs.Written.{number_entries, row_entry};
ghost use Rattle.tune_format.specs.declared.root.Firsts.{Firsts};
ghost use Rattle.tune_format.specs.declared.rows.Row.{Row};
ghost use Rattle.tune_contents.specs.Claimed.{AreRows, IsClaimed, RowsRise};
ghost use Rattle.tune_contents.specs.Inside.ClaimedRows.{AreEntriesOfRows, HasNumber, HaveFew};
ghost use Rattle.tune_contents.specs.Inside.ClaimedRows.{NumberRows, NameRows};
ghost use Rattle.tune_contents.specs.Inside.ClaimedParts.{AreBlocks, AreRowsThere, AreTunesThere};
ghost use Rattle.tune_contents.specs.Inside.ClaimedParts.{ChainsClaimed, ClaimsIndex, ClaimsLists};
ghost use Rattle.tune_contents.specs.Inside.ClaimedParts.{ClaimsPart, ClaimsSearch, ClaimsSoFar};
ghost use Rattle.tune_contents.specs.Inside.ClaimedParts.{HoldsTune, HoldsTuneOf, IsIndexThere};
ghost use Rattle.tune_contents.specs.Inside.ClaimedParts.{IsPartThere, IsSearchThere, IsStateThere};
ghost use Rattle.tune_contents.specs.Inside.ClaimedParts.{IsTuneChain, ListsClaimed, TunesClaimed};
ghost use Rattle.tune_contents.specs.Inside.ClaimedParts.{tune_site};
ghost use Rattle.tune_contents.specs.Inside.TuneRows.{numbers_of_rows};
ghost use Rattle.tune_contents.specs.declared.contents.Contents.{Contents};

use crate::contents::Contents;
use crate::layout_notes::incipit_notes;
use abc_fields::{MOST_TITLES, TuneText};
use index_keys::EntryList;
use std::alloc::{AllocError, Global};
use std::marker::Model;
use tiered_vector::TieredVector;
use tune_disk::Disk;
use tune_format::{Firsts, Row, number_of_key, read_root, read_text};
use tune_index::{Index, IndexKey};
use tune_journal::PageImage;
use tune_pages::{ClaimFault, Opening, pages_for};
use tune_search::{IncipitNotes, SearchClaims, SearchEntries, SearchFirsts, SearchIndexes};
use tune_sets::{ReadFault, SetLists, TuneSet};
use tune_store::{GREATEST_NUMBER, GREATEST_REVISION, Layout};

// How many bytes the revision of a tune has, before its text.
const REVISION_BYTES: usize = 2;

// How many pages the chain of the set lists has at most.
const MOST_SETS_PAGES: usize = 104;

// Of how many tunes the chains are read before their texts are compared: what reads and what
// compares drive each other out of the processor's caches.
const GROUP_TUNES: usize = 32;

// The indexes of an archive with their entries, the set lists as bytes, and where all these begin.
#[derive(Drop)]
struct Lists {
    layout: Layout,
    firsts: Firsts,
    numbers: Index<32>,
    tunes: Vec<(IndexKey<32>, u32)>,
    searches: SearchIndexes,
    entries: SearchEntries,
    sets: Vec<u8>,
}

/// Claims what an archive has on its pages: the indexes, the set lists and each tune, whose text is
/// read, compared with the search indexes, and let go. Nothing but the root was claimed before. A
/// chain or an index that is longer than that of any state is not read to its end, so that no file
/// takes more memory than an archive may.
///
/// # Errors
///
/// `Damaged` where no state stands on the pages; `OutOfMemory`; `Device` where the disk failed.
///
/// - `claimed`: a state stands on the pages, its tunes where the rows say, and what was claimed is
///   its own. An opening has one page at least.
/// - `rows`, of every disk: the rows rise, and are within the limits.
/// - `damaged`: no state stands there.
/// - `looks`: the disk and its pages stay as they were.
pub fn claim<D: Disk>(alloc: Global, opening: &mut Opening<D>) -> Result<Contents, ClaimFault>
    requires { opening.old.claimed ≡ only_root (length opening.old.pages) }
    ensures claimed { IfOk result (λ contents. D.honest opening.new.disk
        → 0 < length opening.old.pages
        → IsClaimed opening.old.pages contents opening.new.claimed) }
    ensures rows { IfOk result (λ contents. AreRows contents.layout contents.rows.items) }
    ensures damaged { IfErr result (λ fault. D.honest opening.new.disk
        → IsChainFault fault ((state : State) × IsStateOf opening.old.pages state)) }
    ensures looks { LooksOpening D.honest D.failures D.state result opening.old opening.new }
{
    // For the proof: its contract says that each page has the bytes of a block.
    let _count = opening.count();
    let Lists {
        layout,
        firsts,
        numbers,
        tunes,
        searches,
        entries,
        sets,
    } = claim_lists(alloc, opening)?;
    let (rows, sets) = claim_texts(alloc, opening, layout, tunes, entries, &sets)?;
    Ok(Contents {
        layout,
        rows: TieredVector::from(rows),
        numbers,
        searches,
        sets,
        firsts,
    })
}

// Claims the tunes of the entries of the index of numbers, each at its entries in the search
// indexes, and reads the set lists, which have to name tunes.
//
// - `claimed`: where the lists that the root names were claimed before, all is.
fn claim_texts<D: Disk>(
    alloc: Global,
    opening: &mut Opening<D>,
    layout: Layout,
    tunes: Vec<(IndexKey<32>, u32)>,
    entries: SearchEntries,
    sets: &[u8],
) -> Result<(Vec<Row>, SetLists), ClaimFault>
    requires sized { D.honest opening.old.disk → AreBlocks opening.old.pages }
    ensures claimed { IfOk result (λ made. D.honest opening.new.disk → (contents : Contents)
        → contents.layout ≡ layout → contents.rows.items ≡ made.0.items → contents.sets ≡ made.1
        → ClaimsLists layout (pages_claimed opening.old.pages opening.old.claimed)
        contents.firsts (index_with contents.numbers tunes.items)
        (search_with contents.searches (runs_in entries)) sets.now
        → IsClaimed opening.old.pages contents opening.new.claimed) }
    ensures rows { IfOk result (λ made. AreRows layout made.0.items) }
    ensures damaged { IfErr result (λ fault. D.honest opening.new.disk → (firsts : Firsts)
        (shape : Shape) (shapes : SearchShape) → ListsClaimed layout
        (pages_claimed opening.old.pages opening.old.claimed) firsts
        (index_with shape tunes.items) (search_with shapes (runs_in entries)) sets.now
        → IsChainFault fault (IsStateThere opening.old.pages)) }
    ensures looks { LooksOpening D.honest D.failures D.state result opening.old opening.new }
{
    let mut rows = listed_rows(alloc, layout, &tunes)?;
    // what is made next takes their memory
    drop(tunes);
    claim_rows(alloc, opening, layout, &mut rows, entries)?;
    let sets = read_named_sets(alloc, &rows, sets)?;
    Ok((rows, sets))
}

// Claims the indexes and the set lists.
fn claim_lists<D: Disk>(alloc: Global, opening: &mut Opening<D>) -> Result<Lists, ClaimFault>
    requires root { opening.old.claimed ≡ only_root (length opening.old.pages) }
    requires sized { D.honest opening.old.disk → AreBlocks opening.old.pages }
    ensures claims { IfOk result (λ lists. D.honest opening.new.disk
        → 0 < length opening.old.pages
        → ClaimsLists lists.layout (pages_claimed opening.old.pages opening.new.claimed)
        lists.firsts (index_with lists.numbers lists.tunes.items)
        (search_with lists.searches (runs_in lists.entries)) lists.sets.items) }
    ensures damaged { IfErr result (λ fault. D.honest opening.new.disk
        → IsChainFault fault (IsStateThere opening.old.pages)) }
    ensures looks { LooksOpening D.honest D.failures D.state result opening.old opening.new }
{
    let root = opening.read_root()?;
    let Some((layout, firsts)) = read_root(&root) else {
        return Err(ClaimFault::Damaged);
    };
    let most = layout.most_tunes() as u32;
    let (numbers, tunes) = claim_index(alloc, opening, firsts.numbers, most)?;
    let most_entries = MOST_TITLES as u32 * most;
    let notes = incipit_notes(layout);
    let (searches, entries) = claim_searches(alloc, opening, notes, firsts.searches, most_entries)?;
    let mut chain = ChainBytes::new(alloc);
    let mut image = PageImage::blank();
    claim_part(
        opening,
        firsts.sets,
        MOST_SETS_PAGES,
        &mut image,
        &mut chain,
    )?;
    Ok(Lists {
        layout,
        firsts,
        numbers,
        tunes,
        searches,
        entries,
        sets: chain.into_vec(),
    })
}

// Claims the index of at most so many entries whose list begins at this page.
fn claim_index<D: Disk>(
    alloc: Global,
    opening: &mut Opening<D>,
    first: u32,
    most: u32,
) -> Result<(Index<32>, Vec<(IndexKey<32>, u32)>), ClaimFault>
    ensures claims { IfOk result (λ loaded. D.honest opening.new.disk → (front : List Part)
        → HasClaimed opening.old.pages opening.old.claimed front
        → ClaimsIndex most (pages_claimed opening.old.pages opening.new.claimed) front first
        (index_with loaded.0 loaded.1.items)) }
    ensures damaged { IfErr result (λ fault. D.honest opening.new.disk → (front : List Part)
        → HasClaimed opening.old.pages opening.old.claimed front
        → IsChainFault fault (IsIndexThere most opening.old.pages front first)) }
    ensures looks { LooksOpening D.honest D.failures D.state result opening.old opening.new }
{
    // For the proof.
    let _count = opening.count();
    Index::load(alloc, opening, first, most)
}

// Claims the search indexes, each of at most so many entries, whose lists begin at these pages.
fn claim_searches<D: Disk>(
    alloc: Global,
    opening: &mut Opening<D>,
    notes: IncipitNotes,
    firsts: SearchFirsts,
    most: u32,
) -> Result<(SearchIndexes, SearchEntries), ClaimFault>
    ensures notes { IfOk result (λ loaded. loaded.0.notes ≡ note_count notes) }
    ensures claims { IfOk result (λ loaded. D.honest opening.new.disk → (front : List Part)
        → HasClaimed opening.old.pages opening.old.claimed front
        → ClaimsSearch most (pages_claimed opening.old.pages opening.new.claimed) front firsts
        (search_with loaded.0 (runs_in loaded.1))) }
    ensures damaged { IfErr result (λ fault. D.honest opening.new.disk → (front : List Part)
        → HasClaimed opening.old.pages opening.old.claimed front
        → IsChainFault fault
        (IsSearchThere (note_count notes) most opening.old.pages front firsts)) }
    ensures looks { LooksOpening D.honest D.failures D.state result opening.old opening.new }
{
    // For the proof.
    let _count = opening.count();
    SearchIndexes::load(alloc, opening, notes, firsts, most)
}

// The bytes of a chain. A clause sees the list of them.
#[derive(Drop)]
struct ChainBytes {
    bytes: Vec<u8>,
}

impl Model for ChainBytes {
    ghost use Rattle.std.specs.Prelude.{ℕ, List};

    ghost Value = { List ℕ };

    ghost view = { λ chain. chain.bytes.items };
}

impl ChainBytes {
    // No bytes.
    fn new(alloc: Global) -> ChainBytes {
        ChainBytes {
            bytes: Vec::new(alloc),
        }
    }

    fn as_slice(&self) -> &[u8]
        ensures { result.now ≡ self.now }
    {
        &self.bytes
    }

    fn into_vec(self) -> Vec<u8>
        ensures { result.items ≡ self }
    {
        self.bytes
    }
}

// Claims the part of at most so many pages that begins at this one, and reads its chain. The image
// is where a page is read.
fn claim_part<D: Disk>(
    opening: &mut Opening<D>,
    first: u32,
    most: usize,
    image: &mut PageImage,
    chain: &mut ChainBytes,
) -> Result<(), ClaimFault>
    ensures claims { OnOk result (D.honest opening.new.disk → (front : List Part)
        → HasClaimed opening.old.pages opening.old.claimed front
        → ClaimsPart opening.old.pages front opening.new.claimed first chain.new) }
    ensures damaged { IfErr result (λ fault. D.honest opening.new.disk → (front : List Part)
        → HasClaimed opening.old.pages opening.old.claimed front
        → IsChainFault fault (IsPartThere opening.old.pages front first most)) }
    ensures looks { LooksOpening D.honest D.failures D.state result opening.old opening.new }
{
    opening.claim_chain_into(first, most, image, &mut chain.bytes)
}

// The rows of the entries of the index of numbers, with no revision and no length yet. Their
// numbers have to rise and to be within the limits.
fn listed_rows(
    alloc: Global,
    layout: Layout,
    tunes: &[(IndexKey<32>, u32)],
) -> Result<Vec<Row>, ClaimFault>
    ensures same { IfOk result (λ rows. number_entries rows.items ≡ tunes.now) }
    ensures rows { IfOk result (λ rows. AreRows layout rows.items) }
    ensures damaged { IfErr result (λ fault.
        IsChainFault fault (AreEntriesOfRows layout tunes.now)) }
    ensures err { IfErr result (λ fault. fault ≢ ClaimFault.Device) }
{
    if tunes.len() > layout.most_tunes() {
        return Err(ClaimFault::Damaged);
    }
    let Ok(mut rows) = Vec::with_capacity(alloc, tunes.len()) else {
        return Err(ClaimFault::OutOfMemory);
    };
    let mut low = 0;
    for entry in tunes {
        let Some(row) = listed_row(entry, low) else {
            return Err(ClaimFault::Damaged);
        };
        if rows.push(row).is_err() {
            return Err(ClaimFault::OutOfMemory);
        }
        low = row.number;
    }
    Ok(rows)
}

// The row of an entry, whose number has to be above `low`.
fn listed_row(entry: &(IndexKey<32>, u32), low: u32) -> Option<Row>
    ensures same { IfSome result (λ row. row_entry row ≡ entry.now) }
    ensures within { IfSome result (λ row. (low < row.number) × (row.number ≤ greatest_number)) }
    ensures none { IfNone result ((row : Row) → row_entry row ≡ entry.now → low < row.number
        → greatest_number < row.number) }
{
    let Some(number) = number_of_key(&entry.0) else {
        return None;
    };
    if number <= low || number > GREATEST_NUMBER {
        return None;
    }
    Some(Row {
        number,
        revision: 0,
        first: entry.1,
        length: 0,
    })
}

// The entries of the search indexes, made ready to be compared with the tunes of these rows.
fn search_claims(
    alloc: Global,
    rows: &[Row],
    entries: SearchEntries,
) -> Result<SearchClaims, ClaimFault>
    requires { RowsRise 0 rows.now }
    ensures numbers { IfOk result (λ claims. claims.numbers ≡ numbers_of_rows rows.now) }
    ensures runs { IfOk result (λ claims. claims.runs ≡ runs_in entries) }
    ensures known { IfOk result (λ _. AreAllKnown (numbers_of_rows rows.now) (runs_in entries)) }
    ensures damaged { IfErr result (λ fault. IsChainFault fault (HaveFew (runs_in entries)
        × AreAllKnown (numbers_of_rows rows.now) (runs_in entries))) }
    ensures err { IfErr result (λ fault. fault ≢ ClaimFault.Device) }
{
    if !have_few(&entries) {
        return Err(ClaimFault::Damaged);
    }
    let Ok(numbers) = numbers_of(alloc, rows) else {
        return Err(ClaimFault::OutOfMemory);
    };
    let SearchEntries {
        titles,
        rhythms,
        scales,
        incipits,
    } = entries;
    match SearchClaims::new(alloc, numbers, titles, rhythms, scales, incipits) {
        Ok(Some(claims)) => Ok(claims),
        Ok(None) => Err(ClaimFault::Damaged),
        Err(_) => Err(ClaimFault::OutOfMemory),
    }
}

// Whether there are fewer than 2^32 entries in each of the indexes.
fn have_few(entries: &SearchEntries) -> bool
    ensures { IsTrue result ↔ HaveFew (runs_in entries.now) }
{
    is_short(entries.titles.len())
        && is_short(entries.rhythms.len())
        && is_short(entries.scales.len())
        && is_short(entries.incipits.len())
}

// Whether so many entries are fewer than 2^32.
fn is_short(count: usize) -> bool
    ensures { IsTrue result ↔ (count < 2 ^ 32) }
{
    count <= 4_294_967_295
}

// The numbers of rows.
fn numbers_of(alloc: Global, rows: &[Row]) -> Result<Vec<u32>, AllocError>
    ensures { IfOk result (λ numbers. numbers.items ≡ numbers_of_rows rows.now) }
{
    let mut numbers = Vec::with_capacity(alloc, rows.len())?;
    for row in rows {
        numbers.push(row.number)?;
    }
    Ok(numbers)
}

// Claims the tune of each of these rows, whose number has to stand at the keys of its text in the
// search indexes, and no other number at any; puts its revision and its length into the row.
fn claim_rows<D: Disk>(
    alloc: Global,
    opening: &mut Opening<D>,
    layout: Layout,
    rows: &mut [Row],
    entries: SearchEntries,
) -> Result<(), ClaimFault>
    requires { RowsRise 0 rows.old }
    ensures same { OnOk result (number_entries rows.new ≡ number_entries rows.old) }
    ensures known { OnOk result (AreAllKnown (numbers_of_rows rows.old) (runs_in entries)) }
    ensures claimed { OnOk result (D.honest opening.new.disk → (front : List Part)
        → HasClaimed opening.old.pages opening.old.claimed front
        → TunesClaimed (tune_site layout opening.old.pages front (runs_in entries))
        opening.new.claimed rows.new) }
    ensures damaged { IfErr result (λ fault. D.honest opening.new.disk → (front : List Part)
        → HasClaimed opening.old.pages opening.old.claimed front → IsChainFault fault
        (AreRowsThere (tune_site layout opening.old.pages front (runs_in entries))
        rows.old)) }
    ensures looks { LooksOpening D.honest D.failures D.state result opening.old opening.new }
{
    let claims = search_claims(alloc, rows, entries)?;
    claim_tunes(alloc, opening, layout, rows, &claims)
}

// Claims the tune of each of these rows, and puts its revision and its length into the row. Of a
// group of them the chains are read first, into places that the next group takes again.
fn claim_tunes<D: Disk>(
    alloc: Global,
    opening: &mut Opening<D>,
    layout: Layout,
    rows: &mut [Row],
    claims: &SearchClaims,
) -> Result<(), ClaimFault>
    requires { claims.now.numbers ≡ numbers_of_rows rows.old }
    ensures same { OnOk result (number_entries rows.new ≡ number_entries rows.old) }
    ensures claimed { OnOk result (D.honest opening.new.disk → (front : List Part)
        → HasClaimed opening.old.pages opening.old.claimed front
        → TunesClaimed (tune_site layout opening.old.pages front claims.now.runs)
        opening.new.claimed rows.new) }
    ensures damaged { IfErr result (λ fault. D.honest opening.new.disk → (front : List Part)
        → HasClaimed opening.old.pages opening.old.claimed front → IsChainFault fault
        (AreTunesThere (tune_site layout opening.old.pages front claims.now.runs)
        rows.old)) }
    ensures looks { LooksOpening D.honest D.failures D.state result opening.old opening.new }
{
    let mut image = PageImage::blank();
    let mut chains = blank_chains(alloc)?;
    let mut text = shortest_text(alloc)?;
    let mut from = 0;
    while from < rows.len() {
        let to = rows.len().min(from + GROUP_TUNES);
        claim_chains(opening, layout, &rows[from..to], &mut image, &mut chains)?;
        compare_tunes(
            layout,
            &mut rows[from..to],
            from,
            claims,
            &chains,
            &mut text,
        )?;
        from = to;
    }
    Ok(())
}

// The places of the chains of a group.
fn blank_chains(alloc: Global) -> Result<Vec<ChainBytes>, ClaimFault>
    ensures count { IfOk result (λ chains. length chains.items ≡ 32) }
    ensures err { IfErr result (λ fault. fault ≡ ClaimFault.OutOfMemory) }
{
    let Ok(mut chains) = Vec::with_capacity(alloc, GROUP_TUNES) else {
        return Err(ClaimFault::OutOfMemory);
    };
    while chains.len() < GROUP_TUNES {
        if chains.push(ChainBytes::new(alloc)).is_err() {
            return Err(ClaimFault::OutOfMemory);
        }
    }
    Ok(chains)
}

// Claims the chains of the tunes of these rows, and reads the bytes of each into its place.
fn claim_chains<D: Disk>(
    opening: &mut Opening<D>,
    layout: Layout,
    rows: &[Row],
    image: &mut PageImage,
    chains: &mut [ChainBytes],
) -> Result<(), ClaimFault>
    requires room { length rows.now ≤ length chains.old }
    ensures room { length chains.new ≡ length chains.old }
    ensures claims { OnOk result (D.honest opening.new.disk → (front : List Part)
        → HasClaimed opening.old.pages opening.old.claimed front
        → ChainsClaimed opening.old.pages front opening.new.claimed rows.now
        (take (length rows.now) chains.new)) }
    ensures damaged { IfErr result (λ fault. D.honest opening.new.disk → (front : List Part)
        → HasClaimed opening.old.pages opening.old.claimed front
        → (runs : SearchRuns) (later : List Row) → IsChainFault fault
        (AreTunesThere (tune_site layout opening.old.pages front runs)
        (rows.now ++ later))) }
    ensures looks { LooksOpening D.honest D.failures D.state result opening.old opening.new }
{
    let most = pages_for(layout.longest_text() + REVISION_BYTES);
    for place in 0..rows.len() {
        claim_part(opening, rows[place].first, most, image, &mut chains[place])?;
    }
    Ok(())
}

// Compares the texts of these chains, those of the tunes of these rows, with the entries at their
// keys, and puts their revisions and lengths into the rows, of which the first is at this place of
// all rows.
fn compare_tunes(
    layout: Layout,
    rows: &mut [Row],
    from: usize,
    claims: &SearchClaims,
    chains: &[ChainBytes],
    text: &mut TuneText,
) -> Result<(), ClaimFault>
    requires fits { from + length rows.old < 2 ^ 64 }
    requires within { from + length rows.old ≤ length claims.now.numbers }
    requires numbers { take (length rows.old) (drop from claims.now.numbers)
        ≡ numbers_of_rows rows.old }
    requires room { length rows.old ≤ length chains.now }
    ensures same { OnOk result (number_entries rows.new ≡ number_entries rows.old) }
    ensures claimed { OnOk result ((pages : List (List ℕ)) (front : List Part)
        (was claimed : List Bool) (later : List Row) → HasClaimed pages was front
        → ChainsClaimed pages front claimed rows.old (take (length rows.old) chains.now)
        → ClaimsSoFar (tune_site layout pages front claims.now.runs) (rows.old ++ later)
        claimed rows.new later) }
    ensures damaged { IfErr result (λ fault. (pages : List (List ℕ)) (front : List Part)
        (was claimed : List Bool) (later : List Row) → HasClaimed pages was front
        → ChainsClaimed pages front claimed rows.old (take (length rows.old) chains.now)
        → IsChainFault fault
        (AreTunesThere (tune_site layout pages front claims.now.runs)
        (rows.old ++ later))) }
    ensures err { IfErr result (λ fault. fault ≢ ClaimFault.Device) }
{
    for place in 0..rows.len() {
        let row = &rows[place];
        rows[place] = compare_tune(layout, row, from + place, claims, &chains[place], text)?;
    }
    Ok(())
}

// The shortest text of a tune, for texts to come in its place.
fn shortest_text(alloc: Global) -> Result<TuneText, ClaimFault>
    ensures { IfErr result (λ fault. fault ≡ ClaimFault.OutOfMemory) }
{
    match TuneText::shortest(alloc) {
        Ok(text) => Ok(text),
        Err(_) => Err(ClaimFault::OutOfMemory),
    }
}

// The row of the tune that a chain holds, whose number, at this place, has to stand at the keys of
// its text. The text is where it is read, so that no tune takes memory of its own.
fn compare_tune(
    layout: Layout,
    row: &Row,
    place: usize,
    claims: &SearchClaims,
    chain: &ChainBytes,
    text: &mut TuneText,
) -> Result<Row, ClaimFault>
    requires place { place < length claims.now.numbers }
    requires number { slice_index claims.now.numbers place ≡ row.now.number }
    ensures row { IfOk result (λ compared. row_entry compared ≡ row_entry row.now) }
    ensures holds { IfOk result (λ compared.
        HoldsTuneOf layout claims.now.runs chain.now compared) }
    ensures damaged { IfErr result (λ fault. IsChainFault fault
        (HoldsTune layout claims.now.runs row.now.number chain.now)) }
    ensures err { IfErr result (λ fault. fault ≢ ClaimFault.Device) }
{
    let revision = take_text(layout, chain.as_slice(), text)?;
    if !claims.claim_tune(place, text) {
        return Err(ClaimFault::Damaged);
    }
    Ok(Row {
        number: row.number,
        revision,
        first: row.first,
        length: text.bytes().len() as u32,
    })
}

// Puts the text of the tune whose chain has these bytes in the place of another one, and gives its
// revision.
#[inline(always)]
fn take_text(layout: Layout, bytes: &[u8], text: &mut TuneText) -> Result<u16, ClaimFault>
    ensures ok { IfOk result (λ revision. IsTuneChain layout bytes.now revision text.new) }
    ensures only { IfOk result (λ _. (revision : ℕ) (other : List ℕ)
        → IsTuneChain layout bytes.now revision other → other ≡ text.new) }
    ensures damaged { IfErr result (λ fault. IsChainFault fault ((revision : ℕ)
        × (other : List ℕ) × IsTuneChain layout bytes.now revision other)) }
    ensures err { IfErr result (λ fault. fault ≢ ClaimFault.Device) }
{
    let Some((revision, stored)) = read_text(bytes) else {
        return Err(ClaimFault::Damaged);
    };
    if revision == 0 || revision > GREATEST_REVISION {
        return Err(ClaimFault::Damaged);
    }
    match text.read_stored(stored, layout.longest_text()) {
        Ok(true) => Ok(revision),
        Ok(false) => Err(ClaimFault::Damaged),
        Err(_) => Err(ClaimFault::OutOfMemory),
    }
}

// The set lists of these bytes, each place of which has to name a row.
fn read_named_sets(alloc: Global, rows: &[Row], bytes: &[u8]) -> Result<SetLists, ClaimFault>
    requires { RowsRise 0 rows.now }
    ensures same { IfOk result (λ sets. (written_sets sets ≡ bytes.now) × AreSetLists sets) }
    ensures named { IfOk result (λ sets. NameRows rows.now sets) }
    ensures damaged { IfErr result (λ fault. IsChainFault fault ((sets : List TuneSet)
        × AreSetLists sets × (written_sets sets ≡ bytes.now) × NameRows rows.now sets)) }
    ensures err { IfErr result (λ fault. fault ≢ ClaimFault.Device) }
{
    let sets = match SetLists::read(alloc, bytes) {
        Ok(sets) => sets,
        Err(ReadFault::Damaged) => return Err(ClaimFault::Damaged),
        Err(ReadFault::OutOfMemory) => return Err(ClaimFault::OutOfMemory),
    };
    if name_tunes(rows, sets.as_slice()) {
        Ok(sets)
    } else {
        Err(ClaimFault::Damaged)
    }
}

// Whether each place of each set list names a tune.
fn name_tunes(rows: &[Row], sets: &[TuneSet]) -> bool
    requires { RowsRise 0 rows.now }
    ensures { IsTrue result ↔ NameRows rows.now sets.now }
{
    for set in sets {
        if !are_numbers(rows, set.numbers.as_slice()) {
            return false;
        }
    }
    true
}

// Whether each of these numbers is that of a row.
fn are_numbers(rows: &[Row], numbers: &[u32]) -> bool
    requires { RowsRise 0 rows.now }
    ensures { IsTrue result ↔ NumberRows rows.now numbers.now }
{
    for number in numbers {
        if !has_row(rows, *number) {
            return false;
        }
    }
    true
}

// Whether a row has this number.
fn has_row(rows: &[Row], number: u32) -> bool
    requires { RowsRise 0 rows.now }
    ensures { IsTrue result ↔ HasNumber rows.now number }
{
    match rows.binary_search_by_key(&number, |row| row.number) {
        Ok(_) => true,
        Err(_) => false,
    }
}
