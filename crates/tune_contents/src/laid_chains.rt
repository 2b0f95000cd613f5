// Chains of an archive, laid anew in an edit.
ghost use Rattle.std.specs.Prelude.{◌≡◌, ◌+◌, ◌^◌, ◌<◌, List, [], ◌∷◌, ◌++◌, false, length};
ghost use Rattle.std.specs.Prelude.{slice_set};
ghost use Rattle.std.specs.Prelude.{IfOk, IfErr, OnOk, IsTrue};
ghost use Rattle.std.specs.List.{range_with_len, remove};
ghost use Rattle.tune_pages.specs.Faults.{pages_for};
ghost use Rattle.tune_pages.specs.FreePages.{TakesAtMost};
ghost use Rattle.tune_pages.specs.Kept.{HonestAt};
ghost use Rattle.tune_journal.specs.Pages.{page_at};
ghost use Rattle.tune_format.specs.Written.{IsRoot};
ghost use Rattle.tune_pages.specs.Stand.{HasSomeChain};
ghost use Rattle.tune_pages.specs.declared.fault.Fault.TheVariants.{OutOfMemory};
ghost use Rattle.tune_pages.specs.Editing.{AltersEdit, Consults};
ghost use Rattle.tune_sets.specs.SetBytes.{written_sets};
ghost use Rattle.tune_store.specs.TuneSteps.{numbered};
ghost use Rattle.tune_store.specs.declared.layout.Layout.{Layout};
ghost use Rattle.tune_format.specs.declared.root.Firsts.{Firsts};
ghost use Rattle.tune_format.specs.declared.rows.Row.{Row};
ghost use Rattle.tune_pages.specs.Editing.{Edits};
ghost use Rattle.tune_contents.specs.Next.{FitsRows, rows_after};
ghost use Rattle.tune_contents.specs.Inside.Laying.{SwapsChain, LaysRoot, LaysSets};
ghost use Rattle.tune_contents.specs.Inside.Laying.{HoldsSomeTunes, LaysTunes};
ghost use Rattle.tune_contents.specs.Inside.ChangedRows.{AddsRow, AddsRows, PutsRow};
ghost use Rattle.tune_contents.specs.Inside.ChangedRows.{IsBehind, IsMadeOf, IsSingle};
ghost use Rattle.tune_contents.specs.Inside.TuneRows.{numbers_of_rows};
ghost use Rattle.tune_contents.specs.Inside.Takes.{tune_pages, text_pages, sets_pages};

use crate::next::RowChange;
use crate::room::Room;
use abc_fields::TuneText;
use tiered_vector::TieredVector;
use tune_disk::Disk;
use tune_format::{Firsts, Row, put_text, read_root, write_root, write_text};
use tune_pages::{Edit, Fault};
use tune_sets::SetLists;
use tune_store::{Layout, Tune};

// Frees the chain that begins at `first`, puts these bytes on another one, and gives where that
// begins.
fn swap_chain<D: Disk>(edit: &mut Edit<D>, first: u32, bytes: &[u8]) -> Result<u32, Fault>
    requires chain { HonestAt D.honest edit.old.base.disk → HasSomeChain edit.old.next first }
    ensures swaps { IfOk result (λ next. HonestAt D.honest edit.new.base.disk
        → SwapsChain edit.old.next edit.new.next first next bytes.now) }
    ensures edits { Edits D.Disk result (Unit {0}) edit.old edit.new }
    ensures takes { HonestAt D.honest edit.new.base.disk
        → TakesAtMost (pages_for (length bytes.now)) result edit.old.next edit.new.next }
{
    edit.free_chain(first)?;
    edit.put_chain(bytes)
}

// Where the chain of the tune at a place begins.
fn first_at(rows: &TieredVector<Row>, place: usize) -> u32
    requires { place < length rows.now.items }
    ensures { (before after : List Row) (row : Row) → rows.now.items ≡ before ++ row ∷ after
        → length before ≡ place → result ≡ row.first }
{
    rows.at(place).first
}

// Lays a tune on another chain, in the place of the one there.
pub(crate) fn put_tune<D: Disk>(
    edit: &mut Edit<D>,
    rows: &TieredVector<Row>,
    place: usize,
    tune: &Tune,
) -> Result<RowChange, Fault>
    requires place { place < length rows.now.items }
    requires holds { HonestAt D.honest edit.old.base.disk
        → HoldsSomeTunes edit.old.next rows.now.items }
    ensures lays { IfOk result (λ made. HonestAt D.honest edit.new.base.disk
        → LaysTunes edit.old.next edit.new.next rows.now.items
        (rows_after made rows.now.items) (λ tunes. slice_set tunes place tune.now)) }
    ensures row { IfOk result (λ made.
        PutsRow place tune.now.number rows.now.items (rows_after made rows.now.items)) }
    ensures single { IfOk result (λ made. IsSingle made rows.now.items) }
    ensures edits { Edits D.Disk result (Unit {0}) edit.old edit.new }
    ensures takes { HonestAt D.honest edit.new.base.disk
        → TakesAtMost (tune_pages tune.now.text) result edit.old.next edit.new.next }
{
    let Ok(bytes) = write_text(edit.alloc(), tune.revision, tune.text.bytes()) else {
        return Err(edit.refuse());
    };
    let first = swap_chain(edit, first_at(rows, place), &bytes)?;
    let row = Row {
        number: tune.number,
        revision: tune.revision,
        first,
        length: tune.text.bytes().len() as u32,
    };
    Ok(RowChange::Put { place, row })
}

// Frees the chain of the tune at a place. Its row goes.
pub(crate) fn take_tune<D: Disk>(
    edit: &mut Edit<D>,
    rows: &TieredVector<Row>,
    place: usize,
) -> Result<RowChange, Fault>
    requires place { place < length rows.now.items }
    requires holds { HonestAt D.honest edit.old.base.disk
        → HoldsSomeTunes edit.old.next rows.now.items }
    ensures lays { IfOk result (λ made. HonestAt D.honest edit.new.base.disk
        → LaysTunes edit.old.next edit.new.next rows.now.items
        (rows_after made rows.now.items) (λ tunes. remove tunes place)) }
    ensures rows { IfOk result (λ made.
        rows_after made rows.now.items ≡ remove rows.now.items place) }
    ensures single { IfOk result (λ made. IsSingle made rows.now.items) }
    ensures edits { Edits D.Disk result (Unit {0}) edit.old edit.new }
    ensures takes { HonestAt D.honest edit.new.base.disk
        → TakesAtMost 0 result edit.old.next edit.new.next }
{
    edit.free_chain(first_at(rows, place))?;
    Ok(RowChange::Take { place })
}

// Puts a new tune on a chain, behind the others. Its row comes behind those of others like it. The
// bytes of the chain come in the place of those that are in `bytes`.
fn add_tune<D: Disk>(
    edit: &mut Edit<D>,
    bytes: &mut Vec<u8>,
    more: &mut Vec<Row>,
    number: u32,
    text: &TuneText,
) -> Result<(), Fault>
    ensures lays { OnOk result ((rows : List Row)
        → LaysTunes edit.old.next edit.new.next (rows ++ more.old.items) (rows
        ++ more.new.items) (λ tunes. tunes ++ numbered number (text.now ∷ []))) }
    ensures row { OnOk result (AddsRow number more.old.items more.new.items) }
    ensures alters { AltersEdit result (Unit {0}) edit.old edit.new }
    ensures takes { TakesAtMost (tune_pages text.now) result edit.old.next edit.new.next }
{
    let Ok(()) = put_text(bytes, 1, text.bytes()) else {
        return Err(edit.refuse());
    };
    let first = edit.put_chain(bytes)?;
    let row = Row {
        number,
        revision: 1,
        first,
        length: text.bytes().len() as u32,
    };
    if more.push(row).is_err() {
        return Err(edit.refuse());
    }
    Ok(())
}

// How many bytes stand on the chains of these texts.
fn chain_bytes(texts: &[TuneText]) -> usize {
    let mut bytes: usize = 0;
    for text in texts {
        bytes = bytes.saturating_add(2 + text.bytes().len());
    }
    bytes
}

// Puts new tunes of these texts on chains, behind the others, with numbers from `first` on, and
// gives their rows.
fn add_tunes<D: Disk>(edit: &mut Edit<D>, first: u32, texts: &[TuneText]) -> Result<Vec<Row>, Fault>
    requires numbers { first + length texts.now < 2 ^ 32 }
    ensures lays { IfOk result (λ more. (rows : List Row) → LaysTunes edit.old.next
        edit.new.next rows (rows ++ more.items) (λ tunes. tunes ++ numbered first texts.now)) }
    ensures rows { IfOk result (λ more.
        numbers_of_rows more.items ≡ range_with_len first (length texts.now)) }
    ensures alters { AltersEdit result (Unit {0}) edit.old edit.new }
    ensures takes { TakesAtMost (text_pages texts.now) result edit.old.next edit.new.next }
{
    let Ok(mut more) = Vec::with_capacity(edit.alloc(), texts.len()) else {
        return Err(edit.refuse());
    };
    // Memory for all chains at once, so that none is moved, and for some leaves of the indexes.
    edit.reserve(texts.len() + texts.len() / 8, chain_bytes(texts))?;
    let mut bytes = Vec::new(edit.alloc());
    let mut number = first;
    for text in texts {
        add_tune(edit, &mut bytes, &mut more, number, text)?;
        number += 1;
    }
    Ok(more)
}

// The change that puts rows behind the others. Where there is no room for them, all are copied.
fn put_behind(room: &mut Room, rows: &TieredVector<Row>, more: Vec<Row>) -> Result<RowChange, Fault>
    ensures behind { IfOk result (λ made. IsBehind made rows.now.items more.items) }
    ensures fits { IfOk result (λ made. FitsRows made rows.now.items rows.now.room) }
    ensures err { IfErr result (λ fault. fault ≡ OutOfMemory) }
{
    if rows.capacity() - rows.len() >= more.len() {
        return Ok(RowChange::Add(more));
    }
    match room.copy_rows(rows, &more) {
        Ok(all) => Ok(RowChange::Whole(all)),
        Err(fault) => Err(fault),
    }
}

// Lays new tunes of these texts, behind the others, with numbers from `first` on.
pub(crate) fn lay_added<D: Disk>(
    room: &mut Room,
    edit: &mut Edit<D>,
    rows: &TieredVector<Row>,
    first: u32,
    texts: &[TuneText],
) -> Result<RowChange, Fault>
    requires numbers { first + length texts.now < 2 ^ 32 }
    ensures lays { IfOk result (λ made. LaysTunes edit.old.next edit.new.next rows.now.items
        (rows_after made rows.now.items) (λ tunes. tunes ++ numbered first texts.now)) }
    ensures rows { IfOk result (λ made.
        AddsRows first (length texts.now) rows.now.items (rows_after made rows.now.items)) }
    ensures made { IfOk result (λ made. IsMadeOf made rows.now.items) }
    ensures room { IfOk result (λ made. FitsRows made rows.now.items rows.now.room) }
    ensures alters { AltersEdit result (Unit {0}) edit.old edit.new }
    ensures takes { TakesAtMost (text_pages texts.now) result edit.old.next edit.new.next }
{
    let more = match add_tunes(edit, first, texts) {
        Ok(more) => more,
        Err(fault) => return Err(fault),
    };
    let Ok(made) = put_behind(room, rows, more) else {
        return Err(edit.refuse());
    };
    Ok(made)
}

// Puts the set lists on another chain.
fn lay_sets<D: Disk>(edit: &mut Edit<D>, sets_first: u32, sets: &SetLists) -> Result<u32, Fault>
    requires chain { HonestAt D.honest edit.old.base.disk → HasSomeChain edit.old.next sets_first }
    ensures swaps { IfOk result (λ next. HonestAt D.honest edit.new.base.disk
        → SwapsChain edit.old.next edit.new.next sets_first next (written_sets sets.now)) }
    ensures edits { Edits D.Disk result (Unit {0}) edit.old edit.new }
    ensures takes { HonestAt D.honest edit.new.base.disk
        → TakesAtMost (sets_pages sets.now) result edit.old.next edit.new.next }
{
    let Ok(bytes) = sets.write() else {
        return Err(edit.refuse());
    };
    swap_chain(edit, sets_first, bytes.as_slice())
}

// Puts the set lists on another chain where they change; otherwise they stay where they are.
pub(crate) fn lay_sets_where<D: Disk>(
    edit: &mut Edit<D>,
    sets_first: u32,
    sets: &SetLists,
    changes: bool,
) -> Result<u32, Fault>
    requires chain { HonestAt D.honest edit.old.base.disk → HasSomeChain edit.old.next sets_first }
    ensures lays { IfOk result (λ next. HonestAt D.honest edit.new.base.disk
        → LaysSets edit.old.next edit.new.next sets_first next changes sets.now) }
    ensures edits { Edits D.Disk result (Unit {0}) edit.old edit.new }
    ensures takes { HonestAt D.honest edit.new.base.disk
        → TakesAtMost (sets_pages sets.now) result edit.old.next edit.new.next }
{
    if changes {
        lay_sets(edit, sets_first, sets)
    } else {
        edit.check()?;
        Ok(sets_first)
    }
}

// Whether the root says already that the chains begin there. It is read for that, where they began
// there before.
fn has_root<D: Disk>(
    edit: &mut Edit<D>,
    layout: Layout,
    was: Firsts,
    firsts: Firsts,
) -> Result<bool, Fault>
    ensures root { IfOk result (λ has. IsTrue has → HonestAt D.honest edit.new.base.disk
        → IsRoot layout (page_at edit.old.next.pages 0) firsts) }
    ensures consults { Consults D.Disk result edit.old edit.new }
{
    edit.check()?;
    if was != firsts || !edit.in_use(0) {
        return Ok(false);
    }
    let root = edit.read_page(0)?;
    let Some((its, found)) = read_root(&root) else {
        return Ok(false);
    };
    if its.number() != layout.number() {
        return Ok(false);
    }
    Ok(found == firsts)
}

// Puts a root on page 0 that says where these begin; one that says so already stays.
pub(crate) fn lay_root<D: Disk>(
    edit: &mut Edit<D>,
    layout: Layout,
    was: Firsts,
    firsts: Firsts,
) -> Result<(), Fault>
    ensures root { OnOk result (HonestAt D.honest edit.new.base.disk
        → LaysRoot layout edit.old.next edit.new.next firsts) }
    ensures edits { Edits D.Disk result (Unit {0}) edit.old edit.new }
    ensures takes { HonestAt D.honest edit.new.base.disk
        → TakesAtMost 0 result edit.old.next edit.new.next }
{
    if has_root(edit, layout, was, firsts)? {
        return Ok(());
    }
    // For the proof.
    edit.law_of_pages();
    edit.put_page(0, &write_root(layout, firsts))
}
