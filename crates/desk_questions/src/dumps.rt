// Tells a script that makes all tunes and set lists anew.
ghost use Rattle.std.specs.Prelude.{◌≡◌, ◌≢◌, ℕ, ◌+◌, ◌++◌, ◌∷◌, [], List, map, Ok, OnOk};
ghost use Rattle.tune_sets.specs.Calls.{set_rows_of};
ghost use Rattle.tune_store.specs.declared.tune.Tune.{Tune};
ghost use Rattle.tune_store.specs.declared.command.Command.TheVariants.{Renumber};
ghost use Rattle.tune_store.specs.declared.command.Command.TheVariants.{SetNew, SetAdd};
ghost use Rattle.desk_questions.specs.Dumps.{book_of, imported, set_dump_commands};
ghost use Rattle.desk_questions.specs.Dumps.{dump_commands, command_bytes};
ghost use Rattle.desk_questions.specs.Dumps.{script_bytes};
ghost use Rattle.tune_asking.specs.AskingCalls.{Call, told_by, told_where};
ghost use Rattle.desk_questions.specs.Inside.DumpCalls.{BringsEach, places_told};
ghost use Rattle.desk_questions.specs.Inside.DumpCalls.{tunes_dumped, set_dumped};
ghost use Rattle.desk_questions.specs.Inside.DumpCalls.{each_dumped, sets_dumped};

use abc_fields::ByteText;
use std::alloc::{AllocError, Global};
use std::io::Write;
use tune_asking::{all_numbers, ask, tune_of, write_tune};
use tune_sets::{SetName, SetRow, SetRowList};
use tune_store::{Catalog, Command, IndexRow, Refusal, Reply, RowList, Tune, TuneStore};

// A piece is full when its book has more bytes than this.
const PIECE_SIZE: usize = 1_000_000;

// Tells the script that makes the tunes, with their numbers, and the set lists anew.
pub(crate) fn dump<S: TuneStore + Catalog>(
    alloc: Global,
    store: &mut S,
) -> Result<ByteText, Refusal>
    ensures { Call S.TuneStore store.old store.new (told_where (S.Catalog.labels store.old)
        (λ state. Ok (script_bytes (dump_commands state)))) result }
{
    let numbers = all_numbers(alloc, store)?;
    let mut script = Vec::new(alloc);
    dump_tunes(alloc, store, numbers.as_slice(), &mut script)?;
    dump_sets(alloc, store, &mut script)?;
    Ok(ByteText::from_vec(script))
}

// TUNES

// Writes the commands for the tunes of these numbers.
fn dump_tunes<S: TuneStore>(
    alloc: Global,
    store: &mut S,
    numbers: &[u32],
    script: &mut Vec<u8>,
) -> Result<(), Refusal>
    ensures { Call S.TuneStore store.old store.new
        (tunes_dumped numbers.now script.old.items script.new.items) result }
{
    let mut piece = Vec::new(alloc);
    let mut last = 0;
    for number in numbers {
        let tune = tune_of(store, *number)?;
        put_tune(script, &mut piece, last, &tune)?;
        last = tune.number;
    }
    Ok(put_piece(script, &mut piece)?)
}

// Writes what a tune brings, where the one before it has the number `last`.
fn put_tune(
    script: &mut Vec<u8>,
    piece: &mut Vec<u8>,
    last: u32,
    tune: &Tune,
) -> Result<(), AllocError>
    ensures { OnOk result (BringsEach last tune.now piece.old.items piece.new.items script.old.items
        script.new.items) }
{
    let next = u64::from(last) + 1;
    if u64::from(tune.number) == next {
        put_next(script, piece, tune)
    } else {
        put_alone(script, piece, next, tune)
    }
}

// A tune without a gap before it goes in with the piece, or begins the next where that is full.
fn put_next(script: &mut Vec<u8>, piece: &mut Vec<u8>, tune: &Tune) -> Result<(), AllocError>
    ensures { OnOk result ((last : ℕ) → tune.now.number ≡ last + 1 → BringsEach last tune.now
        piece.old.items piece.new.items script.old.items script.new.items) }
{
    if piece.len() <= PIECE_SIZE {
        return put_in_piece(piece, tune);
    }
    put_piece(script, piece)?;
    put_in_piece(piece, tune)
}

// A tune after a gap goes in alone, and from the number that it gets it goes on to its own.
fn put_alone(
    script: &mut Vec<u8>,
    piece: &mut Vec<u8>,
    next: u64,
    tune: &Tune,
) -> Result<(), AllocError>
    ensures { OnOk result ((last : ℕ) → next ≡ last + 1 → tune.now.number ≢ next → BringsEach last
        tune.now piece.old.items piece.new.items script.old.items script.new.items) }
{
    put_piece(script, piece)?;
    put_in_piece(piece, tune)?;
    put_piece(script, piece)?;
    put_renumber(script, next, tune.number)
}

// Writes that the tune of a number gets another.
fn put_renumber(script: &mut Vec<u8>, number: u64, to: u32) -> Result<(), AllocError>
    ensures { OnOk result (script.new.items
        ≡ script.old.items ++ command_bytes (Renumber number to)) }
{
    write!(script, "renumber {number} {to}\n").map_err(|_| AllocError)
}

// Puts a tune at the end of a piece, which begins as a book does.
fn put_in_piece(piece: &mut Vec<u8>, tune: &Tune) -> Result<(), AllocError>
    ensures { OnOk result ((tunes : List Tune) → piece.old.items ≡ book_of tunes
        → piece.new.items ≡ book_of (tunes ++ tune.now ∷ [])) }
{
    if !piece.is_empty() {
        return write_tune(piece, tune);
    }
    piece.extend_from_slice(b"%abc-2.1\n")?;
    write_tune(piece, tune)
}

// Writes the import of a piece, where it has a tune, and begins the next.
fn put_piece(script: &mut Vec<u8>, piece: &mut Vec<u8>) -> Result<(), AllocError>
    ensures written { OnOk result (script.new.items
        ≡ script.old.items ++ script_bytes (imported piece.old.items)) }
    ensures begun { OnOk result (piece.new.items ≡ []) }
{
    if piece.is_empty() {
        return Ok(());
    }
    write!(script, "import {}\n", piece.len()).map_err(|_| AllocError)?;
    script.extend_from_slice(piece.as_slice())?;
    piece.clear();
    Ok(())
}

// SET LISTS

// Writes the commands for all set lists.
fn dump_sets<S: TuneStore>(
    alloc: Global,
    store: &mut S,
    script: &mut Vec<u8>,
) -> Result<(), Refusal>
    ensures { Call S.TuneStore store.old store.new
        (sets_dumped script.old.items script.new.items) result }
{
    let sets = all_sets(store)?;
    dump_each(alloc, store, sets.as_slice(), script)
}

// Writes the commands for the set lists of these rows, which are all.
fn dump_each<S: TuneStore>(
    alloc: Global,
    store: &mut S,
    sets: &[SetRow],
    script: &mut Vec<u8>,
) -> Result<(), Refusal>
    ensures { Call S.TuneStore store.old store.new
        (each_dumped sets.now script.old.items script.new.items) result }
{
    for set in sets {
        dump_set(alloc, store, &set.name, script)?;
    }
    Ok(())
}

// A row for each set list.
fn all_sets<S: TuneStore>(store: &mut S) -> Result<SetRowList, Refusal>
    ensures { Call S.TuneStore store.old store.new
        (told_by (λ state. Ok (set_rows_of state.sets))) result }
{
    match ask(store, &Command::Sets)? {
        Reply::Sets(rows) => Ok(rows),
        _ => Err(Refusal::NoSuchSet),
    }
}

// Writes the commands for the set list of a name.
fn dump_set<S: TuneStore>(
    alloc: Global,
    store: &mut S,
    name: &SetName,
    script: &mut Vec<u8>,
) -> Result<(), Refusal>
    ensures { Call S.TuneStore store.old store.new
        (set_dumped name.now script.old.items script.new.items) result }
{
    let rows = places(alloc, store, name)?;
    Ok(put_set(script, name, rows.as_slice())?)
}

// A row for each place of the set list of a name.
fn places<S: TuneStore>(alloc: Global, store: &mut S, name: &SetName) -> Result<RowList, Refusal>
    ensures { Call S.TuneStore store.old store.new (told_by (places_told name.now)) result }
{
    let name = ByteText::copy_of(alloc, name.as_slice())?;
    match ask(store, &Command::SetShow(name))? {
        Reply::SetShown { name: _, rows } => Ok(rows),
        _ => Err(Refusal::NoSuchSet),
    }
}

// Writes the commands for a set list with these places.
fn put_set(script: &mut Vec<u8>, name: &SetName, rows: &[IndexRow]) -> Result<(), AllocError>
    ensures { OnOk result (script.new.items ≡ script.old.items ++ script_bytes
        (set_dump_commands name.now (Ok (map (λ row. row.number) rows.now)))) }
{
    put_new(script, name)?;
    for row in rows {
        put_add(script, name, row.number)?;
    }
    Ok(())
}

// Writes that a set list is made.
fn put_new(script: &mut Vec<u8>, name: &SetName) -> Result<(), AllocError>
    ensures { OnOk result (script.new.items
        ≡ script.old.items ++ command_bytes (SetNew name.now)) }
{
    script.extend_from_slice(b"set-new ")?;
    script.extend_from_slice(name.as_slice())?;
    script.extend_from_slice(b"\n")
}

// Writes that a set list gets a place more.
fn put_add(script: &mut Vec<u8>, name: &SetName, number: u32) -> Result<(), AllocError>
    ensures { OnOk result (script.new.items
        ≡ script.old.items ++ command_bytes (SetAdd name.now number)) }
{
    script.extend_from_slice(b"set-add ")?;
    script.extend_from_slice(name.as_slice())?;
    write!(script, " {number}\n").map_err(|_| AllocError)
}
