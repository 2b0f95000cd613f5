// What an undoing takes away, and what it brings back.
ghost use Rattle.std.specs.Prelude.{◌≡◌, ◌++◌, IfOk, OnOk, Ok, [], ◌∷◌};
ghost use Rattle.std.specs.Option.{option_to_list};
ghost use Rattle.tune_asking.specs.Asking.{IsOnlyAsked};
ghost use Rattle.tune_asking.specs.AskingCalls.{Call, told_by};
ghost use Rattle.tune_store.specs.State.{tune_at};
ghost use Rattle.tune_changes.specs.Aims.{aimed_back};
ghost use Rattle.tune_changes.specs.Carrying.{Carries};
ghost use Rattle.tune_store.specs.declared.command.Command.TheVariants.{Renumber};
ghost use Rattle.tune_undo.specs.OldEntries.{entry_value};
ghost use Rattle.desk_changes.specs.TakenBack.{aims_by, aim_by, gone_by, gone_text, all_gone_by};
ghost use Rattle.desk_changes.specs.TakenBack.{entry_of_texts, is_text, IsAccepted, RenumbersOne};
ghost use Rattle.desk_changes.specs.TakenBack.{Stood};
ghost use Rattle.desk_changes.specs.Inside.Works.{Works};

use abc_fields::TuneText;
use std::alloc::{AllocError, Global};
use tune_archive::Archive;
use tune_asking::tune_of;
use tune_changes::{Aim, take_back};
use tune_disk::Disk;
use tune_sets::NumberList;
use tune_store::{Catalog, Command, Refusal, Reply, Tune, TuneStore};
use tune_undo::{After, Entry, EntryKind, Part};

// A tune that came back without its number, and this number.
#[derive(Clone, Copy)]
struct Stray {
    number: u32,
    to: u32,
}

/// The greatest number that a tune has, or 0.
pub(crate) fn greatest_number<C: Catalog>(catalog: &C) -> u32 {
    match catalog.len() {
        0 => 0,
        count => catalog.label(count - 1).number,
    }
}

// The tune of a number, where there is one.
fn tune_if_any<S: TuneStore>(store: &mut S, number: u32) -> Result<Option<Tune>, Refusal>
    ensures { Call S.TuneStore store.old store.new
        (told_by (λ state. Ok (tune_at number state.tunes))) result }
{
    match tune_of(store, number) {
        Ok(tune) => Ok(Some(tune)),
        Err(Refusal::Unknown { number: _ }) => Ok(None),
        Err(refusal) => Err(refusal),
    }
}

/// Brings each tune and set list of an entry to what it was, the last first.
pub(crate) fn restore<S: TuneStore>(
    alloc: Global,
    store: &mut S,
    entry: &Entry,
) -> Result<(), Refusal>
    ensures { Carries S.TuneStore store.old store.new
        (aimed_back (aims_by entry.now.parts.items) (S.TuneStore.state store.old)) result }
{
    let Ok(aims) = aims_of(alloc, entry.parts.as_slice()) else {
        return Err(Refusal::OutOfMemory);
    };
    take_back(alloc, store, aims.as_slice())
}

// What each tune and set list was.
fn aims_of(alloc: Global, parts: &[Part]) -> Result<Vec<Aim>, AllocError>
    ensures { IfOk result (λ aims. aims.items ≡ aims_by parts.now) }
{
    let mut aims = Vec::with_capacity(alloc, parts.len())?;
    for part in parts {
        aims.push(aim_of(alloc, part)?)?;
    }
    Ok(aims)
}

fn aim_of(alloc: Global, part: &Part) -> Result<Aim, AllocError>
    ensures { IfOk result (λ aim. aim ≡ aim_by part.now) }
{
    match part {
        Part::Tune { number, was, is: _ } => Ok(Aim::Tune {
            number: *number,
            text: match was {
                Some(text) => Some(text.copy(alloc)?),
                None => None,
            },
        }),
        Part::Set { name, was, is: _ } => Ok(Aim::Set {
            name: *name,
            numbers: match was {
                Some(numbers) => {
                    let copy = Vec::from_slice(alloc, numbers.as_slice())?;
                    Some(NumberList::from_vec(copy))
                }
                None => None,
            },
        }),
    }
}

/// An entry of the texts that go where what an entry says is taken back.
pub(crate) fn taken_by<S: TuneStore>(
    alloc: Global,
    store: &mut S,
    entry: &Entry,
) -> Result<Entry, Refusal>
    ensures asked { IsOnlyAsked S.TuneStore store.old store.new }
    ensures texts { IfOk result (λ gone. entry_value gone ≡ entry_of_texts gone.parts.items) }
    ensures gone { IfOk result (λ gone. Stood S.TuneStore store.old store.new
        (λ state. gone.parts.items ≡ all_gone_by entry.now.parts.items state)) }
{
    let mut parts = Vec::new(alloc);
    for part in entry.parts.as_slice() {
        let gone = gone_by(store, part)?;
        put_gone(&mut parts, gone)?;
    }
    Ok(Entry {
        kind: EntryKind::Kept,
        parts,
    })
}

fn put_gone(parts: &mut Vec<Part>, gone: Option<Part>) -> Result<(), AllocError>
    ensures { OnOk result (parts.new.items ≡ parts.old.items ++ option_to_list gone) }
{
    match gone {
        Some(part) => {
            parts.push(part)?;
            Ok(())
        }
        None => Ok(()),
    }
}

// The text of a tune that goes.
fn gone_by<S: TuneStore>(store: &mut S, part: &Part) -> Result<Option<Part>, Refusal>
    ensures { Call S.TuneStore store.old store.new
        (told_by (λ state. Ok (gone_by part.now state))) result }
{
    match part {
        Part::Tune { number, was, is: _ } => {
            let now = tune_if_any(store, *number)?;
            Ok(gone_text(*number, was, now))
        }
        Part::Set { .. } => Ok(None),
    }
}

fn gone_text(number: u32, was: &Option<TuneText>, now: Option<Tune>) -> Option<Part>
    ensures { result ≡ gone_text number was.now now }
{
    let tune = now?;
    if is_text(was, tune.text.bytes()) {
        return None;
    }
    Some(Part::Tune {
        number,
        was: Some(tune.text),
        is: After::Nothing,
    })
}

fn is_text(was: &Option<TuneText>, text: &[u8]) -> bool
    ensures { result ≡ is_text was.now text.now }
{
    match was {
        Some(was) => was.bytes() == text,
        None => false,
    }
}

// Where a stop within an undoing left a tune that had come back without its number, which is above
// all that there were before: that tune.
fn stray_of<S: TuneStore + Catalog>(
    store: &mut S,
    entry: &Entry,
    greatest: u32,
) -> Result<Option<Stray>, Refusal>
    ensures { IsOnlyAsked S.TuneStore store.old store.new }
{
    let last = greatest_number(store);
    if last <= greatest || has_number(entry, last) {
        return Ok(None);
    }
    for part in entry.parts.as_slice().iter().rev() {
        if let Part::Tune {
            number,
            was: Some(text),
            is: _,
        } = part
        {
            if tune_if_any(store, *number)?.is_none() {
                return stray_at(store, last, *number, text);
            }
        }
    }
    Ok(None)
}

/// Gives such a tune its number.
pub(crate) fn number_stray<D: Disk>(
    archive: &mut Archive<D>,
    entry: &Entry,
    greatest: u32,
) -> Result<(), Refusal>
    ensures works { Works D.Disk archive.old archive.new }
    ensures renumbers { RenumbersOne D.Disk (λ _. Unit {0}) archive.old archive.new }
    ensures accepted { IfOk result
        (λ _. RenumbersOne D.Disk IsAccepted archive.old archive.new) }
{
    let Some(stray) = stray_of(archive, entry, greatest)? else {
        return Ok(());
    };
    renumber(archive, stray)?;
    Ok(())
}

fn renumber<S: TuneStore>(store: &mut S, stray: Stray) -> Result<Reply, Refusal>
    ensures { Carries S.TuneStore store.old store.new
        (Renumber stray.number stray.to ∷ []) result }
{
    store.apply(&Command::Renumber {
        number: stray.number,
        to: stray.to,
    })
}

// Whether the last tune has the text of a tune that is not there.
fn stray_at<S: TuneStore>(
    store: &mut S,
    last: u32,
    to: u32,
    text: &TuneText,
) -> Result<Option<Stray>, Refusal>
    ensures { IsOnlyAsked S.TuneStore store.old store.new }
{
    match tune_if_any(store, last)? {
        Some(tune) if tune.text.bytes() == text.bytes() => Ok(Some(Stray { number: last, to })),
        _ => Ok(None),
    }
}

fn has_number(entry: &Entry, other: u32) -> bool {
    for part in entry.parts.as_slice() {
        if let Part::Tune {
            number,
            was: _,
            is: _,
        } = part
        {
            if *number == other {
                return true;
            }
        }
    }
    false
}
