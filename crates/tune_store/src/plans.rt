// Decides commands: by the rules that are here alone, for every store.
ghost use Rattle.std.specs.Prelude.{◌≡◌, true, None, Some, IfOk, IfErr, MatchResult};
ghost use Rattle.tune_store.specs.State.{IsState};
ghost use Rattle.tune_store.specs.Step.{step};
ghost use Rattle.tune_store.specs.Answers.{takes_memory, asks};
ghost use Rattle.tune_store.specs.Plans.{Decides, CanChangeTo, EndsFetch, IsRefusalOfPlan, grows};

use crate::catalog::Catalog;
use crate::command::{Command, Refusal, Reply};
use crate::questions::{export, export_set, find, set_show, sets, show, titles};
use crate::set_plans::{set_add, set_cut, set_drop, set_new};
use crate::tune::Tune;
use crate::tune_plans::{delete, import, renumber, replace, upgrade};
use abc_fields::TuneText;
use std::alloc::Global;
use tune_sets::SetName;

/// One change of an archive. A place is an index in the list of tunes by rising number, from 0; a
/// place of a set list counts from 1.
#[derive(Debug, Drop)]
pub enum Change {
    /// Tunes of these texts come to the end of the list, with numbers from `first` on, at
    /// revision 1.
    Add { first: u32, texts: Vec<TuneText> },
    /// This tune takes the place of the one there, which has its number.
    Put { place: usize, tune: Tune },
    /// The tune there is taken out.
    Take { place: usize },
    /// The tune of this number gets another one, in set lists too, and goes where that belongs.
    Move { number: u32, to: u32 },
    /// A set list of this name comes in, without a place.
    NewSet { name: SetName },
    /// The number comes to the end of the set list of this name.
    AddPlace { name: SetName, number: u32 },
    /// This place is taken out of the set list of this name.
    CutPlace { name: SetName, place: u32 },
    /// The set list of this name is taken out.
    DropSet { name: SetName },
    /// The archive comes to layout 2.
    Upgrade,
}

/// What a command that is accepted is to change, and what it is answered.
#[derive(Debug, Drop)]
pub struct Plan {
    /// The change, or none: a question changes nothing.
    pub change: Option<Change>,
    /// The answer, once the change is made.
    pub reply: Reply,
}

impl Plan {
    // A plan that changes nothing.
    pub(crate) fn answer(reply: Reply) -> Plan
        ensures change { result.change ≡ None }
        ensures reply { result.reply ≡ reply }
    {
        Plan {
            change: None,
            reply,
        }
    }

    // A plan of a change.
    pub(crate) fn change(change: Change, reply: Reply) -> Plan
        ensures change { result.change ≡ Some change }
        ensures reply { result.reply ≡ reply }
    {
        Plan {
            change: Some(change),
            reply,
        }
    }
}

/// Decides a command, or refuses it: what it is to change, and what it is answered. A question is
/// answered by its plan, which changes nothing. The rules of every command are here. A store
/// carries the change out, and refuses by itself for its device, its file and its memory alone.
///
/// `alloc` is for the plan. The refusals are those of the command, `OutOfMemory`, and `Device`
/// where the device failed in reading a text.
///
/// - `decided`: the plan, or the refusal, is that of the plain list (`step`).
/// - `changes`: a command that leaves the plain list as it is, as a `Renumber` to the tune's own
///   number or an `Upgrade` of layout 2, has no change. So each change changes something.
/// - `names`, of every device: which refusals may come.
/// - `memory`, of every device: some commands are never refused for memory, and their changes ask
///   for none.
/// - `possible`, of every device: the change can be made.
/// - `asks`, of every device: a question has no change.
/// - `fetched`: what became of the store in reading texts.
pub fn decide<C: Catalog>(
    alloc: Global,
    catalog: &mut C,
    command: &Command,
) -> Result<Plan, Refusal>
    ensures decided { C.honest catalog.new → IsState (C.state catalog.old)
        → Decides (C.state catalog.old) command.now result }
    ensures changes { C.honest catalog.new → IsState (C.state catalog.old)
        → (step (C.state catalog.old) command.now).0 ≡ C.state catalog.old
        → IfOk result (λ plan. plan.change ≡ None) }
    ensures names { IfErr result (IsRefusalOfPlan command.now) }
    ensures memory { MatchResult result
        (λ plan. grows plan.change ≡ true → takes_memory command.now ≡ true)
        (λ refusal. refusal ≡ Refusal.OutOfMemory → takes_memory command.now ≡ true) }
    ensures possible { IfOk result
        (λ plan. CanChangeTo plan.change
        (C.layout catalog.old) (C.labels catalog.old) (C.sets catalog.old)) }
    ensures asks { asks command.now ≡ true → IfOk result (λ plan. plan.change ≡ None) }
    ensures fetched { MatchResult result (λ _. C.fetched catalog.old catalog.new)
        (λ refusal. EndsFetch C.fetched C.failed catalog.old refusal catalog.new) }
{
    match command {
        Command::Import(book) => import(alloc, catalog, book.as_slice()),
        Command::Replace {
            number,
            revision,
            book,
        } => replace(alloc, catalog, *number, *revision, book.as_slice()),
        Command::Delete(number) => delete(catalog, *number),
        Command::Renumber { number, to } => renumber(catalog, *number, *to),
        Command::Show(number) => show(alloc, catalog, *number),
        Command::Find(query) => find(alloc, catalog, query),
        Command::Titles => titles(alloc, catalog),
        Command::SetNew(name) => set_new(catalog, name.as_slice()),
        Command::SetAdd { name, number } => set_add(catalog, name.as_slice(), *number),
        Command::SetCut { name, place } => set_cut(catalog, name.as_slice(), *place),
        Command::SetDrop(name) => set_drop(catalog, name.as_slice()),
        Command::Sets => sets(catalog),
        Command::SetShow(name) => set_show(alloc, catalog, name.as_slice()),
        Command::ExportAll => export(alloc, catalog),
        Command::ExportSet(name) => export_set(alloc, catalog, name.as_slice()),
        Command::Upgrade => Ok(upgrade(catalog)),
    }
}
