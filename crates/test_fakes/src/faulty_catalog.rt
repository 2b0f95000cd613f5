// Calls on a catalog of which some texts cannot be read.
use abc_fields::{ByteText, TuneText};
use std::alloc::Global;
use std::io;
use test_cases::{Answer, no_data};
use tune_queries::{Query, QueryText, Sought};
use tune_sets::SetLists;
use tune_store::{
    Catalog, Command, Label, Layout, ListArchive, Plan, Refusal, Reply, TuneStore, decide,
};

// A fake catalog: an archive in memory. No text can be read but those of the first `readable`
// tunes: the device fails, or memory runs out.
#[derive(Drop)]
struct FaultyCatalog {
    archive: ListArchive,
    readable: usize,
    fails: bool,
}

impl Catalog for FaultyCatalog {
    ghost use Rattle.std.specs.Prelude.{⊤};
    ghost use Rattle.std.proofs.Common.{◌≡◌, refl, ap, ◌∙◌};
    ghost use Rattle.tune_store.specs.Labels.{labels_of};

    ghost labels = { λ it. labels_of it.archive.tunes };

    ghost layout = { λ it. it.archive.layout };

    ghost sets = { λ it. it.archive.sets };

    ghost state = { λ it. it.archive };

    ghost at_hand = { λ _ _. ⊤ };

    ghost fetched = { λ old new. new ≡ old };

    ghost failed = { λ _ _. ⊤ };

    ghost none_fetched = { λ it. refl };

    ghost more_fetched = { λ old mid new before then. then ∙ before };

    ghost fetched_and_failed = { λ old mid new before then. then };

    ghost labels_stay = { λ old new same. ap (λ it. labels_of it.archive.tunes) same };

    ghost layout_stays = { λ old new same. ap (λ it. it.archive.layout) same };

    ghost sets_stay = { λ old new same. ap (λ it. it.archive.sets) same };

    ghost was_honest = { λ old new same honest. honest };

    ghost state_stays = { λ old new same honest. ap (λ it. it.archive) same };

    ghost labels_are = { λ it honest. refl };

    ghost layout_is = { λ it honest. refl };

    ghost sets_are = { λ it honest. refl };

    fn len(&self) -> usize {
        Catalog::len(&self.archive)
    }

    fn label(&self, place: usize) -> Label {
        self.archive.label(place)
    }

    fn place_of(&self, number: u32) -> Option<usize> {
        self.archive.place_of(number)
    }

    fn layout(&self) -> Layout {
        self.archive.layout()
    }

    fn sets(&self) -> &SetLists {
        self.archive.sets()
    }

    fn fetch(&mut self, place: usize) -> Result<(), Refusal> {
        if place < self.readable {
            Ok(())
        } else if self.fails {
            Err(Refusal::Device)
        } else {
            Err(Refusal::OutOfMemory)
        }
    }

    fn text(&self, place: usize) -> &TuneText {
        self.archive.text(place)
    }

    fn candidates(&mut self, sought: &Sought<'_>) -> Result<Vec<usize>, Refusal> {
        self.archive.candidates(sought)
    }
}

// Two tunes, of which the text of the first alone can be read.
fn two_tunes(alloc: Global, fails: bool) -> io::Result<FaultyCatalog> {
    let mut archive = ListArchive::new(alloc);
    let book = ByteText::copy_of(alloc, b"X:1\nT:air\nK:C\nX:2\nT:airs\nK:D\n")?;
    match archive.apply(&Command::Import(book)) {
        Ok(_) => Ok(FaultyCatalog {
            archive,
            readable: 1,
            fails,
        }),
        Err(_) => Err(no_data()),
    }
}

// The command of a name.
fn command(alloc: Global, name: &str) -> io::Result<Command> {
    match name {
        "find-air" => match QueryText::new(ByteText::copy_of(alloc, b"air")?) {
            Some(title) => Ok(Command::Find(Query::Title(title))),
            None => Err(no_data()),
        },
        "titles" => Ok(Command::Titles),
        "export" => Ok(Command::ExportAll),
        "show-1" => Ok(Command::Show(1)),
        "show-2" => Ok(Command::Show(2)),
        "delete-2" => Ok(Command::Delete(2)),
        _ => Err(no_data()),
    }
}

/// What is decided of a command.
pub(crate) fn show_decided(
    alloc: Global,
    name: &str,
    fails: bool,
    answer: &mut Answer,
) -> io::Result<()> {
    match decided(alloc, name, fails)? {
        Ok(reply) => show_reply(reply, answer),
        Err(refusal) => answer.name(refusal),
    }
    Ok(())
}

fn decided(alloc: Global, name: &str, fails: bool) -> io::Result<Result<Reply, Refusal>> {
    let mut catalog = two_tunes(alloc, fails)?;
    match decide(alloc, &mut catalog, &command(alloc, name)?) {
        Ok(Plan { change: _, reply }) => Ok(Ok(reply)),
        Err(refusal) => Ok(Err(refusal)),
    }
}

// A reply that shows or deletes a tune.
fn show_reply(reply: Reply, answer: &mut Answer) {
    match reply {
        Reply::Shown(tune) => {
            let (number, revision) = (tune.number, tune.revision);
            answer.show(format_args!("{number} {revision} "));
            answer.quote(tune.text.bytes());
        }
        Reply::Deleted { number } => answer.show(format_args!("{number} is deleted")),
        _ => answer.say("another reply"),
    }
}
