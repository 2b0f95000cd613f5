// What FILE is asked.
ghost use Rattle.std.specs.Prelude.{◌≡◌, Ok, Some, false, IfOk, MatchResult, string_bytes};
ghost use Rattle.tune_pages.specs.Kept.{HonestAt};
ghost use Rattle.tune_store.specs.State.{tune_at};
ghost use Rattle.tune_archive.specs.AsStore.{store_on};
ghost use Rattle.tune_archive.specs.Shelf.{state_of};
ghost use Rattle.tune_store.specs.Step.{step};
ghost use Rattle.tune_store.specs.declared.command.Command.TheVariants as command;
ghost use Rattle.tune_asking.specs.Asking as asking;
ghost use Rattle.desk_questions.specs.Told.{told};
ghost use Rattle.desk_scenes.specs.FileAnswers.{Did, IsAsked, IsUnasked};
ghost use Rattle.desk_scenes.specs.OpenedFile.{CountsOf};

use abc_fields::ByteText;
use desk_questions::tell;
use desk_scenes::{Unanswered, Unopened, open_to_read};
use desk_terms::Question;
use tune_archive::{Archive, Counts, TuneStore};
use tune_desk::Desk;
use tune_disk::Disk;
use tune_store::{Command, Refusal, Reply, Tune};

/// What FILE tells to a question, in bytes.
pub(crate) fn ask_question<D: Disk, K: AllocGlobal + Desk<Disk = D>>(
    desk: &mut K,
    file: &String,
    question: &Question,
) -> Result<ByteText, Unanswered>
    ensures { let file = string_bytes file.now in MatchResult result
        (λ bytes. Did (K.deeds desk.old) (K.deeds desk.new) (IsAsked D.Disk file
        (λ state. told question.now state ≡ Ok bytes)))
        (λ _. Did (K.deeds desk.old) (K.deeds desk.new) (IsUnasked D.Disk file)) }
{
    match open_to_read(desk, file) {
        Err(why) => Err(Unanswered::Unopened(why)),
        Ok(mut archive) => {
            // For the proof.
            archive.law_of_labels();
            let answer = tell(desk.alloc(), &mut archive, question);
            desk.close(file, archive.into_disk());
            match answer {
                Ok(bytes) => Ok(bytes),
                Err(refusal) => Err(Unanswered::Refused(refusal)),
            }
        }
    }
}

/// How much FILE holds.
pub(crate) fn ask_counts<D: Disk, K: AllocGlobal + Desk<Disk = D>>(
    desk: &mut K,
    file: &String,
) -> Result<Counts, Unanswered>
    ensures { let file = string_bytes file.now in MatchResult result
        (λ counts. Did (K.deeds desk.old) (K.deeds desk.new) (IsAsked D.Disk file
        (CountsOf counts)))
        (λ _. Did (K.deeds desk.old) (K.deeds desk.new) (IsUnasked D.Disk file)) }
{
    match open_to_read(desk, file) {
        Err(why) => Err(Unanswered::Unopened(why)),
        Ok(archive) => {
            let counts = archive.counts();
            desk.close(file, archive.into_disk());
            match counts {
                Ok(counts) => Ok(counts),
                Err(_) => Err(Unanswered::Refused(Refusal::Closed)),
            }
        }
    }
}

/// The tune of a number.
pub(crate) fn ask_tune<D: Disk, K: AllocGlobal + Desk<Disk = D>>(
    desk: &mut K,
    file: &String,
    number: u32,
) -> Result<Tune, Unanswered>
    ensures { let file = string_bytes file.now in MatchResult result
        (λ tune. Did (K.deeds desk.old) (K.deeds desk.new) (IsAsked D.Disk file
        (λ state. tune_at number state.tunes ≡ Some tune)))
        (λ _. Did (K.deeds desk.old) (K.deeds desk.new) (IsUnasked D.Disk file)) }
{
    match open_to_read(desk, file) {
        Err(why) => Err(Unanswered::Unopened(why)),
        Ok(mut archive) => {
            let answer = shown_tune(&mut archive, number);
            desk.close(file, archive.into_disk());
            match answer {
                Ok(tune) => Ok(tune),
                Err(refusal) => Err(Unanswered::Refused(refusal)),
            }
        }
    }
}

fn shown_tune<D: Disk>(archive: &mut Archive<D>, number: u32) -> Result<Tune, Refusal>
    ensures asked { asking.IsOnlyAsked (store_on D.Disk) archive.old archive.new }
    ensures told { IfOk result (λ tune. archive.old.closed ≡ false
        → HonestAt D.honest archive.new.pages.disk
        → tune_at number (state_of D.state archive.old).tunes ≡ Some tune) }
{
    match shown(archive, number) {
        Ok(Reply::Shown(tune)) => Ok(tune),
        Ok(_) => Err(Refusal::Unknown { number }),
        Err(refusal) => Err(refusal),
    }
}

fn shown<D: Disk>(archive: &mut Archive<D>, number: u32) -> Result<Reply, Refusal>
    ensures asked { asking.IsOnlyAsked (store_on D.Disk) archive.old archive.new }
    ensures told { IfOk result (λ reply. archive.old.closed ≡ false
        → HonestAt D.honest archive.new.pages.disk
        → (step (state_of D.state archive.old) (command.Show number)).1 ≡ Ok reply) }
{
    archive.apply(&Command::Show(number))
}
