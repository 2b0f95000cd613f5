// Asks a store one question.
ghost use Rattle.std.specs.Prelude.{◌≡◌, true};
ghost use Rattle.tune_store.specs.Answers.{asks};
ghost use Rattle.tune_store.specs.Step.{step};
ghost use Rattle.tune_asking.specs.AskingCalls.{Call, told_by, tune_told};

use tune_store::{Command, Refusal, Reply, Tune, TuneStore};

/// The store's answer to a question.
pub fn ask<S: TuneStore>(store: &mut S, command: &Command) -> Result<Reply, Refusal>
    requires { asks command.now ≡ true }
    ensures { Call S.TuneStore store.old store.new
        (told_by (λ state. (step state command.now).1)) result }
{
    store.apply(command)
}

/// The tune of a number.
pub fn tune_of<S: TuneStore>(store: &mut S, number: u32) -> Result<Tune, Refusal>
    ensures { Call S.TuneStore store.old store.new (told_by (tune_told number)) result }
{
    match ask(store, &Command::Show(number))? {
        Reply::Shown(tune) => Ok(tune),
        _ => Err(Refusal::Unknown { number }),
    }
}
