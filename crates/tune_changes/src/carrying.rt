// Carries out one command.
ghost use Rattle.std.specs.Prelude.{◌≡◌, false, [], ◌∷◌, Ok, IfOk};
ghost use Rattle.tune_store.specs.Answers.{asks};
ghost use Rattle.tune_store.specs.Step.{step};
ghost use Rattle.tune_changes.specs.Carrying.{Carries};

use tune_store::{Command, Refusal, Reply, TuneStore};

// The store's answer to a command that is no question.
pub(crate) fn carry_out<S: TuneStore>(store: &mut S, command: &Command) -> Result<Reply, Refusal>
    requires { asks command.now ≡ false }
    ensures carries { Carries S.TuneStore store.old store.new (command.now ∷ []) result }
    ensures reply { S.TuneStore.closed store.old ≡ false → S.TuneStore.honest store.new
        → IfOk result (λ reply. (step (S.TuneStore.state store.old) command.now).1 ≡ Ok reply) }
{
    store.apply(command)
}
