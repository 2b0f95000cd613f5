// Which commands are questions.
ghost use Rattle.std.specs.Prelude.{◌≡◌};
ghost use Rattle.tune_store.specs.Answers.{asks};

use tune_store::Command;

// Whether a command is a question.
pub(crate) fn asks(command: &Command) -> bool
    ensures { result ≡ asks command.now }
{
    matches!(
        command,
        Command::Show(_)
            | Command::Find(_)
            | Command::Titles
            | Command::Sets
            | Command::SetShow(_)
            | Command::ExportAll
            | Command::ExportSet(_)
    )
}
