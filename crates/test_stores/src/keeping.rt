// Which commands change nothing.
ghost use Rattle.std.specs.Prelude.{◌≡◌};
ghost use Rattle.tune_store.specs.Answers.{changes_nothing};

use crate::asking::asks;
use tune_store::{Command, Layout};

// Whether a command, though it is accepted, changes nothing in an archive of this layout: a
// question, another number for a tune that is its own, and an upgrade of layout 2.
pub(crate) fn changes_nothing(layout: Layout, command: &Command) -> bool
    ensures { result ≡ changes_nothing layout command.now }
{
    match command {
        Command::Renumber { number, to } => number == to,
        Command::Upgrade => layout == Layout::Two,
        _ => asks(command),
    }
}
