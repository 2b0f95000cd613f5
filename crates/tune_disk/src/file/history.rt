// The histories of files.
ghost use Rattle.std.specs.Prelude.{[]};
ghost use Rattle.tune_disk.specs.Disk.{fresh};
ghost use Rattle.tune_disk.specs.FileTold.{History};

/// Stands for what no call of a file tells of it: what it held when it was opened, what a stop
/// might have left then, and what it held after each write that failed. It is handed in where a
/// file is opened, for clauses alone: what is proved holds of each history.
pub trait FileHistory {
    /// The history that a value stands for.
    ghost history: { Self → History };
}

/// Stands for a history where no clause speaks of it.
#[derive(Clone, Copy)]
pub struct UnknownHistory;

impl FileHistory for UnknownHistory {
    ghost history = { λ _. record { opened = fresh []; broken = [] } };
}
