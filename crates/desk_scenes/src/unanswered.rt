// Why FILE told nothing.
use crate::file_opening::Unopened;
use tune_store::Refusal;

/// Why a question is not answered.
#[derive(Clone, Copy)]
pub enum Unanswered {
    /// FILE was not opened.
    Unopened(Unopened),
    /// It was refused.
    Refused(Refusal),
}
