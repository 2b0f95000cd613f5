// Why a call on pages is refused.
use thiserror::Error;

/// Why a call with a work is refused.
#[derive(Clone, Copy, Debug, PartialEq, Eq, Error)]
pub enum Fault {
    /// Refusal 20: all pages up to the limit are in use, or fewer are free than a chain wants.
    #[error("the file is full")]
    FileFull,
    /// Refusal 21: memory was refused in this call.
    #[error("out of memory")]
    OutOfMemory,
    /// Refusal 22: the device failed in this call.
    #[error("the device failed")]
    Device,
    /// Refusal 23: the device failed in an earlier call.
    #[error("the pages are closed")]
    Closed,
}

/// Why pages that are being opened could not be claimed.
#[derive(Clone, Copy, Debug, PartialEq, Eq, Error)]
pub enum ClaimFault {
    /// Refusal 41: no page, or no chain, that is still to be claimed stands there.
    #[error("the archive is damaged")]
    Damaged,
    /// Refusal 21: memory was refused in this call.
    #[error("out of memory")]
    OutOfMemory,
    /// Refusal 22: the device failed in this call.
    #[error("the device failed")]
    Device,
}
