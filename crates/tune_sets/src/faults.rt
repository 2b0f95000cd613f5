// Why a call on set lists is refused.
use std::alloc::{AllocError, AllocFailed};
use thiserror::Error;

/// Why a call on set lists is refused. After each refusal the set lists are as they were.
#[derive(Clone, Copy, Debug, PartialEq, Eq, Error)]
pub enum SetFault {
    /// The name does not have 1 to `LONGEST_NAME` bytes that are ASCII letters, digits, `-` or `_`.
    #[error("a set cannot have this name")]
    BadName,
    /// A set has the name.
    #[error("a set has this name")]
    SetTaken,
    /// There are `MOST_SETS` sets.
    #[error("there is no room for another set")]
    SetsFull,
    /// No set has the name.
    #[error("no set has this name")]
    NoSuchSet,
    /// The set has `MOST_PLACES` places.
    #[error("the set is full")]
    SetFull,
    /// The set has no such place: its places count from 1.
    #[error("the set has no such place")]
    NoSuchPlace,
    /// Memory ran out in this call.
    #[error("out of memory")]
    OutOfMemory,
}

impl From<AllocError> for SetFault {
    ghost use Rattle.std.specs.Prelude.{◌≡◌};
    ghost use Rattle.tune_sets.specs.declared.faults.SetFault.TheVariants.{OutOfMemory};

    ghost from_gives = { λ _ fault. fault ≡ OutOfMemory };

    fn from(_e: AllocError) -> SetFault {
        Self::OutOfMemory
    }
}

impl<T: Drop> From<AllocFailed<T>> for SetFault {
    ghost use Rattle.std.specs.Prelude.{◌≡◌};
    ghost use Rattle.tune_sets.specs.declared.faults.SetFault.TheVariants.{OutOfMemory};

    ghost from_gives = { λ _ fault. fault ≡ OutOfMemory };

    fn from(e: AllocFailed<T>) -> SetFault {
        SetFault::from(AllocError::from(e))
    }
}

/// Why bytes are not read as set lists.
#[derive(Clone, Copy, Debug, PartialEq, Eq, Error)]
pub enum ReadFault {
    /// They are not those of set lists within the limits.
    #[error("these bytes are no set lists")]
    Damaged,
    /// Memory ran out in this call.
    #[error("out of memory")]
    OutOfMemory,
}

impl From<AllocError> for ReadFault {
    ghost use Rattle.std.specs.Prelude.{◌≡◌};
    ghost use Rattle.tune_sets.specs.declared.faults.ReadFault.TheVariants.{OutOfMemory};

    ghost from_gives = { λ _ fault. fault ≡ OutOfMemory };

    fn from(_e: AllocError) -> ReadFault {
        Self::OutOfMemory
    }
}

impl<T: Drop> From<AllocFailed<T>> for ReadFault {
    ghost use Rattle.std.specs.Prelude.{◌≡◌};
    ghost use Rattle.tune_sets.specs.declared.faults.ReadFault.TheVariants.{OutOfMemory};

    ghost from_gives = { λ _ fault. fault ≡ OutOfMemory };

    fn from(e: AllocFailed<T>) -> ReadFault {
        ReadFault::from(AllocError::from(e))
    }
}
