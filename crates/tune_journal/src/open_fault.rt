// Why a disk is handed back.
ghost use Rattle.std.specs.Prelude.{◌≡◌};

use thiserror::Error;
use tune_disk::Disk;

/// Why a disk was not made into a journal, or not opened as one.
#[derive(Clone, Copy, Debug, PartialEq, Eq, Error)]
pub enum OpenFault {
    /// Refusal 40: the file does not begin with this archive's magic.
    #[error("the file is no archive")]
    NotArchive,
    /// Refusal 41: the file begins with the magic, and stands for no list of pages.
    #[error("the archive is damaged")]
    Damaged,
    /// Refusal 42: the file that was to be made has bytes already.
    #[error("the file is not empty")]
    NotEmpty,
    /// Refusal 21: no memory was left. The journal takes none, so only the layers above answer it.
    #[error("out of memory")]
    OutOfMemory,
    /// Refusal 22: a call of the disk failed.
    #[error("the device failed")]
    Device,
}

/// A disk that was not opened, or not made, and why.
#[derive(Drop)]
pub struct Refused<D: Disk> {
    /// The disk that was handed in.
    pub disk: D,
    /// Why it was handed back.
    pub why: OpenFault,
}

// Hands a disk back, and says why.
pub(crate) fn hand_back<D: Disk>(disk: D, why: OpenFault) -> Refused<D>
    ensures { result ≡ record { disk = disk; why = why } }
{
    Refused { disk, why }
}

/// The disk of a journal on which a call of a commit failed. It stands for the pages from before
/// the commit or for those from after it, and is to be opened again.
#[derive(Drop)]
pub struct Broken<D: Disk> {
    /// The disk of the journal.
    pub disk: D,
}

impl<D: Disk> Broken<D> {
    /// The disk, to be opened again.
    pub fn into_disk(self) -> D
        ensures { result ≡ self.disk }
    {
        let Broken { disk } = self;
        disk
    }
}
