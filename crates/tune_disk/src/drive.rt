// What opens disks.
ghost use Rattle.std.specs.Prelude.{◌≡◌, ◌++◌, ◌∷◌, [], List, IfOk, string_bytes};
ghost use Rattle.tune_disk.specs.Deeds.{Deed, opened, created, closed};

use crate::{DeviceFault, Disk};

/// Opens files as disks, by their paths, and closes them. It keeps each thing that it was asked,
/// and what it gave, so code over any drive can make up no disk, and hide none: what it says of a
/// path it says of a disk that was opened by that path, and of all that was opened.
pub trait Drive {
    /// A file as a disk.
    type Disk: Disk;

    /// What was asked of it, and what it gave, the first first.
    ghost deeds: { Self → List (Deed Self.Disk) };

    /// What is known of a disk that was just opened.
    ghost is_new: { Self.Disk → Type 0 };

    /// Opens the file at a path, as it is. A fault where it is not there, or cannot be opened.
    fn open(&mut self, path: &String) -> Result<Self::Disk, DeviceFault>
        ensures deed { deeds self.new
            ≡ deeds self.old ++ opened (string_bytes path.now) result ∷ [] }
        ensures is_new { IfOk result is_new };

    /// Opens the file at a path, or makes an empty one where nothing is there. A fault where it
    /// cannot be opened, or made.
    fn create(&mut self, path: &String) -> Result<Self::Disk, DeviceFault>
        ensures deed { deeds self.new
            ≡ deeds self.old ++ created (string_bytes path.now) result ∷ [] }
        ensures is_new { IfOk result is_new };

    /// Closes the disk of a path.
    fn close(&mut self, path: &String, disk: Self::Disk)
        ensures deed { deeds self.new
            ≡ deeds self.old ++ closed (string_bytes path.now) disk ∷ [] };
}
