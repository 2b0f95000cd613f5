// The files of a program, by their paths.
ghost use Rattle.std.specs.Prelude.{◌≡◌, ◌++◌, ◌∷◌, [], List, IfOk, string_bytes};
ghost use Rattle.tune_desk.specs.DeskDeeds.{DeskDeed, looked, compared, tested, followed, read};
ghost use Rattle.tune_desk.specs.DeskDeeds.{listed};
ghost use Rattle.tune_desk.specs.DeskDeeds.{made, named, named_over, removed, opened, closed};
ghost use Rattle.tune_desk.specs.DeskDeeds.{grown, created, linked, shared};
ghost use Rattle.tune_desk.specs.DeskDeeds.{path_of, names_of};

use abc_fields::ByteText;
use std::alloc::Global;
use thiserror::Error;
use tune_disk::{Access, Disk};

/// Why a file was not looked at, read, made, named, taken away or opened.
#[derive(Clone, Copy, Debug, PartialEq, Eq, Error)]
pub enum DeskFault {
    /// Nothing stands at the path.
    #[error("there is no such file")]
    Missing,
    /// Something stands there already.
    #[error("something stands there already")]
    Taken,
    /// What stands there is no regular file.
    #[error("it is no regular file")]
    NotFile,
    /// Another program has the file open.
    #[error("another program has it")]
    Busy,
    /// The file has its new name, which the device did not keep: a stop (a crash or power loss) may
    /// still take it back.
    #[error("the device did not keep the new name")]
    Unkept,
    /// There was no memory.
    #[error("out of memory")]
    OutOfMemory,
    /// The system failed, or does not allow it.
    #[error("the system failed, or does not allow it")]
    Device,
}

/// What stands where a path leads.
#[derive(Clone, Copy, Debug, PartialEq, Eq)]
pub enum Standing {
    /// Nothing, also where a link leads to nothing.
    Nothing,
    /// A regular file.
    File,
    /// A folder.
    Folder,
    /// A device, a pipe or the like.
    Other,
}

/// The files of a program, by their paths, with all that was done with them. Code over any desk can
/// reach no file but by these calls, so `deeds` has all that it did. Where a call says nothing of
/// links, a path is followed through them.
pub trait Desk {
    /// A file as a disk.
    type Disk: Disk;

    /// What was done, the first first.
    ghost deeds: { Self → List (DeskDeed Self.Disk) };

    /// What is known of a disk that was just opened.
    ghost is_new: { Self.Disk → Type 0 };

    /// What stands where a path leads.
    fn look(&mut self, path: &String) -> Result<Standing, DeskFault>
        ensures deed { deeds self.new
            ≡ deeds self.old ++ looked (string_bytes path.now) result ∷ [] };

    /// Whether both paths lead to one file, or to one folder; not, where the second leads to
    /// nothing. `Missing` where the first does.
    fn is_same(&mut self, path: &String, other: &String) -> Result<bool, DeskFault>
        ensures deed { deeds self.new ≡ deeds self.old
            ++ compared (string_bytes path.now) (string_bytes other.now) result ∷ [] };

    /// Whether the file at a path begins with these bytes; one that is shorter does not. `Missing`
    /// where nothing is there, and `NotFile` where no regular file is.
    fn begins(&mut self, path: &String, with: &[u8]) -> Result<bool, DeskFault>
        ensures deed { deeds self.new
            ≡ deeds self.old ++ tested (string_bytes path.now) with.now result ∷ [] };

    /// The path to which a path leads, link by link, each from the folder that it stands in: the
    /// path itself where its last part is no link. At the path that is found there is no link, and
    /// there may be nothing. `Device` where there is no end after forty links.
    fn follow(&mut self, alloc: Global, path: &String) -> Result<String, DeskFault>
        ensures deed { deeds self.new
            ≡ deeds self.old ++ followed (string_bytes path.now) (path_of result) ∷ [] };

    /// The bytes of the file at a path. `Missing` where nothing is there, and `NotFile` where no
    /// regular file is.
    fn read(&mut self, alloc: Global, path: &String) -> Result<ByteText, DeskFault>
        ensures deed { deeds self.new
            ≡ deeds self.old ++ read (string_bytes path.now) result ∷ [] };

    /// The names in the folder at a path, sorted by their bytes. `Missing` where nothing is there.
    fn names(&mut self, alloc: Global, path: &String) -> Result<Vec<String>, DeskFault>
        ensures deed { deeds self.new
            ≡ deeds self.old ++ listed (string_bytes path.now) (names_of result) ∷ [] };

    /// Makes a file of these bytes, whole, and synced. `Taken` where anything stands at the path, a
    /// link too, wherever it leads: that is left as it is. After another fault nothing of it stands
    /// there.
    fn make(&mut self, path: &String, bytes: &[u8]) -> Result<(), DeskFault>
        ensures deed { deeds self.new
            ≡ deeds self.old ++ made (string_bytes path.now) bytes.now result ∷ [] };

    /// Gives the file at `from` the name `to` in the place of its own, at one moment, and syncs the
    /// folder. Neither is followed through a link at its end. `Taken` where anything has the name
    /// `to`, and `Unkept` where the name was given and the folder was not synced; after any other
    /// fault both paths are as they were.
    fn name(&mut self, from: &String, to: &String) -> Result<(), DeskFault>
        ensures deed { deeds self.new ≡ deeds self.old
            ++ named (string_bytes from.now) (string_bytes to.now) result ∷ [] };

    /// The same, in the place of the file that has the name `to`, if one has.
    fn name_over(&mut self, from: &String, to: &String) -> Result<(), DeskFault>
        ensures deed { deeds self.new ≡ deeds self.old
            ++ named_over (string_bytes from.now) (string_bytes to.now) result ∷ [] };

    /// Takes the file at a path away. A link there is not followed.
    fn remove(&mut self, path: &String) -> Result<(), DeskFault>
        ensures deed { deeds self.new
            ≡ deeds self.old ++ removed (string_bytes path.now) result ∷ [] };

    /// Opens the file at a path as a disk: to read it, beside others that do, or to change it,
    /// alone. `Missing` where nothing is there, `NotFile` where no regular file is, and `Busy`
    /// where another program has it.
    fn open(&mut self, path: &String, access: Access) -> Result<Self::Disk, DeskFault>
        ensures deed { deeds self.new
            ≡ deeds self.old ++ opened (string_bytes path.now) access result ∷ [] }
        ensures is_new { IfOk result is_new };

    /// Puts bytes at the end of the file at a path, and syncs it; where nothing stands there, a
    /// file is made, and its folder synced too. `NotFile` where no regular file stands there, and
    /// `Missing` where a link there leads to nothing, or the folder is missing. After a fault a
    /// front of the bytes may stand at its end.
    fn grow(&mut self, path: &String, bytes: &[u8]) -> Result<(), DeskFault>
        ensures deed { deeds self.new
            ≡ deeds self.old ++ grown (string_bytes path.now) bytes.now result ∷ [] };

    /// Makes a file without a byte, and opens it as a disk to change it, alone. `Taken` where
    /// anything stands at the path, a link too, wherever it leads: that is left as it is. After
    /// another fault nothing of it stands there.
    fn create(&mut self, path: &String) -> Result<Self::Disk, DeskFault>
        ensures deed { deeds self.new
            ≡ deeds self.old ++ created (string_bytes path.now) result ∷ [] }
        ensures is_new { IfOk result is_new };

    /// Gives the file at `from` the name `to` beside its own, and syncs the folder; where the file
    /// system gives no second name, a copy of it is made there, and synced. Neither is followed
    /// through a link at its end. `Taken` where anything has the name `to`, and `Unkept` where the
    /// name was given and the folder was not synced; after any other fault both paths are as they
    /// were.
    fn link(&mut self, from: &String, to: &String) -> Result<(), DeskFault>
        ensures deed { deeds self.new ≡ deeds self.old
            ++ linked (string_bytes from.now) (string_bytes to.now) result ∷ [] };

    /// Lets those read and write the file at `path` who may do so with the file at `like`, and its
    /// owner, and nobody else. `Device` also where the file system keeps no such thing.
    fn share(&mut self, path: &String, like: &String) -> Result<(), DeskFault>
        ensures deed { deeds self.new ≡ deeds self.old
            ++ shared (string_bytes path.now) (string_bytes like.now) result ∷ [] };

    /// Closes the disk of a path.
    fn close(&mut self, path: &String, disk: Self::Disk)
        ensures deed { deeds self.new
            ≡ deeds self.old ++ closed (string_bytes path.now) disk ∷ [] };
}
