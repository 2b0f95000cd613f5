// Why a result is not written.
use crate::DeskFault;
use thiserror::Error;

/// A result that was not written, or was not kept. Whatever stood where OUT leads stands there as
/// it was, but for `Unkept`.
#[derive(Debug, PartialEq, Eq, Drop)]
pub struct ResultFault {
    /// TARGET: the path to which OUT leads. There is none where that was not found out.
    pub target: Option<String>,
    /// Why it was not written.
    pub why: ResultRefusal,
}

/// Why a result was not written. But for the last five, nothing was changed.
#[derive(Clone, Copy, Debug, PartialEq, Eq, Error)]
pub enum ResultRefusal {
    /// TARGET is FILE, the archive, by whatever name; or it is where FILE would stand.
    #[error("it is the archive itself")]
    Archive,
    /// TARGET begins as an archive does. It would have been written over.
    #[error("an archive stands there")]
    OtherArchive,
    /// TARGET has a name that is kept for what belongs to FILE: FILE.new, FILE.old.abc, or FILE, a
    /// number and `.old`. Whether anything stands there makes no difference.
    #[error("its name is kept for what belongs to the archive")]
    Companion,
    /// A file stands there, and there is no leave to write over it.
    #[error("a file stands there")]
    Standing,
    /// A folder stands there.
    #[error("it is a folder")]
    Folder,
    /// What stands there is no regular file.
    #[error("it is no regular file")]
    NotFile,
    /// There is no such folder as TARGET is to stand in.
    #[error("there is no such folder")]
    NoFolder,
    /// It could not be found out what stands there, or where OUT or FILE leads.
    #[error("it could not be found out what stands there: {0}")]
    Unasked(DeskFault),
    /// There was no memory.
    #[error("out of memory")]
    OutOfMemory,
    /// Something stands at TARGET.new already: that was left as it is.
    #[error("its new file stands there already")]
    NewStands,
    /// TARGET.new was not made.
    #[error("its new file was not made: {0}")]
    NotMade(DeskFault),
    /// TARGET.new was made, and could not be named TARGET: it was taken away again. With `Taken`,
    /// another program has made a file there meanwhile.
    #[error("it could not be named: {0}")]
    NotNamed(DeskFault),
    /// TARGET.new was made, and could neither be named TARGET nor be taken away: it stands there,
    /// whole.
    #[error("its new file could not be taken away: {0}")]
    Left(DeskFault),
    /// TARGET has the result, but the device did not keep its name: a stop (a crash or power loss)
    /// may still take it back.
    #[error("the device did not keep its name")]
    Unkept,
}
