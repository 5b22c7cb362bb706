//! What backups and loads fail by.

ghost use Rattle.std.specs.Prelude.{◌≡◌};

use std::alloc::AllocError;
use thiserror::Error;
use vl_disk::{DiskFail, Failed, Name, ReadFault};
use vl_engine::{BeginFail, StepFail};
use vl_model::Counter;
use vl_stream::StreamFail;

/// Why no backup was written, or only a part of one.
#[derive(Clone, Copy, Debug, PartialEq, Eq, Error)]
pub enum BackupFail {
    /// Changes are asked for since a commit that the view doesn't see: this one is its last. Nothing was written.
    #[error("the view ends at commit {number}: ask since that one or an earlier one")]
    Ahead { number: u64 },
    /// Deletions up to this commit were dropped, so that changes since an earlier one can't be told. Nothing was written.
    #[error("deletions up to commit {gone} were dropped: ask since that one or a later one, or since 0 for all that stands")]
    TooOld { gone: u64 },
    /// Memory ran out.
    #[error("no memory: what was written is no whole backup")]
    NoMemory,
    /// Reading this file failed.
    #[error("the disk failed at {name:?}: what was written is no whole backup")]
    Disk { name: Name },
    /// What stands at this place of a file isn't what was written there.
    #[error("{name:?} is damaged at {place}: what was written is no whole backup")]
    Damaged { name: Name, place: u64 },
    /// The sink failed, and may have taken a part.
    #[error("the output failed: what was written is no whole backup")]
    Write,
}

/// Why a stream was not loaded to its end. The batches before the one that was refused are commits, in their order; to load the
/// whole stream again comes to the same as to load it once.
#[derive(Clone, Copy, Debug, PartialEq, Eq, Error)]
pub enum LoadFail {
    /// Other letters stand at its front, or it ends before its header does.
    #[error("not a backup")]
    NotABackup,
    /// It has this format, which isn't read.
    #[error("a backup of format {0}: load it with a newer version of the store")]
    NewerFormat(u32),
    /// No frame that may come next stands at this place, in bytes from the front; or bytes follow the end.
    #[error("the backup is damaged at {place}: take another")]
    Damaged { place: u64 },
    /// A batch passes the room of an empty log: the log's length, and that of the batch's frame.
    #[error("a batch of {frame} bytes has no room in a log: open the store with more room")]
    Full { length: u64, frame: u64 },
    /// As many transactions and views are live as may be.
    #[error("too many transactions and views are live: end one, and load again")]
    TooMany,
    /// The source failed.
    #[error("the input failed: load again from its front")]
    Read,
    /// No number of this kind is left.
    #[error("no number is left")]
    Exhausted(Counter),
    /// An earlier step failed at this file, and nothing is changed any more.
    #[error("halted at {name:?}: open the store again")]
    Halted { name: Name },
    /// The disk failed at this file, and the engine is halted. When the store is opened again it may have the batch.
    #[error("the disk failed at {name:?}: open the store again")]
    Disk { name: Name },
    /// Memory ran out.
    #[error("no memory: load again")]
    NoMemory,
}

impl From<AllocError> for BackupFail {
    ghost use Rattle.vl_backup.specs.declared.fails.BackupFail.TheVariants.{NoMemory};

    ghost from_gives = { λ _ e. e ≡ NoMemory };

    fn from(_: AllocError) -> Self {
        BackupFail::NoMemory
    }
}

impl From<Failed> for BackupFail {
    ghost use Rattle.vl_backup.specs.declared.fails.BackupFail.TheVariants.{Write};

    ghost from_gives = { λ _ e. e ≡ Write };

    fn from(_: Failed) -> Self {
        BackupFail::Write
    }
}

impl From<DiskFail> for BackupFail {
    ghost use Rattle.vl_backup.specs.Fails.{put_fail};

    ghost from_gives = { λ why e. e ≡ put_fail why };

    fn from(why: DiskFail) -> Self {
        match why {
            DiskFail::NoMemory => BackupFail::NoMemory,
            DiskFail::Failed => BackupFail::Write,
        }
    }
}

impl From<ReadFault> for BackupFail {
    ghost use Rattle.vl_backup.specs.Fails.{read_fail};

    ghost from_gives = { λ why e. e ≡ read_fail why };

    fn from(why: ReadFault) -> Self {
        match why {
            ReadFault::NoMemory => BackupFail::NoMemory,
            ReadFault::Disk { name } => BackupFail::Disk { name },
            ReadFault::Damaged { name, place } => BackupFail::Damaged { name, place },
        }
    }
}

impl From<StreamFail> for LoadFail {
    ghost use Rattle.vl_backup.specs.Fails.{stream_fail};

    ghost from_gives = { λ why e. e ≡ stream_fail why };

    fn from(why: StreamFail) -> Self {
        match why {
            StreamFail::NotABackup => LoadFail::NotABackup,
            StreamFail::NewerFormat(format) => LoadFail::NewerFormat(format),
            StreamFail::Damaged { place } => LoadFail::Damaged { place },
            StreamFail::Read => LoadFail::Read,
            StreamFail::NoMemory => LoadFail::NoMemory,
        }
    }
}

impl From<BeginFail> for LoadFail {
    ghost use Rattle.vl_backup.specs.Fails.{begin_fail};

    ghost from_gives = { λ why e. e ≡ begin_fail why };

    fn from(why: BeginFail) -> Self {
        match why {
            BeginFail::TooMany => LoadFail::TooMany,
            BeginFail::NoMemory => LoadFail::NoMemory,
        }
    }
}

impl From<StepFail> for LoadFail {
    ghost use Rattle.vl_backup.specs.Fails.{step_fail};

    ghost from_gives = { λ why e. e ≡ step_fail why };

    fn from(why: StepFail) -> Self {
        match why {
            StepFail::Halted { name } => LoadFail::Halted { name },
            StepFail::Exhausted(counter) => LoadFail::Exhausted(counter),
            StepFail::NoMemory => LoadFail::NoMemory,
            StepFail::Disk { name } => LoadFail::Disk { name },
        }
    }
}
