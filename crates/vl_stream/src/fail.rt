//! What reading a stream fails by.

ghost use Rattle.std.specs.Prelude.{◌≡◌};

use std::alloc::{AllocError, AllocFailed};
use thiserror::Error;
use vl_disk::Failed;

/// Why a stream could not be read on.
#[derive(Clone, Copy, Debug, PartialEq, Eq, Error)]
pub enum StreamFail {
    /// Other letters stand at its front, or it ends before its header does.
    #[error("not a backup")]
    NotABackup,
    /// It has this format, which isn't read.
    #[error("a backup of format {0}")]
    NewerFormat(u32),
    /// No frame that may come next stands at this place, in bytes from the front; or bytes follow the end.
    #[error("the backup is damaged at {place}")]
    Damaged { place: u64 },
    /// The source failed.
    #[error("the source failed")]
    Read,
    #[error("no memory")]
    NoMemory,
}

impl From<AllocError> for StreamFail {
    ghost use Rattle.vl_stream.specs.declared.fail.StreamFail.TheVariants.{NoMemory};

    ghost from_gives = { λ _ e. e ≡ NoMemory };

    fn from(_: AllocError) -> Self {
        StreamFail::NoMemory
    }
}

impl<T: Drop> From<AllocFailed<T>> for StreamFail {
    ghost use Rattle.vl_stream.specs.declared.fail.StreamFail.TheVariants.{NoMemory};

    ghost from_gives = { λ _ e. e ≡ NoMemory };

    fn from(_: AllocFailed<T>) -> Self {
        StreamFail::NoMemory
    }
}

impl From<Failed> for StreamFail {
    ghost use Rattle.vl_stream.specs.declared.fail.StreamFail.TheVariants.{Read};

    ghost from_gives = { λ _ e. e ≡ Read };

    fn from(_: Failed) -> Self {
        StreamFail::Read
    }
}
