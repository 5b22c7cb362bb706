ghost use Rattle.std.specs.Prelude.{◌≡◌};
ghost use Rattle.vl_disk.specs.declared.read_fault.ReadFault.TheVariants as read;
ghost use Rattle.vl_table.specs.declared.writer.write_fail.WriteFail.TheVariants as why;

use std::alloc::{AllocError, AllocFailed};
use thiserror::Error;
use vl_disk::ReadFault;

/// Why a table wasn't written on.
#[derive(Clone, Copy, Debug, PartialEq, Eq, Error)]
pub enum WriteFail {
    #[error("no memory")]
    NoMemory,
    /// The table would have 2^32 bytes or more.
    #[error("too long")]
    TooLong,
}

impl From<AllocError> for WriteFail {
    ghost from_gives = { λ _ e. e ≡ why.NoMemory };

    fn from(_: AllocError) -> Self {
        WriteFail::NoMemory
    }
}

impl<T: Drop> From<AllocFailed<T>> for WriteFail {
    ghost from_gives = { λ _ e. e ≡ why.NoMemory };

    fn from(_: AllocFailed<T>) -> Self {
        WriteFail::NoMemory
    }
}

/// Where a fault of reading or writing is answered, a table that would be too long is want of memory.
impl From<WriteFail> for ReadFault {
    ghost from_gives = { λ _ e. e ≡ read.NoMemory };

    fn from(_: WriteFail) -> Self {
        ReadFault::NoMemory
    }
}
