ghost use Rattle.std.specs.Prelude.{◌≡◌};
ghost use Rattle.vl_disk.specs.declared.errors.DiskFail.TheVariants.{NoMemory as OutOfMemory, Failed as CallFailed};

use std::alloc::{AllocError, AllocFailed};
use thiserror::Error;

/// A call to the outside that failed. It comes only where the count of faults of the object that was called rose.
#[derive(Clone, Copy, Debug, PartialEq, Eq, Error)]
#[error("a call to the outside failed")]
pub struct Failed;

/// There is no memory for what was asked.
#[derive(Clone, Copy, Debug, PartialEq, Eq, Error)]
#[error("no memory")]
pub struct NoMemory;

/// Why a call that also wants memory didn't do what was asked.
#[derive(Clone, Copy, Debug, PartialEq, Eq, Error)]
pub enum DiskFail {
    #[error("no memory")]
    NoMemory,
    /// As with [`Failed`], a fault was counted.
    #[error("a call to the outside failed")]
    Failed,
}

impl From<AllocError> for NoMemory {
    fn from(_: AllocError) -> Self {
        NoMemory
    }
}

impl<T: Drop> From<AllocFailed<T>> for NoMemory {
    fn from(_: AllocFailed<T>) -> Self {
        NoMemory
    }
}

impl From<AllocError> for DiskFail {
    ghost from_gives = { λ _ e. e ≡ OutOfMemory };

    fn from(_: AllocError) -> Self {
        DiskFail::NoMemory
    }
}

impl<T: Drop> From<AllocFailed<T>> for DiskFail {
    ghost from_gives = { λ _ e. e ≡ OutOfMemory };

    fn from(_: AllocFailed<T>) -> Self {
        DiskFail::NoMemory
    }
}

impl From<NoMemory> for DiskFail {
    ghost from_gives = { λ _ e. e ≡ OutOfMemory };

    fn from(_: NoMemory) -> Self {
        DiskFail::NoMemory
    }
}

impl From<Failed> for DiskFail {
    ghost from_gives = { λ _ e. e ≡ CallFailed };

    fn from(_: Failed) -> Self {
        DiskFail::Failed
    }
}
