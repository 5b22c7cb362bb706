//! What reads fail by.
ghost use Rattle.std.specs.Prelude.{◌≡◌};

use std::alloc::AllocError;
use thiserror::Error;
use vl_disk::{Name, ReadFault as VersionFault};
use vl_txn::KeyFail;

/// Why a read gave nothing. Nothing was noted or changed.
#[derive(Clone, Copy, Debug, PartialEq, Eq, Error)]
pub enum ReadFail {
    #[error("empty key")]
    EmptyKey,
    /// The key, or a bound of the scan.
    #[error("key too long")]
    KeyTooLong,
    #[error("no memory")]
    NoMemory,
    /// The reader failed at this file.
    #[error("the disk failed at {name:?}")]
    Disk { name: Name },
    /// What stands at this place of a file isn't what was written there.
    #[error("{name:?} is damaged at {place}")]
    Damaged { name: Name, place: u64 },
}

impl From<KeyFail> for ReadFail {
    ghost use Rattle.vl_reads.specs.Refusing.{as_read_fail};

    ghost from_gives = { λ why e. e ≡ as_read_fail why };

    fn from(why: KeyFail) -> Self {
        match why {
            KeyFail::EmptyKey => ReadFail::EmptyKey,
            KeyFail::KeyTooLong => ReadFail::KeyTooLong,
        }
    }
}

impl From<VersionFault> for ReadFail {
    ghost use Rattle.vl_reads.specs.Refusing.{as_failed_read};

    ghost from_gives = { λ fault e. e ≡ as_failed_read fault };

    fn from(fault: VersionFault) -> Self {
        match fault {
            VersionFault::NoMemory => ReadFail::NoMemory,
            VersionFault::Disk { name } => ReadFail::Disk { name },
            VersionFault::Damaged { name, place } => ReadFail::Damaged { name, place },
        }
    }
}

impl From<AllocError> for ReadFail {
    ghost use Rattle.vl_reads.specs.declared.fails.ReadFail.TheVariants as why;

    ghost from_gives = { λ _ e. e ≡ why.NoMemory };

    fn from(_: AllocError) -> Self {
        ReadFail::NoMemory
    }
}

/// Why a read without memory gave nothing. After the last two the caller's bytes may be anything.
#[derive(Clone, Copy, Debug, PartialEq, Eq, Error)]
pub enum ReadFault {
    #[error("empty key")]
    EmptyKey,
    #[error("key too long")]
    KeyTooLong,
    /// The reader failed at this file.
    #[error("the disk failed at {name:?}")]
    Disk { name: Name },
    /// What stands at this place of a file isn't what was written there.
    #[error("{name:?} is damaged at {place}")]
    Damaged { name: Name, place: u64 },
}

impl From<KeyFail> for ReadFault {
    ghost use Rattle.vl_reads.specs.Refusing.{as_read_fault};

    ghost from_gives = { λ why e. e ≡ as_read_fault why };

    fn from(why: KeyFail) -> Self {
        match why {
            KeyFail::EmptyKey => ReadFault::EmptyKey,
            KeyFail::KeyTooLong => ReadFault::KeyTooLong,
        }
    }
}

/// Why a read at an older number gave nothing.
#[derive(Clone, Copy, Debug, PartialEq, Eq, Error)]
pub enum AtFail {
    #[error("empty key")]
    EmptyKey,
    #[error("key too long")]
    KeyTooLong,
    /// The number is above this one, at which it reads.
    #[error("only what was committed up to {number} is read")]
    Ahead { number: u64 },
    /// What the key had there may be gone. This is the least number at which it can be read.
    #[error("the key can be read from {low} on")]
    Dropped { low: u64 },
    #[error("no memory")]
    NoMemory,
    /// The reader failed at this file.
    #[error("the disk failed at {name:?}")]
    Disk { name: Name },
    /// What stands at this place of a file isn't what was written there.
    #[error("{name:?} is damaged at {place}")]
    Damaged { name: Name, place: u64 },
}

impl From<KeyFail> for AtFail {
    ghost use Rattle.vl_reads.specs.Past.{as_at_fail};

    ghost from_gives = { λ why e. e ≡ as_at_fail why };

    fn from(why: KeyFail) -> Self {
        match why {
            KeyFail::EmptyKey => AtFail::EmptyKey,
            KeyFail::KeyTooLong => AtFail::KeyTooLong,
        }
    }
}

impl From<VersionFault> for AtFail {
    ghost use Rattle.vl_reads.specs.Past.{as_failed_at};

    ghost from_gives = { λ fault e. e ≡ as_failed_at fault };

    fn from(fault: VersionFault) -> Self {
        match fault {
            VersionFault::NoMemory => AtFail::NoMemory,
            VersionFault::Disk { name } => AtFail::Disk { name },
            VersionFault::Damaged { name, place } => AtFail::Damaged { name, place },
        }
    }
}
