use std::alloc::AllocError;
use vl_disk::{Name, ReadFault};
use vl_model::Counter;

/// Why a store wasn't opened.
#[derive(Clone, Copy, Debug, PartialEq, Eq)]
pub enum OpenError {
    /// A log or a table stands, and no manifest that can be read, in a known format or a newer one.
    NotAStore,
    /// No manifest can be read, and the greatest one in a format that isn't known yet has this one.
    NewerFormat(u32),
    /// A file's bytes say nothing at this place, or something that can't be.
    Damaged { name: Name, place: u64 },
    /// No number is left for the new log, or for the new manifest.
    Exhausted(Counter),
    /// Memory ran out. Nothing was changed.
    NoMemory,
    /// The disk, or its reader, failed at this file; or the disk at listing the files, where it is `NO_FILE`.
    Disk { name: Name },
}

/// What is named where the files couldn't be listed: no manifest has this number.
pub const NO_FILE: Name = Name::Manifest(0);

impl From<AllocError> for OpenError {
    ghost use Rattle.std.specs.Prelude.{◌≡◌};
    ghost use Rattle.vl_recover.specs.declared.fails.OpenError.TheVariants as why;

    ghost from_gives = { λ _ e. e ≡ why.NoMemory };

    fn from(_: AllocError) -> Self {
        OpenError::NoMemory
    }
}

impl From<ReadFault> for OpenError {
    ghost use Rattle.std.specs.Prelude.{◌≡◌};
    ghost use Rattle.vl_recover.specs.opening.TableFaults.{open_error};

    ghost from_gives = { λ fault e. e ≡ open_error fault };

    fn from(fault: ReadFault) -> Self {
        match fault {
            ReadFault::NoMemory => OpenError::NoMemory,
            ReadFault::Disk { name } => OpenError::Disk { name },
            ReadFault::Damaged { name, place } => OpenError::Damaged { name, place },
        }
    }
}

/// A store that wasn't opened, its disk, and the reader through which its tables were read, if there was memory for one.
#[derive(Drop)]
pub struct OpenFail<D, R> {
    pub why: OpenError,
    pub disk: D,
    pub reader: Option<R>,
}
