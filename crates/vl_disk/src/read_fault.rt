use crate::Name;
use std::alloc::AllocError;
use thiserror::Error;

/// Why nothing was read of a file.
#[derive(Clone, Copy, Debug, PartialEq, Eq, Error)]
pub enum ReadFault {
    /// Memory ran out.
    #[error("no memory")]
    NoMemory,
    /// Reading this file failed.
    #[error("disk fault")]
    Disk { name: Name },
    /// What should stand at this place of the file doesn't.
    #[error("damaged at {place}")]
    Damaged { name: Name, place: u64 },
}

impl From<AllocError> for ReadFault {
    ghost use Rattle.std.specs.Prelude.{◌≡◌};
    ghost use Rattle.vl_disk.specs.declared.read_fault.ReadFault.TheVariants as why;

    ghost from_gives = { λ _ e. e ≡ why.NoMemory };

    fn from(_: AllocError) -> Self {
        ReadFault::NoMemory
    }
}
