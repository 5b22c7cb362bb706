//! Why a store isn't opened, and why a line is given no answer.
ghost use Rattle.std.specs.Prelude.{◌≡◌};

use std::alloc::{AllocError, AllocFailed};
use thiserror::Error;
use vl_disk::{Name, NoMemory};
use vl_model::Counter;

/// Why what stands on a disk isn't opened.
#[derive(Clone, Copy, Debug, PartialEq, Eq)]
pub enum Refusal {
    /// A log or a table stands, and no manifest that can be read, in a known format or a newer one.
    NotAStore,
    /// No manifest can be read, and the greatest one in a format that isn't known yet has this one.
    NewerFormat(u32),
    /// A file's bytes say nothing at this place, or something that can't be.
    Damaged { name: Name, place: u64 },
    /// No number is left for a new log, or for a new manifest.
    Exhausted(Counter),
}

/// Why a line was given no answer.
#[derive(Clone, Copy, Debug, PartialEq, Eq, Error)]
pub enum Halt {
    /// Memory ran out.
    #[error("no memory")]
    NoMemory,
    /// The disk failed at this file.
    #[error("disk fault")]
    Disk { name: Name },
    /// A read failed at this file.
    #[error("disk fault")]
    Read { name: Name },
    /// The engine was halted by a fault at this file before. A replayer stops at the first fault, and comes never here.
    #[error("disk fault")]
    Halted { name: Name },
    /// A read met bytes of this file that aren't what should stand at this place.
    #[error("damaged")]
    Damaged { name: Name, place: u64 },
}

impl From<AllocError> for Halt {
    ghost use Rattle.vl_script_model.specs.declared.fails.Halt.TheVariants.{NoMemory};

    ghost from_gives = { λ _ halt. halt ≡ NoMemory };

    fn from(_error: AllocError) -> Halt {
        Halt::NoMemory
    }
}

impl<T: Drop> From<AllocFailed<T>> for Halt {
    ghost use Rattle.vl_script_model.specs.declared.fails.Halt.TheVariants.{NoMemory};

    ghost from_gives = { λ _ halt. halt ≡ NoMemory };

    fn from(_failed: AllocFailed<T>) -> Halt {
        Halt::NoMemory
    }
}

impl From<NoMemory> for Halt {
    ghost use Rattle.vl_script_model.specs.declared.fails.Halt.TheVariants as why;

    ghost from_gives = { λ _ halt. halt ≡ why.NoMemory };

    fn from(_: NoMemory) -> Halt {
        Halt::NoMemory
    }
}
