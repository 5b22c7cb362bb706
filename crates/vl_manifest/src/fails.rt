use std::alloc::AllocError;
use thiserror::Error;
use vl_disk::{Name, NoMemory};

/// Why a manifest gives no state.
#[derive(Clone, Copy, Debug, PartialEq, Eq, Error)]
pub enum StateFail {
    /// Memory ran out.
    #[error("no memory")]
    NoMemory,
    /// Its header or its first frame isn't there, or a frame can't be applied: the first such place, in bytes.
    #[error("damaged at {place}")]
    Damaged { place: u64 },
}

impl From<AllocError> for StateFail {
    ghost use Rattle.std.specs.Prelude.{◌≡◌};
    ghost use Rattle.vl_manifest.specs.declared.fails.StateFail.TheVariants as why;

    ghost from_gives = { λ _ e. e ≡ why.NoMemory };

    fn from(_: AllocError) -> Self {
        StateFail::NoMemory
    }
}

/// Why a manifest wasn't made.
#[derive(Clone, Copy, Debug, PartialEq, Eq, Error)]
pub enum IoFail {
    /// Memory ran out. Nothing was changed.
    #[error("no memory")]
    NoMemory,
    /// The disk failed at this file.
    #[error("disk fault")]
    Disk { name: Name },
}

impl From<AllocError> for IoFail {
    ghost use Rattle.std.specs.Prelude.{◌≡◌};
    ghost use Rattle.vl_manifest.specs.declared.fails.IoFail.TheVariants as why;

    ghost from_gives = { λ _ e. e ≡ why.NoMemory };

    fn from(_: AllocError) -> Self {
        IoFail::NoMemory
    }
}

impl From<NoMemory> for IoFail {
    ghost use Rattle.std.specs.Prelude.{◌≡◌};
    ghost use Rattle.vl_manifest.specs.declared.fails.IoFail.TheVariants as why;

    ghost from_gives = { λ _ e. e ≡ why.NoMemory };

    fn from(_: NoMemory) -> Self {
        IoFail::NoMemory
    }
}
