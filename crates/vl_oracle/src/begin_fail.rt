ghost use Rattle.std.specs.Prelude.{◌≡◌};
ghost use Rattle.vl_oracle.specs.declared.begin_fail.BeginFail.TheVariants.{NoMemory};

use std::alloc::{AllocError, AllocFailed};
use thiserror::Error;

/// Why no transaction or view was begun. Nothing was changed.
#[derive(Clone, Copy, Debug, PartialEq, Eq, Error)]
pub enum BeginFail {
    /// As many as there may be at once are live.
    #[error("too many are live")]
    TooMany,
    #[error("no memory")]
    NoMemory,
}

impl From<AllocError> for BeginFail {
    ghost from_gives = { λ _ e. e ≡ NoMemory };

    fn from(_: AllocError) -> Self {
        BeginFail::NoMemory
    }
}

impl<T: Drop> From<AllocFailed<T>> for BeginFail {
    ghost from_gives = { λ _ e. e ≡ NoMemory };

    fn from(_: AllocFailed<T>) -> Self {
        BeginFail::NoMemory
    }
}
