//! What reading a line fails by.
ghost use Rattle.std.specs.Prelude.{◌≡◌};

use std::alloc::{AllocError, AllocFailed};
use vl_disk::Failed;

/// Why no line could be read.
#[derive(Clone, Copy, Debug, PartialEq, Eq)]
pub enum InputFail {
    /// Memory ran out.
    NoMemory,
    /// The source failed.
    Fault,
}

impl From<AllocError> for InputFail {
    ghost use Rattle.vl_replay.specs.declared.input.fail.InputFail.TheVariants.{NoMemory};

    ghost from_gives = { λ _ e. e ≡ NoMemory };

    fn from(_: AllocError) -> Self {
        InputFail::NoMemory
    }
}

impl<T: Drop> From<AllocFailed<T>> for InputFail {
    ghost use Rattle.vl_replay.specs.declared.input.fail.InputFail.TheVariants.{NoMemory};

    ghost from_gives = { λ _ e. e ≡ NoMemory };

    fn from(_: AllocFailed<T>) -> Self {
        InputFail::NoMemory
    }
}

impl From<Failed> for InputFail {
    ghost use Rattle.vl_replay.specs.declared.input.fail.InputFail.TheVariants.{Fault};

    ghost from_gives = { λ _ e. e ≡ Fault };

    fn from(_: Failed) -> Self {
        InputFail::Fault
    }
}
