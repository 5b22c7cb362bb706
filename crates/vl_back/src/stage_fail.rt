ghost use Rattle.std.specs.Prelude.{◌≡◌};
ghost use Rattle.vl_back.specs.Failing.{add_failed};
ghost use Rattle.vl_back.specs.declared.stage_fail.StageFail.TheVariants as why;

use std::alloc::{AllocError, AllocFailed};
use thiserror::Error;
use vl_disk::NoMemory;
use vl_table::{AddFail, WriteFail};

/// Why a flush wasn't staged.
#[derive(Clone, Copy, Debug, PartialEq, Eq, Error)]
pub enum StageFail {
    /// Memory ran out, or the table or the manifest would have more bytes than a file may.
    #[error("no memory")]
    NoMemory,
    /// There is no entry, or one that a table may not have where it comes, or the switch can't be
    /// applied to what the manifest says. Of what an engine keeps none of these is so.
    #[error("not lawful")]
    NotLawful,
}

impl From<AllocError> for StageFail {
    ghost from_gives = { λ _ e. e ≡ why.NoMemory };

    fn from(_: AllocError) -> Self {
        StageFail::NoMemory
    }
}

impl<T: Drop> From<AllocFailed<T>> for StageFail {
    ghost from_gives = { λ _ e. e ≡ why.NoMemory };

    fn from(_: AllocFailed<T>) -> Self {
        StageFail::NoMemory
    }
}

impl From<NoMemory> for StageFail {
    ghost from_gives = { λ _ e. e ≡ why.NoMemory };

    fn from(_: NoMemory) -> Self {
        StageFail::NoMemory
    }
}

impl From<WriteFail> for StageFail {
    ghost from_gives = { λ _ e. e ≡ why.NoMemory };

    fn from(_: WriteFail) -> Self {
        StageFail::NoMemory
    }
}

impl From<AddFail> for StageFail {
    ghost from_gives = { λ fail e. e ≡ add_failed fail };

    fn from(fail: AddFail) -> Self {
        match fail {
            AddFail::NoMemory | AddFail::TooLong => StageFail::NoMemory,
            AddFail::NotLawful => StageFail::NotLawful,
        }
    }
}
