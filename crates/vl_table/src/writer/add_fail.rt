ghost use Rattle.std.specs.Prelude.{◌≡◌};
ghost use Rattle.vl_table.specs.declared.writer.add_fail.AddFail.TheVariants as why;
ghost use Rattle.vl_table.specs.writer.Fails.{write_failed};

use crate::writer::write_fail::WriteFail;
use std::alloc::AllocError;
use thiserror::Error;

/// Why an entry wasn't added to a table.
#[derive(Clone, Copy, Debug, PartialEq, Eq, Error)]
pub enum AddFail {
    #[error("no memory")]
    NoMemory,
    /// With the entry the blocks would end at 2^32 or behind it.
    #[error("too long")]
    TooLong,
    /// The entry may not stand in a table, or not behind the last one: its key has no lawful length, a value of more than
    /// 64 bytes stands beside it, it has both a value and a pointer as a memtable's may, or its place isn't behind.
    #[error("not lawful")]
    NotLawful,
}

impl From<AllocError> for AddFail {
    ghost from_gives = { λ _ e. e ≡ why.NoMemory };

    fn from(_: AllocError) -> Self {
        AddFail::NoMemory
    }
}

impl From<WriteFail> for AddFail {
    ghost from_gives = { λ fail e. e ≡ write_failed fail };

    fn from(fail: WriteFail) -> Self {
        match fail {
            WriteFail::NoMemory => AddFail::NoMemory,
            WriteFail::TooLong => AddFail::TooLong,
        }
    }
}
