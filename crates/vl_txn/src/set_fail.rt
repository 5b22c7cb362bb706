ghost use Rattle.std.specs.Prelude.{◌≡◌};
ghost use Rattle.vl_txn.specs.declared.set_fail.SetFail.TheVariants.{NoMemory};
ghost use Rattle.vl_txn.specs.declared.key_fail.KeyFail.{KeyFail};
ghost use Rattle.vl_txn.specs.Fails.{as_set_fail};

use crate::KeyFail;
use std::alloc::AllocError;
use thiserror::Error;

/// Why a write was refused. Of several causes the first of these.
#[derive(Clone, Copy, Debug, PartialEq, Eq, Error)]
pub enum SetFail {
    #[error("empty key")]
    EmptyKey,
    #[error("key too long")]
    KeyTooLong,
    #[error("value too long")]
    ValueTooLong,
    /// With this write the transaction would have too many keys, or too many bytes of keys and values.
    #[error("transaction too big")]
    TooBig,
    #[error("no memory")]
    NoMemory,
}

impl From<KeyFail> for SetFail {
    ghost from_gives = { λ why e. e ≡ as_set_fail why };

    fn from(why: KeyFail) -> Self {
        match why {
            KeyFail::EmptyKey => SetFail::EmptyKey,
            KeyFail::KeyTooLong => SetFail::KeyTooLong,
        }
    }
}

impl From<AllocError> for SetFail {
    ghost from_gives = { λ _ e. e ≡ NoMemory };

    fn from(_: AllocError) -> Self {
        SetFail::NoMemory
    }
}
