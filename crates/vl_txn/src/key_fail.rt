ghost use Rattle.std.specs.Prelude.{◌≡◌};
ghost use Rattle.vl_txn.specs.Refusals.{refused_key, refused_bound, unless};

use thiserror::Error;
use vl_model::MAX_KEY_BYTES;

/// Why a key that was handed in is refused.
#[derive(Clone, Copy, Debug, PartialEq, Eq, Error)]
pub enum KeyFail {
    #[error("empty key")]
    EmptyKey,
    #[error("key too long")]
    KeyTooLong,
}

/// Whether a key may be read or written.
pub fn check_key(key: &[u8]) -> Result<(), KeyFail>
    ensures { result ≡ unless (refused_key key.now) }
{
    if key.is_empty() {
        return Err(KeyFail::EmptyKey);
    }
    check_bound(key)
}

/// Whether a scan may have this bound. It may be empty, and is then none.
pub fn check_bound(bound: &[u8]) -> Result<(), KeyFail>
    ensures { result ≡ unless (refused_bound bound.now) }
{
    if bound.len() > MAX_KEY_BYTES {
        return Err(KeyFail::KeyTooLong);
    }
    Ok(())
}
