ghost use Rattle.std.specs.Prelude.{◌≡◌};
ghost use Rattle.vl_model.specs.Keys.{is_key_length, is_value_length};
ghost use Rattle.vl_model.specs.Limits.{max_value_bytes};

use crate::{MAX_KEY_BYTES, MAX_VALUE_BYTES, MAX_VALUE_BYTES_BEFORE_TAGS};

/// Whether a key may have so many bytes.
pub fn is_key_len(bytes: usize) -> bool
    ensures { result ≡ is_key_length bytes }
{
    bytes >= 1 && bytes <= MAX_KEY_BYTES
}

/// The longest value in a log of this format, in bytes.
pub fn max_value_len(format: u32) -> usize
    ensures { result ≡ max_value_bytes format }
{
    if format <= 1 {
        MAX_VALUE_BYTES_BEFORE_TAGS
    } else {
        MAX_VALUE_BYTES
    }
}

/// Whether a value may have so many bytes in a log of this format.
pub fn is_value_len(format: u32, bytes: usize) -> bool
    ensures { result ≡ is_value_length format bytes }
{
    bytes <= max_value_len(format)
}
