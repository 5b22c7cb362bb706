//! What stands before a record's value: its head and its key.

ghost use Rattle.std.specs.Prelude.{◌≡◌, ◌+◌, ◌++◌, ◌<◌, ◌^◌, ℕ, length, true, IfNone, IfSome};
ghost use Rattle.vl_model.specs.Formats.{record_head};
ghost use Rattle.vl_model.specs.Keys.{Stored, is_key_length, is_value_length, value_length};
ghost use Rattle.vl_seglog.specs.Record.{IsTag, head_bytes};

use crate::RECORD_HEAD_BYTES;
use crate::record::{VALUE_FLAG, record_head_bytes, take_head};
use vl_model::{MAX_KEY_BYTES, Pointer, is_key_len, is_value_len};

/// The longest head and key, in bytes.
pub const MAX_FRONT_BYTES: usize = RECORD_HEAD_BYTES + MAX_KEY_BYTES;

/// How long the value is in a record of this key that has the pointer's length, if both are lawful.
pub fn length_of_value(format: u32, pointer: Pointer, key: &[u8]) -> Option<usize>
    ensures key { IfSome result (λ n. is_key_length (length key.now) ≡ true) }
    ensures value { IfSome result (λ n. is_value_length format n ≡ true) }
    ensures whole { IfSome result (λ n. pointer.length ≡ record_head format + length key.now + n) }
    ensures none { IfNone result ((value : Stored) → is_key_length (length key.now) ≡ true
        → is_value_length format (value_length value) ≡ true
        → pointer.length ≡ record_head format + length key.now + value_length value → ⊥) }
{
    if !is_key_len(key.len()) {
        return None;
    }
    let front = record_head_bytes(format) + key.len();
    let whole = pointer.length as usize;
    if whole < front || !is_value_len(format, whole - front) {
        return None;
    }
    Some(whole - front)
}

/// The tag in the head of a value's record, if these bytes are that head and the key, and the value has this length.
pub fn tag_in(format: u32, front: &[u8], key: &[u8], value_len: usize) -> Option<u8>
    requires key { length key.now < 2 ^ 16 }
    requires value { value_len < 2 ^ 32 }
    ensures found { IfSome result (λ tag. IsTag format tag
        × (front.now ≡ head_bytes format 0 tag (length key.now) value_len ++ key.now)) }
    ensures none { IfNone result ((tag : ℕ) → IsTag format tag
        → front.now ≡ head_bytes format 0 tag (length key.now) value_len ++ key.now → ⊥) }
{
    let (head, rest) = take_head(format, front)?;
    if head.flag == VALUE_FLAG
        && head.key_length as usize == key.len()
        && head.value_length as usize == value_len
        && rest == key
    {
        Some(head.tag)
    } else {
        None
    }
}
