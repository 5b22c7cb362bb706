//! What stands at the front of some bytes, and the bytes behind it. Numbers are unsigned, the highest byte first.

ghost use Rattle.std.specs.Prelude.{◌≡◌, ◌<◌, ◌^◌, ◌∷◌, ◌++◌, length, IfNone, IfSome};
ghost use Rattle.byteorder.specs.Endian.{big_bytes};

use byteorder::{BigEndian, ByteOrder};

/// So many bytes at the front, and those behind them; none where there are fewer.
pub fn take_bytes(bytes: &[u8], count: usize) -> Option<(&[u8], &[u8])>
    ensures found { IfSome result (λ r. bytes.now ≡ r.0.now ++ r.1.now) }
    ensures count { IfSome result (λ r. length r.0.now ≡ count) }
    ensures none { IfNone result (length bytes.now < count) }
{
    if bytes.len() < count {
        return None;
    }
    Some(bytes.split_at(count))
}

/// The first byte, and the bytes behind it; none where there is none.
pub fn take_u8(bytes: &[u8]) -> Option<(u8, &[u8])>
    ensures found { IfSome result (λ r. bytes.now ≡ r.0 ∷ r.1.now) }
    ensures fits { IfSome result (λ r. r.0 < 2 ^ 8) }
    ensures none { IfNone result (length bytes.now < 1) }
{
    match bytes {
        [] => None,
        [first, rest @ ..] => Some((*first, rest)),
    }
}

/// The number in the first two bytes, and the bytes behind it; none where there are fewer.
pub fn take_u16(bytes: &[u8]) -> Option<(u16, &[u8])>
    ensures found { IfSome result (λ r. bytes.now ≡ big_bytes 2 r.0 ++ r.1.now) }
    ensures fits { IfSome result (λ r. r.0 < 2 ^ 16) }
    ensures none { IfNone result (length bytes.now < 2) }
{
    let (front, rest) = take_bytes(bytes, 2)?;
    Some((BigEndian::read_u16(front), rest))
}

/// The number in the first four bytes, and the bytes behind it; none where there are fewer.
pub fn take_u32(bytes: &[u8]) -> Option<(u32, &[u8])>
    ensures found { IfSome result (λ r. bytes.now ≡ big_bytes 4 r.0 ++ r.1.now) }
    ensures fits { IfSome result (λ r. r.0 < 2 ^ 32) }
    ensures none { IfNone result (length bytes.now < 4) }
{
    let (front, rest) = take_bytes(bytes, 4)?;
    Some((BigEndian::read_u32(front), rest))
}

/// The number in the first eight bytes, and the bytes behind it; none where there are fewer.
pub fn take_u64(bytes: &[u8]) -> Option<(u64, &[u8])>
    ensures found { IfSome result (λ r. bytes.now ≡ big_bytes 8 r.0 ++ r.1.now) }
    ensures fits { IfSome result (λ r. r.0 < 2 ^ 64) }
    ensures none { IfNone result (length bytes.now < 8) }
{
    let (front, rest) = take_bytes(bytes, 8)?;
    Some((BigEndian::read_u64(front), rest))
}
