//! Hexadecimal digits. The kit's `hex::decode` branches at each digit, which the processor can't
//! foresee, and takes eight times as long.
ghost use Rattle.std.specs.Prelude.{◌≡◌, ◌*◌, ◌<◌, length, Some, None, IfOk, MatchOption, if◌then◌else◌};
ghost use Rattle.std.specs.Option.{option_map};
ghost use Rattle.hex.specs.Hex.{decode_of, hex_digit_value};
ghost use Rattle.vl_script.specs.Script.{decoded};

use std::alloc::{AllocError, Global};

/// The bytes that pairs of digits of either case spell, high digits first; `None` where they spell none.
pub fn decode(alloc: Global, digits: &[u8]) -> Result<Option<Vec<u8>>, AllocError>
    ensures { IfOk result (λ bytes. option_map (λ bytes. bytes.items) bytes ≡ decoded (decode_of digits.now)) }
{
    if digits.len() % 2 != 0 {
        return Ok(None);
    }
    let mut bytes = vec![in alloc; 0u8; digits.len() / 2]?;
    if decode_into(digits, bytes.as_mut_slice()) {
        Ok(Some(bytes))
    } else {
        Ok(None)
    }
}

// Goes on behind what is no digit, so that no branch hangs on one.
fn decode_into(digits: &[u8], bytes: &mut [u8]) -> bool
    requires { length digits.now ≡ 2 * length bytes.old }
    ensures { decoded (decode_of digits.now) ≡ (if result then Some bytes.new else None) }
{
    let mut greatest = 0u8;
    'pairs: for i in 0..bytes.len() {
        let high = digit_value(digits[2 * i]);
        let low = digit_value(digits[2 * i + 1]);
        greatest = greatest.max(high).max(low);
        bytes[i] = high.wrapping_mul(16).wrapping_add(low);
    }
    greatest < 16
}

// 255 where it is no digit.
fn digit_value(digit: u8) -> u8
    ensures { MatchOption (hex_digit_value digit) (result ≡ 255) (λ value. (result ≡ value) × (value < 16)) }
{
    match digit {
        b'0'..=b'9' => digit - b'0',
        b'a'..=b'f' => digit - b'a' + 10,
        b'A'..=b'F' => digit - b'A' + 10,
        _ => 255,
    }
}
