//! The number that a key's value tells, and the value that tells a number.
ghost use Rattle.std.specs.Prelude.{◌≡◌, ◌≤◌, ◌+◌, ℕ, Option, Some, IfErr, IfOk, IsOk};
ghost use Rattle.byteorder.specs.Endian.{big_bytes};
ghost use Rattle.vl_model.specs.Keys.{Stored};
ghost use Rattle.vl_sequence.specs.Causes.{IsValueCause};
ghost use Rattle.vl_sequence.specs.Leases.{number_in};
ghost use Rattle.vl_sequence.specs.Sequences.{most_number};

use crate::fails::SeqFail;
use byteorder::{BigEndian, ByteOrder};
use vl_model::Value;

// No end of a lease is above this number.
const MOST: u64 = (1 << 63) - 1;

/// The least number that isn't leased yet, as the key's value tells it: 1 where it has none.
///
/// `Malformed`: the value hasn't eight bytes.
pub fn first_number(value: &Option<Value>) -> Result<u64, SeqFail>
    ensures told { IfOk result (λ n. number_in value.now ≡ Some n) }
    // It is refused only where the value tells none.
    ensures tells { (n : ℕ) → number_in value.now ≡ Some n → IsOk result }
    ensures cause { (lease : ℕ) → IfErr result (IsValueCause value.now lease) }
{
    let Some(value) = value else {
        return Ok(1);
    };
    let bytes = value.as_slice();
    if bytes.len() != 8 {
        return Err(SeqFail::Malformed {
            len: bytes.len() as u64,
        });
    }
    Ok(BigEndian::read_u64(bytes))
}

/// A number in eight bytes, the greatest first: the value that tells it.
pub fn number_bytes(number: u64) -> [u8; 8]
    ensures { result ≡ big_bytes 8 number }
{
    let mut bytes = [0; 8];
    BigEndian::write_u64(&mut bytes, number);
    bytes
}

/// The end of a lease of so many numbers: the first that isn't in it.
///
/// `Spent`: it is above 2^63 - 1.
pub fn end_of(first: u64, lease: u32) -> Result<u64, SeqFail>
    requires lease { lease ≤ 1000000 }
    ensures fits { IfOk result (λ end. (end ≡ first + lease) × (end ≤ most_number)) }
    ensures cause { (value : Option Stored) → number_in value ≡ Some first → IfErr result (IsValueCause value lease) }
{
    if first > MOST - lease as u64 {
        return Err(SeqFail::Spent);
    }
    Ok(first + lease as u64)
}
