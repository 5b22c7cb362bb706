//! How the filter of a table's keys is made: of two hashes for each key, once all keys are known.

ghost use Rattle.std.specs.Prelude.{◌≡◌, ◌≤◌, ◌<◌, ◌*◌, ◌++◌, ◌||◌, ◌^◌, ℕ, get_or, length, IfOk};
ghost use Rattle.vl_filter.specs.Bits.{is_set};
ghost use Rattle.vl_filter.specs.Filters.{byte_count, is_marked, marked_body};
ghost use Rattle.vl_filter.specs.Places.{has_place};

use crate::bits::set;
use crate::hashes::Hashes;
use byteorder::{BigEndian, ByteOrder};
use std::alloc::{AllocError, Global};

/// The body that spells the filter of different keys with these hashes.
pub fn build(alloc: Global, keys: &[Hashes]) -> Result<Vec<u8>, AllocError>
    requires few { 8 * byte_count (length keys.now) < 2 ^ 32 }
    ensures { IfOk result (λ body. body.items ≡ marked_body keys.now) }
{
    let count = bytes_for(keys.len());
    let mut bytes = vec![in alloc; 0u8; count]?;
    mark_all(&mut bytes, keys);
    let mut bits = [0u8; 4];
    BigEndian::write_u32(&mut bits, (count * 8) as u32);
    let mut body = Vec::new(alloc);
    body.extend_from_slice(&bits)?;
    body.extend_from_slice(&bytes)?;
    Ok(body)
}

// How many bytes the bits of so many keys take.
fn bytes_for(keys: usize) -> usize
    requires { 8 * byte_count keys < 2 ^ 32 }
    ensures { result ≡ byte_count keys }
{
    ((keys * 10 + 7) / 8).max(8)
}

// Makes the seven bits of each of these keys 1.
fn mark_all(bytes: &mut [u8], keys: &[Hashes])
    requires some { 8 ≤ length bytes.old }
    requires fits { 8 * length bytes.old < 2 ^ 32 }
    ensures bytes { (k : ℕ) → get_or bytes.new k 0 < 2 ^ 8 }
    ensures marked { (p : ℕ) → is_set bytes.new p ≡ (is_marked (8 * length bytes.old) keys.now p || is_set bytes.old p) }
{
    for hashes in keys {
        mark(bytes, hashes);
    }
}

// Makes the seven bits of a key 1.
fn mark(bytes: &mut [u8], hashes: &Hashes)
    requires some { 8 ≤ length bytes.old }
    requires fits { 8 * length bytes.old < 2 ^ 32 }
    ensures { (p : ℕ) → is_set bytes.new p ≡ (has_place (8 * length bytes.old) hashes.now p || is_set bytes.old p) }
{
    let bits = bytes.len() as u64 * 8;
    for index in 0..7 {
        set(bytes, hashes.place(bits, index));
    }
}
