ghost use Rattle.std.specs.Prelude.{◌≡◌, ◌≤◌, ◌<◌, ◌*◌, ◌^◌, List, ℕ, length, IfNone, IfSome};
ghost use Rattle.vl_filter.specs.Filters.{SpellsFilter, are_set, may_hold, passes};

use crate::bits::is_set;
use crate::hashes::Hashes;
use crate::last_key::LastKey;
use byteorder::{BigEndian, ByteOrder};

/// A filter where it lies in the body of a frame.
#[derive(Clone, Copy)]
pub struct Filter<'a> {
    bytes: &'a [u8],
    ghost some: { 8 ≤ length bytes.now },
    ghost fits: { 8 * length bytes.now < 2 ^ 32 },
}

/// The filter that a body spells to its last byte; none where it spells none.
pub fn read(body: &[u8]) -> Option<Filter<'_>>
    ensures found { IfSome result (λ filter. SpellsFilter body.now filter.bytes.now) }
    ensures none { IfNone result ((bytes : List ℕ) → SpellsFilter body.now bytes → ⊥) }
{
    if body.len() < 4 {
        return None;
    }
    let (front, bytes) = body.split_at(4);
    let bits = BigEndian::read_u32(front);
    if bits >= 64 && bits % 8 == 0 && bytes.len() == (bits / 8) as usize {
        Some(Filter { bytes })
    } else {
        None
    }
}

/// Whether bits let a key pass. No bits, or too many for a filter, let every key pass, and it isn't hashed then.
pub fn passes(bits: &[u8], key: &[u8], last: &mut LastKey) -> bool
    ensures { result ≡ passes bits.now key.now }
{
    if bits.len() < 8 || bits.len() >= 1 << 29 {
        return true;
    }
    Filter { bytes: bits }.has_bits_of(last.hashes(key))
}

impl Filter<'_> {
    /// The bytes with its bits.
    pub fn as_slice(&self) -> &[u8]
        ensures { result.now ≡ self.now.bytes.now }
    {
        self.bytes
    }

    /// Whether a key may be among those that the filter was built of: false exactly where one of its seven bits is 0.
    pub fn may_hold(&self, key: &[u8]) -> bool
        ensures { result ≡ may_hold self.now.bytes.now key.now }
    {
        self.has_bits_of(Hashes::of(key))
    }

    // Whether the seven bits of a key with these hashes are all 1.
    fn has_bits_of(&self, hashes: Hashes) -> bool
        ensures { result ≡ are_set self.now.bytes.now hashes 7 }
    {
        let bits = self.bytes.len() as u64 * 8;
        for index in 0..7 {
            if !is_set(self.bytes, hashes.place(bits, index)) {
                return false;
            }
        }
        true
    }
}
