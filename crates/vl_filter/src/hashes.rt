//! What a filter knows of a key, and where the key's bits stand.

ghost use Rattle.std.specs.Prelude.{◌≡◌, ◌<◌};
ghost use Rattle.vl_filter.specs.Places.{hashes_of, place};

use byteorder::{BigEndian, ByteOrder};
use sha2::{Digest, Sha256};

/// The two hashes of a key. They are all that a filter is built of.
#[derive(Clone, Copy, Debug, PartialEq, Eq)]
pub struct Hashes {
    pub first: u64,
    pub second: u64,
}

impl Hashes {
    pub fn of(key: &[u8]) -> Self
        ensures { result ≡ hashes_of key.now }
    {
        let digest = Sha256::digest(key);
        Hashes {
            first: BigEndian::read_u64(&digest),
            second: BigEndian::read_u64(&digest[8..16]),
        }
    }

    // The place of the bit with this index among so many bits.
    pub(crate) fn place(self, bits: u64, index: u64) -> u64
        requires { 0 < bits }
        ensures is { result ≡ place bits self index }
        ensures within { result < bits }
    {
        self.first.wrapping_add(index.wrapping_mul(self.second)) % bits
    }
}
