//! The last short key that was hashed.

ghost use Rattle.std.specs.Prelude.{◌≡◌, ◌≤◌, IfSome, IsTrue, length, take};
ghost use Rattle.vl_filter.specs.Places.{hashes_of};

use crate::hashes::Hashes;
use std::marker::Model;

/// The last key of at most 64 bytes that was hashed, with its hashes. Most keys are so short; a copy of a longer one would
/// want memory of its own, so such a key is hashed each time.
#[derive(Drop)]
pub struct LastKey {
    kept: Option<HashedKey>,
}

// A key and its hashes. The key stands at the front of the bytes.
#[derive(Drop)]
struct HashedKey {
    bytes: [u8; 64],
    count: usize,
    hashes: Hashes,
    ghost short: { count ≤ 64 },
    ghost hashed: { hashes ≡ hashes_of (take count bytes) },
}

// Which key was hashed is no one's contents: clauses don't see it.
impl Model for LastKey {
    ghost Value = { Unit {0} };

    ghost view = { λ _. tt };
}

impl LastKey {
    /// No key was hashed yet.
    pub fn none() -> Self {
        LastKey { kept: None }
    }

    /// The hashes of a key, which are computed where it isn't the one that is kept.
    pub fn hashes(&mut self, key: &[u8]) -> Hashes
        ensures { result ≡ hashes_of key.now }
    {
        if let Some(hashes) = self.known(key) {
            return hashes;
        }
        let hashes = Hashes::of(key);
        if key.len() <= 64 {
            self.kept = Some(HashedKey::of(key, hashes));
        }
        hashes
    }

    // The hashes of a key, if it is the one that is kept.
    fn known(&self, key: &[u8]) -> Option<Hashes>
        ensures { IfSome result (λ hashes. hashes ≡ hashes_of key.now) }
    {
        match &self.kept {
            Some(kept) if kept.is(key) => Some(kept.hashes),
            _ => None,
        }
    }
}

impl HashedKey {
    fn of(key: &[u8], hashes: Hashes) -> Self
        requires short { length key.now ≤ 64 }
        requires hashed { hashes ≡ hashes_of key.now }
    {
        let count = key.len();
        let mut bytes = [0u8; 64];
        bytes[..count].copy_from_slice(key);
        HashedKey {
            bytes,
            count,
            hashes,
        }
    }

    // Whether it is of this key.
    fn is(&self, key: &[u8]) -> bool
        ensures { IsTrue result → self.now.hashes ≡ hashes_of key.now }
    {
        key == &self.bytes[..self.count]
    }
}
