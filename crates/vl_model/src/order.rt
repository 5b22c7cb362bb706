ghost use Rattle.std.specs.Prelude.{◌≡◌};
ghost use Rattle.vl_model.specs.Entries.{entry_cmp};
ghost use Rattle.vl_model.specs.Order.{place_cmp};

use crate::{Entry, key_order};
use std::cmp::Ordering;

/// Where an entry stands among entries in order.
#[derive(Clone, Copy)]
pub struct Place<'a> {
    pub key: &'a [u8],
    pub version: u64,
}

/// How two places stand to each other: keys rise, and of one key the versions fall.
pub fn place_order(a: &Place<'_>, b: &Place<'_>) -> Ordering
    ensures { result ≡ place_cmp a.now b.now }
{
    key_order(a.key, b.key).then(b.version.cmp(&a.version))
}

/// How two entries stand to each other.
pub fn entry_order(a: &Entry, b: &Entry) -> Ordering
    ensures { result ≡ entry_cmp a.now b.now }
{
    place_order(&a.place(), &b.place())
}

impl Entry {
    /// Its place among entries in order.
    pub fn place(&self) -> Place<'_>
        ensures key { result.key.now ≡ self.now.key }
        ensures version { result.version ≡ self.now.version }
    {
        Place {
            key: self.key.as_slice(),
            version: self.version,
        }
    }
}
