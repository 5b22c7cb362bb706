ghost use Rattle.std.specs.Prelude.{◌≡◌, ◌==◌, length, IfOk};

use std::alloc::{AllocError, Global};
use std::marker::Model;
use std::sync::ArcSlice;

/// A string of bytes that doesn't change, and that several may share. Clauses see the list of its
/// bytes.
#[derive(Drop)]
pub struct Bytes {
    items: ArcSlice<u8>,
}

/// A key: 1 to [`MAX_KEY_BYTES`](crate::MAX_KEY_BYTES) bytes, in the order of their numbers from
/// the left.
pub type Key = Bytes;

impl Model for Bytes {
    ghost use Rattle.std.specs.Prelude.{List, ℕ};
    ghost use Rattle.std.specs.Arc.{arc_slice_items};

    ghost Value = { List ℕ };

    ghost view = { λ b. arc_slice_items b.items };
}

impl Bytes {
    pub fn new(items: Vec<u8>) -> Result<Self, AllocError>
        ensures { IfOk result (λ bytes. bytes ≡ items.items) }
    {
        Ok(Bytes {
            items: ArcSlice::from_vec(items)?,
        })
    }

    pub fn copy_of(alloc: Global, bytes: &[u8]) -> Result<Self, AllocError>
        ensures { IfOk result (λ copy. copy ≡ bytes.now) }
    {
        Ok(Bytes {
            items: ArcSlice::from_slice(alloc, bytes)?,
        })
    }

    /// The same bytes once more, without a copy of them. It may want memory.
    pub fn share(&self) -> Result<Self, AllocError>
        ensures { IfOk result (λ shared. shared ≡ self.now) }
    {
        Ok(Bytes {
            items: self.items.clone()?,
        })
    }

    pub fn as_slice(&self) -> &[u8]
        ensures { result.now ≡ self.now }
    {
        &self.items
    }

    pub fn len(&self) -> usize
        ensures { result ≡ length self.now }
    {
        self.items.len()
    }

    pub fn is_empty(&self) -> bool
        ensures { result ≡ (length self.now == 0) }
    {
        self.as_slice().is_empty()
    }
}
