ghost use Rattle.std.specs.Prelude.{◌≡◌, ◌==◌, IfOk};
ghost use Rattle.vl_model.specs.Keys.{tagged, value_length};

use crate::Bytes;
use std::alloc::{AllocError, Global};

/// A value: its bytes, of which a store takes at most [`MAX_VALUE_BYTES`](crate::MAX_VALUE_BYTES),
/// and beside them one byte of the user's own, its tag, which is 0 where none was given.
#[derive(Drop)]
pub struct Value {
    pub bytes: Bytes,
    pub tag: u8,
}

impl Value {
    pub fn new(bytes: Vec<u8>, tag: u8) -> Result<Self, AllocError>
        ensures { IfOk result (λ value. value ≡ tagged bytes.items tag) }
    {
        Ok(Value {
            bytes: Bytes::new(bytes)?,
            tag,
        })
    }

    pub fn copy_of(alloc: Global, bytes: &[u8], tag: u8) -> Result<Self, AllocError>
        ensures { IfOk result (λ value. value ≡ tagged bytes.now tag) }
    {
        Ok(Value {
            bytes: Bytes::copy_of(alloc, bytes)?,
            tag,
        })
    }

    /// The same once more, without a copy of its bytes. It may want memory.
    pub fn share(&self) -> Result<Self, AllocError>
        ensures { IfOk result (λ shared. shared ≡ self.now) }
    {
        Ok(Value {
            bytes: self.bytes.share()?,
            tag: self.tag,
        })
    }

    pub fn as_slice(&self) -> &[u8]
        ensures { result.now ≡ self.now.bytes }
    {
        self.bytes.as_slice()
    }

    /// How many bytes it has, its tag not counted.
    pub fn len(&self) -> usize
        ensures { result ≡ value_length self.now }
    {
        self.bytes.len()
    }

    /// Whether it has no bytes, whatever its tag.
    pub fn is_empty(&self) -> bool
        ensures { result ≡ (value_length self.now == 0) }
    {
        self.bytes.is_empty()
    }
}
