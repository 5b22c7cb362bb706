ghost use Rattle.std.specs.Prelude.{◌≡◌, IfOk};
ghost use Rattle.vl_table.specs.body.Entries.{body_of, entry_of, value_of};

use std::alloc::{AllocError, Global};
use vl_model::{Body, Bytes, Entry, Place, Pointer, Value};

/// A value and its tag where they lie in a block.
#[derive(Clone, Copy, Debug)]
pub struct ValueRef<'a> {
    pub bytes: &'a [u8],
    pub tag: u8,
}

/// A body where it lies in a block.
#[derive(Clone, Copy, Debug)]
pub enum BodyRef<'a> {
    Inline(ValueRef<'a>),
    Gone,
    Far(Pointer),
}

/// An entry where it lies in a block.
#[derive(Clone, Copy, Debug)]
pub struct EntryRef<'a> {
    pub key: &'a [u8],
    pub version: u64,
    pub body: BodyRef<'a>,
}

impl ValueRef<'_> {
    // The value with bytes of its own.
    fn to_value(&self, alloc: Global) -> Result<Value, AllocError>
        ensures { IfOk result (λ value. value ≡ value_of self.now) }
    {
        Value::copy_of(alloc, self.bytes, self.tag)
    }
}

impl BodyRef<'_> {
    // The body with a value of its own.
    fn to_body(&self, alloc: Global) -> Result<Body, AllocError>
        ensures { IfOk result (λ body. body ≡ body_of self.now) }
    {
        Ok(match self {
            BodyRef::Inline(value) => Body::Inline(value.to_value(alloc)?),
            BodyRef::Gone => Body::Gone,
            BodyRef::Far(pointer) => Body::Far(*pointer),
        })
    }
}

impl EntryRef<'_> {
    /// Its place among entries in order.
    pub fn place(&self) -> Place<'_>
        ensures key { result.key.now ≡ (entry_of self.now).key }
        ensures version { result.version ≡ (entry_of self.now).version }
    {
        Place {
            key: self.key,
            version: self.version,
        }
    }

    /// The entry with a key and a value of its own.
    pub fn to_entry(&self, alloc: Global) -> Result<Entry, AllocError>
        ensures { IfOk result (λ entry. entry ≡ entry_of self.now) }
    {
        Ok(Entry {
            key: Bytes::copy_of(alloc, self.key)?,
            version: self.version,
            body: self.body.to_body(alloc)?,
        })
    }
}
