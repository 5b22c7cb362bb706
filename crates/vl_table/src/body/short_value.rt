ghost use Rattle.std.specs.Prelude.{◌≡◌, ◌≤◌, length};

use crate::body::entry_ref::ValueRef;
use vl_model::MAX_INLINE_BYTES;

/// A value that may stand beside its key, with its tag.
#[derive(Clone, Copy)]
pub struct ShortValue {
    bytes: [u8; MAX_INLINE_BYTES],
    len: usize,
    tag: u8,
    ghost short: { len ≤ 64 },
}

impl ShortValue {
    ghost use Rattle.vl_table.specs.body.Entries.{value_of};
    ghost use Rattle.vl_table.specs.body.Founds.{short_of};

    /// A copy of a value that is lent.
    pub fn of(value: &ValueRef<'_>) -> Self
        requires { length value.now.bytes.now ≤ MAX_INLINE_BYTES }
        ensures { short_of result ≡ value_of value.now }
    {
        let len = value.bytes.len();
        let mut bytes = [0; MAX_INLINE_BYTES];
        bytes[..len].copy_from_slice(value.bytes);
        ShortValue {
            bytes,
            len,
            tag: value.tag,
        }
    }

    pub fn as_slice(&self) -> &[u8]
        ensures { result.now ≡ (short_of self.now).bytes }
    {
        &self.bytes[..self.len]
    }

    pub fn tag(&self) -> u8
        ensures { result ≡ (short_of self.now).tag }
    {
        self.tag
    }
}
