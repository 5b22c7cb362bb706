ghost use Rattle.std.specs.Prelude.{◌≡◌, ◌+◌, ◌++◌, ◌<◌, ◌^◌, ℕ, List, length, IfNone, IfSome};
ghost use Rattle.std.specs.Option.{option_copied};
ghost use Rattle.vl_model.specs.Formats.{record_head};
ghost use Rattle.vl_model.specs.Keys.{value_bytes, value_tag};
ghost use Rattle.vl_model.specs.declared.change.Change.{Change};
ghost use Rattle.vl_seglog.specs.Record.{IsApart, IsTag, change_of, flag_of, head_bytes, tag_bytes};

use crate::record::head::{DELETION_FLAG, VALUE_FLAG};
use vl_frame::{take_bytes, take_u8, take_u16, take_u32};

/// A record taken apart, whatever its flag, its tag and its lengths are.
#[derive(Clone, Copy)]
pub struct RecordFields<'a> {
    pub flag: u8,
    /// 0 in format 1, which has none.
    pub tag: u8,
    pub key: &'a [u8],
    pub value: &'a [u8],
}

impl<'a> RecordFields<'a> {
    /// What such a flag, tag and value do to the key: a value, which has the tag, or None for a deletion. Nothing where
    /// no change has them.
    pub fn change(&self) -> Option<Option<&'a [u8]>>
        ensures flag { IfSome result (λ v. self.now.flag ≡ flag_of (change_of (option_copied v) self.now.tag)) }
        ensures tag { IfSome result (λ v. self.now.tag ≡ value_tag (change_of (option_copied v) self.now.tag)) }
        ensures value { IfSome result (λ v.
            self.now.value.now ≡ value_bytes (change_of (option_copied v) self.now.tag)) }
        ensures none { IfNone result ((change : Change) → self.now.flag ≡ flag_of change
            → self.now.tag ≡ value_tag change → self.now.value.now ≡ value_bytes change → ⊥) }
    {
        match self.flag {
            VALUE_FLAG => Some(Some(self.value)),
            DELETION_FLAG if self.value.is_empty() && self.tag == 0 => Some(None),
            _ => None,
        }
    }
}

/// The parts of the record at the front of the bytes, which are those of a log of this format, if they hold the lengths
/// and as much as these say.
pub fn take_apart(format: u32, bytes: &[u8]) -> Option<RecordFields<'_>>
    ensures found { IfSome result (λ p. IsApart format bytes.now p.flag p.tag p.key.now p.value.now) }
    ensures none { IfNone result
        ((flag tag : ℕ) (key value : List ℕ) → IsApart format bytes.now flag tag key value → ⊥) }
{
    let (head, rest) = take_head(format, bytes)?;
    let (key, rest) = take_bytes(rest, head.key_length as usize)?;
    let (value, _) = take_bytes(rest, head.value_length as usize)?;
    Some(RecordFields {
        flag: head.flag,
        tag: head.tag,
        key,
        value,
    })
}

/// What stands before a record's key, whatever it is.
#[derive(Clone, Copy)]
pub struct RecordHead {
    pub flag: u8,
    /// 0 in format 1, which has none.
    pub tag: u8,
    pub key_length: u16,
    pub value_length: u32,
}

/// The head at the front of the bytes, which are those of a log of this format, and the bytes behind it; none where there
/// are fewer.
pub fn take_head(format: u32, bytes: &[u8]) -> Option<(RecordHead, &[u8])>
    ensures found { IfSome result (λ r. bytes.now
        ≡ head_bytes format r.0.flag r.0.tag r.0.key_length r.0.value_length ++ r.1.now) }
    ensures kept { IfSome result (λ r. IsTag format r.0.tag) }
    ensures fits { IfSome result (λ r. (r.0.key_length < 2 ^ 16) × (r.0.value_length < 2 ^ 32)) }
    ensures none { IfNone result (length bytes.now < record_head format) }
{
    let (flag, rest) = take_u8(bytes)?;
    let (tag, rest) = take_tag(format, rest)?;
    let (key_length, rest) = take_u16(rest)?;
    let (value_length, rest) = take_u32(rest)?;
    let head = RecordHead {
        flag,
        tag,
        key_length,
        value_length,
    };
    Some((head, rest))
}

// The tag at the front, and the bytes behind it. In format 1 there is none, and 0 is read.
fn take_tag(format: u32, bytes: &[u8]) -> Option<(u8, &[u8])>
    ensures found { IfSome result (λ r. bytes.now ≡ tag_bytes format r.0 ++ r.1.now) }
    ensures kept { IfSome result (λ r. IsTag format r.0) }
    ensures none { IfNone result (length bytes.now + 7 < record_head format) }
{
    if format <= 1 {
        return Some((0, bytes));
    }
    take_u8(bytes)
}
