//! How the entry at the front of some bytes is read.

ghost use Rattle.std.specs.Prelude.{◌≡◌, ◌++◌, ◌∷◌, ◌≤◌, ◌<◌, ◌^◌, ℕ, false, List, length, IfNone, IfSome, IsSomeAnd};
ghost use Rattle.vl_model.specs.declared.entry.Entry.{Entry};
ghost use Rattle.vl_model.specs.declared.entry.Body.{Body};
ghost use Rattle.vl_model.specs.Formats as formats;
ghost use Rattle.vl_table.specs.body.Entries.{IsBody, IsEntry, IsInline, body_bytes, body_of, entry_bytes, entry_of};
ghost use Rattle.vl_table.specs.body.Entries.{inline_bytes, tag_bytes, value_of};
ghost use Rattle.vl_table.specs.body.Starts.{StartsAt};
ghost use Rattle.vl_model.specs.declared.value.Value.{Value};

use crate::body::entry_ref::{BodyRef, EntryRef, ValueRef};
use crate::body::formats::has_tags;
use crate::body::keys::take_key;
use crate::body::pointers::take_pointer;
use vl_frame::{take_bytes, take_u8, take_u64};
use vl_model::MAX_INLINE_BYTES;

/// The byte that a value beside its key begins with.
pub const INLINE: u8 = 0;

/// The byte that stands for a deletion.
pub const GONE: u8 = 1;

/// The byte that a pointer begins with.
pub const FAR: u8 = 2;

/// The entry at the front of these bytes, and the bytes behind it; none where no entry of a table stands there.
pub fn take_entry(format: u32, bytes: &[u8]) -> Option<(EntryRef<'_>, &[u8])>
    ensures found { IfSome result (λ r. bytes.now ≡ entry_bytes format (entry_of r.0) ++ r.1.now) }
    ensures lawful { IfSome result (λ r. IsEntry format (entry_of r.0)) }
    ensures none { IfNone result
        ((e : Entry) (rest : List ℕ) → IsEntry format e → bytes.now ≡ entry_bytes format e ++ rest → ⊥) }
{
    let (key, rest) = take_key(bytes)?;
    let (version, rest) = take_u64(rest)?;
    let (body, rest) = take_body(format, rest)?;
    Some((EntryRef { key, version, body }, rest))
}

/// The entry that begins at a place; none where no entry stands there.
pub fn entry_at(format: u32, bytes: &[u8], start: u16) -> Option<EntryRef<'_>>
    ensures found { (e : Entry) → IsEntry format e → StartsAt format bytes.now start e → IsSomeAnd result (λ r. entry_of r ≡ e) }
    ensures lawful { IfSome result (λ r. IsEntry format (entry_of r)) }
{
    if start as usize > bytes.len() {
        return None;
    }
    match take_entry(format, &bytes[start as usize..]) {
        None => None,
        Some((entry, _)) => Some(entry),
    }
}

// The body at the front, with its kind.
fn take_body(format: u32, bytes: &[u8]) -> Option<(BodyRef<'_>, &[u8])>
    ensures found { IfSome result (λ r. bytes.now ≡ body_bytes format (body_of r.0) ++ r.1.now) }
    ensures lawful { IfSome result (λ r. IsBody format (body_of r.0)) }
    ensures none { IfNone result
        ((body : Body) (rest : List ℕ) → IsBody format body → bytes.now ≡ body_bytes format body ++ rest → ⊥) }
{
    let (kind, rest) = take_u8(bytes)?;
    match kind {
        INLINE => take_inline(format, rest),
        GONE => Some((BodyRef::Gone, rest)),
        FAR => take_far(format, rest),
        _ => None,
    }
}

// The value behind its kind.
fn take_inline(format: u32, bytes: &[u8]) -> Option<(BodyRef<'_>, &[u8])>
    ensures found { IfSome result (λ r. INLINE ∷ bytes.now ≡ body_bytes format (body_of r.0) ++ r.1.now) }
    ensures lawful { IfSome result (λ r. IsBody format (body_of r.0)) }
    ensures none { IfNone result ((value : Value) (rest : List ℕ) → IsInline format value
        → bytes.now ≡ inline_bytes format value ++ rest → ⊥) }
{
    let (value, rest) = take_value(format, bytes)?;
    Some((BodyRef::Inline(value), rest))
}

// The value with its tag.
fn take_value(format: u32, bytes: &[u8]) -> Option<(ValueRef<'_>, &[u8])>
    ensures found { IfSome result (λ r. bytes.now ≡ inline_bytes format (value_of r.0) ++ r.1.now) }
    ensures lawful { IfSome result (λ r. IsInline format (value_of r.0)) }
    ensures none { IfNone result ((value : Value) (rest : List ℕ) → IsInline format value
        → bytes.now ≡ inline_bytes format value ++ rest → ⊥) }
{
    let (tag, rest) = take_tag(format, bytes)?;
    let (bytes, rest) = take_short(rest)?;
    Some((ValueRef { bytes, tag }, rest))
}

// A tag, where the format has them, and else 0.
fn take_tag(format: u32, bytes: &[u8]) -> Option<(u8, &[u8])>
    ensures found { IfSome result (λ r. bytes.now ≡ tag_bytes format r.0 ++ r.1.now) }
    ensures fits { IfSome result (λ r. r.0 < 2 ^ 8) }
    ensures untagged { IfSome result (λ r. formats.has_tags format ≡ false → r.0 ≡ 0) }
    ensures none { IfNone result ((tag : ℕ) (rest : List ℕ) → bytes.now ≡ tag_bytes format tag ++ rest → ⊥) }
{
    if has_tags(format) {
        take_u8(bytes)
    } else {
        Some((0, bytes))
    }
}

// The bytes of a value behind their count; none where they are more than may stand beside a key.
fn take_short(bytes: &[u8]) -> Option<(&[u8], &[u8])>
    ensures found { IfSome result (λ r. bytes.now ≡ length r.0.now ∷ r.0.now ++ r.1.now) }
    ensures short { IfSome result (λ r. length r.0.now ≤ MAX_INLINE_BYTES) }
    ensures none { IfNone result ((value rest : List ℕ) → length value ≤ MAX_INLINE_BYTES
        → bytes.now ≡ length value ∷ value ++ rest → ⊥) }
{
    let (length, rest) = take_u8(bytes)?;
    if length as usize > MAX_INLINE_BYTES {
        return None;
    }
    take_bytes(rest, length as usize)
}

// The pointer behind its kind.
fn take_far(format: u32, bytes: &[u8]) -> Option<(BodyRef<'_>, &[u8])>
    ensures found { IfSome result (λ r. FAR ∷ bytes.now ≡ body_bytes format (body_of r.0) ++ r.1.now) }
    ensures lawful { IfSome result (λ r. IsBody format (body_of r.0)) }
    ensures none { IfNone result (length bytes.now < 16) }
{
    let (pointer, rest) = take_pointer(bytes)?;
    Some((BodyRef::Far(pointer), rest))
}
