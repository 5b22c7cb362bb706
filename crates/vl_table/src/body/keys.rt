ghost use Rattle.std.specs.Prelude.{◌≡◌, ◌++◌, ℕ, true, List, length, IfNone, IfSome};
ghost use Rattle.vl_model.specs.Keys.{is_key_length};
ghost use Rattle.vl_table.specs.body.Entries.{key_bytes};

use vl_frame::{take_bytes, take_u16};
use vl_model::is_key_len;

/// The key at the front behind its length, and the bytes behind it; none where no key of a lawful length stands there.
pub fn take_key(bytes: &[u8]) -> Option<(&[u8], &[u8])>
    ensures found { IfSome result (λ r. bytes.now ≡ key_bytes r.0.now ++ r.1.now) }
    ensures lawful { IfSome result (λ r. is_key_length (length r.0.now) ≡ true) }
    ensures none { IfNone result ((key rest : List ℕ) → is_key_length (length key) ≡ true
        → bytes.now ≡ key_bytes key ++ rest → ⊥) }
{
    let (length, rest) = take_u16(bytes)?;
    let (key, rest) = take_bytes(rest, length as usize)?;
    if !is_key_len(key.len()) {
        return None;
    }
    Some((key, rest))
}
