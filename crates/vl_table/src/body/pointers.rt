ghost use Rattle.std.specs.Prelude.{◌≡◌, ◌++◌, ◌<◌, length, IfNone, IfSome};
ghost use Rattle.vl_table.specs.body.Entries as spelling;

use vl_frame::{take_u32, take_u64};
use vl_model::Pointer;

// The pointer at the front, and the bytes behind it.
pub fn take_pointer(bytes: &[u8]) -> Option<(Pointer, &[u8])>
    ensures found { IfSome result (λ r. bytes.now ≡ spelling.pointer_bytes r.0 ++ r.1.now) }
    ensures fits { IfSome result (λ r. spelling.IsPointer r.0) }
    ensures none { IfNone result (length bytes.now < 16) }
{
    let (segment, rest) = take_u32(bytes)?;
    let (place, rest) = take_u64(rest)?;
    let (length, rest) = take_u32(rest)?;
    Some((
        Pointer {
            segment,
            place,
            length,
        },
        rest,
    ))
}
