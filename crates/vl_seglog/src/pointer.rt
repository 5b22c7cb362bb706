ghost use Rattle.std.specs.Prelude.{◌≡◌, ◌<◌, length, IfNone, IfSome};
ghost use Rattle.vl_seglog.specs.Pointer as spelling;

use byteorder::{BigEndian, ByteOrder};
use vl_frame::{take_u32, take_u64};
use vl_model::{POINTER_BYTES, Pointer};

/// A pointer's bytes: segment, place and length, each with its highest byte first.
#[tactic(auto, unfolding(crate::specs::Pointer::pointer_bytes))]
pub fn pointer_bytes(pointer: Pointer) -> [u8; POINTER_BYTES]
    ensures { result ≡ spelling.pointer_bytes pointer }
{
    let mut bytes = [0; POINTER_BYTES];
    BigEndian::write_u32(&mut bytes, pointer.segment);
    BigEndian::write_u64(&mut bytes[4..], pointer.place);
    BigEndian::write_u32(&mut bytes[12..], pointer.length);
    bytes
}

/// The pointer at the front of these bytes. Bytes may follow it.
pub fn read_pointer(bytes: &[u8]) -> Option<Pointer>
    ensures found { IfSome result (spelling.IsPointerSpelled bytes.now) }
    ensures none { IfNone result (length bytes.now < 16) }
{
    let (segment, rest) = take_u32(bytes)?;
    let (place, rest) = take_u64(rest)?;
    let (length, _) = take_u32(rest)?;
    Some(Pointer {
        segment,
        place,
        length,
    })
}
