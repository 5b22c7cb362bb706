ghost use Rattle.std.specs.Prelude.{◌≡◌, ◌++◌, ◌<◌};
ghost use Rattle.vl_table.specs.body.Entries as spelling;

use byteorder::{BigEndian, ByteOrder};
use vl_model::{POINTER_BYTES, Pointer};

pub fn pointer_bytes(pointer: Pointer) -> [u8; POINTER_BYTES]
    ensures bytes { result ≡ spelling.pointer_bytes pointer }
    ensures fits { spelling.IsPointer pointer }
{
    let mut bytes = [0; POINTER_BYTES];
    BigEndian::write_u32(&mut bytes, pointer.segment);
    BigEndian::write_u64(&mut bytes[4..], pointer.place);
    BigEndian::write_u32(&mut bytes[12..], pointer.length);
    bytes
}
