//! The index of a table, written.

ghost use Rattle.std.specs.Prelude.{◌≡◌, ◌++◌, OnOk};
ghost use Rattle.byteorder.specs.Endian.{big_bytes};
ghost use Rattle.vl_table.specs.body.Index.{IsPlace, index_body, place_bytes};

use crate::body::BlockPlace;
use crate::writer::keys::write_key;
use crate::writer::numbers::u32_bytes;
use byteorder::{BigEndian, ByteOrder};
use std::alloc::AllocError;

/// Appends the body of an index's frame. Want of memory is the answer too where there are more blocks than can be
/// counted, or a last key has no lawful length.
pub fn write_index(out: &mut Vec<u8>, blocks: &[BlockPlace]) -> Result<(), AllocError>
    ensures written { OnOk result (out.new.items ≡ out.old.items ++ index_body blocks.now) }
{
    if blocks.len() > u32::MAX as usize {
        return Err(AllocError);
    }
    out.extend_from_slice(&u32_bytes(blocks.len() as u32))?;
    for block in blocks {
        write_place(out, block)?;
    }
    Ok(())
}

// Appends what the index says of a block.
fn write_place(out: &mut Vec<u8>, block: &BlockPlace) -> Result<(), AllocError>
    ensures written { OnOk result (out.new.items ≡ out.old.items ++ place_bytes block.now) }
    ensures lawful { OnOk result (IsPlace block.now) }
{
    out.extend_from_slice(&frame_bytes(block.place, block.length))?;
    write_key(out, block.last.as_slice())
}

fn frame_bytes(place: u64, length: u32) -> [u8; 12]
    ensures { result ≡ big_bytes 8 place ++ big_bytes 4 length }
{
    let mut bytes = [0; 12];
    BigEndian::write_u64(&mut bytes, place);
    BigEndian::write_u32(&mut bytes[8..], length);
    bytes
}
