//! The footer of a table, written.

ghost use Rattle.std.specs.Prelude.{◌≡◌, ◌++◌, OnOk};
ghost use Rattle.byteorder.specs.Endian.{big_bytes};
ghost use Rattle.vl_table.specs.body.Footer.{foot_of, footer_body, frame_place_bytes, head_bytes, head_of};

use crate::body::{Footer, FooterHead, FramePlace};
use crate::writer::keys::write_key;
use crate::writer::numbers::{u32_bytes, u64_bytes};
use crate::writer::points::write_points;
use byteorder::{BigEndian, ByteOrder};
use std::alloc::AllocError;

/// Appends the body of a footer's frame. Want of memory is the answer too where a key has no lawful length.
pub fn write_footer(out: &mut Vec<u8>, footer: &Footer) -> Result<(), AllocError>
    ensures written { OnOk result (out.new.items ≡ out.old.items ++ footer_body (foot_of footer.now)) }
{
    let head = FooterHead {
        filter: footer.filter,
        index_place: footer.index_place,
        index_length: footer.index_length,
        count: footer.count,
        greatest: footer.greatest,
        first: footer.first.as_slice(),
        last: footer.last.as_slice(),
    };
    write_head(out, &head)?;
    write_points(out, &footer.points)
}

fn write_head(out: &mut Vec<u8>, head: &FooterHead) -> Result<(), AllocError>
    ensures written { OnOk result (out.new.items ≡ out.old.items ++ head_bytes (head_of head.now)) }
{
    write_frame_place(out, &head.filter)?;
    out.extend_from_slice(&number_bytes(head))?;
    write_key(out, head.first)?;
    write_key(out, head.last)
}

// Appends where a frame stands, where there is one.
fn write_frame_place(out: &mut Vec<u8>, place: &Option<FramePlace>) -> Result<(), AllocError>
    ensures { OnOk result (out.new.items ≡ out.old.items ++ frame_place_bytes place.now) }
{
    match place {
        None => Ok(()),
        Some(place) => {
            out.extend_from_slice(&u64_bytes(place.place))?;
            out.extend_from_slice(&u32_bytes(place.length))
        }
    }
}

fn number_bytes(head: &FooterHead) -> [u8; 28]
    ensures { result ≡ big_bytes 8 head.now.index_place ++ big_bytes 4 head.now.index_length
        ++ big_bytes 8 head.now.count ++ big_bytes 8 head.now.greatest }
{
    let mut bytes = [0; 28];
    BigEndian::write_u64(&mut bytes, head.index_place);
    BigEndian::write_u32(&mut bytes[8..], head.index_length);
    BigEndian::write_u64(&mut bytes[12..], head.count);
    BigEndian::write_u64(&mut bytes[20..], head.greatest);
    bytes
}
