ghost use Rattle.std.specs.Prelude.{◌≡◌, ◌∷◌};
ghost use Rattle.vl_model.specs.Formats.{log_format, record_head};
ghost use Rattle.vl_seglog.specs.Record.{head_bytes};

use byteorder::{BigEndian, ByteOrder};

/// How many bytes of a record stand in front of its key, in the logs that are written.
pub const RECORD_HEAD_BYTES: usize = 8;

/// How many do in format 1, which has no tag.
const HEAD_BYTES_BEFORE_TAGS: usize = 7;

/// The flag of a record that holds a value.
pub const VALUE_FLAG: u8 = 0;

/// The flag of a record that deletes its key.
pub const DELETION_FLAG: u8 = 1;

/// How many bytes of a record stand in front of its key, in a log of this format.
pub fn record_head_bytes(format: u32) -> usize
    ensures { result ≡ record_head format }
{
    if format <= 1 {
        HEAD_BYTES_BEFORE_TAGS
    } else {
        RECORD_HEAD_BYTES
    }
}

/// The bytes in front of a record's key, in the logs that are written.
pub fn head(flag: u8, tag: u8, key_length: u16, value_length: u32) -> [u8; RECORD_HEAD_BYTES]
    ensures { result ≡ head_bytes log_format flag tag key_length value_length }
{
    let mut head = [0; RECORD_HEAD_BYTES];
    head[0] = flag;
    head[1] = tag;
    BigEndian::write_u16(&mut head[2..], key_length);
    BigEndian::write_u32(&mut head[4..], value_length);
    head
}
