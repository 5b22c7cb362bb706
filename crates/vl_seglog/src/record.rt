//! A record: what one change leaves in a log. At its front stand the flag, the tag and the lengths of key and value, in 1,
//! 1, 2 and 4 bytes, of which format 1 has no tag; then the key and the value.

mod fields;
mod head;
mod read;
mod write;

pub use fields::take_head;
pub use head::{RECORD_HEAD_BYTES, VALUE_FLAG, record_head_bytes};
pub use read::{RecordRef, read_record};
pub use write::write_record;
