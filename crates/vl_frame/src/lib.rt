//! What the store's files are made of: a header, and frames behind it; how both are written, and how they are found again.
//! docs/FORMATS.md lists them.
//!
//! A frame is its kind in one byte, the length of its body in four, the body, and a check of eight bytes.
//! Numbers are unsigned, the highest byte first. The check is the first eight bytes of the SHA-256 digest of
//! the file's kind in one byte, the file's number in four, the frame's place in the file in eight, and then
//! the frame's kind, the length and the body as they stand in the frame. So a frame that was left behind from
//! another file, or that stands at another place, is none, even where all its bytes are whole, unless its check
//! matches there by chance.
//!
//! | File | 1, a log | 2, a table | 3, a manifest | 4, a backup |
//! |---|---|---|---|---|
//! | Frames | 1 commit, 2 move | 3 block, 4 index, 5 footer, 9 filter | 6 edits | 7 changes, 8 end |
//!
//! A frame stands at a place of a file if the bytes from there on begin with the spelling of one, and if its
//! kind belongs to the file's. What is inside a body is the matter of the crates that read it.
#![tactic(auto)]

mod checks;
mod fields;
mod frame;
mod header;
mod in_place;
mod kinds;
mod limits;
mod numbers;
mod read;
mod write;

pub use frame::Frame;
pub use header::{HEADER_BYTES, file_header, read_format, read_header};
pub use in_place::{HEAD_BYTES, finish_frame};
pub use kinds::{FileKind, FrameKind};
pub use limits::{FRAME_BYTES, MAX_FRAME_BYTES};
pub use numbers::{take_bytes, take_u8, take_u16, take_u32, take_u64};
pub use read::read_frame;
pub use write::write_frame;
