//! How commits and relocations are written into a log, one frame for each, and what a log's bytes hold:
//! docs/FORMATS.md lists the format. `ActiveLog` appends them to a log on a disk.
//!
//! A log begins with 16 bytes: `VLOG`, the format, the file's number, and zero, each of the three in four bytes. It is
//! written in format 2, and read in format 1 too, whose records have no tag.
//! Behind them stand frames, one after the other. A commit's frame has as its body the commit's number in eight
//! bytes, the count of its records in four, and the records in the order of their keys, of which none is there
//! twice. A relocation's has the count of its records in four bytes, and these, each behind the version that it
//! keeps, in eight. Numbers are unsigned, the highest byte first. What a log holds is the longest list of frames
//! that stand there from byte 16 on.
#![tactic(auto)]

mod active;
mod fault;
mod frame;
mod laws;
mod lengths;
mod pointer;
mod read;
mod record;
mod sealed;
mod staged;
mod write;

pub use active::ActiveLog;
pub use frame::{Commit, Frame, ReadRecord, Said};
pub use laws::{pointers_lead_to_their_records, values_are_found_by_their_pointers};
pub use lengths::LOG_HEADER_BYTES;
pub use pointer::{pointer_bytes, read_pointer};
pub use read::{LogRead, header_format, read_log, read_next};
pub use record::{RECORD_HEAD_BYTES, RecordRef, read_record, write_record};
pub use sealed::{Filled, SealedLog};
pub use staged::Staged;
pub use write::{commit_length, log_header, write_commit, write_move};
