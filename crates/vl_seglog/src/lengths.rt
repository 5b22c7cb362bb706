//! How many bytes the parts of logs have, of which frames and records are made.

use vl_frame::{HEAD_BYTES, HEADER_BYTES};

/// How many bytes stand before a log's first frame.
pub const LOG_HEADER_BYTES: usize = HEADER_BYTES;

/// How many bytes of a commit's body stand before its first record: its number in eight, and the count of its records.
pub const COMMIT_HEAD_BYTES: usize = 12;

/// How many bytes of a relocation's body stand before its first version: the count of its records.
pub const MOVES_HEAD_BYTES: usize = 4;

/// How many bytes the version has that stands before a moved record.
pub const VERSION_BYTES: u64 = 8;

/// How many bytes of a commit's frame stand before its first record.
pub const BEFORE_RECORDS: u64 = (HEAD_BYTES + COMMIT_HEAD_BYTES) as u64;

/// How many bytes of a relocation's frame stand before its first version.
pub const BEFORE_MOVES: u64 = (HEAD_BYTES + MOVES_HEAD_BYTES) as u64;
