//! What a store is about, whatever it is made of: keys, values, limits, pointers, histories of
//! commits, and what a reader noted.
#![tactic(auto)]

mod bytes;
mod change;
mod counter;
mod cursor;
mod entry;
mod formats;
mod keys;
mod laws;
mod lengths;
mod limits;
mod log_frame;
mod newest;
mod order;
mod point;
mod pointer;
mod span;
mod value;
mod way;

pub use bytes::{Bytes, Key};
pub use change::Change;
pub use counter::Counter;
pub use cursor::Cursor;
pub use entry::{Body, Entry};
pub use formats::{LOG_FORMAT, MANIFEST_FORMAT, TABLE_FORMAT};
pub use keys::key_order;
pub use laws::{
    a_base_that_stands_at_a_number, constants_are_the_limits, contents_agree_with_values,
    overwritten_keys_are_read_and_named_later, placed_entries_may_stand_in_tables,
    reads_without_conflict_stay_explained, value_after_one_more_commit, value_without_commits,
    values_stay, winners_of_a_key, winners_of_parts,
};
pub use lengths::{is_key_len, is_value_len, max_value_len};
pub use limits::{
    MAX_BATCH_BYTES, MAX_BATCH_RECORDS, MAX_COMMIT_NUMBER, MAX_EPOCH, MAX_FILE_NUMBER,
    MAX_INLINE_BYTES, MAX_KEEP, MAX_KEY_BYTES, MAX_LEVEL, MAX_LIVE, MAX_ROOM, MAX_SESSIONS,
    MAX_TRANSACTION_BYTES, MAX_TRANSACTION_KEYS, MAX_VALUE_BYTES, MAX_VALUE_BYTES_BEFORE_TAGS,
    MIN_ROOM,
};
pub use log_frame::{LogFrame, Moved};
pub use newest::{newest_of, newest_ref};
pub use order::{Place, entry_order, place_order};
pub use point::Point;
pub use pointer::{POINTER_BYTES, Pointer};
pub use span::Span;
pub use value::Value;
pub use way::Way;
