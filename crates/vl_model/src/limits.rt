/// The longest key, in bytes. The shortest has one byte.
pub const MAX_KEY_BYTES: usize = 4096;

/// The longest value, in bytes. A value may be empty.
pub const MAX_VALUE_BYTES: usize = 8_388_608;

/// The longest value in logs of format 1, which are still read, in bytes.
pub const MAX_VALUE_BYTES_BEFORE_TAGS: usize = 1_048_576;

/// The longest value that stands beside its key in a table, in bytes. A longer one stands in a log
/// alone.
pub const MAX_INLINE_BYTES: usize = 64;

/// How many different keys one transaction may write.
pub const MAX_TRANSACTION_KEYS: usize = 4096;

/// How many bytes the written keys of one transaction and their values may have together.
pub const MAX_TRANSACTION_BYTES: usize = 16_777_216;

/// How many transactions and views may be live at once.
pub const MAX_LIVE: u32 = 1024;

/// The least room of a segment, in bytes: that of its header.
pub const MIN_ROOM: u64 = 16;

/// The greatest room of a segment, in bytes.
pub const MAX_ROOM: u64 = 1_073_741_824;

/// Tables stand in the levels from 0 to this one.
pub const MAX_LEVEL: u8 = 6;

/// How many records one relocation may move.
pub const MAX_BATCH_RECORDS: usize = 64;

/// How many bytes the values that one relocation moves may have together, where it moves more than
/// one.
pub const MAX_BATCH_BYTES: usize = 1_048_576;

/// The greatest number that a commit may have. The first has 1.
pub const MAX_COMMIT_NUMBER: u64 = (1 << 63) - 2;

/// The greatest number that a log, a table or a manifest may have. The first has 1.
pub const MAX_FILE_NUMBER: u32 = 4_294_967_294;

/// The greatest epoch.
pub const MAX_EPOCH: u64 = (1 << 63) - 2;

/// How many of the newest versions of a key may be kept.
pub const MAX_KEEP: u8 = 16;

/// How many sessions one store may have. There is at least one.
pub const MAX_SESSIONS: u32 = 64;
