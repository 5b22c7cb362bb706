/// The format of the logs that are written, and the greatest that is read.
pub const LOG_FORMAT: u32 = 2;

/// The format of the tables that are written, and the greatest that is read.
pub const TABLE_FORMAT: u32 = 3;

/// The format of the manifests that are written, and the greatest that is read.
pub const MANIFEST_FORMAT: u32 = 4;
