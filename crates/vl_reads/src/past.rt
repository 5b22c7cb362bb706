//! How far back something may read.

mod read;

pub(crate) use read::read_past;

/// How far back something may read: the least number at which anything was read where it began, how many of the newest
/// versions of a key were kept then, and since when; and the greatest version of a deletion that was dropped as a key's last.
#[derive(Clone, Copy)]
pub struct Past {
    pub floor: u64,
    pub keep: u8,
    pub since: u64,
    pub gone: u64,
}
