use vl_model::{Change, Key, Pointer};

/// A record as it was read from a log.
#[derive(Drop)]
pub struct ReadRecord {
    pub key: Key,
    /// The number of its commit; of a moved record the version that it kept.
    pub version: u64,
    pub change: Change,
    /// Where it lies, and how long it is.
    pub pointer: Pointer,
}

/// A commit as it was read from a log.
#[derive(Drop)]
pub struct Commit {
    pub number: u64,
    /// In the order of their keys, which are different.
    pub records: Vec<ReadRecord>,
}

/// What a frame of a log says.
#[derive(Drop)]
pub enum Said {
    Commit(Commit),
    /// The records of a relocation, in their order. Each sets its key; no key and version is there twice.
    Moves(Vec<ReadRecord>),
}

/// A frame as it was read from a log.
#[derive(Drop)]
pub struct Frame {
    /// In bytes: where it stands in the log.
    pub place: u64,
    /// How many bytes it has.
    pub length: u64,
    pub said: Said,
}
