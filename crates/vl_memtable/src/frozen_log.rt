use crate::Frozen;

/// A log that takes no more frames, and the entries of its records.
#[derive(Drop)]
pub struct FrozenLog {
    pub number: u32,
    /// In bytes.
    pub length: u64,
    pub memtable: Frozen,
}
