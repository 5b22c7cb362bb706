use crate::{Change, Key, Value};
use std::collections::LinkedList;

/// A record that a relocation wrote again, under the version that it had.
#[derive(Drop)]
pub struct Moved {
    pub key: Key,
    pub version: u64,
    pub value: Value,
}

/// What one frame of a log says. Clauses speak of such values; no code makes one.
#[derive(Drop)]
pub enum LogFrame {
    /// A commit: its number, and what it does to the keys that it names, in rising order.
    Committed(u64, LinkedList<(Key, Change)>),
    /// A relocation: its records, in the order in which they were found.
    Relocated(LinkedList<Moved>),
}
