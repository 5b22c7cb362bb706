use crate::{FileName, Live, OpenJob, OpenPass, Retired, Segment, Table};
use std::collections::LinkedList;

/// What an engine is, as plain data.
#[derive(Drop)]
pub struct Layout {
    /// The log that takes commits and moved records.
    pub active: Segment,
    /// The sealed logs whose memtables aren't flushed, the newest first.
    pub frozen: LinkedList<Segment>,
    /// The other logs that aren't retired: those that were flushed, and those that an opening found
    /// without frames.
    pub flushed: LinkedList<Segment>,
    /// The tables, level by level: those of level 0 the newest first, those of a deeper level in
    /// key order.
    pub levels: LinkedList<LinkedList<Table>>,
    /// Commits up to this number are in tables.
    pub covered: u64,
    /// The least numbers that a log and a table may still be given.
    pub next_log: u32,
    pub next_table: u32,
    /// How many steps of this run changed which files are used.
    pub epoch: u64,
    /// The longest that a log may get.
    pub room: u64,
    /// How many of the newest versions of a key are kept, and the last number when that was raised last.
    pub keep: u8,
    pub since: u64,
    /// The greatest version of a deletion that a merge dropped for good.
    pub gone: u64,
    /// The live transactions and views, by rising tickets.
    pub live: LinkedList<Live>,
    pub job: Option<OpenJob>,
    pub pass: Option<OpenPass>,
    /// Retired files that weren't removed, the earliest retired first.
    pub retired: LinkedList<Retired>,
    /// The file at which a call failed, after which nothing is changed any more.
    pub halted: Option<FileName>,
}
