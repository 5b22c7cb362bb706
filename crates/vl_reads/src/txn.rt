//! A transaction: a snapshot of the store, what was read of it, and what is to be written.

mod begin;
mod read;
mod write;

use crate::past::Past;
pub(crate) use read::tagged_value;
use std::alloc::Global;
use vl_disk::HeldFile;
use vl_table::BlockReader;
use vl_txn::{Reads, Writes};
use vl_version::Version;

/// A transaction that an engine began. It reads what was committed before it began, under its own writes, and is given back to
/// that engine while it lives.
#[derive(Drop)]
pub struct Txn<H: HeldFile, R> {
    pub(crate) alloc: Global,
    /// Of the live things of its engine none other has this one.
    pub(crate) ticket: u32,
    /// Of the last commit that it sees.
    pub(crate) number: u64,
    /// How far back it may read.
    pub(crate) past: Past,
    pub(crate) version: Version<H>,
    /// With the blocks that it keeps.
    pub(crate) reader: BlockReader<R>,
    pub(crate) reads: Reads,
    pub(crate) writes: Writes,
}
