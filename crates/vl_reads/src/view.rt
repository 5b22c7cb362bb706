//! A view: a snapshot of the store, which is read alone.

mod begin;
mod changes;
mod read;

use crate::past::Past;
use std::alloc::Global;
use vl_disk::HeldFile;
use vl_table::BlockReader;
use vl_version::Version;

/// A view that an engine began. It reads what was committed before it began, and is given back to that engine while it lives.
#[derive(Drop)]
pub struct View<H: HeldFile, R> {
    pub(crate) alloc: Global,
    /// Of the live things of its engine none other has this one.
    pub(crate) ticket: u32,
    /// Of the last commit that it sees.
    pub(crate) number: u64,
    /// How far back it may read.
    pub(crate) past: Past,
    pub(crate) version: Version<H>,
    /// With the blocks that it keeps.
    pub(crate) reader: BlockReader<R>,
}
