use vl_disk::HeldFile;
use vl_manifest::{ManifestLog, ManifestState, Waiting};
use vl_memtable::FrozenLog;
use vl_seglog::{ActiveLog, SealedLog};
use vl_table::Table;

/// An opened store, and its disk, whose held files are `H`.
#[derive(Drop)]
pub struct Parts<D, H: HeldFile> {
    pub disk: D,
    /// How many bytes a log may have.
    pub room: u64,
    /// Of the last commit.
    pub number: u64,
    /// What the manifest says.
    pub state: ManifestState,
    pub manifest: ManifestLog,
    /// The tables that it names, for each level from 0 to 6, in its order.
    pub levels: Vec<Vec<Table<H>>>,
    /// The logs with records from head on, their numbers rising.
    pub frozen: Vec<FrozenLog>,
    /// The same as they wait for their flush.
    pub waiting: Vec<Waiting>,
    /// The logs that stay but for the one that takes the next records, their numbers rising: those below head that tables lead
    /// into, and those from head on.
    pub sealed: Vec<SealedLog<H>>,
    /// The log without records that takes the next ones.
    pub active: ActiveLog,
}
