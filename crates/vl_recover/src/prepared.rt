use crate::plan::RepairingPlan;
use vl_manifest::{ManifestState, Waiting};
use vl_memtable::FrozenLog;

/// What an opening is about to do, and what it gives then.
#[derive(Drop)]
pub(crate) struct Prepared {
    /// Of the last commit.
    pub number: u64,
    /// What the new manifest says.
    pub state: ManifestState,
    /// The logs with frames, their numbers rising.
    pub frozen: Vec<FrozenLog>,
    /// The same as they wait for their flush.
    pub waiting: Vec<Waiting>,
    pub plan: RepairingPlan,
    /// The log that takes commits then.
    pub active: u32,
}
