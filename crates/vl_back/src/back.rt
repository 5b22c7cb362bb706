use vl_manifest::{ManifestLog, ManifestState, Waiting};

/// What an engine keeps for steps on files.
#[derive(Drop)]
pub struct Back {
    /// The manifest that is appended to, and what it says.
    pub manifest: ManifestLog,
    pub state: ManifestState,
    /// The least number that a log may still be given.
    pub next_log: u32,
    /// How many steps of this run changed which files are used.
    pub epoch: u64,
    /// The frozen logs whose memtables wait for their flush, the oldest first.
    pub waiting: Vec<Waiting>,
}
