use vl_back::Back;
use vl_disk::HeldFile;
use vl_front::Front;
use vl_version::Version;

/// What an engine keeps in memory.
#[derive(Drop)]
pub struct Core<H: HeldFile> {
    /// What new transactions and views read.
    pub version: Version<H>,
    /// What decides on commits.
    pub front: Front,
    /// What steps on files need.
    pub back: Back,
}
