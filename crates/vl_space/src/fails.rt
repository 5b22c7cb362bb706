//! What sweeps, and begins of passes, fail by.

use thiserror::Error;
use vl_disk::Name;

/// Why a sweep didn't remove all files that it could.
#[derive(Clone, Copy, Debug, PartialEq, Eq, Error)]
pub enum SweepFail {
    /// An earlier step failed at this file, and nothing is changed any more. None was tried.
    #[error("halted at {name:?}")]
    Halted { name: Name },
    /// The disk failed at this file, and the engine is halted. Some of the files may have gone, this one among them.
    #[error("the disk failed at {name:?}")]
    Disk { name: Name },
}

/// Why no pass was begun. Nothing was changed.
#[derive(Clone, Copy, Debug, PartialEq, Eq, Error)]
pub enum PickFail {
    /// A share of garbage is from 1 to 99 per cent.
    #[error("no such share is picked")]
    InvalidRequest,
    /// A pass over this log is open. End it first.
    #[error("a pass over log {0} is open")]
    Rejected(u32),
    /// No log that may be rewritten has so much garbage. Ask for a lesser share, or again when more was overwritten.
    #[error("no log has so much garbage")]
    NoRewrite,
    #[error("no memory")]
    NoMemory,
}
