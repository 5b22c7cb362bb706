//! Why clients stopped.

use crate::fails::{BeginFail, ReadFail, StepFail};
use std::alloc::AllocError;
use vl_engine_model::FileName;

/// Why clients stopped before their last turn.
#[derive(Drop)]
pub enum Cause {
    /// The disk failed, in a call or before it.
    Disk,
    /// What stands at this place of a file isn't what was written there.
    Damaged { name: FileName, place: u64 },
    /// As many transactions and views live as may.
    TooMany,
    /// There are no more commit numbers.
    Exhausted,
}

// What ends a client's turns, or the upkeep.
#[derive(Drop)]
pub(crate) enum Trouble {
    NoMemory,
    Stopped(Cause),
}
