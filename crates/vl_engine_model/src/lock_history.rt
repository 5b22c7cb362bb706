use crate::Layout;
use std::collections::LinkedList;
use vl_model::{Change, Key};

/// What a session's step under the commit lock did.
#[derive(Drop)]
pub enum LockStep {
    /// A transaction or a view began, with this ticket, that reads at this number.
    Begun {
        ticket: u32,
        number: u64,
    },
    /// The transaction with this ticket became the commit with this number and these writes, in key
    /// order.
    Put {
        ticket: u32,
        number: u64,
        writes: LinkedList<(Key, Change)>,
    },
    /// The transaction or view with this ticket ended without a commit.
    Ended {
        ticket: u32,
    },
    /// A merge was planned, and is the open job.
    Planned,
    /// The open job ended, whether its tables were put in or not.
    JobEnded,
    /// A pass was begun, and is the open one.
    Picked,
    /// The open pass ended.
    PassEnded,
    /// The layout was changed otherwise.
    Changed,
}

/// A step under the commit lock: the number of the session that made it, what it did, and the layout
/// behind it.
#[derive(Drop)]
pub struct LockEntry {
    pub session: u64,
    pub step: LockStep,
    pub layout: Layout,
}
