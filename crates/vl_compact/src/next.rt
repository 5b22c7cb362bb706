//! What a job goes on with.

use crate::keeping::Keeping;
use vl_model::{Entry, Key};

/// The next entry that a job keeps, and where its reading is behind that. It holds a block of each input, and is good for one
/// `fill` of the job that gave it.
#[derive(Drop)]
pub struct Next<C> {
    pub(crate) first: Entry,
    pub(crate) keeping: Keeping<C>,
    // The needless deletions that were passed before it, by key and version.
    pub(crate) found: Vec<(Key, u64)>,
}
