//! What is kept of the merge that is open.

ghost use Rattle.std.specs.Prelude.{◌≡◌, ◌+◌, ◌≤◌, [], OnOk, vec_capacity, vec_len};

use std::alloc::{AllocError, Global};
use vl_model::Key;

/// A merge that was planned, and wasn't installed or abandoned yet.
#[derive(Drop)]
pub struct OpenMerge {
    /// The numbers of the tables whose files were lent to it, the earliest first.
    pub lent: Vec<u32>,
    /// The keys that were relocated since it was planned, the latest first, each with the epoch that this made.
    pub moved: Vec<(Key, u64)>,
}

impl OpenMerge {
    /// One to which nothing was lent yet.
    pub fn new(alloc: Global) -> Self
        ensures lent { result.lent.items ≡ [] }
        ensures moved { result.moved.items ≡ [] }
    {
        OpenMerge {
            lent: Vec::new(alloc),
            moved: Vec::new(alloc),
        }
    }

    /// Room for one more file.
    pub fn make_room(&mut self) -> Result<(), AllocError>
        ensures lent { self.new.lent.items ≡ self.old.lent.items }
        ensures moved { self.new.moved ≡ self.old.moved }
        ensures room { OnOk result (vec_len self.new.lent + 1 ≤ vec_capacity self.new.lent) }
    {
        self.lent.reserve(1)
    }
}
