ghost use Rattle.std.specs.Prelude.{◌≡◌, ◌++◌, ◌∷◌, [], length, OnOk};
ghost use Rattle.vl_stream.specs.Batches.{size_of};
ghost use Rattle.vl_stream.specs.Packing.{admits};

use std::alloc::{AllocError, Global};
use vl_model::{Change, Key};

/// How many records one frame of a stream has at most.
pub const MAX_BATCH_RECORDS: usize = 64;

/// How many bytes the values of its records have at most together; one record alone may have more.
pub const MAX_BATCH_BYTES: usize = 1_048_576;

/// Records that are to stand in one frame, and how many bytes their values have.
#[derive(Drop)]
pub struct Batch {
    pub records: Vec<(Key, Change)>,
    pub bytes: usize,
    ghost counted: { bytes ≡ size_of records.items },
}

impl Batch {
    /// One without records.
    pub fn new(alloc: Global) -> Self
        ensures { result.records.items ≡ [] }
    {
        Batch {
            records: Vec::new(alloc),
            bytes: 0,
        }
    }

    /// Whether one more record with this change may stand beside the others. The first one always may.
    pub fn admits(&self, change: &Change) -> bool
        ensures { result ≡ admits self.now.records.items change.now }
    {
        self.records.is_empty()
            || (self.records.len() < MAX_BATCH_RECORDS
                && self.bytes.saturating_add(change.value_len()) <= MAX_BATCH_BYTES)
    }

    /// Puts a record behind the others.
    pub fn push(&mut self, key: Key, change: Change) -> Result<(), AllocError>
        ensures pushed { OnOk result (self.new.records.items ≡ self.old.records.items ++ (key, change) ∷ []) }
    {
        let Some(bytes) = self.bytes.checked_add(change.value_len()) else {
            return Err(AllocError);
        };
        self.records.push((key, change))?;
        self.bytes = bytes;
        Ok(())
    }
}
