// An open file that several share.
use std::alloc::{AllocError, Global};
use std::fs::File;
use std::sync::{Arc, OnceLock};

/// The room for an open file that several share, and the file once it is opened: so that to open it wants no memory.
#[derive(Drop)]
pub struct SharedFile {
    cell: Arc<OnceLock<File>, Global>,
}

impl SharedFile {
    pub fn room(alloc: Global) -> Result<Self, AllocError> {
        Ok(SharedFile {
            cell: Arc::new(alloc, OnceLock::new())?,
        })
    }

    pub fn fill(&self, file: File) {
        let _ = self.cell.try_set(file);
    }

    pub fn get(&self) -> Option<&File> {
        self.cell.get()
    }

    /// The same file once more.
    pub fn again(&self) -> Result<Self, AllocError> {
        Ok(SharedFile {
            cell: self.cell.clone()?,
        })
    }
}
