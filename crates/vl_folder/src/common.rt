// What a disk has in common with its readers and writers.
use crate::folder_error::Trouble;
use crate::pool::Pool;
use std::alloc::{AllocError, Global};
use std::sync::Mutex;
use vl_disk::Name;

/// What failed, and at which file; none is the folder.
#[derive(Clone, Copy)]
pub struct Fault {
    pub name: Option<Name>,
    pub trouble: Trouble,
}

/// The open files of those that are held, and what failed last of a reader or a writer.
#[derive(Drop)]
pub struct Common {
    pub pool: Pool,
    fault: Mutex<Option<Fault>>,
}

impl Common {
    pub fn new(alloc: Global) -> Result<Self, AllocError> {
        Ok(Common {
            pool: Pool::new(alloc)?,
            fault: Mutex::new(None),
        })
    }

    /// Notes what a reader or a writer met. Of two that do so at the same moment one is noted.
    pub fn note(&self, name: Name, trouble: Trouble) {
        if let Some(mut fault) = self.fault.try_lock() {
            *fault = Some(Fault {
                name: Some(name),
                trouble,
            });
        }
    }

    /// What was noted last, once.
    pub fn take_noted(&self) -> Option<Fault> {
        let mut fault = self.fault.try_lock()?;
        let noted = *fault;
        *fault = None;
        noted
    }
}
