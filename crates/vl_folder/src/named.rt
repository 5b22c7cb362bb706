use crate::file_name::path_of;
use crate::folder_error::Trouble;
use crate::identity::Identity;
use crate::shared_file::SharedFile;
use std::alloc::{AllocError, Global};
use std::fs::File;
use std::sync::atomic::{AtomicBool, Ordering};
use std::sync::{Arc, OnceLock};
use vl_disk::Name;

/// The path of a file. Who shares it holds the file.
#[derive(Drop)]
pub struct Named {
    pub path: String,
    // set before the file is removed while something holds it, so that it is read on without its name, and closed when
    // nothing holds it any more
    removed: OnceLock<Removed>,
    /// Whether the file was removed, so that a pool needn't keep it open.
    pub gone: Arc<AtomicBool, Global>,
}

#[derive(Drop)]
struct Removed {
    identity: Identity,
    file: SharedFile,
}

impl Named {
    pub fn new(alloc: Global, folder: &str, name: Name) -> Result<Self, AllocError> {
        Named::of_path(alloc, path_of(alloc, folder, name)?)
    }

    /// The same path, for another file.
    pub fn again(&self, alloc: Global) -> Result<Self, AllocError> {
        Named::of_path(alloc, self.path.clone()?)
    }

    fn of_path(alloc: Global, path: String) -> Result<Self, AllocError> {
        Ok(Named {
            path,
            removed: OnceLock::new(),
            gone: Arc::new(alloc, AtomicBool::new(false))?,
        })
    }

    /// The file of this identity, if it was removed or is about to be, while something held it.
    pub fn removed(&self, identity: Identity) -> Option<&File> {
        let removed = self.removed.get()?;
        if removed.identity == identity {
            removed.file.get()
        } else {
            None
        }
    }

    /// Keeps the file open that is about to be removed. Only its disk does so.
    pub fn keep_removed(&self, identity: Identity, file: SharedFile) -> Result<(), Trouble> {
        let kept = self.removed.try_set(Removed { identity, file });
        if kept.is_err() && self.removed(identity).is_none() {
            return Err(Trouble::Replaced);
        }
        Ok(())
    }

    pub fn is_gone(&self) -> bool {
        self.gone.load(Ordering::SeqCst)
    }

    pub fn set_gone(&self) {
        self.gone.store(true, Ordering::SeqCst);
    }
}
