// A folder that is open, for the disk or for a writer.
ghost use Rattle.std.specs.Prelude.{◌≡◌, true, false, OnOk, IfOk};

use crate::folder_error::Trouble;
use crate::identity::Identity;
use std::alloc::Global;
use std::fs::{File, TryLockError};
use std::rt::Files;
use std::sync::Arc;
use std::sync::atomic::{AtomicBool, Ordering};

/// A folder that is open. Only a sync makes the names in it durable.
#[derive(Drop)]
pub struct OpenFolder {
    handle: File,
    identity: Identity,
    // whether the names that stand in it are durable
    durable: bool,
    // a sync of the folder failed, at the disk or at a writer, so that no later one tells anything
    lost: Arc<AtomicBool, Global>,
}

impl OpenFolder {
    /// Opens a folder. What is durable of it isn't known.
    pub fn open<R: Files<File = File>>(rt: &R, alloc: Global, path: &str) -> Result<Self, Trouble>
        ensures { IfOk result (λ folder. folder.durable ≡ false) }
    {
        let lost = Arc::new(alloc, AtomicBool::new(false))?;
        let handle = File::open(rt, path)?;
        Ok(OpenFolder {
            identity: Identity::of(&handle.metadata()?),
            handle,
            durable: false,
            lost,
        })
    }

    /// Opens the same folder anew, since the system tells each open folder, and not each that shares it, of a failed sync.
    pub fn again<R: Files<File = File>>(&self, rt: &R, path: &str) -> Result<Self, Trouble>
        ensures { IfOk result (λ folder. folder.durable ≡ false) }
    {
        self.refuse_lost()?;
        let lost = self.lost.clone()?;
        let handle = File::open(rt, path)?;
        let identity = Identity::of(&handle.metadata()?);
        if identity != self.identity {
            return Err(Trouble::Moved);
        }
        Ok(OpenFolder {
            handle,
            identity,
            durable: false,
            lost,
        })
    }

    /// Locks the folder, so that another disk over it is refused.
    pub fn lock(&self) -> Result<(), Trouble> {
        match self.handle.try_lock() {
            Ok(()) => Ok(()),
            Err(TryLockError::WouldBlock) => Err(Trouble::InUse),
            Err(TryLockError::Error(error)) => Err(Trouble::from(error)),
        }
    }

    pub fn is(&self, identity: Identity) -> bool {
        self.identity == identity
    }

    /// A name is about to be made in it.
    pub fn change(&mut self)
        ensures { self.new.durable ≡ false }
    {
        self.durable = false;
    }

    /// Makes the names that stand in it durable, where they aren't. Where that fails they are lost.
    pub fn sync(&mut self) -> Result<(), Trouble>
        ensures { OnOk result (self.new.durable ≡ true) }
    {
        if !self.durable {
            if let Err(error) = self.handle.sync_all() {
                self.lost.store(true, Ordering::SeqCst);
                return Err(Trouble::from(error));
            }
            self.durable = true;
        }
        // Where it failed at another one, what it tells here isn't of all that was written.
        self.refuse_lost()
    }

    fn refuse_lost(&self) -> Result<(), Trouble> {
        if self.lost.load(Ordering::SeqCst) {
            return Err(Trouble::Lost);
        }
        Ok(())
    }
}
