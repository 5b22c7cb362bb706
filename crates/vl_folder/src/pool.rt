// The open files of those that are held: a bounded number, which all readers share.
use crate::identity::Identity;
use crate::named::Named;
use crate::shared_file::SharedFile;
use lru::LruCache;
use std::alloc::{AllocError, Global};
use std::num::NonZeroUsize;
use std::sync::atomic::{AtomicBool, Ordering};
use std::sync::{Arc, Mutex};

/// So many stay open. Of more, the one that was read least lately is closed, and opened again when it is read.
const MOST_OPEN_TO_READ: usize = 128;

#[derive(Drop)]
struct Open {
    file: SharedFile,
    // it was removed: who holds it still has it open, and the pool needn't
    gone: Arc<AtomicBool, Global>,
}

/// Open files, of which the one that was read least lately goes first. It is only a help: a call that others are in the way
/// of is done without it.
#[derive(Drop)]
pub struct Pool {
    open: Mutex<LruCache<Identity, Open>>,
}

impl Pool {
    pub fn new(alloc: Global) -> Result<Self, AllocError> {
        let Some(most) = NonZeroUsize::new(MOST_OPEN_TO_READ) else {
            unreachable!();
        };
        Ok(Pool {
            open: Mutex::new(LruCache::sparse(alloc, most)?),
        })
    }

    /// The file, if it is open and nobody else uses the pool.
    pub fn find(&self, identity: Identity) -> Option<SharedFile> {
        let mut guard = self.open.try_lock()?;
        let open = &mut *guard;
        open.promote(&identity);
        open.peek(&identity)?.file.again().ok()
    }

    /// Keeps a file open, where there is memory for it and nobody else uses the pool.
    pub fn keep(&self, identity: Identity, file: SharedFile, named: &Named) {
        let Ok(gone) = named.gone.clone() else {
            return;
        };
        if let Some(mut guard) = self.open.try_lock() {
            let open = &mut *guard;
            close_gone(open);
            drop(open.put(identity, Open { file, gone }));
        }
    }

    /// Closes the files that were removed. Where others are in the way, the next call that keeps a file open does so.
    pub fn close_removed(&self) {
        if let Some(mut guard) = self.open.try_lock() {
            close_gone(&mut *guard);
        }
    }

    /// Closes all of them, where nobody else uses the pool.
    pub fn close_all(&self) {
        if let Some(mut guard) = self.open.try_lock() {
            let open = &mut *guard;
            open.clear();
        }
    }
}

fn close_gone(open: &mut LruCache<Identity, Open>) {
    for _ in 0..MOST_OPEN_TO_READ {
        let Some(identity) = first_gone(open) else {
            return;
        };
        drop(open.pop(&identity));
    }
}

fn first_gone(open: &LruCache<Identity, Open>) -> Option<Identity> {
    for (identity, one) in open.iter() {
        if one.gone.load(Ordering::SeqCst) {
            return Some(*identity);
        }
    }
    None
}
