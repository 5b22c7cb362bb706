//! What commits and steps on files fail by.

use thiserror::Error;
use vl_collect::Batch;
use vl_compact::Job;
use vl_disk::{HeldFile, Name, Writer};
use vl_model::{Counter, Key};
use vl_reads::Txn;

/// Why a transaction isn't a commit. Where it is handed back it lives on as it was, and else it has ended.
#[derive(Drop)]
pub enum CommitFail<H: HeldFile, R> {
    /// An earlier step failed at this file, and nothing is changed any more.
    Halted {
        name: Name,
    },
    /// No commit number is left.
    Exhausted(Txn<H, R>),
    /// The least key that was read, or lies in an interval that was scanned, and was overwritten since; and the last commit
    /// that did.
    Conflict {
        key: Key,
        number: u64,
    },
    /// The log has no room for the commit: its length, and that of the frame.
    Full {
        txn: Txn<H, R>,
        length: u64,
        frame: u64,
    },
    NoMemory(Txn<H, R>),
    /// The disk failed at this file, and the engine is halted. Whether the commit is found when the store is opened again is
    /// open.
    Disk {
        name: Name,
    },
}

/// Why a step on files was not done.
#[derive(Clone, Copy, Debug, PartialEq, Eq, Error)]
pub enum StepFail {
    /// An earlier step failed at this file, and nothing is changed any more.
    #[error("halted at {name:?}")]
    Halted { name: Name },
    /// No such number is left.
    #[error("no number is left")]
    Exhausted(Counter),
    /// Nothing was changed.
    #[error("no memory")]
    NoMemory,
    /// The disk failed at this file, and the engine is halted.
    #[error("the disk failed at {name:?}")]
    Disk { name: Name },
}

/// Why another number of versions isn't kept.
#[derive(Clone, Copy, Debug, PartialEq, Eq, Error)]
pub enum KeepFail {
    /// An earlier step failed at this file, and nothing is changed any more.
    #[error("halted at {name:?}")]
    Halted { name: Name },
    /// From 1 to 16 versions are kept.
    #[error("no such number of versions is kept")]
    InvalidRequest,
    /// Nothing was changed.
    #[error("no memory")]
    NoMemory,
    /// The disk failed at this file, and the engine is halted.
    #[error("the disk failed at {name:?}")]
    Disk { name: Name },
}

/// Why the tables of a merge didn't take the place of its inputs. Where the merge is handed back it is as it was. Else it has
/// ended: no call reads its files any more, and a sweep or the next opening removes them, but where the disk failed that opening
/// may have them in use.
#[derive(Drop)]
pub enum InstallFail<V, H: HeldFile, W: Writer> {
    /// An earlier step failed at this file, and nothing is changed any more.
    Halted { name: Name },
    /// The merge dropped the deletion of a key of which a record was relocated meanwhile, by the step that made this version
    /// number. It is the least such key. Plan the merge again.
    Raced { key: Key, epoch: u64 },
    /// No epoch is left.
    Exhausted(Counter),
    NoMemory(Job<V, H, W>),
    /// The disk failed at this file, and the engine is halted. When the store is opened again it has either the inputs or the
    /// merge's tables, with the same contents.
    Disk { name: Name },
}

/// Why no answer can be given on how much of a batch was moved. Where the batch is handed back nothing of it was: it is as it was,
/// and may be moved later.
#[derive(Drop)]
pub enum MoveFail {
    /// An earlier step failed at this file, and nothing is changed any more. Open the store again.
    Halted {
        name: Name,
    },
    /// No number of this kind is left. Open the store again, and begin another pass.
    Exhausted {
        batch: Batch,
        counter: Counter,
    },
    /// The log has no room for what is to be moved: its length, and that of the frame. Begin another log, and move the batch then.
    Full {
        batch: Batch,
        length: u64,
        frame: u64,
    },
    /// Nothing was changed. Move the batch again, when there is memory.
    NoMemory(Batch),
    /// A look-up failed at this file, and the engine is halted. Nothing was moved. Open the store again, and begin another pass.
    Read {
        name: Name,
    },
    /// Writing the active log failed, which is this file, and the engine is halted. Whether the records were moved is open until the
    /// store is opened again, with the same contents either way.
    Disk {
        name: Name,
    },
    /// What stands at this place of a file isn't what was written there. Nothing was changed.
    Damaged {
        batch: Batch,
        name: Name,
        place: u64,
    },
}
