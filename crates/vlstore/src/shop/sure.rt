//! A store in memory that never fails, with sure sessions, and what it holds when it was closed.
ghost use Rattle.std.specs.Prelude.{◌≡◌, None, true};

use super::SureSession;
use super::ends::{close_all, open_all};
use super::reopen::open_again;
use crate::store::Store;
use std::alloc::{AllocError, Global};
use std::sync::Wait;
use vl_cache::Cached;
use vl_disk::Disk;
use vl_drive::{Closed, Shops};
use vl_engine::{Engine, OpenError, View};
use vl_mem::SureDisk;
use vl_model::Value;

/// A store over a disk in memory that never fails, which wasn't halted when it was made.
#[derive(Drop)]
pub struct SureStore {
    store: Store<SureDisk>,
    ghost tells: { store.tells ≡ true },
    ghost runs: { store.origin.layout.halted ≡ None },
}

/// The engine of such a store, and a view of all that was committed.
#[derive(Drop)]
pub struct SureEngine {
    engine: Engine<SureDisk>,
    view: View<<SureDisk as Disk>::Held, Cached<<SureDisk as Disk>::Reader>>,
}

impl SureStore {
    ghost use Rattle.std.specs.Prelude.{IfErr, IfOk, length, map};
    ghost use Rattle.vl_drive.specs.Stores.{AreFirst};
    ghost use Rattle.vl_mem.specs.SureDisk.{state_on};
    ghost use Rattle.vl_model.specs.Limits.{max_room};
    ghost use Rattle.vlstore.specs.Reopening.{GoesOnFrom, IsOnlyWantOfOpening, KeepsStore};
    ghost use Rattle.vlstore.specs.Shops.{known_of, opened_by};

    /// Opens the store that another one left on its disk when it was closed, also where that crashed since, with so many
    /// sessions, 1 to 64. It goes on with all that was committed. It is refused for want of memory alone, or where no
    /// number of a file is left (`Exhausted`).
    pub fn reopen(
        alloc: Global,
        disk: SureDisk,
        count: u32,
    ) -> Result<(SureStore, Vec<SureSession<SureDisk>>), OpenError>
        requires { KeepsStore (state_on disk) }
        ensures from { IfOk result (λ r. GoesOnFrom (state_on disk) max_room (opened_by r.0.store).origin) }
        ensures count { IfOk result (λ r. ((opened_by r.0.store).count ≡ count) × (length r.1.items ≡ count)) }
        ensures first { IfOk result (λ r. AreFirst (opened_by r.0.store) 0 (map known_of r.1.items)) }
        ensures refused { IfErr result (IsOnlyWantOfOpening (state_on disk)) }
    {
        let (store, shops) = open_again(alloc, disk, count)?;
        Ok((SureStore { store }, shops))
    }
}

impl Shops for SureStore {
    ghost use Rattle.std.specs.Prelude.{◌≡◌, List, IfOk, length, map};
    ghost use Rattle.vl_drive.specs.Driven.{IsClosed};
    ghost use Rattle.vl_drive.specs.Stores.{AreOf};
    ghost use Rattle.vl_engine_model.specs.declared.lock_history.LockEntry.{LockEntry};
    ghost use Rattle.vlstore.specs.Lists.{history_by};
    ghost use Rattle.vlstore.specs.Closing.{HoldsAll};
    ghost use Rattle.vlstore.specs.Shops.{known_of, opened_by, origin_of};

    type Shop = SureSession<SureDisk>;

    type Closed = SureEngine;

    ghost opened = { λ s. opened_by s.store };

    fn open(alloc: Global, count: u32) -> Result<(Self, Vec<SureSession<SureDisk>>), AllocError> {
        let (store, shops) = open_all(alloc, SureDisk::new(alloc), count)?;
        Ok((SureStore { store }, shops))
    }

    fn close<R: Wait>(
        self,
        rt: &R,
        alloc: Global,
        shops: Vec<SureSession<SureDisk>>,
    ) -> Result<SureEngine, AllocError>
        requires all { length shops.items ≡ (opened_by self.store).count }
        requires of { AreOf (opened_by self.store) 0 (map known_of shops.items) }
        ensures { IfOk result (λ closed. (list : List LockEntry)
            × IsClosed (opened_by self.store).origin (map known_of shops.items) list
            × HoldsAll closed (history_by self.store.origin list)) }
    {
        let (engine, view) = close_all(self.store, rt, alloc, shops)?;
        Ok(SureEngine { engine, view })
    }
}

impl SureEngine {
    ghost use Rattle.vl_mem.specs.SureDisk.{state_on};
    ghost use Rattle.vl_model.specs.History.{History};
    ghost use Rattle.vlstore.specs.Closing.{HoldsAll};
    ghost use Rattle.vlstore.specs.Reopening.{Keeps};

    /// The disk, which keeps all that was committed.
    pub fn into_disk(self) -> SureDisk
        ensures { (h : History) → HoldsAll self h → Keeps h (state_on result) }
    {
        self.engine.close()
    }
}

impl Closed for SureEngine {
    ghost use Rattle.vlstore.specs.Closing.{HoldsAll};

    ghost shows = { HoldsAll };

    fn get(&mut self, key: &[u8]) -> Result<Option<Value>, AllocError> {
        match self.view.get(key) {
            Ok(value) => Ok(value),
            Err(_) => Err(AllocError),
        }
    }
}
