//! A store from its opening on an empty disk to its close, with all of its sessions as shops.
ghost use Rattle.std.specs.Option.{ForSome};
ghost use Rattle.std.specs.Prelude.{◌≡◌, [], List, None, Some, IfOk, is_some, length, map, true};
ghost use Rattle.std.specs.FinMap.{empty};
ghost use Rattle.vl_disk.specs.DiskState.{empty_disk};
ghost use Rattle.vl_drive.specs.Driven.{IsClosed};
ghost use Rattle.vl_drive.specs.Stores as drive;
ghost use Rattle.vl_reads.specs.Sees.{SeesAlone};
ghost use Rattle.vl_engine_model.specs.declared.lock_history.LockEntry.{LockEntry};
ghost use Rattle.vl_model.specs.History.{last_number};
ghost use Rattle.vlstore.specs.Lists.{history_by};
ghost use Rattle.vlstore.specs.Reopening.{Keeps};
ghost use Rattle.vlstore.specs.Shops.{first_origin, known_of, opened_by, origin_of};
ghost use Rattle.vlstore.specs.Standing.{NeverFails, Stands, parts};

use super::SureSession;
use super::hand::{all_sessions, all_sure};
use crate::fails::StoreFail;
use crate::store::Store;
use crate::unfailing::Unfailing;
use std::alloc::{AllocError, Global};
use std::sync::Wait;
use vl_cache::Cached;
use vl_engine::{Engine, View};
use vl_model::MAX_ROOM;

// An engine over an empty disk.
fn opened<D: Unfailing + Drop>(alloc: Global, disk: D) -> Result<Engine<D>, AllocError>
    requires empty { D.told disk ≡ Some empty_disk }
    ensures tells { IfOk result (λ engine. is_some (D.told engine.disk) ≡ true) }
    ensures stands { IfOk result (λ engine. Stands D.Held.bytes (NeverFails D.faults D.Reader.faults D.Writer.faults) first_origin
        (is_some (D.told engine.disk)) []
        (parts (D.told engine.disk) engine.core engine.merging engine.collecting engine.removing)) }
{
    match Engine::open(alloc, disk, MAX_ROOM) {
        Ok(engine) => Ok(engine),
        Err(_) => Err(AllocError),
    }
}

// A store with nothing, and so many shops.
pub(super) fn open_all<D: Unfailing + Drop>(
    alloc: Global,
    disk: D,
    count: u32,
) -> Result<(Store<D>, Vec<SureSession<D>>), AllocError>
    requires empty { D.told disk ≡ Some empty_disk }
    ensures origin { IfOk result (λ r. r.0.origin ≡ first_origin) }
    ensures base { IfOk result (λ r. (opened_by r.0).origin.base ≡ empty) }
    ensures tells { IfOk result (λ r. r.0.tells ≡ true) }
    ensures count { IfOk result (λ r. (r.0.session ≡ count) × (length r.1.items ≡ count)) }
    ensures first { IfOk result (λ r. drive.AreFirst (opened_by r.0) 0 (map known_of r.1.items)) }
{
    let engine = opened(alloc, disk)?;
    match Store::new(alloc, engine, count) {
        Ok((store, sessions)) => {
            let shops = all_sure(alloc, sessions)?;
            Ok((store, shops))
        }
        Err(StoreFail::NoMemory(engine)) => {
            drop(engine.close());
            Err(AllocError)
        }
    }
}

// What the store holds when it was closed with all of its shops: its engine, whose disk keeps all that was committed,
// and a view of that.
pub(super) fn close_all<D: Unfailing + Drop, R: Wait>(
    store: Store<D>,
    rt: &R,
    alloc: Global,
    shops: Vec<SureSession<D>>,
) -> Result<(Engine<D>, View<D::Held, Cached<D::Reader>>), AllocError>
    requires tells { store.tells ≡ true }
    requires runs { store.origin.layout.halted ≡ None }
    requires all { length shops.items ≡ store.session }
    requires of { drive.AreOf (opened_by store) 0 (map known_of shops.items) }
    ensures { IfOk result (λ r. (list : List LockEntry)
        × IsClosed (origin_of store.origin) (map known_of shops.items) list
        × SeesAlone D.Held.bytes r.1 (history_by store.origin list)
        × (r.1.number ≡ last_number (history_by store.origin list))
        × ForSome (D.told r.0.disk) (Keeps (history_by store.origin list))) }
{
    let sessions = all_sessions(alloc, shops)?;
    let mut engine = store.close(rt, sessions);
    match engine.view() {
        Ok(view) => Ok((engine, view)),
        Err(_) => Err(AllocError),
    }
}
