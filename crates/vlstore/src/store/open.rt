ghost use Rattle.std.specs.Prelude.{◌≡◌, ◌+◌, ◌≤◌, is_some, [], IfErr, IfOk, length};
ghost use Rattle.std.specs.Arc.{arc_value};
ghost use Rattle.std.specs.Option.{ForSome};
ghost use Rattle.vl_engine_laws.specs.Carries.{Tells};
ghost use Rattle.vl_model.specs.Limits.{max_room};
ghost use Rattle.vlstore.specs.Opening.{IsRefusedOpening};
ghost use Rattle.vlstore.specs.Reopening.{GoesOnFrom, IfTelling, KeepsStore};
ghost use Rattle.vlstore.specs.Shops.{origin_of};
ghost use Rattle.vlstore.specs.Standing.{NeverFails, Stands, parts};
ghost use Rattle.vlstore.specs.Stores.{AreFirst, IsFirst, numbering, refused, store_of};
ghost use Rattle.vlstore.specs.declared.locked.Origin.{Origin};
ghost use Rattle.vl_turn.specs.Locks.{lock_name, lock_start};
ghost use Rattle.vl_turn.specs.Views.{next_of};

use super::Store;
use super::beginning::store_from;
use crate::fails::StoreFail;
use crate::locked::Locked;
use crate::mark::{Starts, mark};
use crate::session::Session;
use std::alloc::{AllocError, Global};
use std::marker::Brand;
use std::snapshot::Snapshot;
use std::sync::Arc;
use vl_disk::Disk;
use vl_engine::{Engine, OpenError, OpenFail};
use vl_turn::{Token, TurnLock};

impl<D: Disk + Drop> Store<D> {
    /// Opens the store on a disk, and makes so many sessions, 1 to 64. Each log may have `room` bytes. It answers as
    /// `Engine::open` does, which tells what each refusal means; `NoMemory` also where none was left for the sessions,
    /// with the store on the disk then. A disk that tells contracts its bytes has to keep a store.
    pub fn open(
        alloc: Global,
        disk: D,
        room: u64,
        sessions: u32,
    ) -> Result<(Store<D>, Vec<Session<D>>), OpenFail<D, D::Reader>>
        requires room { room ≤ max_room }
        requires keeps { IfTelling D.told (Tells D.Watched disk KeepsStore) }
        // It goes on with what the disk kept, in the layout that an opening leaves with that room.
        ensures from { IfOk result (λ r. ForSome (D.told disk) (λ left. GoesOnFrom left room (origin_of r.0.origin))) }
        ensures tells { IfOk result (λ r. r.0.tells ≡ is_some (D.told disk)) }
        ensures count { IfOk result (λ r. (r.0.session ≡ sessions) × (length r.1.items ≡ sessions)) }
        ensures first { IfOk result (λ r. AreFirst r.0 0 r.1.items) }
        // A refusal has its cause, and leaves a disk on which the store stands yet.
        ensures refused { IfErr result (IsRefusedOpening D.Watched D.Reader.faults disk) }
    {
        let before = Snapshot::of(&disk);
        let engine = Engine::open(alloc, disk, room)?;
        match store_from::<D, Brand>(alloc, engine, &before, room, sessions) {
            Ok(made) => Ok(made),
            Err(engine) => Err(OpenFail {
                why: OpenError::NoMemory,
                disk: engine.close(),
                reader: None,
            }),
        }
    }

    /// A store round an engine in which nothing lives and nothing is open, and so many sessions, which are
    /// numbered from 0 on. What the engine stands for is told in `origin`: where its disk tells its bytes, it
    /// represents that history and that layout. So it is for programs with contracts, and `open` for others.
    /// `NoMemory` hands the engine back as it was.
    pub fn new(
        alloc: Global,
        engine: Engine<D>,
        sessions: u32,
    ) -> Result<(Store<D>, Vec<Session<D>>), StoreFail<Engine<D>>>
        ghost origin: { Origin }
        requires { Stands D.Held.bytes (NeverFails D.faults D.Reader.faults D.Writer.faults) origin
            (is_some (D.told engine.disk)) []
            (parts (D.told engine.disk) engine.core engine.merging engine.collecting engine.removing) }
        ensures origin { IfOk result (λ r. r.0.origin ≡ origin) }
        ensures tells { IfOk result (λ r. r.0.tells ≡ is_some (D.told engine.disk)) }
        ensures count { IfOk result (λ r. (r.0.session ≡ sessions) × (length r.1.items ≡ sessions)) }
        ensures first { IfOk result (λ r. AreFirst r.0 0 r.1.items) }
        ensures back { IfErr result (λ fail. refused fail ≡ engine) }
    {
        match opened::<D, Brand>(alloc, engine, sessions) {
            Ok(made) => Ok(made),
            Err(engine) => Err(StoreFail::NoMemory(engine)),
        }
    }
}

// A store, where this is what was told of the engine. For want of memory the engine comes back.
pub(super) fn opened<D: Disk + Drop, W: Starts>(
    alloc: Global,
    engine: Engine<D>,
    sessions: u32,
) -> Result<(Store<D>, Vec<Session<D>>), Engine<D>>
    requires { Stands D.Held.bytes (NeverFails D.faults D.Reader.faults D.Writer.faults) W.origin
        (is_some (D.told engine.disk)) []
        (parts (D.told engine.disk) engine.core engine.merging engine.collecting engine.removing) }
    ensures origin { IfOk result (λ r. r.0.origin ≡ W.origin) }
    ensures tells { IfOk result (λ r. r.0.tells ≡ is_some (D.told engine.disk)) }
    ensures count { IfOk result (λ r. (r.0.session ≡ sessions) × (length r.1.items ≡ sessions)) }
    ensures first { IfOk result (λ r. AreFirst r.0 0 r.1.items) }
    ensures back { IfErr result (λ back. back ≡ engine) }
{
    let Ok(origin) = mark::<W>(alloc) else {
        return Err(engine);
    };
    let locked = Locked { engine, origin };
    let Ok((lock, mut root)) = TurnLock::empty(alloc, &locked) else {
        let Locked { engine, origin: _ } = locked;
        return Err(engine);
    };
    let Ok(lock) = Arc::new(alloc, lock) else {
        let Locked { engine, origin: _ } = locked;
        return Err(engine);
    };
    let Ok(made) = seats(alloc, &lock, &mut root, sessions) else {
        let Locked { engine, origin: _ } = locked;
        return Err(engine);
    };
    lock.fill(&mut root, locked);
    Ok((Store { lock, root }, made))
}

// So many sessions.
fn seats<D: Disk + Drop>(
    alloc: Global,
    lock: &Arc<TurnLock<Locked<D>>, Global>,
    root: &mut Token<Locked<D>>,
    sessions: u32,
) -> Result<Vec<Session<D>>, AllocError>
    requires here { root.old.table_id ≡ lock_name (arc_value lock.now) }
    requires none { root.old.me ≡ (numbering (lock_start (arc_value lock.now)) 0, []) }
    ensures here { root.new.table_id ≡ lock_name (arc_value lock.now) }
    ensures numbered { IfOk result (λ _. root.new.me ≡ (numbering (lock_start (arc_value lock.now)) sessions, [])) }
    ensures first { IfOk result (λ made. AreFirst (store_of (lock_name (arc_value lock.now))
        (lock_start (arc_value lock.now)).origin.me.0 (is_some (D.told (lock_start (arc_value lock.now)).engine.disk))) 0 made.items) }
    ensures many { IfOk result (λ made. length made.items ≡ sessions) }
{
    let mut made = Vec::with_capacity(alloc, sessions as usize)?;
    for _ in 0..sessions {
        let session = seat(lock, root)?;
        made.push(session)?;
    }
    Ok(made)
}

// The session with the next number.
fn seat<D: Disk + Drop>(
    lock: &Arc<TurnLock<Locked<D>>, Global>,
    root: &mut Token<Locked<D>>,
) -> Result<Session<D>, AllocError>
    requires here { root.old.table_id ≡ lock_name (arc_value lock.now) }
    requires count { root.old.me ≡ (numbering (lock_start (arc_value lock.now)) (next_of root.old.me.0.made), []) }
    ensures here { root.new.table_id ≡ lock_name (arc_value lock.now) }
    ensures next { root.new.me ≡ (numbering (lock_start (arc_value lock.now)) (next_of root.old.me.0.made + 1), []) }
    ensures session { IfOk result (IsFirst (store_of (lock_name (arc_value lock.now))
        (lock_start (arc_value lock.now)).origin.me.0 (is_some (D.told (lock_start (arc_value lock.now)).engine.disk)))
        (next_of root.old.me.0.made)) }
{
    let token = lock.seat(root)?;
    let share = Arc::try_clone(lock)?;
    Ok(Session { lock: share, token })
}
