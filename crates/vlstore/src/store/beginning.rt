//! A store round an engine of which it is known that there is an origin, and not which one.
ghost use Rattle.std.specs.Prelude.{◌≡◌, [], IfErr, IfOk, is_some, length};
ghost use Rattle.vlstore.specs.Standing.{NeverFails, Stands, parts};
ghost use Rattle.vlstore.specs.Stores.{AreFirst};
ghost use Rattle.vlstore.specs.declared.locked.Origin.{Origin};

use super::Store;
use super::open::opened;
use crate::mark::Mark;
use crate::marks::{Asks, mark_some};
use crate::session::Session;
use std::alloc::Global;
use std::marker::Brand;
use std::snapshot::Snapshot;
use vl_disk::Disk;
use vl_engine::Engine;

// A store round an engine, of which this origin is told, with so many sessions.
fn store_at<D: Disk + Drop>(
    alloc: Global,
    engine: Engine<D>,
    origin: &Mark,
    count: u32,
) -> Result<(Store<D>, Vec<Session<D>>), Engine<D>>
    ghost at: { Origin }
    requires at { origin.now.me.0 ≡ at }
    requires stands { Stands D.Held.bytes (NeverFails D.faults D.Reader.faults D.Writer.faults) at
        (is_some (D.told engine.disk)) []
        (parts (D.told engine.disk) engine.core engine.merging engine.collecting engine.removing) }
    ensures origin { IfOk result (λ r. r.0.origin ≡ origin.now.me.0) }
    ensures tells { IfOk result (λ r. r.0.tells ≡ is_some (D.told engine.disk)) }
    ensures count { IfOk result (λ r. (r.0.session ≡ count) × (length r.1.items ≡ count)) }
    ensures first { IfOk result (λ r. AreFirst r.0 0 r.1.items) }
    ensures back { IfErr result (λ back. back ≡ engine) }
{
    let _ = origin;
    opened::<D, Brand>(alloc, engine, count)
}

// So with an origin that suits. What was before the engine was opened is for the pick alone.
pub(super) fn store_from<D: Disk + Drop, W: Asks>(
    alloc: Global,
    engine: Engine<D>,
    before: &Snapshot<D>,
    room: u64,
    count: u32,
) -> Result<(Store<D>, Vec<Session<D>>), Engine<D>>
    requires suits { (o : Origin) × W.suits o }
    requires stands { (o : Origin) → W.suits o
        → Stands D.Held.bytes (NeverFails D.faults D.Reader.faults D.Writer.faults) o (is_some (D.told engine.disk)) []
        (parts (D.told engine.disk) engine.core engine.merging engine.collecting engine.removing) }
    ensures suits { IfOk result (λ r. W.suits r.0.origin) }
    ensures tells { IfOk result (λ r. r.0.tells ≡ is_some (D.told engine.disk)) }
    ensures count { IfOk result (λ r. (r.0.session ≡ count) × (length r.1.items ≡ count)) }
    ensures first { IfOk result (λ r. AreFirst r.0 0 r.1.items) }
    ensures back { IfErr result (λ back. back ≡ engine) }
{
    let _ = before;
    let _ = room;
    let Ok(origin) = mark_some::<W>(alloc) else {
        return Err(engine);
    };
    store_at(alloc, engine, &origin, count)
}
