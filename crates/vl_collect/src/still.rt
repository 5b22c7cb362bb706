//! What of a batch is still to be moved.

ghost use Rattle.std.specs.Prelude.{◌≡◌, ◌↔◌, ◌++◌, ◌∷◌, [], List, map, All, Contains, IfErr, IfOk, IsTrue, OnOk};
ghost use Rattle.vl_collect.specs.Batches.{MayBeMoved};
ghost use Rattle.vl_collect.specs.Faults.{FailsLooking, IsTheirs, MayWhere};
ghost use Rattle.vl_collect.specs.Passing.{HasEntries};
ghost use Rattle.vl_engine_model.specs.Relocation.{is_moved, moved_of};
ghost use Rattle.vl_collect.specs.Taking.{candidate_of};
ghost use Rattle.vl_model.specs.declared.entry.Entry.{Entry};
ghost use Rattle.vl_seglog.specs.Moves.{IsElsewhere};

use crate::batch::{Batch, Found};
use crate::wins::wins_exactly;
use std::alloc::{AllocError, Global};
use vl_disk::ReadFault;
use vl_merge::Sources;
use vl_model::Moved;

/// The records of a batch, found in a segment, that still win exactly from inside it, and are of a version of at most `last`.
/// Each costs a look-up, and a comparison with each of those before it: sources that have their entries move no two of one
/// key and version.
pub fn still_moved<V: Sources<Fault = ReadFault>>(
    alloc: Global,
    sources: &V,
    looks: &mut V::Reader,
    segment: u32,
    last: u64,
    batch: &Batch,
) -> Result<Vec<Moved>, ReadFault>
    ensures moved { (entries : List Entry) → V.fits sources.now looks.old → HasEntries V.has sources.now entries
        → IfOk result (λ moved. moved.items ≡ moved_of entries segment last batch.now) }
    // Whatever is told, these are the batch's, and may stand in one frame of a log.
    ensures relocation { IfOk result (λ moved. MayBeMoved moved.items) }
    ensures among { IfOk result (λ moved. All (λ m. Contains (map (λ c. c.moved) batch.now) m) moved.items) }
    ensures fits { V.fits sources.now looks.old → V.fits sources.now looks.new }
    ensures steady { OnOk result (V.faults looks.new ≡ V.faults looks.old) }
    ensures cause { IfErr result (FailsLooking (λ f. V.is_read_fault f)
        (MayWhere (V.fits sources.now looks.old) (V.may_fail sources.now)) (V.faults looks.old) (V.faults looks.new)) }
{
    let mut moved = Vec::new(alloc);
    for found in batch.records() {
        if is_moved(sources, looks, segment, last, found)? && is_elsewhere(&found.moved, &moved) {
            put(&mut moved, &found.moved)?;
        }
    }
    Ok(moved)
}

// Whether a record is moved.
fn is_moved<V: Sources<Fault = ReadFault>>(
    sources: &V,
    looks: &mut V::Reader,
    segment: u32,
    last: u64,
    found: &Found,
) -> Result<bool, ReadFault>
    ensures moved { (entries : List Entry) → V.fits sources.now looks.old → HasEntries V.has sources.now entries
        → IfOk result (λ moved. moved ≡ is_moved entries segment last (candidate_of found.now)) }
    ensures fits { V.fits sources.now looks.old → V.fits sources.now looks.new }
    ensures steady { OnOk result (V.faults looks.new ≡ V.faults looks.old) }
    ensures cause { IfErr result (IsTheirs (λ f. V.is_read_fault f)
        (MayWhere (V.fits sources.now looks.old) (V.may_fail sources.now)) (V.faults looks.old) (V.faults looks.new)) }
{
    if found.moved.version > last {
        return Ok(false);
    }
    wins_exactly(
        sources,
        looks,
        segment,
        found.moved.key.as_slice(),
        found.moved.version,
        found.place,
    )
}

// Whether none of the others has its key and its version.
fn is_elsewhere(moved: &Moved, others: &[Moved]) -> bool
    ensures { IsTrue result ↔ IsElsewhere moved.now others.now }
{
    let mut rest = others;
    while let [first, after @ ..] = rest {
        if is_same(moved, first) {
            return false;
        }
        rest = after;
    }
    true
}

fn is_same(moved: &Moved, other: &Moved) -> bool
    ensures { IsTrue result ↔ ((other.now.version ≡ moved.now.version) × (other.now.key ≡ moved.now.key)) }
{
    other.version == moved.version && other.key.as_slice() == moved.key.as_slice()
}

// Puts a record behind others once more, whose key and value are shared.
fn put(moved: &mut Vec<Moved>, found: &Moved) -> Result<(), AllocError>
    ensures { OnOk result (moved.new.items ≡ moved.old.items ++ found.now ∷ []) }
{
    moved.push(Moved {
        key: found.key.share()?,
        version: found.version,
        value: found.value.share()?,
    })?;
    Ok(())
}
