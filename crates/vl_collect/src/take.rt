//! The records of a frame that a batch takes.

ghost use Rattle.std.specs.Prelude.{◌≡◌, ◌++◌, ◌∷◌, [], ◌<◌, ◌≤◌, List, drop, length, map, IfErr, IfOk, IfSome, OnOk, All, ℕ};
ghost use Rattle.vl_collect.specs.Batches.{IsLawful, IsOf, IsOldOrOf, MayMove, Rise, found_place, read_place};
ghost use Rattle.vl_collect.specs.Faults.{FailsLooking, MayWhere};
ghost use Rattle.vl_collect.specs.Passing.{HasEntries};
ghost use Rattle.vl_collect.specs.Taking.{Passes, candidate_of, candidates, one_of, record_of, records_as};
ghost use Rattle.vl_engine_model.specs.Relocation.{found_in, has_room, value_lengths};
ghost use Rattle.vl_model.specs.Keys.{value_length};
ghost use Rattle.vl_model.specs.declared.entry.Entry.{Entry};
ghost use Rattle.vl_seglog.specs.Placed.{records_of};

use crate::batch::Found;
use crate::wins::wins_exactly;
use std::alloc::AllocError;
use vl_disk::ReadFault;
use vl_merge::Sources;
use vl_model::{Change, MAX_BATCH_BYTES, MAX_BATCH_RECORDS, Moved, Value};
use vl_seglog::{ReadRecord, Said};

/// The records of a frame, in their order.
pub fn records_of(said: &Said) -> &[ReadRecord]
    ensures { result.now ≡ records_of said.now }
{
    match said {
        Said::Commit(commit) => &commit.records,
        Said::Moves(records) => records,
    }
}

/// Takes those of these records into a batch that win exactly from inside a segment, but for the first so many, which aren't
/// looked at. It ends before the first for which the batch has no room, and gives how many are passed then.
pub fn take_found<V: Sources<Fault = ReadFault>>(
    base: &V,
    looks: &mut V::Reader,
    segment: u32,
    records: &[ReadRecord],
    done: usize,
    batch: &mut Vec<Found>,
) -> Result<usize, ReadFault>
    ensures passes { (entries : List Entry) → V.fits base.now looks.old → HasEntries V.has base.now entries
        → IfOk result (λ now. Passes entries segment (candidates batch.old.items) (records_as (drop done records.now))
        (candidates batch.new.items) (records_as (drop now records.now))) }
    // It ends early only for want of room, and one record has room in a batch however long it is.
    ensures some { IfOk result (λ now. now < length records.now → 1 ≤ length batch.new.items) }
    // What it takes is of these records.
    ensures read { OnOk result (All (IsOldOrOf batch.old.items records.now) batch.new.items) }
    // Where the records stand behind those of the batch, it keeps their order.
    ensures rises { (low high : ℕ) → Rise found_place 0 batch.old.items low → Rise read_place low (drop done records.now) high
        → OnOk result (Rise found_place 0 batch.new.items high) }
    ensures lawful { All MayMove records.now → All IsLawful batch.old.items → OnOk result (All IsLawful batch.new.items) }
    ensures fits { V.fits base.now looks.old → V.fits base.now looks.new }
    ensures steady { OnOk result (V.faults looks.new ≡ V.faults looks.old) }
    ensures cause { IfErr result (FailsLooking (λ f. V.is_read_fault f)
        (MayWhere (V.fits base.now looks.old) (V.may_fail base.now)) (V.faults looks.old) (V.faults looks.new)) }
{
    for at in done..records.len() {
        match found_in(base, looks, segment, &records[at])? {
            None => {}
            Some(found) => {
                if !has_room(batch, found.moved.value.len()) {
                    return Ok(at);
                }
                put(batch, found)?;
            }
        }
    }
    Ok(records.len())
}

// The record as one that is to be moved, where it wins exactly from inside the segment.
fn found_in<V: Sources<Fault = ReadFault>>(
    base: &V,
    looks: &mut V::Reader,
    segment: u32,
    read: &ReadRecord,
) -> Result<Option<Found>, ReadFault>
    ensures found { (entries : List Entry) → V.fits base.now looks.old → HasEntries V.has base.now entries
        → IfOk result (λ found. one_of found ≡ found_in entries segment (record_of read.now)) }
    ensures is { IfOk result (λ found. IfSome found (IsOf read.now)) }
    ensures fits { V.fits base.now looks.old → V.fits base.now looks.new }
    ensures steady { OnOk result (V.faults looks.new ≡ V.faults looks.old) }
    ensures cause { IfErr result (FailsLooking (λ f. V.is_read_fault f)
        (MayWhere (V.fits base.now looks.old) (V.may_fail base.now)) (V.faults looks.old) (V.faults looks.new)) }
{
    let Change::Set(value) = &read.change else {
        return Ok(None);
    };
    let place = read.pointer.place;
    if !wins_exactly(
        base,
        looks,
        segment,
        read.key.as_slice(),
        read.version,
        place,
    )? {
        return Ok(None);
    }
    Ok(Some(shared(read, value)?))
}

// The record with this value, which is shared.
fn shared(read: &ReadRecord, value: &Value) -> Result<Found, AllocError>
    ensures { IfOk result (λ found. candidate_of found ≡ record {
      moved = record { key = read.now.key; version = read.now.version; value = value.now };
      place = read.now.pointer.place;
    }) }
{
    Ok(Found {
        moved: Moved {
            key: read.key.share()?,
            version: read.version,
            value: value.share()?,
        },
        place: read.pointer.place,
    })
}

// Puts a record behind the others.
fn put(batch: &mut Vec<Found>, found: Found) -> Result<(), AllocError>
    ensures { OnOk result (batch.new.items ≡ batch.old.items ++ found ∷ []) }
{
    batch.push(found)?;
    Ok(())
}

// Whether a batch may take a value of so many bytes more. What is left of them is counted down, which can't wrap.
fn has_room(batch: &[Found], more: usize) -> bool
    ensures { result ≡ has_room (length batch.now) (value_lengths (candidates batch.now)) more }
{
    if batch.is_empty() {
        return true;
    }
    if batch.len() >= MAX_BATCH_RECORDS || more > MAX_BATCH_BYTES {
        return false;
    }
    let mut left = MAX_BATCH_BYTES - more;
    for found in batch {
        let length = found.moved.value.len();
        if left < length {
            return false;
        }
        left -= length;
    }
    true
}
