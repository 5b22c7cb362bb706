ghost use Rattle.std.specs.Prelude.{◌≡◌, ◌↔◌, ◌+◌, ◌++◌, ◌<◌, ◌^◌, length, map, ℕ, List, IfNone, IfOk, IfSome, IsTrue};
ghost use Rattle.vl_model.specs.declared.change.Change.TheVariants.{Set};
ghost use Rattle.vl_model.specs.declared.log_frame.Moved.{Moved};
ghost use Rattle.vl_seglog.specs.Placed.{AreMovedFrom, LiesMovedAt};
ghost use Rattle.vl_seglog.specs.Reading.{moved_of, value_of};
ghost use Rattle.vl_seglog.specs.Relocation.{IsRelocation, moves_spelling, relocation_body};
ghost use Rattle.vl_seglog.specs.Moves.{IsMoved, moved_bytes};
ghost use Rattle.vl_seglog.specs.Series.{IsSeries};

use crate::frame::ReadRecord;
use crate::lengths::{MOVES_HEAD_BYTES, VERSION_BYTES};
use crate::read::once::are_once;
use crate::read::records::take_record;
use std::alloc::{AllocError, Global};
use vl_frame::{take_u32, take_u64};
use vl_model::Change;

/// The records of the relocation that the body of a frame spells, which begins at this place of the log of this format.
pub fn read_moves(
    alloc: Global,
    format: u32,
    body: &[u8],
    log: u32,
    place: u64,
) -> Result<Option<Vec<ReadRecord>>, AllocError>
    requires short { length body.now < 2 ^ 32 }
    requires fits { place + length body.now < 2 ^ 64 }
    ensures found { IfOk result (λ read. IfSome read (λ v.
        IsRelocation format (map moved_of v.items) × (body.now ≡ relocation_body format (map moved_of v.items)))) }
    ensures places { IfOk result (λ read. IfSome read (λ v. AreMovedFrom format log (place + 4) v.items)) }
    ensures none { IfOk result (λ read. IfNone read
        ((records : List Moved) → IsRelocation format records → body.now ≡ relocation_body format records → ⊥)) }
{
    let Some((count, rest)) = take_u32(body) else {
        return Ok(None);
    };
    if count == 0 {
        return Ok(None);
    }
    let first = place + MOVES_HEAD_BYTES as u64;
    let Some(records) = read_all_moved(alloc, format, count, rest, log, first)? else {
        return Ok(None);
    };
    if !are_once(&records) {
        return Ok(None);
    }
    Ok(Some(records))
}

// The moved records that these bytes are, so many, one behind the other. The version of the first lies at this place.
fn read_all_moved(
    alloc: Global,
    format: u32,
    count: u32,
    bytes: &[u8],
    log: u32,
    first: u64,
) -> Result<Option<Vec<ReadRecord>>, AllocError>
    requires { first + length bytes.now < 2 ^ 64 }
    ensures found { IfOk result (λ read. IfSome read
        (λ v. IsSeries (moves_spelling format) bytes.now count (map moved_of v.items))) }
    ensures places { IfOk result (λ read. IfSome read (λ v. AreMovedFrom format log first v.items)) }
    ensures none { IfOk result (λ read. IfNone read
        ((records : List Moved) → IsSeries (moves_spelling format) bytes.now count records → ⊥)) }
{
    let mut records = Vec::new(alloc);
    let mut rest = bytes;
    let mut place = first;
    for _ in 0..count {
        match take_moved(alloc, format, rest, log, place)? {
            None => return Ok(None),
            Some((record, after)) => {
                place += VERSION_BYTES + record.pointer.length as u64;
                records.push(record)?;
                rest = after;
            }
        }
    }
    if rest.is_empty() {
        Ok(Some(records))
    } else {
        Ok(None)
    }
}

// The moved record at the front, whose version lies at this place of the log, and the bytes behind it.
fn take_moved(
    alloc: Global,
    format: u32,
    bytes: &[u8],
    log: u32,
    place: u64,
) -> Result<Option<(ReadRecord, &[u8])>, AllocError>
    requires { place + length bytes.now < 2 ^ 64 }
    ensures found { IfOk result (λ read. IfSome read (λ r.
        IsMoved format (moved_of r.0) × (bytes.now ≡ moved_bytes format (moved_of r.0) ++ r.1.now))) }
    ensures place { IfOk result (λ read. IfSome read (λ r. LiesMovedAt format log place r.0)) }
    ensures none { IfOk result (λ read. IfNone read
        ((moved : Moved) (rest : List ℕ) → IsMoved format moved → bytes.now ≡ moved_bytes format moved ++ rest → ⊥)) }
{
    let Some((version, rest)) = take_u64(bytes) else {
        return Ok(None);
    };
    let Some((record, after)) = take_record(
        alloc,
        format,
        rest,
        log,
        place + VERSION_BYTES,
        version,
    )?
    else {
        return Ok(None);
    };
    if !sets(&record.change) {
        return Ok(None);
    }
    Ok(Some((record, after)))
}

// Whether it is no deletion.
fn sets(change: &Change) -> bool
    ensures { IsTrue result ↔ (change.now ≡ Set (value_of change.now)) }
{
    match change {
        Change::Set(_) => true,
        Change::Delete => false,
    }
}
