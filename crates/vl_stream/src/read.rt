//! The bodies of a stream's frames, as they are read.
ghost use Rattle.std.specs.Prelude.{◌≡◌, ◌+◌, ◌++◌, ◌<◌, ◌^◌, ℕ, List, length, IfNone, IfOk, IfSome};
ghost use Rattle.std.specs.Option.{option_copied};
ghost use Rattle.vl_stream.specs.Batches.{Write};
ghost use Rattle.vl_stream.specs.Pieces.{AreChanges, changes_body, end_body, record_format};
ghost use Rattle.vl_stream.specs.Reading.{IsSeriesAbove};
ghost use Rattle.vl_stream.specs.Streams.{IsAbove, last_key};
ghost use Rattle.vl_model.specs.declared.change.Change.{Change};
ghost use Rattle.vl_seglog.specs.Record.{IsRecord, IsSpelled, change_of, record_bytes};

use crate::batch::{Batch, MAX_BATCH_BYTES, MAX_BATCH_RECORDS};
use std::alloc::{AllocError, Global};
use vl_frame::{take_u32, take_u64};
use vl_model::{Change, Key, Value, key_order};
use vl_seglog::read_record;

/// The format of logs in which the records of a stream are spelled.
const RECORD_FORMAT: u32 = 2;

/// The records that the body of a frame spells, and the last key, if their keys are above this one, as they must behind it; an
/// empty key stands for none.
pub fn read_changes(
    alloc: Global,
    last: &[u8],
    body: &[u8],
) -> Result<Option<(Batch, Key)>, AllocError>
    ensures found { IfOk result (λ read. IfSome read (λ r. AreChanges r.0.records.items
        × IsAbove last.now r.0.records.items × (body.now ≡ changes_body r.0.records.items))) }
    ensures last { IfOk result (λ read. IfSome read (λ r. r.1 ≡ last_key last.now r.0.records.items)) }
    ensures none { IfOk result (λ read. IfNone read
        ((ws : List Write) → AreChanges ws → IsAbove last.now ws → body.now ≡ changes_body ws → ⊥)) }
{
    let Some((count, rest)) = take_u32(body) else {
        return Ok(None);
    };
    let count = count as usize;
    if count == 0 || count > MAX_BATCH_RECORDS {
        return Ok(None);
    }
    let Some((batch, key)) = read_rising(alloc, last, count, rest)? else {
        return Ok(None);
    };
    if count > 1 && batch.bytes > MAX_BATCH_BYTES {
        return Ok(None);
    }
    Ok(Some((batch, key)))
}

/// The two numbers that the body of the end spells: up to which number the stream tells, and how many records it has.
pub fn read_end(body: &[u8]) -> Option<(u64, u64)>
    ensures found { IfSome result (λ r. body.now ≡ end_body r.0 r.1) }
    ensures fits { IfSome result (λ r. (r.0 < 2 ^ 64) × (r.1 < 2 ^ 64)) }
    ensures none { IfNone result ((number records : ℕ) → body.now ≡ end_body number records → ⊥) }
{
    let (number, rest) = take_u64(body)?;
    let (records, rest) = take_u64(rest)?;
    if !rest.is_empty() {
        return None;
    }
    Some((number, records))
}

// So many records, which these bytes are, one behind the other, and whose keys rise from above this one on; and the last key.
fn read_rising(
    alloc: Global,
    last: &[u8],
    count: usize,
    bytes: &[u8],
) -> Result<Option<(Batch, Key)>, AllocError>
    ensures found { IfOk result (λ read. IfSome read (λ r. IsSeriesAbove last.now bytes.now count r.0.records.items)) }
    ensures last { IfOk result (λ read. IfSome read (λ r. r.1 ≡ last_key last.now r.0.records.items)) }
    ensures none { IfOk result (λ read. IfNone read ((ws : List Write) → IsSeriesAbove last.now bytes.now count ws → ⊥)) }
{
    let mut batch = Batch::new(alloc);
    let mut rest = bytes;
    let mut before = last;
    for _ in 0..count {
        let Some(record) = read_record(RECORD_FORMAT, rest) else {
            return Ok(None);
        };
        if !key_order(before, record.key).is_lt() {
            return Ok(None);
        }
        let change = copy_of_change(alloc, record.value, record.tag)?;
        batch.push(Key::copy_of(alloc, record.key)?, change)?;
        before = record.key;
        rest = &rest[record.length as usize..];
    }
    if !rest.is_empty() {
        return Ok(None);
    }
    Ok(Some((batch, Key::copy_of(alloc, before)?)))
}

fn copy_of_change(alloc: Global, value: Option<&[u8]>, tag: u8) -> Result<Change, AllocError>
    ensures { IfOk result (λ change. change ≡ change_of (option_copied value.entry) tag) }
{
    match value {
        None => Ok(Change::Delete),
        Some(value) => Ok(Change::Set(Value::copy_of(alloc, value, tag)?)),
    }
}
