ghost use Rattle.std.specs.Prelude.{◌≡◌, ◌+◌, ◌++◌, ◌<◌, ◌^◌, List, length, map, ℕ, IfNone, IfOk, IfSome};
ghost use Rattle.std.specs.Option.{option_copied};
ghost use Rattle.vl_model.specs.declared.change.Change.{Change};
ghost use Rattle.vl_seglog.specs.Record.{IsRecord, IsSpelled, change_of, record_bytes};
ghost use Rattle.vl_seglog.specs.Commit.{records_spelling};
ghost use Rattle.vl_seglog.specs.Placed.{AreRecordsFrom, LiesAt};
ghost use Rattle.vl_seglog.specs.Reading.{write_of};
ghost use Rattle.vl_seglog.specs.Series.{IsSeries};

use crate::frame::ReadRecord;
use crate::read_record;
use std::alloc::{AllocError, Global};
use vl_model::{Change, Key, Pointer, Value};

/// The records that these bytes of a log of this format are, so many, one behind the other, of the commit with this
/// number. The first lies at this place of the log.
pub fn read_records(
    alloc: Global,
    format: u32,
    count: u32,
    bytes: &[u8],
    log: u32,
    first: u64,
    number: u64,
) -> Result<Option<Vec<ReadRecord>>, AllocError>
    requires { first + length bytes.now < 2 ^ 64 }
    ensures found { IfOk result (λ read. IfSome read
        (λ v. IsSeries (records_spelling format) bytes.now count (map write_of v.items))) }
    ensures places { IfOk result (λ read. IfSome read (λ v. AreRecordsFrom format log number first v.items)) }
    ensures none { IfOk result (λ read. IfNone read
        ((writes : List (List ℕ × Change)) → IsSeries (records_spelling format) bytes.now count writes → ⊥)) }
{
    let mut records = Vec::new(alloc);
    let mut rest = bytes;
    let mut place = first;
    for _ in 0..count {
        match take_record(alloc, format, rest, log, place, number)? {
            None => return Ok(None),
            Some((record, after)) => {
                place += record.pointer.length as u64;
                records.push(record)?;
                rest = after;
            }
        }
    }
    if rest.is_empty() {
        Ok(Some(records))
    } else {
        Ok(None)
    }
}

/// The record at the front, which lies at this place of the log of this format and has this version, and the bytes
/// behind it.
pub fn take_record(
    alloc: Global,
    format: u32,
    bytes: &[u8],
    log: u32,
    place: u64,
    version: u64,
) -> Result<Option<(ReadRecord, &[u8])>, AllocError>
    ensures found { IfOk result (λ read. IfSome read (λ r.
        IsRecord format r.0.key r.0.change × (bytes.now ≡ record_bytes format r.0.key r.0.change ++ r.1.now))) }
    ensures place { IfOk result (λ read. IfSome read (λ r. LiesAt format log version place r.0)) }
    ensures none { IfOk result (λ read. IfNone read
        ((key : List ℕ) (change : Change) → IsSpelled format bytes.now key change → ⊥)) }
{
    let Some(record) = read_record(format, bytes) else {
        return Ok(None);
    };
    let key = Key::copy_of(alloc, record.key)?;
    let change = copy_of_change(alloc, record.value, record.tag)?;
    let pointer = Pointer {
        segment: log,
        place,
        length: record.length,
    };
    let taken = ReadRecord {
        key,
        version,
        change,
        pointer,
    };
    Ok(Some((taken, &bytes[record.length as usize..])))
}

fn copy_of_change(alloc: Global, value: Option<&[u8]>, tag: u8) -> Result<Change, AllocError>
    ensures { IfOk result (λ change. change ≡ change_of (option_copied value.entry) tag) }
{
    match value {
        None => Ok(Change::Delete),
        Some(value) => Ok(Change::Set(Value::copy_of(alloc, value, tag)?)),
    }
}
