ghost use Rattle.std.specs.Prelude.{◌≡◌, ◌+◌, ◌<◌, ◌^◌, length, IfOk, OnOk};
ghost use Rattle.vl_model.specs.Formats.{log_format};
ghost use Rattle.vl_model.specs.Frames.{record_length};
ghost use Rattle.vl_model.specs.declared.change.Change.TheVariants.{Set};
ghost use Rattle.vl_model.specs.declared.log_frame.LogFrame.TheVariants.{Committed, Relocated};
ghost use Rattle.vl_seglog.specs.Commit.{records_bytes};
ghost use Rattle.vl_seglog.specs.Bodies.{IsFrame};
ghost use Rattle.vl_seglog.specs.Relocation.{moves_bytes};
ghost use Rattle.vl_seglog.specs.Staging.{IsStaged};
ghost use Rattle.vl_seglog.specs.Stored.{moved_pointers, pointer_at, pointers_from};

use crate::RECORD_HEAD_BYTES;
use crate::lengths::{BEFORE_MOVES, BEFORE_RECORDS, VERSION_BYTES};
use crate::write::{commit_frame, move_frame};
use std::alloc::{AllocError, Global};
use vl_model::{Change, Key, Moved, Pointer, Value};

/// A frame that is to be appended to a log, and where its records lie then.
#[derive(Drop)]
pub struct Staged {
    /// The number of the log that it was staged for.
    pub log: u32,
    /// In bytes: where the frame is to stand there.
    pub place: u64,
    pub frame: Vec<u8>,
    /// One for each record, in their order.
    pub pointers: Vec<Pointer>,
}

/// The frame of a commit that is to stand at a place of the log with the number `log`. Where there is none, or it
/// would end beyond 2^64 bytes, want of memory is the answer.
pub fn staged_commit(
    alloc: Global,
    log: u32,
    place: u64,
    number: u64,
    writes: &[(Key, Change)],
) -> Result<Staged, AllocError>
    requires { IsFrame log_format (Committed number writes.now) }
    ensures staged { IfOk result (IsStaged log place (Committed number writes.now)) }
    ensures staged_for { IfOk result (λ s. (s.log ≡ log) × (s.place ≡ place)) }
{
    let frame = commit_frame(alloc, log, place, number, writes)?;
    if frame.len() as u64 > u64::MAX - place {
        return Err(AllocError);
    }
    let pointers = record_pointers(alloc, log, place + BEFORE_RECORDS, writes)?;
    Ok(Staged {
        log,
        place,
        frame,
        pointers,
    })
}

/// That of a relocation likewise.
pub fn staged_move(
    alloc: Global,
    log: u32,
    place: u64,
    records: &[Moved],
) -> Result<Staged, AllocError>
    requires { IsFrame log_format (Relocated records.now) }
    ensures staged { IfOk result (IsStaged log place (Relocated records.now)) }
    ensures staged_for { IfOk result (λ s. (s.log ≡ log) × (s.place ≡ place)) }
{
    let frame = move_frame(alloc, log, place, records)?;
    if frame.len() as u64 > u64::MAX - place {
        return Err(AllocError);
    }
    let pointers = moved_pointers(alloc, log, place + BEFORE_MOVES, records)?;
    Ok(Staged {
        log,
        place,
        frame,
        pointers,
    })
}

// The pointers to the records of a commit, of which the first lies at this place.
fn record_pointers(
    alloc: Global,
    log: u32,
    from: u64,
    writes: &[(Key, Change)],
) -> Result<Vec<Pointer>, AllocError>
    requires short { length (records_bytes log_format writes.now) < 2 ^ 32 }
    requires fits { from + length (records_bytes log_format writes.now) < 2 ^ 64 }
    ensures { IfOk result (λ pointers. pointers.items ≡ pointers_from log_format log from writes.now) }
{
    let mut pointers = Vec::new(alloc);
    let mut place = from;
    for (key, change) in writes {
        let pointer = pointer_to(log, place, key, change.value_len());
        pointers.push(pointer)?;
        place += pointer.length as u64;
    }
    Ok(pointers)
}

// Those to the records of a relocation, whose first version lies at this place.
fn moved_pointers(
    alloc: Global,
    log: u32,
    from: u64,
    records: &[Moved],
) -> Result<Vec<Pointer>, AllocError>
    requires short { length (moves_bytes log_format records.now) < 2 ^ 32 }
    requires fits { from + length (moves_bytes log_format records.now) < 2 ^ 64 }
    ensures { IfOk result (λ pointers. pointers.items ≡ moved_pointers log_format log from records.now) }
{
    let mut pointers = Vec::new(alloc);
    let mut place = from;
    for moved in records {
        let pointer = pointer_to(log, place + VERSION_BYTES, &moved.key, moved.value.len());
        pointers.push(pointer)?;
        place += VERSION_BYTES + pointer.length as u64;
    }
    Ok(pointers)
}

// The pointer to a record of this key and a value of so many bytes.
fn pointer_to(segment: u32, place: u64, key: &Key, value_len: usize) -> Pointer
    requires { 8 + length key.now + value_len < 2 ^ 32 }
    ensures { result ≡ record { segment = segment; place = place; length = 8 + length key.now + value_len } }
{
    Pointer {
        segment,
        place,
        length: (RECORD_HEAD_BYTES + key.len() + value_len) as u32,
    }
}
