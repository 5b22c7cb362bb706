ghost use Rattle.std.specs.Prelude.{◌≡◌, ◌++◌, ◌<◌, ◌^◌, length, IfOk, OnErr, OnOk};
ghost use Rattle.byteorder.specs.Endian.{big_bytes};
ghost use Rattle.vl_frame.specs.Frame.{frame_length};
ghost use Rattle.vl_model.specs.Formats.{log_format};
ghost use Rattle.vl_model.specs.declared.change.Change.{Change};
ghost use Rattle.vl_seglog.specs.Record.{record_bytes};
ghost use Rattle.vl_seglog.specs.Commit as commits;
ghost use Rattle.vl_seglog.specs.Frames as log;
ghost use Rattle.vl_seglog.specs.Relocation.{moves_bytes, relocation_body, relocation_frame};
ghost use Rattle.vl_seglog.specs.Moves.{moved_bytes};
ghost use Rattle.vl_seglog.specs.Staging.{head_room};

use crate::lengths::{COMMIT_HEAD_BYTES, MOVES_HEAD_BYTES, VERSION_BYTES};
use crate::{RECORD_HEAD_BYTES, write_record};
use byteorder::{BigEndian, ByteOrder};
use std::alloc::{AllocError, Global};
use vl_frame::{
    FRAME_BYTES, FileKind, FrameKind, HEAD_BYTES, HEADER_BYTES, file_header, finish_frame,
};
use vl_model::{Change, Key, LOG_FORMAT, Moved};

/// The first bytes of the log with this number, in the format that is written.
pub fn log_header(number: u32) -> [u8; HEADER_BYTES]
    ensures { result ≡ log.log_header log_format number }
{
    file_header(FileKind::Log, LOG_FORMAT, number)
}

/// How many bytes the frame of a commit has with so many records, whose keys and values have so many bytes together.
pub fn commit_length(records: usize, bytes: usize) -> u64
    requires { commits.commit_length records bytes < 2 ^ 64 }
    ensures { result ≡ commits.commit_length records bytes }
{
    let around = (FRAME_BYTES + COMMIT_HEAD_BYTES) as u64;
    around + RECORD_HEAD_BYTES as u64 * records as u64 + bytes as u64
}

/// Appends the frame of a commit that is to stand at the place `at` of the log with the number `file`. Want of memory
/// is the answer too where it has more records than can be counted, or is longer than a frame may be. That the
/// commit is a lawful one is the caller's to see to: others are written too.
pub fn write_commit(
    alloc: Global,
    out: &mut Vec<u8>,
    file: u32,
    at: u64,
    number: u64,
    writes: &[(Key, Change)],
) -> Result<(), AllocError>
    ensures written { OnOk result (out.new.items ≡
        out.old.items ++ commits.commit_frame log_format file at (record { number = number; writes = writes.now })) }
    ensures short { OnOk result (frame_length
        (length (commits.commit_body log_format (record { number = number; writes = writes.now }))) < 2 ^ 32) }
    ensures err { OnErr result (out.new.items ≡ out.old.items) }
{
    let frame = commit_frame(alloc, file, at, number, writes)?;
    out.extend_from_slice(&frame)
}

/// The same frame alone, in which each byte is written once.
pub fn commit_frame(
    alloc: Global,
    file: u32,
    at: u64,
    number: u64,
    writes: &[(Key, Change)],
) -> Result<Vec<u8>, AllocError>
    ensures written { IfOk result (λ frame. frame.items ≡
        commits.commit_frame log_format file at (record { number = number; writes = writes.now })) }
    ensures short { OnOk result (frame_length
        (length (commits.commit_body log_format (record { number = number; writes = writes.now }))) < 2 ^ 32) }
{
    let mut frame = unfinished_commit(alloc, number, writes)?;
    finish_frame(&mut frame, file, at, FrameKind::Commit)?;
    Ok(frame)
}

// The body of a commit's frame, behind room for the frame's head and in memory that has room for its check.
#[tactic(auto, unfolding(crate::specs::Commit::commit_body))]
fn unfinished_commit(
    alloc: Global,
    number: u64,
    writes: &[(Key, Change)],
) -> Result<Vec<u8>, AllocError>
    ensures { IfOk result (λ frame. frame.items ≡
        head_room ++ commits.commit_body log_format (record { number = number; writes = writes.now })) }
{
    if writes.len() > u32::MAX as usize {
        return Err(AllocError);
    }
    let mut frame = Vec::new(alloc);
    frame.reserve((FRAME_BYTES + COMMIT_HEAD_BYTES).saturating_add(room_for(writes)))?;
    frame.extend_from_slice(&[0; HEAD_BYTES])?;
    frame.extend_from_slice(&head(number, writes.len() as u32))?;
    write_changes(&mut frame, writes)?;
    Ok(frame)
}

// How many bytes the records of these changes want, so that room for them is made at once. Nothing else hangs on it.
fn room_for(writes: &[(Key, Change)]) -> usize {
    let mut room: usize = 0;
    for (key, change) in writes {
        room = room
            .saturating_add(RECORD_HEAD_BYTES)
            .saturating_add(key.len())
            .saturating_add(change.value_len());
    }
    room
}

// Appends the records of changes, in their order.
fn write_changes(out: &mut Vec<u8>, writes: &[(Key, Change)]) -> Result<(), AllocError>
    ensures { OnOk result (out.new.items ≡ out.old.items ++ commits.records_bytes log_format writes.now) }
{
    for (key, change) in writes {
        write_change(out, key, change)?;
    }
    Ok(())
}

// What stands before the records.
fn head(number: u64, count: u32) -> [u8; COMMIT_HEAD_BYTES]
    ensures { result ≡ commits.head_bytes number count }
{
    let mut head = [0; COMMIT_HEAD_BYTES];
    BigEndian::write_u64(&mut head, number);
    BigEndian::write_u32(&mut head[8..], count);
    head
}

// Appends the record of a change to a key.
fn write_change(out: &mut Vec<u8>, key: &Key, change: &Change) -> Result<(), AllocError>
    ensures { OnOk result (out.new.items ≡ out.old.items ++ record_bytes log_format key.now change.now) }
{
    match change {
        Change::Set(value) => write_record(out, key.as_slice(), Some(value.as_slice()), value.tag),
        Change::Delete => write_record(out, key.as_slice(), None, 0),
    }
}

/// Appends the frame of a relocation that is to stand at the place `at` of the log with the number `file`. Want of
/// memory is the answer too where it has more records than can be counted, or is longer than a frame may be. That it is
/// a lawful one is the caller's to see to here too.
pub fn write_move(
    alloc: Global,
    out: &mut Vec<u8>,
    file: u32,
    at: u64,
    records: &[Moved],
) -> Result<(), AllocError>
    ensures written { OnOk result (out.new.items ≡ out.old.items ++ relocation_frame log_format file at records.now) }
    ensures short { OnOk result (frame_length (length (relocation_body log_format records.now)) < 2 ^ 32) }
    ensures err { OnErr result (out.new.items ≡ out.old.items) }
{
    let frame = move_frame(alloc, file, at, records)?;
    out.extend_from_slice(&frame)
}

/// The same frame alone, in which each byte is written once.
pub fn move_frame(
    alloc: Global,
    file: u32,
    at: u64,
    records: &[Moved],
) -> Result<Vec<u8>, AllocError>
    ensures written { IfOk result (λ frame. frame.items ≡ relocation_frame log_format file at records.now) }
    ensures short { OnOk result (frame_length (length (relocation_body log_format records.now)) < 2 ^ 32) }
{
    let mut frame = unfinished_move(alloc, records)?;
    finish_frame(&mut frame, file, at, FrameKind::Move)?;
    Ok(frame)
}

// The body of a relocation's frame, likewise behind room for the frame's head.
#[tactic(auto, unfolding(crate::specs::Relocation::relocation_body))]
fn unfinished_move(alloc: Global, records: &[Moved]) -> Result<Vec<u8>, AllocError>
    ensures { IfOk result (λ frame. frame.items ≡ head_room ++ relocation_body log_format records.now) }
{
    if records.len() > u32::MAX as usize {
        return Err(AllocError);
    }
    let mut frame = Vec::new(alloc);
    frame.reserve((FRAME_BYTES + MOVES_HEAD_BYTES).saturating_add(room_for_moved(records)))?;
    frame.extend_from_slice(&[0; HEAD_BYTES])?;
    frame.extend_from_slice(&u32_bytes(records.len() as u32))?;
    write_all_moved(&mut frame, records)?;
    Ok(frame)
}

// How many bytes these records want behind their versions, as `room_for` says it of changes.
fn room_for_moved(records: &[Moved]) -> usize {
    let mut room: usize = 0;
    for moved in records {
        room = room
            .saturating_add(VERSION_BYTES as usize + RECORD_HEAD_BYTES)
            .saturating_add(moved.key.len())
            .saturating_add(moved.value.len());
    }
    room
}

// Appends moved records, in their order.
fn write_all_moved(out: &mut Vec<u8>, records: &[Moved]) -> Result<(), AllocError>
    ensures { OnOk result (out.new.items ≡ out.old.items ++ moves_bytes log_format records.now) }
{
    for moved in records {
        write_moved(out, moved)?;
    }
    Ok(())
}

// Appends a moved record behind its version.
fn write_moved(out: &mut Vec<u8>, moved: &Moved) -> Result<(), AllocError>
    ensures { OnOk result (out.new.items ≡ out.old.items ++ moved_bytes log_format moved.now) }
{
    out.extend_from_slice(&u64_bytes(moved.version))?;
    write_record(
        out,
        moved.key.as_slice(),
        Some(moved.value.as_slice()),
        moved.value.tag,
    )
}

fn u32_bytes(number: u32) -> [u8; 4]
    ensures { result ≡ big_bytes 4 number }
{
    let mut bytes = [0; 4];
    BigEndian::write_u32(&mut bytes, number);
    bytes
}

fn u64_bytes(number: u64) -> [u8; 8]
    ensures { result ≡ big_bytes 8 number }
{
    let mut bytes = [0; 8];
    BigEndian::write_u64(&mut bytes, number);
    bytes
}
