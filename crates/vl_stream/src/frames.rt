//! The frames of a stream, as they are written.
ghost use Rattle.std.specs.Prelude.{◌≡◌, ◌++◌, ◌<◌, ◌^◌, length, IfOk, OnOk};
ghost use Rattle.vl_stream.specs.Grammar.{stream_grammar};
ghost use Rattle.vl_stream.specs.Pieces.{End, Records, changes_body, end_body, record_format};
ghost use Rattle.vl_stream.specs.Streams.{stream_header};
ghost use Rattle.vl_frame.specs.Runs.{item_frame};
ghost use Rattle.vl_seglog.specs.Commit.{records_bytes};
ghost use Rattle.vl_seglog.specs.Record.{record_bytes};
ghost use Rattle.vl_seglog.specs.Staging.{head_room};

use byteorder::{BigEndian, ByteOrder};
use std::alloc::{AllocError, Global};
use vl_frame::{FrameKind, HEAD_BYTES, HEADER_BYTES, finish_frame};
use vl_model::{Change, Key};
use vl_seglog::write_record;

/// The format of streams that is written and read.
pub const STREAM_FORMAT: u32 = 1;

/// What a stream begins with that tells since this number.
pub fn stream_header(since: u64) -> [u8; HEADER_BYTES]
    ensures { result ≡ stream_header since }
{
    let mut header = [0; HEADER_BYTES];
    header[..4].copy_from_slice(b"VBAK");
    BigEndian::write_u32(&mut header[4..], STREAM_FORMAT);
    BigEndian::write_u64(&mut header[8..], since);
    header
}

/// The frame of these records at this place of a stream. Want of memory is the answer too where a length has no room in its
/// bytes.
pub fn changes_frame(
    alloc: Global,
    at: u64,
    records: &[(Key, Change)],
) -> Result<Vec<u8>, AllocError>
    ensures { IfOk result (λ frame. frame.items ≡ item_frame stream_grammar 0 at (Records records.now)) }
{
    let mut frame = unfinished_changes(alloc, records)?;
    finish_frame(&mut frame, 0, at, FrameKind::Changes)?;
    Ok(frame)
}

/// The frame of the end at this place of a stream.
pub fn end_frame(alloc: Global, at: u64, number: u64, records: u64) -> Result<Vec<u8>, AllocError>
    ensures { IfOk result (λ frame. frame.items ≡ item_frame stream_grammar 0 at (End number records)) }
{
    let mut frame = unfinished_end(alloc, number, records)?;
    finish_frame(&mut frame, 0, at, FrameKind::BackupEnd)?;
    Ok(frame)
}

// The body of the frame of these records, behind room for its head.
#[tactic(auto, unfolding(crate::specs::Pieces::changes_body))]
fn unfinished_changes(alloc: Global, records: &[(Key, Change)]) -> Result<Vec<u8>, AllocError>
    ensures { IfOk result (λ frame. frame.items ≡ head_room ++ changes_body records.now) }
{
    if records.len() > u32::MAX as usize {
        return Err(AllocError);
    }
    let mut count = [0; 4];
    BigEndian::write_u32(&mut count, records.len() as u32);
    let mut frame = Vec::new(alloc);
    frame.extend_from_slice(&[0; HEAD_BYTES])?;
    frame.extend_from_slice(&count)?;
    write_records(&mut frame, records)?;
    Ok(frame)
}

// That of the end likewise.
fn unfinished_end(alloc: Global, number: u64, records: u64) -> Result<Vec<u8>, AllocError>
    ensures { IfOk result (λ frame. frame.items ≡ head_room ++ end_body number records) }
{
    let mut body = [0; 16];
    BigEndian::write_u64(&mut body, number);
    BigEndian::write_u64(&mut body[8..], records);
    let mut frame = Vec::new(alloc);
    frame.extend_from_slice(&[0; HEAD_BYTES])?;
    frame.extend_from_slice(&body)?;
    Ok(frame)
}

// Appends records, in their order.
fn write_records(out: &mut Vec<u8>, records: &[(Key, Change)]) -> Result<(), AllocError>
    ensures { OnOk result (out.new.items ≡ out.old.items ++ records_bytes record_format records.now) }
{
    for (key, change) in records {
        write_one(out, key, change)?;
    }
    Ok(())
}

// Appends one record.
fn write_one(out: &mut Vec<u8>, key: &Key, change: &Change) -> Result<(), AllocError>
    ensures { OnOk result (out.new.items ≡ out.old.items ++ record_bytes record_format key.now change.now) }
{
    match change {
        Change::Set(value) => write_record(out, key.as_slice(), Some(value.as_slice()), value.tag),
        Change::Delete => write_record(out, key.as_slice(), None, 0),
    }
}
