//! Logs that are appended to no more, by their bytes: the values that pointers lead to, and the frames one by one.

ghost use Rattle.std.specs.Prelude.{◌≡◌};

use crate::disk::failing;
use std::alloc::{AllocError, Global};
use std::test::Fail;
use vl_disk::{Name, ReadFault};
use vl_mem::{MemHeld, MemReader};
use vl_model::Pointer;
use vl_seglog::{Filled, Frame, Said, SealedLog, read_log};

// Log 1 with a commit and a relocation, as docs/FORMATS.md has them.
const LOG: [u8; 86] = [
    0x56, 0x4c, 0x4f, 0x47, 0x00, 0x00, 0x00, 0x02, 0x00, 0x00, 0x00, 0x01, 0x00, 0x00, 0x00, 0x00,
    0x01, 0x00, 0x00, 0x00, 0x16, 0x00, 0x00, 0x00, 0x00, 0x00, 0x00, 0x00, 0x01, 0x00, 0x00, 0x00,
    0x01, 0x00, 0x07, 0x00, 0x01, 0x00, 0x00, 0x00, 0x01, 0x61, 0x01, 0x63, 0xf4, 0x6e, 0x62, 0xcd,
    0x3a, 0x7e, 0x99, 0x02, 0x00, 0x00, 0x00, 0x16, 0x00, 0x00, 0x00, 0x01, 0x00, 0x00, 0x00, 0x00,
    0x00, 0x00, 0x00, 0x01, 0x00, 0x07, 0x00, 0x01, 0x00, 0x00, 0x00, 0x01, 0x61, 0x01, 0x1a, 0x6f,
    0x5b, 0xd6, 0xa8, 0xc6, 0xb8, 0xb8,
];

// Log 1 with the commit, in format 1.
const OLD_LOG: [u8; 50] = [
    0x56, 0x4c, 0x4f, 0x47, 0x00, 0x00, 0x00, 0x01, 0x00, 0x00, 0x00, 0x01, 0x00, 0x00, 0x00, 0x00,
    0x01, 0x00, 0x00, 0x00, 0x15, 0x00, 0x00, 0x00, 0x00, 0x00, 0x00, 0x00, 0x01, 0x00, 0x00, 0x00,
    0x01, 0x00, 0x00, 0x01, 0x00, 0x00, 0x00, 0x01, 0x61, 0x01, 0x4b, 0x93, 0xa9, 0x61, 0xb6, 0xcc,
    0xa4, 0xb4,
];

// The log of these bytes.
fn sealed(alloc: Global, format: u32, bytes: &[u8]) -> Result<SealedLog<MemHeld>, AllocError> {
    let bytes = Vec::from_slice(alloc, bytes)?;
    Ok(SealedLog {
        number: 1,
        format,
        held: MemHeld::new(alloc, Name::Log(1), bytes),
    })
}

// The place of a record in a log.
fn at(log: &SealedLog<MemHeld>, place: u64, length: u32) -> Pointer
    ensures { result.segment ≡ log.now.number }
{
    Pointer {
        segment: log.number,
        place,
        length,
    }
}

fn ends(alloc: Global, bytes: &[u8]) -> Result<(Option<u32>, u64), AllocError> {
    let read = read_log(alloc, bytes, 1)?;
    Ok((read.header, read.end))
}

#[test]
fn a_log_says_its_format(rt: HostRuntime) -> Result<(), Fail> {
    assert!(rt; ends(rt.alloc(), &LOG) == Ok((Some(2), 86)));
    assert!(rt; ends(rt.alloc(), &OLD_LOG) == Ok((Some(1), 50)));
    Ok(())
}

// Whether a's value in the record at a place is the byte 1, with this tag.
fn reads(
    alloc: Global,
    log: &SealedLog<MemHeld>,
    reader: &mut MemReader,
    pointer: Pointer,
    tag: u8,
) -> bool
    requires { pointer.segment ≡ log.now.number }
{
    match log.read_at(alloc, reader, pointer, b"a") {
        Ok(value) => value.as_slice() == [1].as_slice() && value.tag == tag,
        Err(_) => false,
    }
}

// A value of format 1 has tag 0.
#[test]
fn a_value_is_read_with_its_tag(rt: HostRuntime) -> Result<(), Fail> {
    let alloc = rt.alloc();
    let mut reader = failing(alloc, &[])?;
    let log = sealed(alloc, 2, &LOG)?;
    assert!(rt; reads(alloc, &log, &mut reader, at(&log, 33, 10), 7));
    assert!(rt; reads(alloc, &log, &mut reader, at(&log, 68, 10), 7));
    let old = sealed(alloc, 1, &OLD_LOG)?;
    assert!(rt; reads(alloc, &old, &mut reader, at(&old, 33, 9), 0));
    Ok(())
}

// Whether the place of a record is damage where a value of a key is read there.
fn is_damaged(
    alloc: Global,
    log: &SealedLog<MemHeld>,
    reader: &mut MemReader,
    pointer: Pointer,
    key: &[u8],
) -> bool
    requires { pointer.segment ≡ log.now.number }
{
    match log.read_at(alloc, reader, pointer, key) {
        Err(ReadFault::Damaged { place, .. }) => place == pointer.place,
        _ => false,
    }
}

// Another key, a wrong length, the version of a moved record, and a place past the end.
fn finds_each(alloc: Global, log: &SealedLog<MemHeld>, reader: &mut MemReader) -> bool {
    is_damaged(alloc, log, reader, at(log, 33, 10), b"b")
        && is_damaged(alloc, log, reader, at(log, 33, 9), b"a")
        && is_damaged(alloc, log, reader, at(log, 60, 10), b"a")
        && is_damaged(alloc, log, reader, at(log, 80, 10), b"a")
}

#[test]
fn where_no_value_of_the_key_lies_is_damage(rt: HostRuntime) -> Result<(), Fail> {
    let alloc = rt.alloc();
    let log = sealed(alloc, 2, &LOG)?;
    let mut reader = failing(alloc, &[])?;
    assert!(rt; finds_each(alloc, &log, &mut reader));
    Ok(())
}

fn fills(log: &SealedLog<MemHeld>, reader: &mut MemReader) -> bool {
    let mut out = [9, 9];
    log.read_into(reader, at(log, 33, 10), b"a", &mut out) == Ok(Filled::Here(1))
        && out == [1, 9]
        && log.read_into(reader, at(log, 33, 10), b"a", &mut out[..0]) == Ok(Filled::Small(1))
}

#[test]
fn a_value_is_read_into_bytes_that_have_room(rt: HostRuntime) -> Result<(), Fail> {
    let alloc = rt.alloc();
    let log = sealed(alloc, 2, &LOG)?;
    let mut reader = failing(alloc, &[])?;
    assert!(rt; fills(&log, &mut reader));
    Ok(())
}

// The pointer to a frame's first record.
fn first_of(frame: &Frame) -> Option<Pointer> {
    let records = match &frame.said {
        Said::Commit(commit) => &commit.records,
        Said::Moves(records) => records,
    };
    match records.first() {
        Some(record) => Some(record.pointer),
        None => None,
    }
}

// The pointer to the first record of the frame at a place.
fn first_record(
    alloc: Global,
    log: &SealedLog<MemHeld>,
    reader: &mut MemReader,
    place: u64,
) -> Result<Option<Pointer>, ReadFault> {
    match log.scan_from(alloc, reader, place)? {
        Some(frame) => Ok(first_of(&frame)),
        None => Ok(None),
    }
}

fn scans(alloc: Global, log: &SealedLog<MemHeld>, reader: &mut MemReader) -> bool {
    first_record(alloc, log, reader, 16) == Ok(Some(at(log, 33, 10)))
        && first_record(alloc, log, reader, 51) == Ok(Some(at(log, 68, 10)))
        && first_record(alloc, log, reader, 86) == Ok(None)
        && matches!(
            first_record(alloc, log, reader, 52),
            Err(ReadFault::Damaged { place: 52, .. })
        )
}

#[test]
fn frames_are_scanned_one_by_one(rt: HostRuntime) -> Result<(), Fail> {
    let alloc = rt.alloc();
    let log = sealed(alloc, 2, &LOG)?;
    let mut reader = failing(alloc, &[])?;
    assert!(rt; scans(alloc, &log, &mut reader));
    Ok(())
}
