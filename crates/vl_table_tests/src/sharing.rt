//! Tables that are made of the shape that their writer gives, and shared.

use crate::disk::{blocks, find, gone, open, shaped, write};
use crate::tables::FILTERED;
use std::alloc::Global;
use std::test::Fail;
use vl_mem::{MemHeld, MemReader};
use vl_model::Entry;
use vl_table::{AddFail, BlockReader, Table, TableWriter, Tail};

fn write_one(alloc: Global, out: &mut Vec<u8>, key: &[u8]) -> Result<Tail, Fail> {
    let entries = [gone(alloc, key, 1)?];
    let tail = write(alloc, out, 1, &entries)?;
    tail.append_to(out)?;
    Ok(tail)
}

// The table with one deletion of a key, which isn't opened.
fn unopened(alloc: Global, key: &[u8]) -> Result<Table<MemHeld>, Fail> {
    let mut out = Vec::new(alloc);
    let tail = write_one(alloc, &mut out, key)?;
    shaped(alloc, 1, tail.shape, &out)
}

fn finds_a_alone(table: &Table<MemHeld>, reader: &mut BlockReader<MemReader>) -> bool {
    find(table, reader, b"a", 1) == Ok(Some(1)) && find(table, reader, b"b", 1) == Ok(None)
}

#[test]
fn a_written_table_is_not_opened(rt: HostRuntime) -> Result<(), Fail> {
    let alloc = rt.alloc();
    let table = unopened(alloc, b"a")?;
    let mut reader = blocks(alloc, &[2])?;
    assert!(rt; finds_a_alone(&table, &mut reader));
    Ok(())
}

// What was read of a table is kept for those that share it: the second read would fail.
#[test]
fn a_table_is_shared(rt: HostRuntime) -> Result<(), Fail> {
    let alloc = rt.alloc();
    let table = open(alloc, 1, &FILTERED)?;
    let shared = table.share()?;
    let mut reader = blocks(alloc, &[2])?;
    assert!(rt; find(&table, &mut reader, b"a", 9) == Ok(Some(1)));
    assert!(rt; find(&shared, &mut reader, b"b", 9) == Ok(Some(1)));
    Ok(())
}

fn counts(writer: &mut TableWriter, out: &mut Vec<u8>, first: &Entry, second: &Entry) -> bool {
    writer.block_bytes() == 29
        && writer.add(out, first) == Err(AddFail::NotLawful)
        && writer.add(out, second) == Ok(())
        && writer.block_bytes() == 41
}

fn writes_two(alloc: Global, out: &mut Vec<u8>) -> Result<bool, Fail> {
    let first = gone(alloc, b"a", 2)?;
    let second = gone(alloc, b"a", 1)?;
    let mut writer = TableWriter::begin(alloc, out, 1, &first)?;
    Ok(counts(&mut writer, out, &first, &second))
}

// A deletion of the key a has 12 bytes, the count of a block's entries 4, and its frame 13 more.
#[test]
fn a_writer_counts_and_refuses(rt: HostRuntime) -> Result<(), Fail> {
    let mut out = Vec::new(rt.alloc());
    assert!(rt; writes_two(rt.alloc(), &mut out)?);
    Ok(())
}
