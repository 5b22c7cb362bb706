//! How many reads look-ups need, by a reader of which a read fails that isn't to be made.

use crate::disk::{blocks, exact, failing, find, is_disk_fault, open, open_by, valued, written};
use crate::tables::FILTERED;
use std::alloc::{AllocError, Global};
use std::test::Fail;
use vl_mem::{MemHeld, MemReader};
use vl_model::Entry;
use vl_table::{AddFail, BlockReader, Table};

fn push_versions(alloc: Global, entries: &mut Vec<Entry>) -> Result<(), AllocError> {
    for past in 0..100u64 {
        entries.push(valued(alloc, b"k", 100 - past)?)?;
    }
    Ok(())
}

// The bytes of table 1 of the key k at the versions from 100 down to 1. Its two blocks have 52 and 48 of them.
fn two_blocks_of(alloc: Global) -> Result<Vec<u8>, AddFail> {
    let mut entries = Vec::new(alloc);
    push_versions(alloc, &mut entries)?;
    written(alloc, 1, &entries)
}

fn two_blocks(alloc: Global) -> Result<Table<MemHeld>, Fail> {
    let bytes = two_blocks_of(alloc)?;
    Ok(open(alloc, 1, &bytes)?)
}

fn finds_each(table: &Table<MemHeld>, reader: &mut BlockReader<MemReader>) -> bool {
    for version in [100, 49, 48, 1] {
        if find(table, reader, b"k", version) != Ok(Some(version))
            || exact(table, reader, b"k", version) != Ok(Some(version))
        {
            return false;
        }
    }
    find(table, reader, b"k", 0) == Ok(None) && exact(table, reader, b"k", 101) == Ok(None)
}

#[test]
fn one_key_is_found_over_blocks(rt: HostRuntime) -> Result<(), Fail> {
    let alloc = rt.alloc();
    let table = two_blocks(alloc)?;
    let mut reader = blocks(alloc, &[])?;
    assert!(rt; finds_each(&table, &mut reader));
    Ok(())
}

fn reads_once(table: &Table<MemHeld>, reader: &mut BlockReader<MemReader>) -> bool {
    find(table, reader, b"k", 100) == Ok(Some(100))
        && exact(table, reader, b"k", 49) == Ok(Some(49))
        && is_disk_fault(&find(table, reader, b"k", 48))
        && find(table, reader, b"k", 100) == Ok(Some(100))
        && find(table, reader, b"k", 48) == Ok(Some(48))
}

#[test]
fn a_block_that_is_kept_is_not_read(rt: HostRuntime) -> Result<(), Fail> {
    let alloc = rt.alloc();
    let table = two_blocks(alloc)?;
    let mut reader = blocks(alloc, &[2])?;
    assert!(rt; reads_once(&table, &mut reader));
    Ok(())
}

// All entries are of one key, so each look-up begins in the first block.
fn reads_the_first_again(table: &Table<MemHeld>, reader: &mut BlockReader<MemReader>) -> bool {
    find(table, reader, b"k", 100) == Ok(Some(100))
        && find(table, reader, b"k", 49) == Ok(Some(49))
        && find(table, reader, b"k", 48) == Ok(Some(48))
        && is_disk_fault(&find(table, reader, b"k", 100))
}

#[test]
fn a_reader_of_one_block_keeps_the_last(rt: HostRuntime) -> Result<(), Fail> {
    let alloc = rt.alloc();
    let table = two_blocks(alloc)?;
    let mut reader = BlockReader::new(alloc, failing(alloc, &[3])?, 1)?;
    assert!(rt; reads_the_first_again(&table, &mut reader));
    Ok(())
}

fn reads_for_one_alone(table: &Table<MemHeld>, reader: &mut BlockReader<MemReader>) -> bool {
    find(table, reader, b"c", 9) == Ok(None)
        && find(table, reader, b"A", 9) == Ok(None)
        && find(table, reader, b"ab", 9) == Ok(None)
        && is_disk_fault(&find(table, reader, b"a", 9))
}

#[test]
fn nothing_is_read_where_the_key_is_refused(rt: HostRuntime) -> Result<(), Fail> {
    let alloc = rt.alloc();
    let table = open(alloc, 1, &FILTERED)?;
    let mut reader = blocks(alloc, &[1])?;
    assert!(rt; reads_for_one_alone(&table, &mut reader));
    Ok(())
}

// Whether the table with these bytes is opened by the reads before one.
fn opens_before(alloc: Global, bytes: &[u8], read: u64) -> Result<bool, AllocError> {
    let mut reader = failing(alloc, &[read])?;
    Ok(open_by(alloc, &mut reader, 1, bytes).is_ok())
}

#[test]
fn a_table_is_opened_in_few_reads(rt: HostRuntime) -> Result<(), Fail> {
    let alloc = rt.alloc();
    assert!(rt; opens_before(alloc, &FILTERED, 3)?);
    assert!(rt; !opens_before(alloc, &FILTERED, 2)?);
    let long = two_blocks_of(alloc)?;
    assert!(rt; opens_before(alloc, &long, 3)?);
    Ok(())
}
