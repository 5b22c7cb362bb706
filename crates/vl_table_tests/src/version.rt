//! A version's tables, read with its memory.

use crate::disk::{blocks, open, versions_of};
use crate::tables::FILTERED;
use std::alloc::Global;
use std::test::Fail;
use vl_disk::ReadFault;
use vl_mem::{MemHeld, MemReader};
use vl_model::Way;
use vl_table::{BlockReader, Table};
use vl_txn::Writes;
use vl_version::{Found, Levels, Version, Wanted};

fn push_both(alloc: Global, tables: &mut Vec<Table<MemHeld>>) -> Result<(), Fail> {
    tables.push(versions_of(alloc, 2, b"a", &[5])?)?;
    tables.push(open(alloc, 1, &FILTERED)?)?;
    Ok(())
}

// In the newest table a is deleted at version 5. The other one has a, with a value beside it, and b, whose record would stand
// in a log, at version 1.
fn version(alloc: Global) -> Result<Version<MemHeld>, Fail> {
    let mut newest = Vec::new(alloc);
    push_both(alloc, &mut newest)?;
    let levels = Levels::new(newest, Vec::new(alloc));
    Ok(Version::new(alloc, Vec::new(alloc), levels, Vec::new(alloc)))
}

// How long a key's value is at a number, if it has one.
fn length_at(
    alloc: Global,
    version: &Version<MemHeld>,
    reader: &mut BlockReader<MemReader>,
    key: &[u8],
    number: u64,
) -> Result<Option<usize>, ReadFault> {
    match version.get(alloc, reader, key, number)? {
        Some(value) => Ok(Some(value.len())),
        None => Ok(None),
    }
}

fn gets(alloc: Global, version: &Version<MemHeld>, reader: &mut BlockReader<MemReader>) -> bool {
    length_at(alloc, version, reader, b"a", 4) == Ok(Some(64))
        && length_at(alloc, version, reader, b"a", 5) == Ok(None)
        && length_at(alloc, version, reader, b"b", 5).is_err()
}

fn fills(version: &Version<MemHeld>, reader: &mut BlockReader<MemReader>) -> bool {
    let mut out = [0; 64];
    version.get_into(reader, b"a", 4, &mut out[..63]) == Ok(Found::Small(64))
        && version.get_into(reader, b"a", 4, &mut out) == Ok(Found::Here(64))
        && out[63] == 0xaa
}

// How many rows a scan up to the key b gives at a number.
fn row_count(
    alloc: Global,
    version: &Version<MemHeld>,
    reader: &mut BlockReader<MemReader>,
    number: u64,
) -> Result<usize, ReadFault> {
    let own = Writes::new(alloc);
    let wanted = Wanted {
        low: b"",
        high: b"b",
        limit: 9,
        way: Way::Down,
    };
    Ok(version.rows(alloc, reader, &own, wanted, number)?.len())
}

fn scans(alloc: Global, version: &Version<MemHeld>, reader: &mut BlockReader<MemReader>) -> bool {
    row_count(alloc, version, reader, 4) == Ok(1) && row_count(alloc, version, reader, 5) == Ok(0)
}

#[test]
fn a_version_looks_in_its_tables(rt: HostRuntime) -> Result<(), Fail> {
    let alloc = rt.alloc();
    let version = version(alloc)?;
    let mut reader = blocks(alloc, &[])?;
    assert!(rt; gets(alloc, &version, &mut reader));
    assert!(rt; fills(&version, &mut reader));
    assert!(rt; scans(alloc, &version, &mut reader));
    Ok(())
}
