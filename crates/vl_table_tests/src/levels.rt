//! Look-ups in tables that overlap, and in those of a deeper level.

use crate::disk::{Answer, blocks, is_disk_fault, versions_of};
use std::alloc::Global;
use std::test::Fail;
use vl_mem::{MemHeld, MemReader};
use vl_table::{BlockReader, Table};
use vl_version::{Level, Levels};

// Adds tables of one deletion each, by their numbers, keys and versions.
fn push_tables(
    alloc: Global,
    tables: &mut Vec<Table<MemHeld>>,
    rows: &[(u32, u8, u64)],
) -> Result<(), Fail> {
    for (number, key, version) in rows {
        tables.push(versions_of(alloc, *number, &[*key], &[*version])?)?;
    }
    Ok(())
}

fn tables_of(alloc: Global, rows: &[(u32, u8, u64)]) -> Result<Vec<Table<MemHeld>>, Fail> {
    let mut tables = Vec::new(alloc);
    push_tables(alloc, &mut tables, rows)?;
    Ok(tables)
}

fn deeper(alloc: Global) -> Result<Vec<Level<MemHeld>>, Fail> {
    let level = Level::new(tables_of(alloc, &[(3, b'c', 5), (4, b'e', 6)])?);
    let mut deeper = Vec::new(alloc);
    deeper.push(level)?;
    Ok(deeper)
}

// Level 0 has the key b at version 3 in its newest table and at version 4 in the other; level 1 has c at 5, and e at 6.
fn levels(alloc: Global) -> Result<Levels<MemHeld>, Fail> {
    let newest = tables_of(alloc, &[(1, b'b', 3), (2, b'b', 4)])?;
    Ok(Levels::new(newest, deeper(alloc)?))
}

// What is found of a key up to a version.
fn find(
    levels: &Levels<MemHeld>,
    reader: &mut BlockReader<MemReader>,
    key: &[u8],
    version: u64,
) -> Answer {
    match levels.find(reader, key, version, None)? {
        Some(found) => Ok(Some(found.version)),
        None => Ok(None),
    }
}

// What is found of a key at just one version.
fn exact(
    levels: &Levels<MemHeld>,
    reader: &mut BlockReader<MemReader>,
    key: &[u8],
    version: u64,
) -> Answer {
    match levels.exact(reader, key, version)? {
        Some(found) => Ok(Some(found.version)),
        None => Ok(None),
    }
}

fn finds_in_all(levels: &Levels<MemHeld>, reader: &mut BlockReader<MemReader>) -> bool {
    find(levels, reader, b"b", 9) == Ok(Some(4))
        && find(levels, reader, b"b", 3) == Ok(Some(3))
        && find(levels, reader, b"c", 9) == Ok(Some(5))
        && find(levels, reader, b"e", 6) == Ok(Some(6))
        && find(levels, reader, b"d", 9) == Ok(None)
        && exact(levels, reader, b"e", 6) == Ok(Some(6))
}

#[test]
fn all_levels_are_looked_in(rt: HostRuntime) -> Result<(), Fail> {
    let alloc = rt.alloc();
    let levels = levels(alloc)?;
    let mut reader = blocks(alloc, &[])?;
    assert!(rt; finds_in_all(&levels, &mut reader));
    Ok(())
}

fn reads_the_newer_alone(levels: &Levels<MemHeld>, reader: &mut BlockReader<MemReader>) -> bool {
    find(levels, reader, b"b", 9) == Ok(Some(4))
        && exact(levels, reader, b"b", 4) == Ok(Some(4))
        && exact(levels, reader, b"b", 5) == Ok(None)
        && is_disk_fault(&exact(levels, reader, b"b", 3))
        && exact(levels, reader, b"b", 3) == Ok(Some(3))
}

// A table that has nothing newer than what was found isn't read: the second read would fail.
#[test]
fn older_tables_are_not_read(rt: HostRuntime) -> Result<(), Fail> {
    let alloc = rt.alloc();
    let newest = tables_of(alloc, &[(1, b'b', 4), (2, b'b', 3)])?;
    let levels = Levels::new(newest, Vec::new(alloc));
    let mut reader = blocks(alloc, &[2])?;
    assert!(rt; reads_the_newer_alone(&levels, &mut reader));
    Ok(())
}
