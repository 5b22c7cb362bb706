//! A run in memory and a table in one merge, with one reader.

use crate::disk::{failing, gone, open, whole};
use crate::source::Source;
use crate::tables::TABLE;
use std::alloc::Global;
use std::test::Fail;
use vl_disk::ReadFault;
use vl_mem::{MemHeld, MemReader};
use vl_memtable::{Run, RunCursor};
use vl_merge::Merge;
use vl_model::{Cursor, Way};
use vl_table::TableCursor;

type TestSource = Source<MemHeld, MemReader>;

// A cursor over a run of one deletion.
fn memory(alloc: Global, key: &[u8], version: u64) -> Result<RunCursor, Fail> {
    let mut entries = Vec::new(alloc);
    entries.push(gone(alloc, key, version)?)?;
    Ok(Run::from_writes(entries)?.cursor(Way::Up)?)
}

fn table(alloc: Global) -> Result<TableCursor<MemHeld, MemReader>, Fail> {
    let mut tables = Vec::new(alloc);
    tables.push(open(alloc, 1, &TABLE)?)?;
    Ok(TableCursor::new(alloc, tables, whole(), Way::Up)?)
}

fn push_sources(alloc: Global, sources: &mut Vec<TestSource>) -> Result<(), Fail> {
    sources.push(Source::Memory(memory(alloc, b"b", 2)?))?;
    sources.push(Source::Table(table(alloc)?))?;
    Ok(())
}

fn merge(alloc: Global) -> Result<Merge<TestSource>, Fail> {
    let mut sources = Vec::new(alloc);
    push_sources(alloc, &mut sources)?;
    Ok(Merge::new(sources, Way::Up)?)
}

// The version of the next entry, if one is left.
fn next(merge: &mut Merge<TestSource>, reader: &mut MemReader) -> Result<Option<u64>, ReadFault> {
    match merge.next(reader)? {
        Some(entry) => Ok(Some(entry.version)),
        None => Ok(None),
    }
}

fn gives_all(merge: &mut Merge<TestSource>, reader: &mut MemReader) -> bool {
    next(merge, reader) == Ok(Some(1))
        && next(merge, reader) == Ok(Some(2))
        && next(merge, reader) == Ok(Some(1))
        && next(merge, reader) == Ok(None)
}

#[test]
fn one_reader_serves_memory_and_a_table(rt: HostRuntime) -> Result<(), Fail> {
    let alloc = rt.alloc();
    let mut merge = merge(alloc)?;
    let mut reader = failing(alloc, &[])?;
    assert!(rt; gives_all(&mut merge, &mut reader));
    Ok(())
}
