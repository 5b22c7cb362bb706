//! Tables, gone over both ways and in an interval.

use crate::disk::{failing, open, versions_of, whole};
use crate::tables::{FILTERED, flipped};
use std::alloc::Global;
use std::test::Fail;
use vl_disk::{Name, ReadFault};
use vl_mem::{MemHeld, MemReader};
use vl_model::{Bytes, Cursor, Span, Way};
use vl_table::{Table, TableCursor};

type TestCursor = TableCursor<MemHeld, MemReader>;

fn push_both(alloc: Global, tables: &mut Vec<Table<MemHeld>>) -> Result<(), Fail> {
    tables.push(open(alloc, 1, &FILTERED)?)?;
    tables.push(versions_of(alloc, 2, b"c", &[9, 5, 2])?)?;
    Ok(())
}

// A cursor over a table of the keys a and b, and behind it one of three versions of c.
fn cursor(alloc: Global, span: Span, way: Way) -> Result<TestCursor, Fail> {
    let mut tables = Vec::new(alloc);
    push_both(alloc, &mut tables)?;
    Ok(TableCursor::new(alloc, tables, span, way)?)
}

// The version of the next entry, if one is left.
fn next(cursor: &mut TestCursor, reader: &mut MemReader) -> Result<Option<u64>, ReadFault> {
    match cursor.next(reader)? {
        Some(entry) => Ok(Some(entry.version)),
        None => Ok(None),
    }
}

// Whether a cursor gives these versions, one behind the other, and no more.
fn gives(cursor: &mut TestCursor, reader: &mut MemReader, versions: &[u64]) -> bool {
    for version in versions {
        if next(cursor, reader) != Ok(Some(*version)) {
            return false;
        }
    }
    next(cursor, reader) == Ok(None) && next(cursor, reader) == Ok(None)
}

// Whether the tables' entries in an interval have these versions, by a reader that fails at these reads.
fn shows(
    alloc: Global,
    span: Span,
    way: Way,
    reads: &[u64],
    versions: &[u64],
) -> Result<bool, Fail> {
    let mut cursor = cursor(alloc, span, way)?;
    let mut reader = failing(alloc, reads)?;
    Ok(gives(&mut cursor, &mut reader, versions))
}

#[test]
fn tables_are_gone_over_both_ways(rt: HostRuntime) -> Result<(), Fail> {
    let alloc = rt.alloc();
    assert!(rt; shows(alloc, whole(), Way::Up, &[], &[1, 1, 9, 5, 2])?);
    assert!(rt; shows(alloc, whole(), Way::Down, &[], &[2, 5, 9, 1, 1])?);
    Ok(())
}

fn from_c(alloc: Global) -> Result<Span, Fail> {
    Ok(Span {
        lo: Some(Bytes::copy_of(alloc, b"c")?),
        hi: None,
        closed: false,
    })
}

fn up_to_b(alloc: Global) -> Result<Span, Fail> {
    Ok(Span {
        lo: None,
        hi: Some(Bytes::copy_of(alloc, b"b")?),
        closed: true,
    })
}

// Of a table that lies outside of the interval no block is read: the second read would fail.
#[test]
fn an_interval_is_gone_over(rt: HostRuntime) -> Result<(), Fail> {
    let alloc = rt.alloc();
    assert!(rt; shows(alloc, from_c(alloc)?, Way::Up, &[2], &[9, 5, 2])?);
    assert!(rt; shows(alloc, up_to_b(alloc)?, Way::Up, &[2], &[1, 1])?);
    Ok(())
}

// A cursor over the one table, whose block doesn't stand.
fn damaged_cursor(alloc: Global) -> Result<TestCursor, Fail> {
    let mut tables = Vec::new(alloc);
    tables.push(open(alloc, 1, &flipped(alloc, 40, 1)?)?)?;
    Ok(TableCursor::new(alloc, tables, whole(), Way::Up)?)
}

fn is_damaged(cursor: &mut TestCursor, reader: &mut MemReader) -> bool {
    next(cursor, reader)
        == Err(ReadFault::Damaged {
            name: Name::Table(1),
            place: 16,
        })
}

// The block that doesn't stand is read again at each call.
#[test]
fn a_bad_block_is_named(rt: HostRuntime) -> Result<(), Fail> {
    let alloc = rt.alloc();
    let mut cursor = damaged_cursor(alloc)?;
    let mut reader = failing(alloc, &[])?;
    assert!(rt; is_damaged(&mut cursor, &mut reader));
    assert!(rt; is_damaged(&mut cursor, &mut reader));
    Ok(())
}
