//! Which merges are planned of tables by their levels. Of their files nothing is looked at but the length.

use crate::disk::{far, gone, shaped, write};
use std::alloc::{AllocError, Global};
use std::test::Fail;
use vl_compact::{Inputs, drained, planned};
use vl_engine_model::Target;
use vl_mem::MemHeld;
use vl_model::Entry;
use vl_table::Table;
use vl_version::{Level, Levels};

// The table with this number of these entries, in a file of so many bytes.
fn table(
    alloc: Global,
    number: u32,
    entries: &[Entry],
    length: usize,
) -> Result<Table<MemHeld>, Fail> {
    let mut out = Vec::new(alloc);
    let tail = write(alloc, &mut out, number, entries)?;
    let bytes = vec![in alloc; 0; length]?;
    shaped(alloc, number, tail.shape, &bytes)
}

// A table with its number, and its first and its last key.
type Row = (u32, u8, u8);

// A table of two deletions, in a file of so many bytes.
fn ranged(alloc: Global, row: Row, length: usize) -> Result<Table<MemHeld>, Fail> {
    let (number, first, last) = row;
    let entries = [gone(alloc, &[first], 2)?, gone(alloc, &[last], 1)?];
    table(alloc, number, &entries, length)
}

// A table of two keys whose values lie in a segment.
fn leading(alloc: Global, row: Row, segment: u32) -> Result<Table<MemHeld>, Fail> {
    let (number, first, last) = row;
    let entries = [
        far(alloc, &[first], segment)?,
        far(alloc, &[last], segment)?,
    ];
    table(alloc, number, &entries, 1)
}

// So many bytes of short tables are far from enough to make a level due.
const SHORT: usize = 1;

fn push_short(alloc: Global, tables: &mut Vec<Table<MemHeld>>, rows: &[Row]) -> Result<(), Fail> {
    for row in rows {
        tables.push(ranged(alloc, *row, SHORT)?)?;
    }
    Ok(())
}

fn short_tables(alloc: Global, rows: &[Row]) -> Result<Vec<Table<MemHeld>>, Fail> {
    let mut tables = Vec::new(alloc);
    push_short(alloc, &mut tables, rows)?;
    Ok(tables)
}

// Level 1 of these tables, with no level below it.
fn one_level(alloc: Global, tables: Vec<Table<MemHeld>>) -> Result<Vec<Level<MemHeld>>, Fail> {
    let mut deeper = Vec::new(alloc);
    deeper.push(Level::new(tables))?;
    Ok(deeper)
}

// Whether a merge is of the tables with these numbers.
fn has_numbers(inputs: &Inputs<MemHeld>, numbers: &[u32]) -> bool {
    if inputs.tables.len() != numbers.len() {
        return false;
    }
    for (table, number) in inputs.tables.iter().zip(numbers) {
        if table.shape().number != *number {
            return false;
        }
    }
    true
}

fn is_level(target: &Target, level: Option<u8>) -> bool {
    match target {
        Target::Level(found) => level == Some(*found),
        Target::InPlace => level.is_none(),
    }
}

// What is planned, if anything is.
type Planned = Result<Option<Inputs<MemHeld>>, AllocError>;

fn is_of(found: Planned, numbers: &[u32]) -> bool {
    match found {
        Ok(Some(inputs)) => has_numbers(&inputs, numbers),
        _ => false,
    }
}

// Whether a merge is of the tables with these numbers, and into this level; in place where there is none.
fn is_merge(found: Planned, numbers: &[u32], level: Option<u8>) -> bool {
    match found {
        Ok(Some(inputs)) => has_numbers(&inputs, numbers) && is_level(&inputs.target, level),
        _ => false,
    }
}

fn is_none(found: Planned) -> bool {
    matches!(found, Ok(None))
}

// The newest first.
const NEWEST: [Row; 4] = [
    (4, b'd', b'd'),
    (3, b'c', b'd'),
    (2, b'f', b'f'),
    (1, b'e', b'e'),
];

// Three of them have a key from c to f: 6 has c alone, and 8 has f alone.
const BELOW: [Row; 5] = [
    (5, b'a', b'a'),
    (6, b'b', b'c'),
    (7, b'd', b'e'),
    (8, b'f', b'g'),
    (9, b'h', b'h'),
];

fn levels(alloc: Global, newest: &[Row]) -> Result<Levels<MemHeld>, Fail> {
    let deeper = one_level(alloc, short_tables(alloc, &BELOW)?)?;
    Ok(Levels::new(short_tables(alloc, newest)?, deeper))
}

#[test]
fn four_tables_are_merged_with_those_that_they_meet(rt: HostRuntime) -> Result<(), Fail> {
    let alloc = rt.alloc();
    let four = levels(alloc, &NEWEST)?;
    assert!(rt; is_merge(planned(alloc, &four), &[4, 3, 2, 1, 6, 7, 8], Some(1)));
    let three = levels(alloc, &NEWEST[..3])?;
    assert!(rt; is_none(planned(alloc, &three)));
    Ok(())
}

fn push_long(alloc: Global, tables: &mut Vec<Table<MemHeld>>, length: usize) -> Result<(), Fail> {
    tables.push(ranged(alloc, (7, b'a', b'b'), 4_194_300)?)?;
    tables.push(ranged(alloc, (3, b'c', b'd'), length)?)?;
    Ok(())
}

// Level 1 with tables 7 and 3, of which the one has 4,194,300 bytes and the other so many, over level 2.
fn push_levels(alloc: Global, deeper: &mut Vec<Level<MemHeld>>, length: usize) -> Result<(), Fail> {
    let mut first = Vec::new(alloc);
    push_long(alloc, &mut first, length)?;
    deeper.push(Level::new(first))?;
    let second = short_tables(alloc, &[(4, b'b', b'c'), (5, b'e', b'f')])?;
    deeper.push(Level::new(second))?;
    Ok(())
}

fn long_level(alloc: Global, length: usize) -> Result<Levels<MemHeld>, Fail> {
    let mut deeper = Vec::new(alloc);
    push_levels(alloc, &mut deeper, length)?;
    Ok(Levels::new(Vec::new(alloc), deeper))
}

// Level 1 may have 4,194,304 bytes.
#[test]
fn a_level_with_a_byte_too_many_gives_its_oldest_table(rt: HostRuntime) -> Result<(), Fail> {
    let alloc = rt.alloc();
    let full = long_level(alloc, 4)?;
    assert!(rt; is_none(planned(alloc, &full)));
    let longer = long_level(alloc, 5)?;
    assert!(rt; is_merge(planned(alloc, &longer), &[3, 4], Some(2)));
    Ok(())
}

fn push_newest(alloc: Global, tables: &mut Vec<Table<MemHeld>>) -> Result<(), Fail> {
    tables.push(ranged(alloc, (2, b'a', b'b'), SHORT)?)?;
    tables.push(leading(alloc, (1, b'a', b'b'), 7)?)?;
    Ok(())
}

fn push_first(alloc: Global, tables: &mut Vec<Table<MemHeld>>) -> Result<(), Fail> {
    tables.push(leading(alloc, (3, b'a', b'b'), 7)?)?;
    tables.push(leading(alloc, (4, b'c', b'd'), 8)?)?;
    Ok(())
}

fn leading_levels(alloc: Global) -> Result<Levels<MemHeld>, Fail> {
    let mut newest = Vec::new(alloc);
    push_newest(alloc, &mut newest)?;
    let mut first = Vec::new(alloc);
    push_first(alloc, &mut first)?;
    Ok(Levels::new(newest, one_level(alloc, first)?))
}

// The first table that leads into segment 7 is the second of level 0, and 8 is led into by a table of level 1.
#[test]
fn the_first_table_that_leads_into_a_segment_is_drained(rt: HostRuntime) -> Result<(), Fail> {
    let alloc = rt.alloc();
    let levels = leading_levels(alloc)?;
    assert!(rt; is_merge(drained(alloc, &levels, 7), &[1], None));
    assert!(rt; is_of(drained(alloc, &levels, 8), &[4]));
    assert!(rt; is_none(drained(alloc, &levels, 9)));
    Ok(())
}
