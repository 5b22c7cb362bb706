//! Tables over files in memory, and what look-ups in them come to. What only looks at tables owns nothing and answers by a `bool`
//! or a small `Result`, so its exits drop nothing, and it has a short proof.

use std::alloc::{AllocError, Global};
use std::sync::Arc;
use std::test::Fail;
use vl_disk::{FaultPlan, Name, ReadFault};
use vl_mem::{MemHeld, MemReader};
use vl_model::{Body, Bytes, Entry, Pointer, Span, Value};
use vl_table::{AddFail, BlockReader, KEPT_BLOCKS, Table, TableShape, TableWriter, Tail};

// The file of a table with this number and these bytes.
pub fn held(alloc: Global, number: u32, bytes: &[u8]) -> Result<MemHeld, AllocError> {
    let bytes = Vec::from_slice(alloc, bytes)?;
    Ok(MemHeld::new(alloc, Name::Table(number), bytes))
}

// What reads files, and fails at the reads with these numbers, from 1.
pub fn failing(alloc: Global, reads: &[u64]) -> Result<MemReader, AllocError> {
    Ok(MemReader::new(FaultPlan::new(Vec::from_slice(alloc, reads)?)))
}

// The table with this number and these bytes, opened by a reader.
pub fn open_by(
    alloc: Global,
    reader: &mut MemReader,
    number: u32,
    bytes: &[u8],
) -> Result<Table<MemHeld>, ReadFault> {
    let held = held(alloc, number, bytes)?;
    Table::open(alloc, reader, held, number)
}

// The table with this number and these bytes.
pub fn open(alloc: Global, number: u32, bytes: &[u8]) -> Result<Table<MemHeld>, ReadFault> {
    let mut reader = failing(alloc, &[])?;
    open_by(alloc, &mut reader, number, bytes)
}

// The table of this shape, which isn't opened, with these bytes in its file.
pub fn shaped(
    alloc: Global,
    number: u32,
    shape: TableShape,
    bytes: &[u8],
) -> Result<Table<MemHeld>, Fail> {
    let shape = Arc::new(alloc, shape)?;
    Ok(Table::of(held(alloc, number, bytes)?, shape))
}

// A reader of blocks that fails at the reads with these numbers.
pub fn blocks(alloc: Global, reads: &[u64]) -> Result<BlockReader<MemReader>, AllocError> {
    BlockReader::new(alloc, failing(alloc, reads)?, KEPT_BLOCKS)
}

// All keys.
pub fn whole() -> Span {
    Span {
        lo: None,
        hi: None,
        closed: false,
    }
}

pub fn gone(alloc: Global, key: &[u8], version: u64) -> Result<Entry, AllocError> {
    Ok(Entry {
        key: Bytes::copy_of(alloc, key)?,
        version,
        body: Body::Gone,
    })
}

// An entry with a value of 64 bytes.
pub fn valued(alloc: Global, key: &[u8], version: u64) -> Result<Entry, AllocError> {
    let value = Value::copy_of(alloc, &[0xaa; 64], 0)?;
    Ok(Entry {
        key: Bytes::copy_of(alloc, key)?,
        version,
        body: Body::Inline(value),
    })
}

// An entry at version 1 whose value lies in a segment.
pub fn far(alloc: Global, key: &[u8], segment: u32) -> Result<Entry, AllocError> {
    let body = Body::Far(Pointer {
        segment,
        place: 106,
        length: 74,
    });
    Ok(Entry {
        key: Bytes::copy_of(alloc, key)?,
        version: 1,
        body,
    })
}

// Writes the table with this number and these entries but for its tail, and gives that.
pub fn write(
    alloc: Global,
    out: &mut Vec<u8>,
    number: u32,
    entries: &[Entry],
) -> Result<Tail, AddFail> {
    let Some((first, others)) = entries.split_first() else {
        return Err(AddFail::NotLawful);
    };
    let mut writer = TableWriter::begin(alloc, out, number, first)?;
    for entry in others {
        writer.add(out, entry)?;
    }
    Ok(writer.finish(alloc)?)
}

fn write_whole(
    alloc: Global,
    out: &mut Vec<u8>,
    number: u32,
    entries: &[Entry],
) -> Result<(), AddFail> {
    let tail = write(alloc, out, number, entries)?;
    Ok(tail.append_to(out)?)
}

// The bytes of the table with this number and these entries.
pub fn written(alloc: Global, number: u32, entries: &[Entry]) -> Result<Vec<u8>, AddFail> {
    let mut out = Vec::new(alloc);
    write_whole(alloc, &mut out, number, entries)?;
    Ok(out)
}

fn push_gone(
    alloc: Global,
    entries: &mut Vec<Entry>,
    key: &[u8],
    versions: &[u64],
) -> Result<(), AllocError> {
    for version in versions {
        entries.push(gone(alloc, key, *version)?)?;
    }
    Ok(())
}

// The table with this number of these versions of one key, each of which is a deletion.
pub fn versions_of(
    alloc: Global,
    number: u32,
    key: &[u8],
    versions: &[u64],
) -> Result<Table<MemHeld>, Fail> {
    let mut entries = Vec::new(alloc);
    push_gone(alloc, &mut entries, key, versions)?;
    let bytes = written(alloc, number, &entries)?;
    Ok(open(alloc, number, &bytes)?)
}

// The version that a look-up finds, if it finds one.
pub type Answer = Result<Option<u64>, ReadFault>;

// What is found of a key up to a version.
pub fn find(
    table: &Table<MemHeld>,
    reader: &mut BlockReader<MemReader>,
    key: &[u8],
    version: u64,
) -> Answer {
    match table.find(reader, key, version)? {
        Some(found) => Ok(Some(found.version)),
        None => Ok(None),
    }
}

// What is found of a key at just one version.
pub fn exact(
    table: &Table<MemHeld>,
    reader: &mut BlockReader<MemReader>,
    key: &[u8],
    version: u64,
) -> Answer {
    match table.exact(reader, key, version)? {
        Some(found) => Ok(Some(found.version)),
        None => Ok(None),
    }
}

// Whether reading failed, and not otherwise.
pub fn is_disk_fault(answer: &Answer) -> bool {
    matches!(answer, Err(ReadFault::Disk { .. }))
}
