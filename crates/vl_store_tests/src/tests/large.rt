//! A flush to a table of more than 64 MiB. No clause says up to which length a table is written: a body that answers want of memory
//! for such a one is proved too.

use std::alloc::Global;
use std::test::Fail;
use vl_disk::{HeldFile, Name, Reader};
use vl_engine::{Done, Engine, Txn};
use vl_mem::MemDisk;

/// How many bytes a log may get.
const ROOM: u64 = 40_000_000;

/// How many keys of 4,096 bytes there are, and how many of them a transaction writes.
const KEYS: u32 = 8_100;

const EACH: u32 = 2_700;

const VALUE: [u8; 64] = [0xaa; 64];

/// The table's bytes. Behind a header of 16 each key has a block of its own, a frame of 4,190, and 4,110 in the index, of which the
/// frame has 17 more. The filter's frame has 10,142, for ten bits a key, the footer's 8,253 with two keys, and its place 8.
const LENGTH: usize = 67_248_436;

/// The key with this number.
fn key(alloc: Global, number: u32) -> Option<Vec<u8>> {
    let mut key = Vec::from_slice(alloc, &number.to_be_bytes()).ok()?;
    key.resize(4_096, 0x6b).ok()?;
    Some(key)
}

/// Writes the keys from this number on that a transaction has.
fn writes<H: HeldFile, R: Reader<Held = H> + Drop>(
    alloc: Global,
    txn: &mut Txn<H, R>,
    first: u32,
) -> bool {
    for number in first..first.saturating_add(EACH) {
        let Some(key) = key(alloc, number) else {
            return false;
        };
        if txn.set(key.as_slice(), &VALUE).is_err() {
            return false;
        }
    }
    true
}

/// Commits them.
fn commits(alloc: Global, store: &mut Engine<MemDisk>, first: u32) -> bool {
    let Ok(mut txn) = store.begin() else {
        return false;
    };
    if !writes(alloc, &mut txn, first) {
        store.forget(txn);
        return false;
    }
    matches!(store.commit(txn), Ok(Done::At(_)))
}

/// Makes the table of all keys.
fn flushes(alloc: Global, store: &mut Engine<MemDisk>) -> bool {
    commits(alloc, store, 0)
        && commits(alloc, store, EACH)
        && commits(alloc, store, 2 * EACH)
        && store.rotate() == Ok(Some(1))
        && store.flush() == Ok(Some(1))
}

/// Whether a key has the value.
fn reads(alloc: Global, store: &mut Engine<MemDisk>, number: u32) -> bool {
    let Some(key) = key(alloc, number) else {
        return false;
    };
    let Ok(mut view) = store.view() else {
        return false;
    };
    let is_there = match view.get(key.as_slice()) {
        Ok(Some(value)) => value.as_slice() == VALUE.as_slice(),
        _ => false,
    };
    store.release(view);
    is_there
}

/// The disk behind the flush, where the first key and the last have the value then, and the next one none.
fn flushed(alloc: Global) -> Option<MemDisk> {
    let disk = MemDisk::new(alloc, Vec::new(alloc), Vec::new(alloc));
    let mut store = Engine::open(alloc, disk, ROOM).ok()?;
    let is_read = flushes(alloc, &mut store)
        && reads(alloc, &mut store, 0)
        && reads(alloc, &mut store, KEYS - 1)
        && !reads(alloc, &mut store, KEYS);
    let disk = store.close();
    if is_read { Some(disk) } else { None }
}

/// The table's length.
fn length(alloc: Global) -> Option<usize> {
    let disk = flushed(alloc)?;
    match disk.bytes(Name::Table(1)) {
        Some(bytes) => Some(bytes.len()),
        None => None,
    }
}

#[test]
fn a_table_may_have_more_than_64_mebibytes(rt: HostRuntime) -> Result<(), Fail> {
    assert!(rt; length(rt.alloc()) == Some(LENGTH));
    Ok(())
}
