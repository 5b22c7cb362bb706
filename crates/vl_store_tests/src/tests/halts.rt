//! A value that is committed, flushed and moved. Each call that changes the disk behind the opening fails once: the engine is
//! halted by it, and goes on to read.

use std::alloc::Global;
use std::test::Fail;
use vl_disk::Name;
use vl_engine::{CommitFail, Done, Engine, OpenFail, StepFail, SweepFail};
use vl_mem::MemDisk;
use vl_model::Way;

/// What the tests' stores are over.
type Store = Engine<MemDisk>;

/// How many bytes a log may get.
const ROOM: u64 = 1000;

const KEY: &[u8] = b"a";

/// A value that a table doesn't have beside its key.
const LONG: [u8; 65] = [0xaa; 65];

/// The opening makes six calls that change the disk. The commit's append is the next.
const APPEND: u64 = 7;

/// The commit's sync, from which on it is visible.
const SYNC: u64 = 8;

/// The last one: the rotation makes three, the flush five, and the move two.
const LAST: u64 = 18;

/// The file of a call behind the opening's.
fn file_of(call: u64) -> Name {
    match call {
        ..=8 => Name::Log(1),
        9..=11 | 17.. => Name::Log(2),
        12..=14 => Name::Table(1),
        15..=16 => Name::Manifest(1),
    }
}

/// The store on a disk; where it can't be opened, the disk.
fn opened(alloc: Global, disk: MemDisk) -> Result<Store, MemDisk> {
    match Engine::open(alloc, disk, ROOM) {
        Ok(store) => Ok(store),
        Err(OpenFail { disk, .. }) => Err(disk),
    }
}

/// Whether the store has the one commit, or where it isn't to be there nothing.
fn shows(store: &mut Store, is_there: bool) -> bool {
    let Ok(mut view) = store.view() else {
        return false;
    };
    let found = view.scan(b"", b"", 9, Way::Up).ok();
    store.release(view);
    let Some(rows) = found else {
        return false;
    };
    let is_one = match rows.as_slice() {
        [(key, value)] => key.as_slice() == KEY && value.as_slice() == LONG.as_slice(),
        _ => false,
    };
    store.number() == u64::from(is_there) && (if is_there { is_one } else { rows.is_empty() })
}

/// Whether the store is on the disk, with the commit or without; and the disk behind it.
pub fn holds(alloc: Global, disk: MemDisk, is_there: bool) -> Option<MemDisk> {
    let mut store = opened(alloc, disk).ok()?;
    let shown = shows(&mut store, is_there);
    let disk = store.close();
    if shown { Some(disk) } else { None }
}

fn commits(store: &mut Store) -> bool {
    let Ok(mut txn) = store.begin() else {
        return false;
    };
    if txn.set(KEY, &LONG).is_err() {
        store.forget(txn);
        return false;
    }
    matches!(store.commit(txn), Ok(Done::At(1)))
}

/// Whether the one value is moved out of its log.
fn moves(alloc: Global, store: &mut Store) -> bool {
    let Ok(mut pass) = store.pick(1) else {
        return false;
    };
    let Ok(mut reader) = store.reader() else {
        return false;
    };
    let Ok(Some(batch)) = pass.next(alloc, &mut reader.files, &mut reader.looks) else {
        return false;
    };
    let Ok(mut reader) = store.reader() else {
        return false;
    };
    let moved = matches!(store.relocate(&pass, batch, &mut reader.looks), Ok(1));
    store.end_pass(pass);
    moved
}

/// Makes all the calls, or those up to the first that fails.
fn makes_all(alloc: Global, store: &mut Store) -> bool {
    commits(store)
        && store.rotate() == Ok(Some(1))
        && store.flush() == Ok(Some(1))
        && moves(alloc, store)
}

/// Whether a commit is refused for the file that failed.
fn refuses_commits(store: &mut Store, name: Name) -> bool {
    let Ok(mut txn) = store.begin() else {
        return false;
    };
    if txn.set(b"b", b"1").is_err() {
        store.forget(txn);
        return false;
    }
    match store.commit(txn) {
        Err(CommitFail::Halted { name: file }) => file == name,
        _ => false,
    }
}

/// Whether each step that changes the disk is refused so.
fn is_halted(store: &mut Store, name: Name) -> bool {
    refuses_commits(store, name)
        && store.rotate() == Err(StepFail::Halted { name })
        && store.flush() == Err(StepFail::Halted { name })
        && store.sweep() == Err(SweepFail::Halted { name })
}

/// The disk behind an engine that a fault at this call has halted, and that goes on to read.
fn halted_disk(alloc: Global, mut store: Store, call: u64) -> Option<MemDisk> {
    let failed = !makes_all(alloc, &mut store) && is_halted(&mut store, file_of(call));
    let shown = shows(&mut store, call > SYNC);
    let disk = store.close();
    if failed && shown { Some(disk) } else { None }
}

/// Whether a fault at this call halts the engine; and what the disk then has is opened again, with the commit once its append
/// has passed.
fn halts(alloc: Global, call: u64) -> Option<bool> {
    let mut failing = Vec::new(alloc);
    failing.push(call).ok()?;
    let disk = MemDisk::new(alloc, failing, Vec::new(alloc));
    let store = opened(alloc, disk).ok()?;
    let disk = halted_disk(alloc, store, call)?;
    Some(holds(alloc, disk, call > APPEND).is_some())
}

#[test]
fn a_fault_behind_the_opening_halts(rt: HostRuntime) -> Result<(), Fail> {
    for call in APPEND..=LAST {
        assert!(rt; halts(rt.alloc(), call) == Some(true), "call {call}");
    }
    Ok(())
}
