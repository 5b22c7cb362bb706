//! Backups of stores on disks in memory, byte for byte, and what loads make of them: of whole ones, of ones that were cut or
//! altered, and where a log has no room or too many views are live.
ghost use Rattle.std.specs.Prelude.{◌≤◌};
ghost use Rattle.vl_model.specs.Limits.{max_room};

use std::alloc::Global;
use std::test::Fail;
use vl_backup::{BackupFail, LoadFail, backup, load};
use vl_disk::Name;
use vl_engine::{Done, Engine};
use vl_io::{SliceSource, VecSink};
use vl_mem::MemDisk;
use vl_model::Way;

/// What the tests' stores are over.
type Store = Engine<MemDisk>;

/// How many bytes a log may get where it isn't to become full.
const ROOM: u64 = 1000;

/// A value that a table doesn't have beside its key.
const LONG: [u8; 65] = [0xaa; 65];

/// What the stream loads that has the long value alone.
const LONG_ROWS: [(&[u8], &[u8]); 1] = [(b"b", &LONG)];

/// What the stream loads that has two short values.
const SHORT_ROWS: [(&[u8], &[u8]); 2] = [(b"b", &[1]), (b"c", &[1])];

/// What stands behind the three commits: `b` with the long value. The deletion of `a` isn't in it.
const WHOLE: [u8; 136] = [
    0x56, 0x42, 0x41, 0x4b, 0, 0, 0, 1, 0, 0, 0, 0, 0, 0, 0, 0, 7, 0, 0, 0, 0x4e, 0, 0, 0, 1, 0, 0,
    0, 1, 0, 0, 0, 0x41, 0x62, 0xaa, 0xaa, 0xaa, 0xaa, 0xaa, 0xaa, 0xaa, 0xaa, 0xaa, 0xaa, 0xaa,
    0xaa, 0xaa, 0xaa, 0xaa, 0xaa, 0xaa, 0xaa, 0xaa, 0xaa, 0xaa, 0xaa, 0xaa, 0xaa, 0xaa, 0xaa, 0xaa,
    0xaa, 0xaa, 0xaa, 0xaa, 0xaa, 0xaa, 0xaa, 0xaa, 0xaa, 0xaa, 0xaa, 0xaa, 0xaa, 0xaa, 0xaa, 0xaa,
    0xaa, 0xaa, 0xaa, 0xaa, 0xaa, 0xaa, 0xaa, 0xaa, 0xaa, 0xaa, 0xaa, 0xaa, 0xaa, 0xaa, 0xaa, 0xaa,
    0xaa, 0xaa, 0xaa, 0xaa, 0xaa, 0xaa, 0x35, 0x47, 0xcb, 0xfb, 0x28, 0x7c, 0xd9, 0x50, 8, 0, 0, 0,
    0x10, 0, 0, 0, 0, 0, 0, 0, 3, 0, 0, 0, 0, 0, 0, 0, 1, 0x2c, 0x3e, 0xde, 2, 0x60, 0xb1, 0xbe,
    0x6c,
];

/// What the last of them changed: it deletes `a`.
const SINCE_2: [u8; 71] = [
    0x56, 0x42, 0x41, 0x4b, 0, 0, 0, 1, 0, 0, 0, 0, 0, 0, 0, 2, 7, 0, 0, 0, 0x0d, 0, 0, 0, 1, 1, 0,
    0, 1, 0, 0, 0, 0, 0x61, 0x75, 0x72, 0x82, 0x60, 0x45, 0xb9, 0x50, 0x5a, 8, 0, 0, 0, 0x10, 0, 0,
    0, 0, 0, 0, 0, 3, 0, 0, 0, 0, 0, 0, 0, 1, 0xd4, 0x87, 0x34, 0x21, 0x17, 0xb9, 0xd1, 0x0b,
];

/// What none of them changed: a header and an end.
const SINCE_3: [u8; 45] = [
    0x56, 0x42, 0x41, 0x4b, 0, 0, 0, 1, 0, 0, 0, 0, 0, 0, 0, 3, 8, 0, 0, 0, 0x10, 0, 0, 0, 0, 0, 0,
    0, 3, 0, 0, 0, 0, 0, 0, 0, 0, 0xce, 0x5b, 0x98, 0x3f, 0x41, 0xc5, 0xe4, 0xbc,
];

/// What the last two of the four commits changed: they set `b` and `c`. Its end stands at 53.
const TWO: [u8; 82] = [
    0x56, 0x42, 0x41, 0x4b, 0, 0, 0, 1, 0, 0, 0, 0, 0, 0, 0, 2, 7, 0, 0, 0, 0x18, 0, 0, 0, 2, 0, 0,
    0, 1, 0, 0, 0, 1, 0x62, 1, 0, 0, 0, 1, 0, 0, 0, 1, 0x63, 1, 0x2f, 0xce, 0x99, 0xfd, 0xa3, 0xb8,
    0xa7, 0xf3, 8, 0, 0, 0, 0x10, 0, 0, 0, 0, 0, 0, 0, 4, 0, 0, 0, 0, 0, 0, 0, 2, 0x41, 0xce, 0x38,
    0xa6, 0x25, 0x30, 0x3f, 0x6e,
];

/// A new store, whose logs may get so many bytes.
fn new_store(alloc: Global, room: u64) -> Option<Store>
    requires { room ≤ max_room }
{
    let disk = MemDisk::new(alloc, Vec::new(alloc), Vec::new(alloc));
    Engine::open(alloc, disk, room).ok()
}

/// Whether a value of a key is committed, or its deletion.
fn commits(store: &mut Store, key: &[u8], value: Option<&[u8]>) -> bool {
    let Ok(mut txn) = store.begin() else {
        return false;
    };
    let written = match value {
        Some(value) => txn.set(key, value),
        None => txn.delete(key),
    };
    if written.is_err() {
        store.forget(txn);
        return false;
    }
    matches!(store.commit(txn), Ok(Done::At(_)))
}

/// Whether it is, and its log is then sealed and flushed.
fn flushes(store: &mut Store, key: &[u8], value: Option<&[u8]>) -> bool {
    commits(store, key, value)
        && matches!(store.rotate(), Ok(Some(_)))
        && matches!(store.flush(), Ok(Some(_)))
}

fn makes_three(store: &mut Store) -> bool {
    commits(store, b"a", Some(&[1]))
        && commits(store, b"b", Some(&LONG))
        && commits(store, b"a", None)
}

/// Whether four commits are made, and their four tables are merged to one: it lacks the deletion, which is commit 2.
fn makes_four(store: &mut Store) -> bool {
    flushes(store, b"a", Some(&LONG))
        && flushes(store, b"a", None)
        && flushes(store, b"b", Some(&[1]))
        && flushes(store, b"c", Some(&[1]))
        && matches!(store.merge(), Ok(Some(_)))
}

/// Whether a backup is answered so, and puts these bytes.
fn backs_up(
    alloc: Global,
    store: &mut Store,
    since: u64,
    answer: Result<u64, BackupFail>,
    stream: &[u8],
) -> bool {
    let Ok(mut sink) = VecSink::new(alloc, 1000, Vec::new(alloc)) else {
        return false;
    };
    let Ok(mut view) = store.view() else {
        return false;
    };
    let answered = backup(alloc, &mut view, since, &mut sink);
    store.release(view);
    answered == answer && sink.bytes() == stream
}

/// Whether a new store is backed up so behind the three commits.
fn backs_up_three(
    alloc: Global,
    since: u64,
    answer: Result<u64, BackupFail>,
    stream: &[u8],
) -> Option<bool> {
    let mut store = new_store(alloc, ROOM)?;
    Some(makes_three(&mut store) && backs_up(alloc, &mut store, since, answer, stream))
}

/// And behind the four, which are merged.
fn backs_up_four(
    alloc: Global,
    since: u64,
    answer: Result<u64, BackupFail>,
    stream: &[u8],
) -> Option<bool> {
    let mut store = new_store(alloc, ROOM)?;
    Some(makes_four(&mut store) && backs_up(alloc, &mut store, since, answer, stream))
}

#[test]
fn a_backup_has_what_was_changed_since_a_commit(rt: HostRuntime) -> Result<(), Fail> {
    let cases: [(u64, Result<u64, BackupFail>, &[u8]); 4] = [
        (0, Ok(1), &WHOLE),
        (2, Ok(1), &SINCE_2),
        (3, Ok(0), &SINCE_3),
        (4, Err(BackupFail::Ahead { number: 3 }), &[]),
    ];
    for (since, answer, stream) in cases {
        assert!(rt;
            backs_up_three(rt.alloc(), since, answer, stream) == Some(true),
            "since {since}"
        );
    }
    Ok(())
}

#[test]
fn a_backup_is_refused_since_before_a_deletion_that_a_merge_dropped(
    rt: HostRuntime,
) -> Result<(), Fail> {
    let cases: [(u64, Result<u64, BackupFail>, &[u8]); 2] = [
        (1, Err(BackupFail::TooOld { gone: 2 }), &[]),
        (2, Ok(2), &TWO),
    ];
    for (since, answer, stream) in cases {
        assert!(rt;
            backs_up_four(rt.alloc(), since, answer, stream) == Some(true),
            "since {since}"
        );
    }
    Ok(())
}

/// What a load of these bytes answers.
fn loaded(alloc: Global, store: &mut Store, bytes: &[u8]) -> Result<u64, LoadFail> {
    let mut source = SliceSource::new(bytes, Vec::new(alloc));
    load(alloc, store, &mut source)
}

/// Whether the store has so many commits, and these rows.
fn shows(store: &mut Store, number: u64, rows: &[(&[u8], &[u8])]) -> bool {
    let Ok(mut view) = store.view() else {
        return false;
    };
    let found = view.scan(b"", b"", 9, Way::Up).ok();
    store.release(view);
    let Some(found) = found else {
        return false;
    };
    store.number() == number
        && found.len() == rows.len()
        && found.iter().zip(rows).all(|((key, value), (k, v))| key.as_slice() == *k
            && value.as_slice() == *v)
}

/// Whether a load of these bytes into a new store is answered so, and leaves so many commits with these rows.
fn loads(
    alloc: Global,
    room: u64,
    bytes: &[u8],
    answer: Result<u64, LoadFail>,
    number: u64,
    rows: &[(&[u8], &[u8])],
) -> Option<bool>
    requires { room ≤ max_room }
{
    let mut store = new_store(alloc, room)?;
    Some(loaded(alloc, &mut store, bytes) == answer && shows(&mut store, number, rows))
}

#[test]
fn a_load_is_refused_where_its_stream_is_altered(rt: HostRuntime) -> Result<(), Fail> {
    let mut other = TWO;
    other[0] = b'X';
    let mut newer = TWO;
    newer[7] = 2;
    let mut longer = [0; 83];
    longer[..82].copy_from_slice(&TWO);
    let cases: [(&[u8], LoadFail, u64, &[(&[u8], &[u8])]); 4] = [
        (&TWO[..81], LoadFail::Damaged { place: 53 }, 1, &SHORT_ROWS),
        (&longer, LoadFail::Damaged { place: 82 }, 1, &SHORT_ROWS),
        (&other, LoadFail::NotABackup, 0, &[]),
        (&newer, LoadFail::NewerFormat(2), 0, &[]),
    ];
    for (bytes, why, number, rows) in cases {
        assert!(rt;
            loads(rt.alloc(), ROOM, bytes, Err(why), number, rows) == Some(true),
            "{why}"
        );
    }
    Ok(())
}

/// Whether a stream is loaded twice, with the same rows each time, where a log has room for its one batch alone: so there are
/// two logs then.
fn loads_twice(alloc: Global) -> Option<bool> {
    let mut store = new_store(alloc, 115)?;
    let first = loaded(alloc, &mut store, &WHOLE) == Ok(1) && shows(&mut store, 1, &LONG_ROWS);
    let second = loaded(alloc, &mut store, &WHOLE) == Ok(1) && shows(&mut store, 2, &LONG_ROWS);
    let disk = store.close();
    Some(first && second && is_long(&disk, Name::Log(1), 115) && is_long(&disk, Name::Log(2), 115))
}

fn is_long(disk: &MemDisk, name: Name, length: usize) -> bool {
    match disk.bytes(name) {
        Some(bytes) => bytes.len() == length,
        None => false,
    }
}

#[test]
fn a_stream_is_loaded_again_into_the_next_log(rt: HostRuntime) -> Result<(), Fail> {
    assert!(rt; loads_twice(rt.alloc()) == Some(true));
    Ok(())
}

/// The frame has 99 bytes, and stands behind the 16 of a log's header.
#[test]
fn a_load_is_refused_where_an_empty_log_has_no_room(rt: HostRuntime) -> Result<(), Fail> {
    let full = Err(LoadFail::Full {
        length: 16,
        frame: 99,
    });
    assert!(rt; loads(rt.alloc(), 114, &WHOLE, full, 0, &[]) == Some(true));
    Ok(())
}

/// Whether a load is refused behind as many views as may be live, but for one of nothing, and made once one is released.
fn waits_for_a_view(alloc: Global) -> Option<bool> {
    let mut store = new_store(alloc, ROOM)?;
    let mut views = Vec::new(alloc);
    for _ in 0..1024 {
        views.push(store.view().ok()?).ok()?;
    }
    let refused = loaded(alloc, &mut store, &WHOLE) == Err(LoadFail::TooMany)
        && store.number() == 0;
    let of_nothing = loaded(alloc, &mut store, &SINCE_3) == Ok(0);
    store.release(views.pop()?);
    Some(refused && of_nothing && loaded(alloc, &mut store, &WHOLE) == Ok(1) && store.number() == 1)
}

#[test]
fn a_load_is_refused_behind_too_many_views(rt: HostRuntime) -> Result<(), Fail> {
    assert!(rt; waits_for_a_view(rt.alloc()) == Some(true));
    Ok(())
}
