// One session does the work on files: it moves what counts out of a log, puts what leads there out of the way, removes both,
// and merges tables.
ghost use Rattle.std.specs.Prelude.{◌≡◌, true};
ghost use Rattle.vl_steps.specs.Merging.{FitsReaders};
ghost use Rattle.vlstore.specs.Handing.{IsUnderWayIn};

use crate::collecting::collect;
use crate::folder::{disk_of, free_folder, gone};
use std::alloc::Global;
use std::sync::Wait;
use std::test::Fail;
use vlstore::{Base, Disk, Done, Job, SegmentStat, Session, Silent, Store, Value};

type JobOf<D> = Job<
    Base<<D as Disk>::Held, <D as Disk>::Reader>,
    <D as Disk>::Held,
    <D as Disk>::Writer,
>;

// A value that a table doesn't have beside its key.
const LONG: [u8; 65] = [0xaa; 65];

// How many bytes a log may have.
const ROOM: u64 = 20_000;

// Commits a value of a key, or its deletion.
fn commits<D: Silent, R: Wait>(
    rt: &R,
    session: &mut Session<D>,
    key: &[u8],
    value: Option<&[u8]>,
) -> Option<bool> {
    let mut txn = session.begin(rt).ok()?;
    let written = match value {
        Some(value) => txn.set(key, value).is_ok(),
        None => txn.delete(key).is_ok(),
    };
    if !written {
        session.forget(rt, txn);
        return None;
    }
    Some(matches!(session.commit(rt, txn), Ok(Done::At(_))))
}

// Makes a table of what was committed.
fn flushes<D: Silent, R: Wait>(rt: &R, session: &mut Session<D>) -> Option<bool> {
    Some(session.rotate(rt).ok()?.is_some() && session.flush(rt).ok()?.is_some())
}

// Both.
fn flushed<D: Silent, R: Wait>(
    rt: &R,
    session: &mut Session<D>,
    key: &[u8],
    value: Option<&[u8]>,
) -> Option<bool> {
    Some(commits(rt, session, key, value)? && flushes(rt, session)?)
}

// Whether this value was read, or none.
fn is_read(found: &Option<Option<Value>>, value: Option<&[u8]>) -> bool {
    match (found, value) {
        (Some(Some(found)), Some(value)) => found.as_slice() == value,
        (Some(None), None) => true,
        _ => false,
    }
}

// Whether a key has this value, or none, behind so many commits.
fn reads<D: Silent, R: Wait>(
    rt: &R,
    session: &mut Session<D>,
    number: u64,
    key: &[u8],
    value: Option<&[u8]>,
) -> Option<bool> {
    let mut view = session.view(rt).ok()?;
    let found = view.get(key).ok();
    let is_there = view.number() == number && is_read(&found, value);
    session.release(rt, view);
    Some(is_there)
}

// Whether these are the logs that there are.
fn tells<D: Silent, R: Wait>(
    rt: &R,
    session: &mut Session<D>,
    logs: &[SegmentStat],
) -> Option<bool> {
    Some(session.stats(rt).ok()?.as_slice() == logs)
}

// How many entries are left of the first table that leads into a log.
fn drained<D: Silent, R: Wait>(
    rt: &R,
    alloc: Global,
    session: &mut Session<D>,
    segment: u32,
) -> Option<u64> {
    match session.drain(rt, segment) {
        Ok(Some(job)) => carried_out(rt, alloc, session, job),
        _ => None,
    }
}

fn carried_out<D: Silent, R: Wait>(
    rt: &R,
    alloc: Global,
    session: &mut Session<D>,
    mut job: JobOf<D>,
) -> Option<u64>
    requires under_way { IsUnderWayIn session.old D.Writer.Writer D.Held.bytes job }
    requires looks { session.old.tells ≡ true → FitsReaders D.Held.bytes job }
{
    if let Err(_) = session.carry_out(rt, alloc, &mut job) {
        session.abandon(rt, job);
        return None;
    }
    let kept = job.kept_count();
    match session.install(rt, job) {
        Ok(()) => Some(kept),
        Err(_) => None,
    }
}

// A value is moved, and the table that leads to where it stood is drained. Then the table goes, and its log.
fn drains<D: Silent, R: Wait>(rt: &R, alloc: Global, session: &mut Session<D>) -> Option<bool> {
    let moved = SegmentStat {
        segment: 2,
        bytes: 99,
        live: 0,
    };
    Some(
        flushed(rt, session, b"a", Some(&LONG))?
            && collect(rt, alloc, session)? == 1
            && session.sweep(rt).ok()? == 0
            && drained(rt, alloc, session, 1)? == 0
            && session.sweep(rt).ok()? == 2
            && tells(rt, session, &[moved])?
            && reads(rt, session, 1, b"a", Some(&LONG))?,
    )
}

// A value, its deletion, and two more, in a table each.
fn four_tables<D: Silent, R: Wait>(rt: &R, session: &mut Session<D>) -> Option<bool> {
    Some(
        flushed(rt, session, b"a", Some(&LONG))?
            && flushed(rt, session, b"a", None)?
            && flushed(rt, session, b"b", Some(b"1"))?
            && flushed(rt, session, b"c", Some(b"2"))?,
    )
}

// They are merged to one table of two entries. Then they go, and their logs.
fn merges<D: Silent, R: Wait>(rt: &R, alloc: Global, session: &mut Session<D>) -> Option<bool> {
    let active = SegmentStat {
        segment: 5,
        bytes: 0,
        live: 0,
    };
    Some(
        four_tables(rt, session)?
            && session.merge(rt, alloc).ok()? == Some(2)
            && session.merge(rt, alloc).ok()?.is_none()
            && session.sweep(rt).ok()? == 8
            && tells(rt, session, &[active])?
            && reads(rt, session, 4, b"a", None)?
            && reads(rt, session, 4, b"b", Some(b"1"))?
            && reads(rt, session, 4, b"c", Some(b"2"))?,
    )
}

// What a session works on.
#[derive(Clone, Copy)]
enum Work {
    Draining,
    Merging,
}

// Whether the only session of a new store does its work, and leaves an engine with so many commits.
fn worked<D: Silent, R: Wait>(
    rt: &R,
    alloc: Global,
    disk: D,
    work: Work,
    commits: u64,
) -> Option<bool> {
    let (store, mut sessions) = Store::open(alloc, disk, ROOM, 1).ok()?;
    let mut session = sessions.pop()?;
    let works = match work {
        Work::Draining => drains(rt, alloc, &mut session),
        Work::Merging => merges(rt, alloc, &mut session),
    };
    // While a session is there, the store comes back.
    let Err(store) = store.into_engine(rt) else {
        return None;
    };
    drop(session);
    let engine = store.into_engine(rt).ok()?;
    Some(works? && engine.number() == commits)
}

#[test]
fn a_session_works_on_files(rt: HostRuntime) -> Result<(), Fail> {
    for (work, commits) in [(Work::Draining, 1), (Work::Merging, 4)] {
        let path = free_folder(&rt, "working")?;
        let worked = worked(&rt, rt.alloc(), disk_of(&rt, &path)?, work, commits);
        gone(&rt, path)?;
        assert!(&rt; worked == Some(true), "{commits} commits");
    }
    Ok(())
}
