//! Stores without tables that are opened again: what a replay leaves of its files, faults and torn ends, and what is refused.
ghost use Rattle.std.specs.Prelude.{All, IfOk};
ghost use Rattle.vl_disk.specs.Name.{IsNumbered};

use crate::tests::stores::{
    Case, DAMAGED_MANIFEST, LAST_COMMIT_MANIFEST, LAST_LOG_MANIFEST, LAST_MANIFEST, LOG_BYTES,
    MANIFEST_BYTES, MOVED_LOG_BYTES, NEWER_MANIFEST, OLD_LOG, OLD_MANIFEST, OLD_SECOND_LOG,
    OLD_SECOND_MANIFEST, SECOND_LOG_BYTES, SECOND_LOG_HEADER, SECOND_MANIFEST_BYTES,
    THIRD_LOG_BYTES, THIRD_MANIFEST_BYTES, holds, outcome_over, plain, started, store, with,
};
use std::alloc::Global;
use std::test::Fail;
use vl_disk::Name;
use vl_mem::{MemDisk, Outcome};

#[test]
fn a_store_is_opened_again(rt: HostRuntime) -> Result<(), Fail> {
    let mut disk = MemDisk::new(rt.alloc(), Vec::new(rt.alloc()), Vec::new(rt.alloc()));
    let runs = [
        plain("begin a\nset a 61 01\ncommit a\n", "ok 0\nok\nok 1\n", 0),
        plain(
            "begin a\nget a 61\nset a 61 02\ncommit a\n",
            "ok 1\nvalue 01\nok\nok 2\n",
            0,
        ),
        plain(
            "view v\nget v 61\nget v 62\ndrop v\nbegin a\nset a 62 03\ncommit a\n",
            "ok 2\nvalue 02\nnone\nok\nok 2\nok\nok 3\n",
            0,
        ),
    ];
    for (i, case) in runs.iter().enumerate() {
        let (status, printed, left) = outcome_over(rt.alloc(), case, disk)?;
        assert_eq!(rt; printed.as_slice(), case.printed.as_bytes(), "run {i}");
        assert_eq!(rt; status, case.status, "run {i}");
        disk = left;
    }
    // Each opening made a manifest and a log of its own, and removed the manifest before.
    assert!(rt; disk.bytes(Name::Manifest(1)).is_none());
    assert!(rt; disk.bytes(Name::Manifest(2)).is_none());
    assert!(rt; holds(&disk, Name::Manifest(3), &THIRD_MANIFEST_BYTES));
    assert!(rt; holds(&disk, Name::Log(1), &LOG_BYTES));
    assert!(rt; holds(&disk, Name::Log(2), &SECOND_LOG_BYTES));
    assert!(rt; holds(&disk, Name::Log(3), &THIRD_LOG_BYTES));

    let last = plain(
        "view v\nget v 61\nget v 62\n",
        "ok 3\nvalue 02\nvalue 03\n",
        0,
    );
    let (status, printed, _) = outcome_over(rt.alloc(), &last, disk)?;
    assert_eq!(rt; printed.as_slice(), last.printed.as_bytes());
    assert_eq!(rt; status, last.status);
    Ok(())
}

/// The disk behind a run over these files, of whose changing calls these fail; none where it ends otherwise than it should.
fn ran(
    alloc: Global,
    files: Vec<(Name, Vec<u8>)>,
    failing: &[u64],
    case: &Case,
) -> Result<Option<MemDisk>, Fail>
    requires { All (λ file. IsNumbered file.0) files.items }
{
    let (status, printed, disk) = outcome_over(alloc, case, started(alloc, files, failing)?)?;
    let as_wanted = status == case.status && printed.as_slice() == case.printed.as_bytes();
    Ok(if as_wanted { Some(disk) } else { None })
}

/// Whether there is a disk, on which a file stands and has these bytes.
fn left(disk: &Option<MemDisk>, name: Name, bytes: &[u8]) -> bool {
    match disk {
        Some(disk) => holds(disk, name, bytes),
        None => false,
    }
}

/// Whether there is a disk, on which no such file stands.
fn lacks(disk: &Option<MemDisk>, name: Name) -> bool {
    match disk {
        Some(disk) => disk.bytes(name).is_none(),
        None => false,
    }
}

// A manifest is made, the log is cut and synced, and the old manifest removed: so call 7 doesn't come.
fn is_cut(alloc: Global) -> Result<bool, Fail> {
    let files = store(alloc, &MANIFEST_BYTES, &LOG_BYTES[..50])?;
    let disk = ran(
        alloc,
        files,
        &[7],
        &plain("view b\nget b 61\n", "ok 0\nnone\n", 0),
    )?;
    Ok(
        left(&disk, Name::Log(1), &LOG_BYTES[..16])
            && left(&disk, Name::Manifest(2), &SECOND_MANIFEST_BYTES),
    )
}

// The same log takes the next commits.
fn takes_the_next(alloc: Global) -> Result<bool, Fail> {
    let files = store(alloc, &MANIFEST_BYTES, &LOG_BYTES[..50])?;
    let case = plain("begin a\nset a 61 01\ncommit a\n", "ok 0\nok\nok 1\n", 0);
    let disk = ran(alloc, files, &[], &case)?;
    Ok(left(&disk, Name::Log(1), &LOG_BYTES) && lacks(&disk, Name::Log(2)))
}

#[test]
fn a_torn_end_is_cut(rt: HostRuntime) -> Result<(), Fail> {
    assert!(rt; is_cut(rt.alloc())?);
    assert!(rt; takes_the_next(rt.alloc())?);
    Ok(())
}

/// Whether a run over these files is refused with this line, and leaves two of them as they are.
fn refuses(
    alloc: Global,
    files: Vec<(Name, Vec<u8>)>,
    line: &'static str,
    first: (Name, &[u8]),
    second: (Name, &[u8]),
) -> Result<bool, Fail>
    requires { All (λ file. IsNumbered file.0) files.items }
{
    let disk = ran(alloc, files, &[], &plain("begin a\n", line, 4))?;
    Ok(left(&disk, first.0, first.1) && left(&disk, second.0, second.1))
}

/// Of one file.
fn refuses_one(alloc: Global, name: Name, bytes: &[u8], line: &'static str) -> Result<bool, Fail>
    requires { IsNumbered name }
{
    let files = with(alloc, Vec::new(alloc), name, bytes)?;
    refuses(alloc, files, line, (name, bytes), (name, bytes))
}

/// Of manifest 1 and a log.
fn refuses_two(
    alloc: Global,
    manifest: &[u8],
    name: Name,
    log: &[u8],
    line: &'static str,
) -> Result<bool, Fail>
    requires { IsNumbered name }
{
    let files = with(alloc, Vec::new(alloc), Name::Manifest(1), manifest)?;
    let files = with(alloc, files, name, log)?;
    refuses(
        alloc,
        files,
        line,
        (Name::Manifest(1), manifest),
        (name, log),
    )
}

/// Of a new store's manifest and log 1, behind which log 2 was begun.
fn refuses_before(alloc: Global, log: &[u8], line: &'static str) -> Result<bool, Fail> {
    let files = store(alloc, &MANIFEST_BYTES, log)?;
    let files = with(alloc, files, Name::Log(2), &SECOND_LOG_HEADER)?;
    refuses(
        alloc,
        files,
        line,
        (Name::Log(1), log),
        (Name::Log(2), &SECOND_LOG_HEADER),
    )
}

#[test]
fn what_is_no_store_is_refused(rt: HostRuntime) -> Result<(), Fail> {
    let alloc = rt.alloc();

    // One bit of the length of the manifest's frame is altered, so that no frame stands there.
    let mut altered = MANIFEST_BYTES;
    altered[20] = 27;
    assert!(rt; refuses_two(alloc, &altered, Name::Log(1), &LOG_BYTES, "not a store\n")?);
    assert!(rt; refuses_one(alloc, Name::Log(1), &LOG_BYTES, "not a store\n")?);
    assert!(rt;
        refuses_two(
            alloc,
            &NEWER_MANIFEST,
            Name::Log(1),
            &LOG_BYTES,
            "newer format 5\n"
        )?
    );
    Ok(())
}

#[test]
fn damaged_stores_are_refused(rt: HostRuntime) -> Result<(), Fail> {
    let alloc = rt.alloc();

    // A log that isn't the last must be whole.
    assert!(rt; refuses_before(alloc, &LOG_BYTES[..50], "damaged log 1 at 16\n")?);
    assert!(rt; refuses_before(alloc, &SECOND_LOG_BYTES, "damaged log 1 at 0\n")?);

    // Commit 2 doesn't come first.
    let line = "damaged log 2 at 16\n";
    assert!(rt;
        refuses_two(
            alloc,
            &MANIFEST_BYTES,
            Name::Log(2),
            &SECOND_LOG_BYTES,
            line
        )?
    );

    let line = "damaged manifest 1 at 16\n";
    assert!(rt; refuses_two(alloc, &DAMAGED_MANIFEST, Name::Log(1), &LOG_BYTES, line)?);
    Ok(())
}

#[test]
fn stores_without_a_number_left_are_refused(rt: HostRuntime) -> Result<(), Fail> {
    let alloc = rt.alloc();
    let first = Name::Manifest(1);
    assert!(rt; refuses_one(alloc, first, &LAST_LOG_MANIFEST, "exhausted log\n")?);
    let last = Name::Manifest(4_294_967_294);
    assert!(rt; refuses_one(alloc, last, &LAST_MANIFEST, "exhausted manifest\n")?);
    Ok(())
}

#[test]
fn the_last_commit_has_the_greatest_number(rt: HostRuntime) -> Result<(), Fail> {
    let alloc = rt.alloc();
    let files = with(
        alloc,
        Vec::new(alloc),
        Name::Manifest(1),
        &LAST_COMMIT_MANIFEST,
    )?;
    let case = plain(
        "begin a\nset a 61 01\ncommit a\nget a 61\n",
        "ok 9223372036854775806\nok\nexhausted commit\nvalue 01\n",
        0,
    );
    let (status, printed, _) = outcome_over(alloc, &case, started(alloc, files, &[])?)?;
    assert_eq!(rt; printed.as_slice(), case.printed.as_bytes());
    assert_eq!(rt; status, case.status);
    Ok(())
}

/// What was written before there were tags: a store of one log, or of two.
fn old_store(alloc: Global, log: &[u8], is_second: bool) -> Result<Vec<(Name, Vec<u8>)>, Fail>
    ensures { IfOk result (λ files. All (λ file. IsNumbered file.0) files.items) }
{
    if !is_second {
        return store(alloc, &OLD_MANIFEST, log);
    }
    let files = with(
        alloc,
        Vec::new(alloc),
        Name::Manifest(2),
        &OLD_SECOND_MANIFEST,
    )?;
    let files = with(alloc, files, Name::Log(1), log)?;
    with(alloc, files, Name::Log(2), &OLD_SECOND_LOG)
}

/// What a view over the disk prints of the three keys, and its status.
fn shown(alloc: Global, disk: MemDisk) -> Result<(u8, Vec<u8>, MemDisk), Fail> {
    outcome_over(
        alloc,
        &plain("view v\ngetb v 61\ngetb v 62\ngetb v 63\n", "", 0),
        disk,
    )
}

#[test]
fn a_store_of_format_1_shows_the_same_whenever_its_opening_stops(
    rt: HostRuntime,
) -> Result<(), Fail> {
    let alloc = rt.alloc();
    // The first log, whether there is a second, how many changing calls an opening makes, and what the keys have.
    let stores: [(&[u8], bool, u64, &str); 4] = [
        (&OLD_LOG, false, 8, "ok 2\nnone\nA\nvalue - byte 0\n"),
        (
            &OLD_LOG[..160],
            false,
            9,
            "ok 1\nvalue 01 byte 0\nA\nnone\n",
        ),
        (&OLD_LOG[..100], false, 7, "ok 0\nnone\nnone\nnone\n"),
        (
            &OLD_LOG,
            true,
            8,
            "ok 3\nvalue 02 byte 0\nA\nvalue - byte 0\n",
        ),
    ];
    let long =
        "value aaaaaaaaaaaaaaaaaaaaaaaaaaaaaaaaaaaaaaaaaaaaaaaaaaaaaaaaaaaaaaaaaaaaaaaaaaaaaaaaaaaaaaaaaaaaaaaaaaaaaaaaaaaaaaaaaaaaaaaaaaaaaaaaaa byte 0";
    for (log, is_second, calls, rows) in stores {
        let wanted = rows.replace(alloc, "A", long)?;
        for stop in 0..=calls {
            for outcome in [Outcome::Lost, Outcome::Kept, Outcome::Halved] {
                let mut disk = started(alloc, old_store(alloc, log, is_second)?, &[])?;
                disk.stop_after(stop);
                let (status, printed, disk) = shown(alloc, disk)?;
                if stop < calls {
                    assert!(rt;
                        status == 3 && printed.as_slice() == b"disk fault\n".as_slice(),
                        "{stop}"
                    );
                } else {
                    assert!(rt;
                        status == 0 && printed.as_slice() == wanted.as_bytes(),
                        "{stop}"
                    );
                }
                let (status, printed, _) = shown(alloc, disk.crash(outcome)?)?;
                assert!(rt;
                    status == 0 && printed.as_slice() == wanted.as_bytes(),
                    "{stop}"
                );
            }
        }
    }
    Ok(())
}

#[test]
fn a_store_is_opened_again_after_faults(rt: HostRuntime) -> Result<(), Fail> {
    let alloc = rt.alloc();
    // The log's bytes, how many changing calls the opening makes, and what is printed of the store.
    let stores: [(&[u8], u64, &str); 4] = [
        (&LOG_BYTES, 8, "ok 1\nvalue 01\n"),
        (&MOVED_LOG_BYTES, 8, "ok 1\nvalue 01\n"),
        (&LOG_BYTES[..50], 6, "ok 0\nnone\n"),
        // The header of another log is none.
        (&SECOND_LOG_BYTES, 7, "ok 0\nnone\n"),
    ];
    for (log, calls, answers) in stores {
        for call in 1..=calls {
            let files = store(alloc, &MANIFEST_BYTES, log)?;
            let disk = started(alloc, files, &[call])?;
            let stopped = plain("view v\nget v 61\n", "disk fault\n", 3);
            let (status, printed, disk) = outcome_over(alloc, &stopped, disk)?;
            assert_eq!(rt;
                printed.as_slice(),
                stopped.printed.as_bytes(),
                "call {call}"
            );
            assert_eq!(rt; status, stopped.status, "call {call}");

            let again = plain("view v\nget v 61\n", answers, 0);
            let (status, printed, _) = outcome_over(alloc, &again, disk)?;
            assert_eq!(rt; printed.as_slice(), again.printed.as_bytes(), "call {call}");
            assert_eq!(rt; status, again.status, "call {call}");
        }
    }
    Ok(())
}
