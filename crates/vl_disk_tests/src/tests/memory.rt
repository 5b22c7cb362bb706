use std::alloc::Global;
use std::test::Fail;
use vl_disk::{Disk, DiskFail, HeldFile, Name, make_beside, make_file};
use vl_mem::{MemDisk, MemHeld};

const LOG: Name = Name::Log(1);

const TABLE: Name = Name::Table(1);

// Whether a file has these bytes.
fn has(disk: &MemDisk, name: Name, bytes: &[u8]) -> bool {
    match disk.bytes(name) {
        Some(found) => found == bytes,
        None => false,
    }
}

// Writes a table beside a log, where these calls of the disk that change nothing fail, and these of the writer. Says whether
// that failed, and which of the two files then stand whole.
fn beside(alloc: Global, calls: &[u64], writers: &[u64]) -> Result<[bool; 3], Fail> {
    let mut disk = MemDisk::new(alloc, Vec::new(alloc), calls.to_vec(alloc)?);
    disk.fail_writers(writers.to_vec(alloc)?);
    disk.ready(TABLE, 0)?;
    disk.ready(LOG, 2)?;
    let answer = make_beside(&mut disk, TABLE, &[1, 2], &[3], LOG, &[4, 5]);
    let table = has(&disk, TABLE, &[1, 2, 3]);
    let log = has(&disk, LOG, &[4, 5]);
    Ok([answer == Err(DiskFail::Failed), table, log])
}

#[test]
fn a_file_is_written_beside_another_one(rt: HostRuntime) -> Result<(), Fail> {
    assert_eq!(rt; beside(rt.alloc(), &[], &[])?, [false, true, true]);
    Ok(())
}

#[test]
fn each_call_of_a_writer_and_a_lend_fail_where_they_are_listed(
    rt: HostRuntime,
) -> Result<(), Fail> {
    let alloc = rt.alloc();
    // The first append, the second one behind the log, and the sync.
    assert_eq!(rt; beside(alloc, &[], &[1])?, [true, false, false]);
    assert_eq!(rt; beside(alloc, &[], &[2])?, [true, false, true]);
    assert_eq!(rt; beside(alloc, &[], &[3])?, [true, false, true]);
    assert_eq!(rt; beside(alloc, &[], &[4])?, [false, true, true]);
    // The lend.
    assert_eq!(rt; beside(alloc, &[1], &[])?, [true, false, false]);
    Ok(())
}

// A table of these bytes, held.
fn table_of(alloc: Global, bytes: &[u8]) -> Result<MemHeld, Fail> {
    let mut disk = MemDisk::new(alloc, Vec::new(alloc), Vec::new(alloc));
    disk.ready(TABLE, bytes.len() as u64)?;
    make_file(&mut disk, TABLE, bytes)?;
    Ok(disk.hold(TABLE)?)
}

// A log of these bytes, held.
fn log_of(alloc: Global, bytes: &[u8]) -> Result<MemHeld, Fail> {
    let mut disk = MemDisk::new(alloc, Vec::new(alloc), Vec::new(alloc));
    disk.ready(LOG, bytes.len() as u64)?;
    make_file(&mut disk, LOG, bytes)?;
    Ok(disk.hold(LOG)?)
}

#[test]
fn held_files_are_the_same_where_they_agree(rt: HostRuntime) -> Result<(), Fail> {
    let alloc = rt.alloc();
    let one = table_of(alloc, &[1, 2, 3, 4])?;
    let two = table_of(alloc, &[9, 2, 3])?;
    assert!(rt; one.same(&two, 1, 2));
    assert!(rt; one.same(&two, 4, 7));
    assert!(rt; !one.same(&two, 0, 2));
    assert!(rt; !one.same(&two, 1, 3));
    assert_eq!(rt; one.name(), TABLE);
    let other = log_of(alloc, &[1, 2, 3, 4])?;
    assert!(rt; !one.same(&other, 1, 2));
    assert!(rt; one.clone()?.same(&one, 0, 4));
    Ok(())
}
