use crate::tests::setting::{Folder, four_of, hold_four, made_disk, make_four, over};
use std::io::Read;
use std::rt::Files;
use std::test::Fail;
use vl_disk::{Disk, Name};
use vl_folder::FolderHeld;

// How many files the process has open.
fn open_files(rt: &HostRuntime) -> Result<usize, Fail> {
    let mut names = [0u8; 4096];
    let mut folder = rt.open_dir("/proc/self/fd/")?;
    let mut count = 0usize;
    for _ in 0..64 {
        let read = folder.read(&mut names)?;
        if read == 0 {
            break;
        }
        let ends = names[..read].iter().filter(|byte| **byte == 0).count();
        count = count.saturating_add(ends);
    }
    Ok(count)
}

/// More files than a disk keeps open.
const MANY: u32 = 400;

/// Fewer than they are, and more than a disk keeps open.
const FEW: usize = 220;

// Makes and holds the tables 1 to MANY.
fn hold_many(rt: &HostRuntime, disk: &mut Folder<'_>) -> Result<Vec<FolderHeld>, Fail> {
    let mut all = Vec::new(rt.alloc());
    for number in 1..=MANY {
        make_four(disk, Name::Table(number), number)?;
        all.push(disk.hold(Name::Table(number))?)?;
    }
    Ok(all)
}

// What is held stays readable, also where it was read long ago or was removed.
fn reads_many(rt: &HostRuntime, path: &str) -> Result<bool, Fail> {
    let mut disk = made_disk(rt, path)?;
    let all = hold_many(rt, &mut disk)?;
    disk.remove(Name::Table(1))?;
    disk.remove(Name::Table(MANY))?;
    let mut reader = disk.reader(rt.alloc())?;
    for _ in 0..2 {
        let mut number = 0u32;
        for held in &all {
            number = number.saturating_add(1);
            if four_of(&mut reader, held) != Some(number) {
                return Ok(false);
            }
        }
    }
    Ok(open_files(rt)? < FEW)
}

#[test]
fn many_files_are_held_over_few_that_are_open(rt: HostRuntime) -> Result<(), Fail> {
    assert!(rt; over(&rt, reads_many)?);
    Ok(())
}

/// So many files are held, let go and removed.
const REMOVED: u32 = 200;

fn remove_many(disk: &mut Folder<'_>) -> Result<(), Fail> {
    for number in 1..=REMOVED {
        let name = Name::Table(number);
        make_four(disk, name, number)?;
        drop(disk.hold(name)?);
        drop(disk.hold(name)?);
    }
    for number in 1..=REMOVED {
        disk.remove(Name::Table(number))?;
    }
    Ok(())
}

// Whether a file that was removed is read as it is held.
fn reads_removed(rt: &HostRuntime, disk: &mut Folder<'_>) -> Result<bool, Fail> {
    let held = hold_four(disk, 5)?;
    let mut reader = disk.reader(rt.alloc())?;
    Ok(four_of(&mut reader, &held) == Some(5))
}

// A file that was removed is closed once nothing holds it.
fn closes(rt: &HostRuntime, path: &str) -> Result<bool, Fail> {
    let mut disk = made_disk(rt, path)?;
    let before = open_files(rt)?;
    remove_many(&mut disk)?;
    let closed = open_files(rt)? == before;
    let read = reads_removed(rt, &mut disk)?;
    Ok(closed && read && open_files(rt)? == before)
}

#[test]
fn files_that_were_removed_are_closed(rt: HostRuntime) -> Result<(), Fail> {
    assert!(rt; over(&rt, closes)?);
    Ok(())
}
