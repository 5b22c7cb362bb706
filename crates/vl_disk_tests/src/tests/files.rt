use crate::tests::setting::{
    Folder, LOG, TABLE, disk_over, four_of, has_bytes, has_only, has_two, hold_four, inside,
    is_long, made_disk, make_four, over, write,
};
use std::os::unix::fs::symlink;
use std::test::Fail;
use vl_disk::{Disk, HeldFile, Name, make_file};
use vl_folder::FolderHeld;

// Held files and readers go to other threads.
fn may_be_sent<T: Send>(_sent: &T) {}

fn may_be_shared<T: Sync>(_shared: &T) {}

// Three bytes and two more, of which the last is cut off, and one behind them.
fn write_and_cut(disk: &mut Folder<'_>) -> Result<(), Fail> {
    disk.ready(LOG, 3)?;
    make_file(disk, LOG, b"abc")?;
    disk.append(LOG, b"de")?;
    disk.cut(LOG, 4)?;
    disk.append(LOG, b"f")?;
    disk.sync(LOG)?;
    Ok(())
}

// The folder is made, and its parents.
fn writes(rt: &HostRuntime, top: &str) -> Result<bool, Fail> {
    let path = inside(rt, top, "one/two")?;
    let mut disk = made_disk(rt, &path)?;
    write_and_cut(&mut disk)?;
    let told = is_long(&mut disk, LOG, 5) && has_two(&mut disk, LOG, 1, *b"bc");
    let listed = has_only(rt, &mut disk, LOG);
    Ok(has_bytes(rt, &path, "0000000001.vlog", b"abcdf")? && told && listed)
}

#[test]
fn a_file_is_written_cut_and_synced(rt: HostRuntime) -> Result<(), Fail> {
    assert!(rt; over(&rt, writes)?);
    Ok(())
}

// Whether these held files have the numbers 1 and 2, the first by a copy.
fn reads_both(
    rt: &HostRuntime,
    disk: &Folder<'_>,
    first: &FolderHeld,
    second: &FolderHeld,
) -> Result<bool, Fail> {
    let mut reader = disk.reader(rt.alloc())?;
    may_be_sent(&reader);
    let copy = first.clone()?;
    Ok(
        copy.len() == 4
            && four_of(&mut reader, &copy) == Some(1)
            && four_of(&mut reader, second) == Some(2),
    )
}

// What was held is read after the file's removal, and beside a new file of its name, which is another one.
fn holds(rt: &HostRuntime, path: &str) -> Result<bool, Fail> {
    let mut disk = made_disk(rt, path)?;
    let first = hold_four(&mut disk, 1)?;
    let second = hold_four(&mut disk, 2)?;
    may_be_sent(&first);
    may_be_shared(&first);
    let read = reads_both(rt, &disk, &first, &second)?;
    Ok(read && disk.list(rt.alloc())?.is_empty())
}

#[test]
fn a_held_file_is_read_beside_a_new_one_of_its_name(rt: HostRuntime) -> Result<(), Fail> {
    assert!(rt; over(&rt, holds)?);
    Ok(())
}

// As long as the first disk is there, the folder is its own, under each of its names.
fn finds(rt: &HostRuntime, path: &str) -> Result<bool, Fail> {
    let mut first = made_disk(rt, path)?;
    make_four(&mut first, TABLE, 7)?;
    let link = inside(rt, path, "link")?;
    symlink(rt, path, &link)?;
    let mut second = disk_over(rt, &link)?;
    if second.list(rt.alloc()).is_ok() {
        return Ok(false);
    }
    drop(first);
    Ok(has_only(rt, &mut second, TABLE) && is_long(&mut second, TABLE, 4))
}

#[test]
fn another_disk_finds_what_one_left(rt: HostRuntime) -> Result<(), Fail> {
    assert!(rt; over(&rt, finds)?);
    Ok(())
}

// A file that was only read is closed when many others are made, and opened again when it is used.
fn opens_again(rt: &HostRuntime, path: &str) -> Result<bool, Fail> {
    let mut disk = made_disk(rt, path)?;
    make_four(&mut disk, TABLE, 7)?;
    for number in 1..100 {
        make_four(&mut disk, Name::Manifest(number), number)?;
    }
    disk.ready(TABLE, 1)?;
    disk.append(TABLE, b"d")?;
    let mut three = [0; 3];
    Ok(has_two(&mut disk, TABLE, 3, [7, b'd']) && disk.read(TABLE, 3, &mut three).is_err())
}

#[test]
fn a_file_is_opened_again(rt: HostRuntime) -> Result<(), Fail> {
    assert!(rt; over(&rt, opens_again)?);
    Ok(())
}

fn leaves_what_stands(rt: &HostRuntime, path: &str) -> Result<bool, Fail> {
    let mut disk = made_disk(rt, path)?;
    write(rt, path, "0000000001.vlog", b"theirs")?;
    disk.ready(LOG, 1)?;
    let made = disk.create(LOG).is_ok();
    Ok(!made && has_bytes(rt, path, "0000000001.vlog", b"theirs")?)
}

#[test]
fn a_file_that_stands_is_not_made_again(rt: HostRuntime) -> Result<(), Fail> {
    assert!(rt; over(&rt, leaves_what_stands)?);
    Ok(())
}
