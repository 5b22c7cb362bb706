// What is there and isn't the store's.
use crate::tests::setting::{
    Folder, LOG, TABLE, disk_over, has_bytes, has_only, inside, made_disk, make_four, over, write,
};
use std::fs;
use std::os::unix::fs::symlink;
use std::test::Fail;
use vl_disk::{Disk, Name};

const OTHERS: &str = "notes.txt 0000000000.vlog 4294967295.vtab 9999999999.vlog 000000001.vlog \
    00000000001.vlog 0000000001.vlogs 0000000001.VLOG +000000001.vlog 0000000001 .vlog";

// Lists and removes a file of the store among those of others.
fn lists_ours(rt: &HostRuntime, path: &str) -> Result<bool, Fail> {
    write(rt, path, "0000000007.vman", b"ours")?;
    let mut disk = disk_over(rt, path)?;
    let listed = has_only(rt, &mut disk, Name::Manifest(7));
    disk.remove(Name::Manifest(7))?;
    Ok(listed)
}

fn passes_over(rt: &HostRuntime, path: &str) -> Result<bool, Fail> {
    fs::create_dir(rt, path)?;
    for name in OTHERS.split(' ') {
        write(rt, path, name, b"theirs")?;
    }
    let mut left = lists_ours(rt, path)?;
    for name in OTHERS.split(' ') {
        left = left && has_bytes(rt, path, name, b"theirs")?;
    }
    Ok(left)
}

#[test]
fn files_of_others_are_passed_over(rt: HostRuntime) -> Result<(), Fail> {
    assert!(rt; over(&rt, passes_over)?);
    Ok(())
}

fn lists(rt: &HostRuntime, path: &str) -> Result<bool, Fail> {
    Ok(disk_over(rt, path)?.list(rt.alloc()).is_ok())
}

// A file in the folder's place, and in its parent's.
fn refuses_a_file(rt: &HostRuntime, top: &str) -> Result<bool, Fail> {
    fs::create_dir(rt, top)?;
    write(rt, top, "store", b"theirs")?;
    let refused = !lists(rt, &inside(rt, top, "store")?)?;
    let below = !lists(rt, &inside(rt, top, "store/below")?)?;
    Ok(refused && below && has_bytes(rt, top, "store", b"theirs")?)
}

#[test]
fn a_file_in_the_folders_place_is_a_fault(rt: HostRuntime) -> Result<(), Fail> {
    assert!(rt; over(&rt, refuses_a_file)?);
    Ok(())
}

// Whether each call is a fault, where a name of the store's isn't a plain file's.
fn refuses_what_stands(rt: &HostRuntime, path: &str) -> Result<bool, Fail> {
    let mut disk = disk_over(rt, path)?;
    disk.ready(LOG, 1)?;
    let listed = disk.list(rt.alloc()).is_err();
    let opened = disk.size(LOG).is_err();
    let created = disk.create(LOG).is_err();
    let removed = disk.remove(LOG).is_err();
    Ok(listed && opened && created && removed)
}

fn leaves_a_link(rt: &HostRuntime, path: &str) -> Result<bool, Fail> {
    fs::create_dir(rt, path)?;
    write(rt, path, "theirs", b"theirs")?;
    symlink(rt, "theirs", &inside(rt, path, "0000000001.vlog")?)?;
    let refused = refuses_what_stands(rt, path)?;
    Ok(
        refused
            && has_bytes(rt, path, "theirs", b"theirs")?
            && has_bytes(rt, path, "0000000001.vlog", b"theirs")?,
    )
}

#[test]
fn a_link_is_not_followed(rt: HostRuntime) -> Result<(), Fail> {
    assert!(rt; over(&rt, leaves_a_link)?);
    Ok(())
}

fn leaves_a_folder(rt: &HostRuntime, path: &str) -> Result<bool, Fail> {
    fs::create_dir_all(rt, inside(rt, path, "0000000001.vlog")?)?;
    write(rt, path, "0000000001.vlog/theirs", b"theirs")?;
    let refused = refuses_what_stands(rt, path)?;
    Ok(refused && has_bytes(rt, path, "0000000001.vlog/theirs", b"theirs")?)
}

#[test]
fn a_folder_under_a_files_name_is_left_alone(rt: HostRuntime) -> Result<(), Fail> {
    assert!(rt; over(&rt, leaves_a_folder)?);
    Ok(())
}

// Moves the folder `store` away, and says whether the disk over it then refuses to make and remove files.
fn refuses_moved(rt: &HostRuntime, top: &str, disk: &mut Folder<'_>) -> Result<bool, Fail> {
    fs::rename(rt, inside(rt, top, "store")?, inside(rt, top, "moved")?)?;
    disk.ready(TABLE, 1)?;
    Ok(disk.create(TABLE).is_err() && disk.remove(LOG).is_err())
}

// Makes another folder in its place, and says the same.
fn refuses_replaced(rt: &HostRuntime, top: &str, disk: &mut Folder<'_>) -> Result<bool, Fail> {
    fs::create_dir(rt, inside(rt, top, "store")?)?;
    write(rt, top, "store/0000000001.vlog", b"theirs")?;
    Ok(disk.create(TABLE).is_err() && disk.remove(LOG).is_err())
}

fn misses_its_folder(rt: &HostRuntime, top: &str) -> Result<bool, Fail> {
    let mut disk = made_disk(rt, &inside(rt, top, "store")?)?;
    make_four(&mut disk, LOG, 1)?;
    let moved = refuses_moved(rt, top, &mut disk)?;
    let replaced = refuses_replaced(rt, top, &mut disk)?;
    Ok(
        moved
            && replaced
            && has_bytes(rt, top, "store/0000000001.vlog", b"theirs")?
            && has_bytes(rt, top, "moved/0000000001.vlog", &[0, 0, 0, 1])?,
    )
}

#[test]
fn a_folder_that_was_moved_is_a_fault(rt: HostRuntime) -> Result<(), Fail> {
    assert!(rt; over(&rt, misses_its_folder)?);
    Ok(())
}

// Whether a disk tells what it met at a folder that has a file's name, once it has met it.
fn tells_of_a_folder(rt: &HostRuntime, path: &str) -> Result<bool, Fail> {
    let below = inside(rt, path, "0000000001.vlog")?;
    fs::create_dir_all(rt, below.as_str())?;
    let mut disk = disk_over(rt, path)?;
    let before = disk.last_fault().is_none();
    let listed = disk.list(rt.alloc()).is_ok();
    let Some(fault) = disk.last_fault() else {
        return Ok(false);
    };
    let text = format!(in rt.alloc(); "{fault}")?;
    let wanted = format!(in rt.alloc(); "{below}: it is no plain file")?;
    Ok(before && !listed && fault.path() == below.as_str() && text == wanted)
}

#[test]
fn what_failed_is_told(rt: HostRuntime) -> Result<(), Fail> {
    assert!(rt; over(&rt, tells_of_a_folder)?);
    Ok(())
}
