// Folders that can't be synced: what rests on their sync must fail.
use crate::tests::setting::{inside, over};
use std::alloc::Allocator;
use std::fmt::Display;
use std::fs::{File, Metadata, OpenOptions};
use std::io::Eprint;
use std::rt::Files;
use std::test::Fail;
use std::{fs, io};
use vl_disk::Disk;
use vl_folder::FolderDisk;

/// A folder of the system that can't be synced.
const UNSYNCED: &str = "/proc/self";

/// The system, but for one path: who opens it is given another one.
#[derive(Clone, Copy)]
struct Instead<'a> {
    rt: &'a HostRuntime,
    path: &'a str,
    given: &'a str,
}

impl<'a> Files for Instead<'a> {
    type File = File;

    type Dir = <HostRuntime as Files>::Dir;

    fn open_file(&self, how: &OpenOptions, path: &str) -> io::Result<File> {
        let path = if path == self.path { self.given } else { path };
        self.rt.open_file(how, path)
    }

    fn open_dir(&self, path: &str) -> io::Result<Self::Dir> {
        self.rt.open_dir(path)
    }

    fn metadata(&self, path: &str) -> io::Result<Metadata> {
        self.rt.metadata(path)
    }

    fn symlink_metadata(&self, path: &str) -> io::Result<Metadata> {
        self.rt.symlink_metadata(path)
    }

    fn copy(&self, from: &str, to: &str) -> io::Result<u64> {
        self.rt.copy(from, to)
    }

    fn rename(&self, from: &str, to: &str) -> io::Result<()> {
        self.rt.rename(from, to)
    }

    fn remove_file(&self, path: &str) -> io::Result<()> {
        self.rt.remove_file(path)
    }

    fn create_dir(&self, path: &str) -> io::Result<()> {
        self.rt.create_dir(path)
    }

    fn remove_dir(&self, path: &str) -> io::Result<()> {
        self.rt.remove_dir(path)
    }

    fn remove_dir_all<B: Allocator>(&self, alloc: B, path: &str) -> io::Result<()> {
        self.rt.remove_dir_all(alloc, path)
    }
}

impl<'a> Eprint for Instead<'a> {
    fn eprint<D: Display + Drop>(&self, value: D) -> io::Result<()> {
        self.rt.eprint(value)
    }

    fn eprintln<D: Display + Drop>(&self, value: D) -> io::Result<()> {
        self.rt.eprintln(value)
    }
}

// Whether a disk lists a folder, where who opens a path is given another one.
fn lists(rt: &HostRuntime, folder: &str, path: &str, given: &str) -> Result<bool, Fail> {
    let alloc = rt.alloc();
    let folder = String::from_str(alloc, folder)?;
    let mut disk = FolderDisk::new(Instead { rt, path, given }, alloc, folder);
    Ok(disk.list(alloc).is_ok())
}

#[test]
fn a_folder_that_can_not_be_synced_is_a_fault(rt: HostRuntime) -> Result<(), Fail> {
    assert!(rt; !lists(&rt, UNSYNCED, "/proc/self/..", "/")?);
    Ok(())
}

/// A path where nothing can be opened.
const UNOPENED: &str = "/proc/self/missing";

// The parent of the parent, the parent once the folder is made, and the parent of a folder that stands.
fn refuses_parents(rt: &HostRuntime, top: &str) -> Result<bool, Fail> {
    fs::create_dir(rt, top)?;
    let path = inside(rt, top, "store")?;
    let above = lists(rt, &path, &inside(rt, top, "..")?, UNOPENED)?;
    let made = lists(rt, &path, top, UNOPENED)?;
    let standing = lists(rt, &path, &inside(rt, top, "store/..")?, UNOPENED)?;
    Ok(!above && !made && !standing && lists(rt, &path, "", "")?)
}

#[test]
fn a_parent_that_can_not_be_synced_is_a_fault(rt: HostRuntime) -> Result<(), Fail> {
    assert!(rt; over(&rt, refuses_parents)?);
    Ok(())
}

// The same three, in a file system that syncs no folders.
fn passes_over_parents(rt: &HostRuntime, top: &str) -> Result<bool, Fail> {
    fs::create_dir(rt, top)?;
    let path = inside(rt, top, "store")?;
    let above = lists(rt, &path, &inside(rt, top, "..")?, UNSYNCED)?;
    fs::remove_dir(rt, path.as_str())?;
    let made = lists(rt, &path, top, UNSYNCED)?;
    let standing = lists(rt, &path, &inside(rt, top, "store/..")?, UNSYNCED)?;
    Ok(above && made && standing)
}

#[test]
fn a_parent_whose_file_system_syncs_no_folders_is_passed_over(rt: HostRuntime) -> Result<(), Fail> {
    assert!(rt; over(&rt, passes_over_parents)?);
    Ok(())
}
