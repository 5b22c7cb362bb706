// A folder that is made where it is missing, durably.
use crate::again::create_dir;
use std::alloc::Global;
use std::fs::File;
use std::io;
use std::io::ErrorKind;
use std::rt::Files;

/// Makes a folder where it is missing, with its parents. Its name is durable afterwards, also where it stands already.
pub fn make_folder<R: Files<File = File>>(rt: &R, alloc: Global, path: &str) -> io::Result<()> {
    if is_folder(rt, path) {
        return sync_name(rt, alloc, path);
    }
    for end in 1..path.len() {
        if let Some((parent, rest)) = path.split_at_checked(end)
            && rest.starts_with('/')
        {
            make_one(rt, alloc, parent)?;
        }
    }
    make_one(rt, alloc, path)
}

fn is_folder(rt: &impl Files, path: &str) -> bool {
    rt.metadata(path).is_ok_and(|found| found.is_dir())
}

/// Makes a folder where it is missing, and its name durable in the folder that it lies in. So is that one's own name first:
/// an earlier run may have been stopped once it had made it.
fn make_one<R: Files<File = File>>(rt: &R, alloc: Global, path: &str) -> io::Result<()> {
    if is_folder(rt, path) {
        return Ok(());
    }
    let parent = parent_of(path);
    sync_name(rt, alloc, parent)?;
    match create_dir(rt, path) {
        Ok(()) => {}
        // Another process made it meanwhile. Which of the two has it is told when it is locked.
        Err(error) if error.kind() == ErrorKind::AlreadyExists && is_folder(rt, path) => {}
        Err(error) => return Err(error),
    }
    sync_parent(&File::open(rt, parent)?)
}

/// Makes the name of a folder that stands durable. Where the folder that it lies in may not be read, that is left to who
/// made it.
fn sync_name<R: Files<File = File>>(rt: &R, alloc: Global, path: &str) -> io::Result<()> {
    let parent = format!(in alloc; "{path}/..")?;
    match File::open(rt, parent.as_str()) {
        Ok(parent) => sync_parent(&parent),
        Err(error) if error.kind() == ErrorKind::PermissionDenied => Ok(()),
        Err(error) => Err(error),
    }
}

/// Makes the names in a folder durable that isn't the store's. Of a file system that syncs no folders nothing more can be
/// asked.
fn sync_parent(parent: &File) -> io::Result<()> {
    match parent.sync_all() {
        Err(error) if error.kind() == ErrorKind::InvalidInput => Ok(()),
        synced => synced,
    }
}

/// The folder that this one lies in.
fn parent_of(path: &str) -> &str {
    match path.rsplit_once('/') {
        Some(("", _)) => "/",
        Some((parent, _)) => parent,
        None => ".",
    }
}
