// Files of a folder that are made and opened.
use crate::folder_error::Trouble;
use crate::identity::Identity;
use std::fs::{File, OpenOptions};
use std::io;
use std::os::fd::AsRawFd;
use std::rt::Files;

/// Makes a file, which must not stand. A link isn't followed.
pub fn make_file<R: Files<File = File>>(rt: &R, path: &str) -> io::Result<(File, Identity)> {
    let file = OpenOptions::new()
        .read(true)
        .write(true)
        .create_new(true)
        .open(rt, path)?;
    let file = away_from_streams(file)?;
    let identity = Identity::of(&file.metadata()?);
    Ok((file, identity))
}

/// Opens a file that stands. It must be a plain file: a link isn't followed, and nothing else is opened.
pub fn open_file<R: Files<File = File>>(rt: &R, path: &str) -> Result<(File, Identity), Trouble> {
    let found = plain_file(rt, path)?;
    let file = OpenOptions::new().read(true).write(true).open(rt, path)?;
    let file = away_from_streams(file)?;
    if Identity::of(&file.metadata()?) != found {
        return Err(Trouble::Replaced);
    }
    Ok((file, found))
}

/// The plain file that stands under this path.
pub fn plain_file(rt: &impl Files, path: &str) -> Result<Identity, Trouble> {
    let found = rt.symlink_metadata(path)?;
    if found.is_file() {
        Ok(Identity::of(&found))
    } else {
        Err(Trouble::NoFile)
    }
}

/// The greatest descriptor of a standard stream.
const LAST_STREAM: i32 = 2;

/// The file under a descriptor of its own. Where a standard stream was closed, a file that is opened takes the stream's
/// place, and what is printed would land in it.
fn away_from_streams(file: File) -> io::Result<File> {
    if file.as_raw_fd() > LAST_STREAM {
        return Ok(file);
    }
    file.try_clone()
}
