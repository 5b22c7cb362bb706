// Calls of the system that a signal may interrupt, and that std doesn't try again.
use std::io;
use std::io::{ErrorKind, Read};
use std::rt::Files;

pub fn remove_file(rt: &impl Files, path: &str) -> io::Result<()> {
    for _ in 0..u64::MAX {
        match rt.remove_file(path) {
            Err(error) if error.kind() == ErrorKind::Interrupted => {}
            removed => return removed,
        }
    }
    Err(io::Error::from(ErrorKind::Interrupted))
}

pub fn create_dir(rt: &impl Files, path: &str) -> io::Result<()> {
    for _ in 0..u64::MAX {
        match rt.create_dir(path) {
            Err(error) if error.kind() == ErrorKind::Interrupted => {}
            made => return made,
        }
    }
    Err(io::Error::from(ErrorKind::Interrupted))
}

pub fn open_dir<R: Files>(rt: &R, path: &str) -> io::Result<R::Dir> {
    for _ in 0..u64::MAX {
        match rt.open_dir(path) {
            Err(error) if error.kind() == ErrorKind::Interrupted => {}
            opened => return opened,
        }
    }
    Err(io::Error::from(ErrorKind::Interrupted))
}
