// Which file of the system a name stands for.
use std::fs::Metadata;
use std::os::unix::fs::MetadataExt;

/// A file of the system, whatever its name. It stays the file's as long as the file is open or has a name.
#[derive(Clone, Copy, PartialEq, Eq, Hash)]
pub struct Identity {
    device: u64,
    inode: u64,
}

impl Identity {
    pub fn of(found: &Metadata) -> Self {
        Identity {
            device: found.dev(),
            inode: found.ino(),
        }
    }
}
