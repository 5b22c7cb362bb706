//! Disks of which contracts know nothing.
ghost use Rattle.std.specs.Prelude.{◌≡◌, None};

use std::fs::File;
use std::io::Eprint;
use std::rt::Files;
use vl_disk::Disk;
use vl_folder::FolderDisk;

/// A disk that doesn't tell contracts its bytes, as a folder is. Over one, the calls of a session ask for no proof.
pub trait Silent: Disk + Drop {
    ghost silent: { (disk : Self) → Self.told disk ≡ None };
}

impl<R: Files<File = File> + Eprint + Copy> Silent for FolderDisk<R> {
    ghost silent = { λ _ i. None };
}
