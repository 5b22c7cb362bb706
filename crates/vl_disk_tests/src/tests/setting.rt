// What the tests of folders have in common. A helper is proved once, and a test that calls it has the fewer endings.
ghost use Rattle.vl_disk.specs.Name.{IsNumbered};

use std::rt::Files;
use std::test::Fail;
use std::{env, fs, process};
use vl_disk::{Disk, HeldFile, Name, Reader, make_file};
use vl_folder::{FolderDisk, FolderHeld, FolderReader};

pub const LOG: Name = Name::Log(1);

pub const TABLE: Name = Name::Table(4294967294);

/// A disk over a real folder.
pub type Folder<'a> = FolderDisk<&'a HostRuntime>;

/// The path of a folder that isn't there, in the folder for temporary files.
fn missing_folder(rt: &HostRuntime) -> Result<String, Fail> {
    let temporary = env::temp_dir(rt)?;
    let process = process::id(rt.process());
    Ok(format!(in rt.alloc(); "{}/vl_folder-{process}", temporary.as_str())?)
}

/// Whether this shows of a folder that isn't there, which is removed afterwards.
pub fn over<F: FnOnce(&HostRuntime, &str) -> Result<bool, Fail> + Drop>(
    rt: &HostRuntime,
    shows: F,
) -> Result<bool, Fail>
    requires { F.IsAlwaysCallable shows }
{
    let path = missing_folder(rt)?;
    let shown = shows(rt, &path)?;
    fs::remove_dir_all(rt, path)?;
    Ok(shown)
}

/// The path of a file in a folder.
pub fn inside(rt: &HostRuntime, folder: &str, name: &str) -> Result<String, Fail> {
    Ok(format!(in rt.alloc(); "{folder}/{name}")?)
}

/// A disk over the folder of this path.
pub fn disk_over<'a>(rt: &'a HostRuntime, path: &str) -> Result<Folder<'a>, Fail> {
    let path = String::from_str(rt.alloc(), path)?;
    Ok(FolderDisk::new(rt, rt.alloc(), path))
}

/// A disk over the folder of this path, which is made.
pub fn made_disk<'a>(rt: &'a HostRuntime, path: &str) -> Result<Folder<'a>, Fail> {
    let mut disk = disk_over(rt, path)?;
    disk.list(rt.alloc())?;
    Ok(disk)
}

/// Whether the disk lists this file alone.
pub fn has_only(rt: &HostRuntime, disk: &mut Folder<'_>, name: Name) -> bool {
    match disk.list(rt.alloc()) {
        Ok(names) => names.as_slice() == [name].as_slice(),
        Err(_) => false,
    }
}

/// Writes a file of a folder beside any disk.
pub fn write(rt: &HostRuntime, folder: &str, name: &str, bytes: &[u8]) -> Result<(), Fail> {
    fs::write(rt, inside(rt, folder, name)?, bytes)?;
    Ok(())
}

/// Whether a file of a folder has these bytes.
pub fn has_bytes(rt: &HostRuntime, folder: &str, name: &str, bytes: &[u8]) -> Result<bool, Fail> {
    let found = fs::read(rt, inside(rt, folder, name)?)?;
    Ok(found.as_slice() == bytes)
}

/// Whether a file is as long as this.
pub fn is_long(disk: &mut Folder<'_>, name: Name, len: u64) -> bool {
    match disk.size(name) {
        Ok(size) => size == len,
        Err(_) => false,
    }
}

/// Whether a file has these two bytes from a place on.
pub fn has_two(disk: &mut Folder<'_>, name: Name, place: u64, bytes: [u8; 2]) -> bool {
    let mut two = [0; 2];
    disk.read(name, place, &mut two).is_ok() && two == bytes
}

/// Makes a file of the four bytes of this number.
pub fn make_four(disk: &mut Folder<'_>, name: Name, number: u32) -> Result<(), Fail>
    requires { IsNumbered name }
{
    disk.ready(name, 4)?;
    make_file(disk, name, &number.to_be_bytes())?;
    Ok(())
}

/// Holds a log of the four bytes of this number, which is removed then.
pub fn hold_four(disk: &mut Folder<'_>, number: u32) -> Result<FolderHeld, Fail> {
    make_four(disk, LOG, number)?;
    let held = disk.hold(LOG)?;
    disk.remove(LOG)?;
    Ok(held)
}

/// The number that the first four bytes of a held file spell, if they can be read.
pub fn four_of(reader: &mut FolderReader<&HostRuntime>, held: &FolderHeld) -> Option<u32> {
    if held.len() < 4 {
        return None;
    }
    let mut bytes = [0; 4];
    match reader.read(held, 0, &mut bytes) {
        Ok(()) => Some(u32::from_be_bytes(bytes)),
        Err(_) => None,
    }
}
