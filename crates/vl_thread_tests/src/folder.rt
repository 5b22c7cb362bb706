// Folders for tests.
use std::test::Fail;
use std::{env, fs, process};
use vlstore::FolderDisk;

/// The path of a folder that isn't there, in the folder for temporary files.
pub fn free_folder(rt: &HostRuntime, name: &str) -> Result<String, Fail> {
    let temporary = env::temp_dir(rt)?;
    let process = process::id(rt.process());
    Ok(format!(in rt.alloc(); "{}/vlstore-{name}-{process}", temporary.as_str())?)
}

/// The disk of this folder.
pub fn disk_of<'a>(rt: &'a HostRuntime, path: &str) -> Result<FolderDisk<&'a HostRuntime>, Fail> {
    let alloc = rt.alloc();
    Ok(FolderDisk::new(rt, alloc, String::from_str(alloc, path)?))
}

/// Removes a folder.
pub fn gone(rt: &HostRuntime, path: String) -> Result<(), Fail> {
    fs::remove_dir_all(rt, path)?;
    Ok(())
}
