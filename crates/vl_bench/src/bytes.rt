//! How many bytes were written, and how many there are on the disk.

use anyhow::Result;
use std::fs;

/// How many bytes this process has written so far; none where the system doesn't tell.
pub fn written(rt: &HostRuntime) -> Option<u64> {
    let told = fs::read_to_string(rt, "/proc/self/io").ok()?;
    let (_, rest) = told.split_once("wchar: ")?;
    rest.lines().next()?.parse().ok()
}

/// How many bytes the files in a folder have.
pub fn on_disk(rt: &HostRuntime, folder: &str) -> Result<u64> {
    let mut bytes = 0u64;
    for entry in fs::read_dir(rt, folder)? {
        bytes = bytes.saturating_add(entry?.metadata()?.len());
    }
    Ok(bytes)
}
