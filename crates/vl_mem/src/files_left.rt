// The files that a crash of a disk in memory leaves.
ghost use Rattle.std.specs.Prelude.{◌≡◌, IfOk};
ghost use Rattle.vl_disk.specs.DiskState.{DiskState};
ghost use Rattle.vl_mem.specs.CrashImage.{crash_image};
ghost use Rattle.vl_mem.specs.Entry.{HasFiles};
ghost use Rattle.vl_mem.specs.Kept.{image_of};

use crate::entry::Entry;
use crate::outcome::Outcome;
use std::alloc::Global;
use std::collections::BTreeMap;
use vl_disk::{Name, NoMemory};

/// The files that a crash leaves, each once.
pub fn files_left(
    alloc: Global,
    entries: BTreeMap<Name, Entry, Global>,
    outcome: Outcome,
) -> Result<Vec<(Name, Vec<u8>)>, NoMemory>
    ensures { (disk : DiskState) → HasFiles entries disk
        → IfOk result (λ files. image_of files.items ≡ crash_image outcome disk) }
{
    let mut files = Vec::new(alloc);
    for (name, entry) in entries {
        if let Some(bytes) = entry.left(outcome) {
            files.push((name, bytes))?;
        }
    }
    Ok(files)
}
