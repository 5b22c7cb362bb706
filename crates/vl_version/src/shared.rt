//! What another version shares of one.

ghost use Rattle.std.specs.Prelude.{◌≡◌, ◌++◌, IfOk, OnOk};
ghost use Rattle.vl_version.specs.Shared.{AreSameLogs};

use std::alloc::{AllocError, Global};
use vl_disk::HeldFile;
use vl_memtable::FrozenLog;
use vl_seglog::SealedLog;

/// Puts these frozen logs once more behind the others.
pub fn share_frozen(all: &mut Vec<FrozenLog>, frozen: &[FrozenLog]) -> Result<(), AllocError>
    ensures { OnOk result (all.new.items ≡ all.old.items ++ frozen.now) }
{
    for log in frozen {
        let memtable = log.memtable.memtable().share()?;
        all.push(FrozenLog {
            number: log.number,
            length: log.length,
            memtable: memtable.freeze(),
        })?;
    }
    Ok(())
}

/// These sealed logs once more.
pub fn share_logs<H: HeldFile>(
    alloc: Global,
    logs: &[SealedLog<H>],
) -> Result<Vec<SealedLog<H>>, AllocError>
    ensures { IfOk result (λ all. AreSameLogs H.bytes logs.now all.items) }
{
    let mut all = Vec::new(alloc);
    for log in logs {
        let held = log.held.clone()?;
        all.push(SealedLog {
            number: log.number,
            format: log.format,
            held,
        })?;
    }
    Ok(all)
}
