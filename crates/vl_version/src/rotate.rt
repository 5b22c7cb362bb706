//! What stands behind an empty memtable, when the one that took commits is frozen.

ghost use Rattle.std.specs.Prelude.{◌≡◌, ◌∷◌, IfOk};
ghost use Rattle.vl_version.specs.Rotating.{IsRotated};

use crate::Version;
use crate::behind::{Behind, SharedBehind};
use crate::shared::{share_frozen, share_logs};
use std::alloc::{AllocError, Global};
use vl_disk::HeldFile;
use vl_memtable::{FrozenLog, Memtable};
use vl_seglog::SealedLog;

impl<H: HeldFile> Version<H> {
    /// The version behind a rotation: what took commits is the memtable of a frozen log of this length, which is held, and an
    /// empty memtable takes commits. This one stays as it is.
    pub fn rotated(&self, alloc: Global, length: u64, log: SealedLog<H>) -> Result<Self, AllocError>
        ensures { IfOk result (IsRotated H.bytes self.now length log) }
    {
        let newest = FrozenLog {
            number: log.number,
            length,
            memtable: self.active.share()?.freeze(),
        };
        let behind = self.behind.as_ref();
        let frozen = with_newest(alloc, newest, &behind.frozen)?;
        let levels = behind.levels.share(alloc)?;
        let mut logs = share_logs(alloc, &behind.logs)?;
        logs.push(log)?;
        Ok(Version {
            active: Memtable::new(alloc),
            behind: SharedBehind::new(Behind {
                frozen,
                levels,
                logs,
            }),
        })
    }
}

// These frozen logs once more, with one in front of them, which is the newest.
fn with_newest(
    alloc: Global,
    newest: FrozenLog,
    frozen: &[FrozenLog],
) -> Result<Vec<FrozenLog>, AllocError>
    ensures { IfOk result (λ all. all.items ≡ newest ∷ frozen.now) }
{
    let mut all = Vec::new(alloc);
    all.push(newest)?;
    share_frozen(&mut all, frozen)?;
    Ok(all)
}
