//! What stands behind an install, by which the tables that a merge made take the place of others.

ghost use Rattle.std.specs.Prelude.{◌≡◌, IfOk};
ghost use Rattle.std.specs.List.{filter};
ghost use Rattle.vl_version.specs.Needed.{head_of, is_kept};
ghost use Rattle.vl_version.specs.Replacing.{IsReplaced};

use crate::behind::{Behind, SharedBehind};
use crate::needed::{head_of, let_go};
use crate::shared::{share_frozen, share_logs};
use crate::{Levels, Version};
use std::alloc::{AllocError, Global};
use vl_disk::HeldFile;
use vl_memtable::{FrozenLog, Memtable};
use vl_seglog::SealedLog;

/// The version behind an install, but for its levels.
#[derive(Drop)]
pub struct ReplacedVersion<H: HeldFile> {
    active: Memtable,
    frozen: Vec<FrozenLog>,
    logs: Vec<SealedLog<H>>,
}

impl<H: HeldFile> Version<H> {
    /// The version behind an install, but for its levels: all else is as it is here. All memory that the install wants of it is
    /// taken here. This one stays as it is.
    pub fn replaced(&self, alloc: Global) -> Result<ReplacedVersion<H>, AllocError>
        ensures { IfOk result (IsReplaced H.bytes self.now) }
    {
        let behind = self.behind.as_ref();
        let mut frozen = Vec::new(alloc);
        share_frozen(&mut frozen, &behind.frozen)?;
        Ok(ReplacedVersion {
            active: self.active.share()?,
            frozen,
            logs: share_logs(alloc, &behind.logs)?,
        })
    }
}

impl<H: HeldFile> ReplacedVersion<H> {
    /// The version with these levels, where the active log has this number. Of the logs that are idle, as far as the caller knows, it
    /// holds just those that it needs. It wants no memory.
    pub fn with_levels(self, levels: Levels<H>, active: u32, idle: &[u32]) -> Version<H>
        ensures active { result.active ≡ self.active }
        ensures frozen { result.behind.frozen.items ≡ self.frozen.items }
        ensures levels { result.behind.levels ≡ levels }
        ensures logs { result.behind.logs.items
            ≡ filter (is_kept idle.now (head_of active self.frozen.items) levels) self.logs.items }
    {
        let ReplacedVersion {
            active: memtable,
            frozen,
            logs,
        } = self;
        let mut logs = logs;
        let_go(&mut logs, idle, head_of(active, &frozen), &levels);
        Version {
            active: memtable,
            behind: SharedBehind::new(Behind {
                frozen,
                levels,
                logs,
            }),
        }
    }
}
