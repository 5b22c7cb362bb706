//! What stands behind the flush of the oldest frozen log.

ghost use Rattle.std.specs.Prelude.{◌≡◌, ◌<◌, IfOk, vec_capacity, vec_len};
ghost use Rattle.vl_version.specs.Oldest.{but_oldest};

use crate::behind::{Behind, SharedBehind};
use crate::needed::{head_of, let_go};
use crate::shared::{share_frozen, share_logs};
use crate::{Levels, Version};
use std::alloc::{AllocError, Global};
use vl_disk::HeldFile;
use vl_memtable::{FrozenLog, Memtable};
use vl_seglog::SealedLog;
use vl_table::Table;

/// The version behind the flush of the oldest frozen log, but for the table of its entries, for which there is room.
#[derive(Drop)]
pub struct FlushedVersion<H: HeldFile> {
    active: Memtable,
    frozen: Vec<FrozenLog>,
    levels: Levels<H>,
    logs: Vec<SealedLog<H>>,
}

impl<H: HeldFile> Version<H> {
    ghost use Rattle.std.specs.Prelude.{◌≡◌, IfOk};
    ghost use Rattle.std.specs.Option.{option_copied};
    ghost use Rattle.vl_version.specs.Flushing.{IsFlushed};
    ghost use Rattle.vl_version.specs.Oldest.{oldest_frozen};

    /// The log whose memtable has waited for its flush for longest.
    pub fn oldest(&self) -> Option<&FrozenLog>
        ensures { option_copied result ≡ oldest_frozen self.now.behind.frozen.items }
    {
        self.behind.as_ref().frozen.last()
    }

    /// The version behind the flush of that log, but for the table of its entries. All memory that the flush wants of it is
    /// taken here. This one stays as it is.
    pub fn flushed(&self, alloc: Global) -> Result<FlushedVersion<H>, AllocError>
        ensures { IfOk result (IsFlushed H.bytes self.now) }
    {
        let behind = self.behind.as_ref();
        let mut levels = behind.levels.share(alloc)?;
        levels.make_room()?;
        Ok(FlushedVersion {
            active: self.active.share()?,
            frozen: without_oldest(alloc, &behind.frozen)?,
            levels,
            logs: share_logs(alloc, &behind.logs)?,
        })
    }
}

impl<H: HeldFile> FlushedVersion<H> {
    ghost use Rattle.std.specs.Prelude.{◌≡◌, ◌∷◌};
    ghost use Rattle.std.specs.List.{filter};
    ghost use Rattle.vl_version.specs.Needed.{head_of, is_kept};

    /// The version with this table in front of level 0, where the active log has this number. Of the logs that are idle, as far as
    /// the caller knows, it holds just those that it needs. It wants no memory.
    pub fn with_table(self, table: Table<H>, active: u32, idle: &[u32]) -> Version<H>
        requires { vec_len self.levels.newest < vec_capacity self.levels.newest }
        ensures active { result.active ≡ self.active }
        ensures frozen { result.behind.frozen.items ≡ self.frozen.items }
        ensures newest { result.behind.levels.newest.items ≡ table ∷ self.levels.newest.items }
        ensures deeper { result.behind.levels.deeper ≡ self.levels.deeper }
        ensures logs { result.behind.logs.items
            ≡ filter (is_kept idle.now (head_of active self.frozen.items) result.behind.levels) self.logs.items }
    {
        let FlushedVersion {
            active: memtable,
            frozen,
            levels,
            logs,
        } = self;
        let mut levels = levels;
        levels.put_newest(table);
        let mut logs = logs;
        let_go(&mut logs, idle, head_of(active, &frozen), &levels);
        Version {
            active: memtable,
            behind: SharedBehind::new(Behind {
                frozen,
                levels,
                logs,
            }),
        }
    }
}

// These frozen logs once more but for the last, which is the oldest.
fn without_oldest(alloc: Global, frozen: &[FrozenLog]) -> Result<Vec<FrozenLog>, AllocError>
    ensures { IfOk result (λ newer. newer.items ≡ but_oldest frozen.now) }
{
    let mut newer = Vec::new(alloc);
    if let Some((_, front)) = frozen.split_last() {
        share_frozen(&mut newer, front)?;
    }
    Ok(newer)
}
