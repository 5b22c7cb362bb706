//! What a flush wants of memory, the disk's too: all of it is taken before the disk is changed.

ghost use Rattle.std.specs.Prelude.{◌≡◌, ◌≤◌, length, IfOk, IsErrOf, IsTrue, None, Some};
ghost use Rattle.vl_back.specs.Deciding.{MayFlush};
ghost use Rattle.vl_disk.specs.Calls.{ChangesNothing};
ghost use Rattle.vl_disk.specs.Spare.{CanAppend, IsReady};
ghost use Rattle.vl_disk.specs.declared.name.Name.TheVariants as names;
ghost use Rattle.vl_engine_laws.specs.FlushFacts.{IsStagedOf};
ghost use Rattle.vl_engine_laws.specs.Lent.{LeavesLent};
ghost use Rattle.vl_engine_laws.specs.Represents.{Represents};
ghost use Rattle.vl_engine_model.specs.declared.layout.Layout.{Layout};
ghost use Rattle.vl_model.specs.History.{History};
ghost use Rattle.vl_version.specs.Flushing.{IsFlushed};

use std::alloc::{AllocError, Global};
use vl_back::{StageFail, StagedFlush};
use vl_disk::{Disk, HeldFile};
use vl_engine_laws::Core;
use vl_memtable::{Memtable, RunCursor};
use vl_merge::{Merge, merge_of_told_sources};
use vl_model::{Cursor, Way};
use vl_version::FlushedVersion;

/// What a flush is made of, before anything of it is written.
#[derive(Drop)]
pub struct ReadyFlush<H: HeldFile> {
    pub staged: StagedFlush,
    /// The version behind it, but for the table.
    pub version: FlushedVersion<H>,
}

/// Takes all the memory that the flush of the log that has been frozen for longest wants. The disk is as before, but for
/// room that was made for the table and for the manifest's frame.
pub fn ready_flush<D: Disk>(
    alloc: Global,
    disk: &mut D,
    core: &Core<D::Held>,
) -> Result<ReadyFlush<D::Held>, StageFail>
    requires may { MayFlush core.now.back }
    requires running { core.now.front.halted ≡ None }
    requires numbered { 1 ≤ core.now.back.next_log }
    ensures of { IfOk result (λ ready. IsStagedOf core.now ready.staged) }
    ensures version { IfOk result (λ ready. IsFlushed D.Held.bytes core.now.version ready.version) }

    // Writing it will want no memory.
    ensures room { IfOk result (λ ready. IsReady (length ready.staged.table.bytes.items)
        (D.spare disk.new (names.Table core.now.back.state.next_table))) }
    ensures hold { IfOk result (λ _. IsTrue (D.spare disk.new (names.Table core.now.back.state.next_table)).hold) }
    ensures append { IfOk result (λ ready. CanAppend (length ready.staged.edits.frame.items)
        (D.spare disk.new (names.Manifest core.now.back.manifest.number))) }
    ensures no_change { ChangesNothing D.Watched disk.old disk.new ⊥ }
    ensures lent { LeavesLent D.Watched core.now.back.state.next_table disk.old disk.new }

    // Of what an engine represents a table can be spelled, and named by the manifest: only memory may be wanting.
    ensures lawful { (h : History) (l : Layout) → Represents D.Held.bytes core.now (D.told disk.old) h l
        → IsErrOf result StageFail.NotLawful → ⊥ }
{
    // What is read tells the proof that it fits its bytes.
    let _next_log = core.back.next_log;
    let Some(oldest) = core.version.oldest() else {
        return Err(StageFail::NotLawful);
    };
    let mut entries = entries_of(oldest.memtable.memtable())?;
    let version = core.version.flushed(alloc)?;
    let staged = core
        .back
        .stage_flush(alloc, disk, core.front.log.number, &mut entries)?;
    Ok(ReadyFlush { staged, version })
}

// The entries of a memtable, in order.
fn entries_of(memtable: &Memtable) -> Result<Merge<RunCursor>, AllocError>
    ensures { IfOk result (λ entries. ⟦<Merge<RunCursor> as Cursor>⟧.left entries ≡ Some memtable.now.entries) }
{
    merge_of_told_sources();
    memtable.has_few_runs();
    let runs = memtable.cursors(Way::Up)?;
    let entries = Merge::new(runs, Way::Up)?;
    Ok(entries)
}
