//! What a commit wants of memory, the disk's too: all of it is taken before the disk is changed.
ghost use Rattle.std.specs.Prelude.{◌≡◌, ◌≤◌, ◌+◌, ◌++◌, length, true, IfOk, OnOk, vec_len, IsTrue};
ghost use Rattle.std.specs.FinMap.{entries, is_sorted};
ghost use Rattle.vl_disk.specs.Calls.{ChangesNothing};
ghost use Rattle.vl_disk.specs.Spare.{CanAppend};
ghost use Rattle.vl_disk.specs.declared.name.Name.TheVariants as names;
ghost use Rattle.vl_engine_laws.specs.Known.{are_known};
ghost use Rattle.vl_engine_laws.specs.Lent.{LeavesTables};
ghost use Rattle.vl_steps.specs.Staging.{IsStagedCommit, LeadTo, commit_entries, write_entry};
ghost use Rattle.vl_front.specs.Decisions.{MayWrite};
ghost use Rattle.vl_front.specs.Front.{IsSame};
ghost use Rattle.vl_memtable.specs.Lengths.{lengths_with};
ghost use Rattle.vl_model.specs.Keys.{key_cmp};

use std::alloc::{AllocError, Global};
use vl_disk::{Disk, HeldFile, NoMemory};
use vl_engine_laws::Core;
use vl_memtable::{Memtable, Run};
use vl_model::{Body, Change, Entry, Key, Pointer};
use vl_seglog::Staged;
use vl_txn::Writes;

/// What a commit is made of, before anything of it is written.
#[derive(Drop)]
pub struct StagedCommit {
    /// Its frame, for the end of the active log.
    pub frame: Staged,
    /// The memtable that takes commits, with its entries.
    pub active: Memtable,
    /// Its keys once more, to be noted.
    pub keys: Vec<Key>,
}

/// Stages the commit of these writes, which may be written. The disk and the engine are as before, but for room that was made.
pub fn stage_commit<D: Disk>(
    alloc: Global,
    disk: &mut D,
    core: &mut Core<D::Held>,
    writes: &Writes,
) -> Result<StagedCommit, NoMemory>
    requires may { MayWrite core.old.front (entries writes.now) }
    requires known { are_known core.old.front.oracle.last core.old.version.active.entries ≡ true }
    ensures staged { IfOk result (IsStagedCommit core.old.front core.old.version.active.entries writes.now) }
    ensures lengths { IfOk result (λ staged. staged.active.lengths
        ≡ lengths_with (length (entries writes.now)) core.old.version.active.lengths) }
    ensures keys { IfOk result (λ staged. vec_len staged.keys ≤ core.new.front.recent.room) }
    ensures room { IfOk result (λ staged.
        CanAppend (length staged.frame.frame.items) (D.spare disk.new (names.Log core.old.front.log.number))) }
    ensures same { IsSame core.old.front core.new.front }
    ensures version { core.new.version ≡ core.old.version }
    ensures back { core.new.back ≡ core.old.back }
    ensures no_change { ChangesNothing D.Watched disk.old disk.new ⊥ }
    ensures lent { LeavesTables D.Watched disk.old disk.new }
{
    let number = core.front.oracle.last() + 1;
    let frame = core
        .front
        .log
        .stage_commit(alloc, disk, number, writes.as_slice())?;
    let run = run_of(alloc, number, writes, &frame.pointers)?;
    let active = core.version.with_run(run)?;
    let keys = core.front.make_room(alloc, writes)?;
    Ok(StagedCommit {
        frame,
        active,
        keys,
    })
}

// The entries that a commit of this number has in memory, in order.
fn run_of(
    alloc: Global,
    number: u64,
    writes: &Writes,
    pointers: &[Pointer],
) -> Result<Run, AllocError>
    requires { LeadTo pointers.now (entries writes.now) }
    ensures { IfOk result (λ run. run ≡ commit_entries number (entries writes.now) pointers.now) }
{
    let writes = writes.as_slice();
    let mut all = Vec::with_capacity(alloc, writes.len())?;
    for (i, (key, change)) in writes.iter().enumerate() {
        all.push(entry_of(number, key, change, pointers[i])?)?;
    }
    Run::from_writes(all)
}

// The entry of a write whose record lies at this pointer. Key and value are shared.
fn entry_of(number: u64, key: &Key, change: &Change, pointer: Pointer) -> Result<Entry, AllocError>
    ensures { IfOk result (λ e. e ≡ write_entry number (key.now, change.now) pointer) }
{
    let body = match change {
        Change::Set(value) => Body::Logged(value.share()?, pointer),
        Change::Delete => Body::Gone,
    };
    Ok(Entry {
        key: key.share()?,
        version: number,
        body,
    })
}
