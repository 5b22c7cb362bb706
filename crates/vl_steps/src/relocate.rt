//! What of a batch is moved, and what that wants of memory, the disk's too: all of it is taken before the disk is changed.
ghost use Rattle.std.specs.Prelude.{◌≡◌, ◌≤◌, ◌<◌, ◌^◌, ◌+◌, [], ◌∷◌, length, IfErr, IfOk, IfSome, IsTrue, OnOk};
ghost use Rattle.std.specs.Prelude.{◌↔◌};
ghost use Rattle.std.specs.List.{filter};
ghost use Rattle.std.specs.Option.{ForSome};
ghost use Rattle.vl_collect.specs.Faults.{FailsLooking, MayWhere};
ghost use Rattle.vl_disk.specs.Calls.{ChangesNothing};
ghost use Rattle.vl_disk.specs.Spare.{CanAppend};
ghost use Rattle.vl_disk.specs.declared.name.Name.TheVariants as names;
ghost use Rattle.vl_engine_laws.specs.Lent.{LeavesTables};
ghost use Rattle.vl_steps.specs.Relocating.{Finds, HasRoomBehind, IsNotes, IsStagedMove};
ghost use Rattle.vl_steps.specs.Relocating.{MayMove, NotesMoves, may_add, move_entries_of, moved_entry};
ghost use Rattle.vl_engine_laws.specs.MoveFacts.{move_length};
ghost use Rattle.vl_memtable.specs.Lengths.{lengths_with};
ghost use Rattle.vl_model.specs.Entries as order;
ghost use Rattle.vl_table.specs.CursorParts.{MayFailOn, is_disk_fault};
ghost use Rattle.vl_version.specs.Bases.{Fits};
ghost use Rattle.vl_version.specs.Sources.{tables_in};

use std::alloc::{AllocError, Global};
use vl_collect::{Batch, still_moved};
use vl_disk::{Disk, HeldFile, NoMemory, ReadFault, Reader};
use vl_engine_laws::{Core, OpenMerge};
use vl_memtable::{Memtable, Run};
use vl_model::{Body, Entry, Key, Moved, Pointer};
use vl_seglog::Staged;
use vl_table::BlockReader;
use vl_version::Base;

/// What a relocation is made of, before anything of it is written.
#[derive(Drop)]
pub struct StagedMove {
    /// Its frame, for the end of the active log.
    pub frame: Staged,
    /// The memtable that takes commits, with its entries.
    pub active: Memtable,
    /// Its keys once more, to be noted for the merge that is open, with room for those that were noted before.
    pub notes: Vec<(Key, u64)>,
    /// How many records it has.
    pub count: u32,
}

/// The records of a batch, found in a segment, that still win exactly from inside it, in the sources of this moment. One that
/// the active memtable has already isn't moved again, nor one of a version above the last commit's: sources whose bytes are
/// told have no such record to move, and those of other disks may.
pub fn records_to_move<H: HeldFile, R: Reader<Held = H>>(
    alloc: Global,
    core: &mut Core<H>,
    segment: u32,
    batch: &Batch,
    looks: &mut BlockReader<R>,
) -> Result<Vec<Moved>, ReadFault>
    ensures same { core.new ≡ core.old }
    ensures finds { IfOk result (λ moved. Finds H.bytes core.old segment batch.now looks.old moved.items) }
    ensures may { IfOk result (λ moved. 1 ≤ length moved.items → MayMove core.old moved.items) }
    ensures fits { Fits H.bytes core.old.version looks.old → Fits H.bytes core.old.version looks.new }
    ensures steady { OnOk result (R.faults looks.new.reader ≡ R.faults looks.old.reader) }
    ensures cause { IfErr result (FailsLooking is_disk_fault
        (MayWhere (Fits H.bytes core.old.version looks.old) (MayFailOn H.bytes (tables_in core.old.version)))
        (R.faults looks.old.reader) (R.faults looks.new.reader)) }
{
    let last = core.front.oracle.last();
    let sources: Base<H, R> = Base::new(core.version.share()?);
    let found = still_moved(alloc, &sources, looks, segment, last, batch)?;
    Ok(only_new(core.version.active(), last, found))
}

// Those of these records that may be added to a memtable.
fn only_new(active: &Memtable, last: u64, found: Vec<Moved>) -> Vec<Moved>
    ensures { result.items ≡ filter (may_add active.now.entries last) found.items }
{
    let mut moved = found;
    moved.retain(|one| may_add(active, last, one));
    moved
}

// It has no entry of the record's key and version, and the version is at most the last commit's.
fn may_add(active: &Memtable, last: u64, moved: &Moved) -> bool
    ensures { result ≡ may_add active.now.entries last moved.now }
{
    moved.version <= last && active.exact(moved.key.as_slice(), moved.version).is_none()
}

/// How many bytes the frame of a relocation of these records has; none where 64 bits don't hold their number.
pub fn move_length(moved: &[Moved]) -> Option<u64>
    ensures { IfSome result (λ bytes. bytes ≡ move_length moved.now) }
{
    // Kind, length and check, and the count of the records.
    let mut bytes: u64 = 17;
    for one in moved {
        // Its version and its head.
        bytes = bytes
            .checked_add(16)?
            .checked_add(one.key.len() as u64)?
            .checked_add(one.value.len() as u64)?;
    }
    Some(bytes)
}

/// Whether a log of so many bytes has room for so many more.
pub fn has_room(length: u64, more: u64, room: u64) -> bool
    ensures { IsTrue result ↔ (length + more ≤ room) }
{
    length <= room && more <= room - length
}

/// Stages the relocation of these records, by which the engine gets an epoch. The disk and the engine are as before,
/// but for room that was made.
pub fn stage_move<D: Disk>(
    alloc: Global,
    disk: &mut D,
    core: &Core<D::Held>,
    merging: &Option<OpenMerge>,
    number: u64,
    moved: &[Moved],
) -> Result<StagedMove, NoMemory>
    requires { MayMove core.now moved.now }
    ensures staged { IfOk result (IsStagedMove core.now moved.now number merging.now) }
    ensures lengths { IfOk result (λ staged. staged.active.lengths
        ≡ lengths_with (length moved.now) core.now.version.active.lengths) }
    ensures room { IfOk result (λ staged.
        CanAppend (length staged.frame.frame.items) (D.spare disk.new (names.Log core.now.front.log.number))) }
    ensures no_change { ChangesNothing D.Watched disk.old disk.new ⊥ }
    ensures lent { LeavesTables D.Watched disk.old disk.new }
{
    let frame = core.front.log.stage_move(alloc, disk, moved)?;
    let run = run_of(alloc, moved, &frame.pointers)?;
    let active = core.version.with_run(run)?;
    let notes = notes_of(alloc, merging, number, moved)?;
    Ok(StagedMove {
        frame,
        active,
        notes,
        // A frame is shorter than 2^32 bytes.
        count: moved.len() as u32,
    })
}

// The entries that moved records have in memory, as one run. A batch has few records, so they are put in one by one.
fn run_of(alloc: Global, moved: &[Moved], pointers: &[Pointer]) -> Result<Run, AllocError>
    requires { length pointers.now ≡ length moved.now }
    ensures { IfOk result (λ run. run ≡ order.in_order (move_entries_of moved.now pointers.now)) }
{
    let mut run = Run::from_writes(Vec::new(alloc))?;
    for (i, one) in moved.iter().enumerate() {
        let next = run_of_one(alloc, entry_of(one, pointers[i])?)?;
        run = run.over(alloc, &next)?;
    }
    Ok(run)
}

fn run_of_one(alloc: Global, entry: Entry) -> Result<Run, AllocError>
    ensures { IfOk result (λ run. run ≡ entry ∷ []) }
{
    let mut entries = Vec::new(alloc);
    entries.push(entry)?;
    Run::from_writes(entries)
}

// The entry of a moved record that lies at this pointer. Key and value are shared.
fn entry_of(moved: &Moved, pointer: Pointer) -> Result<Entry, AllocError>
    ensures { IfOk result (λ e. e ≡ moved_entry moved.now pointer) }
{
    Ok(Entry {
        key: moved.key.share()?,
        version: moved.version,
        body: Body::Logged(moved.value.share()?, pointer),
    })
}

// The keys of moved records with the epoch that their move makes, where a merge is open: with room behind them for
// those that were noted before.
fn notes_of(
    alloc: Global,
    merging: &Option<OpenMerge>,
    number: u64,
    moved: &[Moved],
) -> Result<Vec<(Key, u64)>, AllocError>
    ensures { IfOk result (IsNotes number moved.now merging.now) }
{
    let mut notes = Vec::new(alloc);
    let Some(merge) = merging else {
        return Ok(notes);
    };
    for one in moved {
        notes.push((one.key.share()?, number))?;
    }
    notes.reserve(merge.moved.len())?;
    Ok(notes)
}

/// Notes the keys of moved records for the merge that is open, in front of those that were noted before.
pub fn note_moves(merging: &mut Option<OpenMerge>, notes: Vec<(Key, u64)>)
    requires { ForSome merging.old (HasRoomBehind notes) }
    ensures { NotesMoves merging.old merging.new notes.items }
{
    if let Some(merge) = merging {
        let mut all = notes;
        // There is room for them.
        let _ = all.append(&mut merge.moved);
        merge.moved = all;
    }
}
