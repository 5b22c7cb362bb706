//! The file of a merge's next table: what it wants of memory, and how it is made and lent.

ghost use Rattle.std.specs.Prelude.{◌≡◌, ◌≤◌, ◌+◌, true, is_some, length, IfOk, IsTrue, None, OnOk};
ghost use Rattle.std.specs.Option.{ForSome};
ghost use Rattle.std.specs.VecDeque.{deque_len, deque_capacity};
ghost use Rattle.vl_compact.specs.Progress.{HasRoom};
ghost use Rattle.vl_disk.specs.Calls.{ChangesNothing};
ghost use Rattle.vl_disk.specs.Disk.{IsFree};
ghost use Rattle.vl_disk.specs.DiskState.{new_file};
ghost use Rattle.vl_disk.specs.Faults.{IsNewCount};
ghost use Rattle.vl_disk.specs.Name.{IsNumbered};
ghost use Rattle.vl_disk.specs.Spare.{SameSpareElsewhere};
ghost use Rattle.vl_disk.specs.declared.name.Name.TheVariants as names;
ghost use Rattle.vl_steps.specs.Drawing.{HasRoomToLend, IsLentMore, IsSameJob, IsSameMerge, LendsNew};
ghost use Rattle.vl_engine_laws.specs.Lent.{lent_in};

use std::alloc::AllocError;
use vl_compact::Job;
use vl_disk::{Disk, Failed, Name, NoMemory};
use vl_engine_laws::OpenMerge;
use vl_pins::Stock;

/// Takes all the memory that it wants: of the merge that is open, of what carries it out, and of the disk.
pub fn ready_fresh<D: Disk, V>(
    disk: &mut D,
    merging: &mut Option<OpenMerge>,
    job: &mut Job<V, D::Held, D::Writer>,
    number: u32,
) -> Result<(), NoMemory>
    requires merging { is_some merging.old ≡ true }
    ensures merging { IsSameMerge merging.old merging.new }
    ensures roomy { OnOk result (HasRoomToLend merging.new) }
    ensures job { IsSameJob job.old job.new }
    ensures room { OnOk result (HasRoom job.new) }
    ensures change { OnOk result (IsTrue (D.spare disk.new (names.Table number)).change) }
    ensures lend { OnOk result (IsTrue (D.spare disk.new (names.Table number)).lend) }
    ensures elsewhere { SameSpareElsewhere (names.Table number) (D.spare disk.old) (D.spare disk.new) }
    ensures no_change { ChangesNothing D.Watched disk.old disk.new ⊥ }
{
    let Some(merge) = merging else {
        return Err(NoMemory);
    };
    merge.make_room()?;
    job.make_room()?;
    disk.ready(Name::Table(number), 0)
}

/// How many files were lent to the open merge.
pub fn lent_count(merging: &Option<OpenMerge>) -> usize
    ensures { result ≡ length (lent_in merging.now) }
{
    match merging {
        None => 0,
        Some(merge) => merge.lent.len(),
    }
}

/// Room for these among the retired files, and for one more.
pub fn make_room_to_abandon<L: Drop>(
    stock: &mut Stock<L>,
    merging: &Option<OpenMerge>,
) -> Result<(), AllocError>
    ensures in_use { stock.new.in_use ≡ stock.old.in_use }
    ensures trash { stock.new.trash.items ≡ stock.old.trash.items }
    ensures capacity { deque_capacity stock.old.trash ≤ deque_capacity stock.new.trash }
    ensures room { OnOk result (deque_len stock.new.trash + length (lent_in merging.now) + 1 ≤ deque_capacity stock.new.trash) }
{
    let Some(files) = lent_count(merging).checked_add(1) else {
        return Err(AllocError);
    };
    stock.make_room_for_lent(files)
}

/// Notes that the file of the table with this number is lent to the open merge.
pub fn note_lent(merging: &mut Option<OpenMerge>, number: u32)
    requires { HasRoomToLend merging.old }
    ensures { IsLentMore merging.old merging.new number }
{
    if let Some(merge) = merging {
        merge.lent.push_reserved(number);
    }
}

/// Makes an empty file, by the one changing call, and lends it. If it fails, the file may stand or not.
pub fn lend_new<D: Disk>(disk: &mut D, name: Name) -> Result<D::Writer, Failed>
    requires numbered { IsNumbered name }
    requires free { ForSome (D.told disk.old) (IsFree name) }
    requires room { IsTrue (D.spare disk.old name).change }
    requires lend { IsTrue (D.spare disk.old name).lend }
    ensures lends { LendsNew D.Watched name disk.old disk.new result }
    ensures named { IfOk result (λ writer. D.Writer.Writer.named writer ≡ name) }
    ensures file { IfOk result (λ writer. ForSome (D.told disk.old) (λ _. D.Writer.Writer.file writer ≡ Some new_file)) }
    ensures faults { IfOk result (λ writer. IsNewCount (D.gives_steady disk.old) (D.Writer.Writer.faults writer)) }
{
    disk.create(name)?;
    disk.lend(name)
}
