//! Writing a frame.
ghost use Rattle.std.specs.Prelude.{◌≡◌, ◌+◌, ◌-◌, ◌^◌, min, length, Some, IsErr, IsTrue, OnErr, OnOk};
ghost use Rattle.std.specs.Option.{ForSome};
ghost use Rattle.vl_disk.specs.declared.name.Name.TheVariants as names;
ghost use Rattle.vl_disk.specs.Disk.{IsChangedBy, Stands};
ghost use Rattle.vl_disk.specs.DiskState.{DiskState};
ghost use Rattle.vl_disk.specs.Faults.{HasCause, after_calls};
ghost use Rattle.vl_disk.specs.Moments.{Elapses};
ghost use Rattle.vl_disk.specs.Spare.{CanAppend};
ghost use Rattle.vl_seglog.specs.Staging.{IsStagedFor};
ghost use Rattle.vl_engine_laws.specs.Lent.{LeavesTables};
ghost use Rattle.vl_engine_laws.specs.Writing.{StopsWriting, WhileWriting, written};

use vl_disk::{Disk, Failed};
use vl_seglog::{ActiveLog, Staged};

/// Appends a staged frame to its log by one call, and makes it durable by another. If it fails, the log is not to be
/// appended to any more: it has taken some first bytes of the frame, or on a disk that fails cleanly all or none.
pub fn append_durably<D: Disk>(
    log: &mut ActiveLog,
    disk: &mut D,
    staged: &Staged,
) -> Result<(), Failed>
    requires staged_for { IsStagedFor log.old staged.now }
    requires stands { ForSome (D.told disk.old) (Stands (names.Log log.old.number)) }
    requires room { CanAppend (length staged.now.frame.items) (D.spare disk.old (names.Log log.old.number)) }
    ensures written { OnOk result (IsChangedBy (written (names.Log log.old.number) staged.now.frame.items)
        (D.told disk.old) (D.told disk.new)) }
    ensures calls { OnOk result (D.calls disk.new ≡ after_calls 2 (D.calls disk.old)) }
    ensures time { Elapses D.Watched disk.old disk.new (WhileWriting (names.Log log.old.number) staged.now.frame.items) }
    ensures tells { (state : DiskState) → D.told disk.old ≡ Some state
        → (now : DiskState) × (D.told disk.new ≡ Some now) }
    ensures stands { ForSome (D.told disk.new) (Stands (names.Log log.new.number)) }
    ensures number { log.new.number ≡ log.old.number }
    ensures longer { OnOk result
        (log.new.length ≡ min (log.old.length + length staged.now.frame.items) (2 ^ 64 - 1)) }
    ensures lent { LeavesTables D.Watched disk.old disk.new }
    ensures cause { HasCause (D.faults disk.old) (D.faults disk.new) (IsErr result) }
    ensures stopped { IsTrue D.fails_cleanly
        → OnErr result (StopsWriting D.Watched (names.Log log.old.number) staged.now.frame.items disk.old disk.new) }
{
    log.append(disk, staged)?;
    log.sync(disk)
}
