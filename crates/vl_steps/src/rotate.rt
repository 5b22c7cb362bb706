//! Whether a log may be begun, and what that wants of memory, the disk's too: all of it is taken before the disk is changed.
ghost use Rattle.std.specs.Prelude.{◌≡◌, IfOk, IfSome, IsErrOf, None};
ghost use Rattle.std.specs.Option.{ForSome};
ghost use Rattle.vl_disk.specs.Calls.{ChangesNothing};
ghost use Rattle.vl_disk.specs.Disk.{Stands};
ghost use Rattle.vl_disk.specs.Spare.{IsReady};
ghost use Rattle.vl_disk.specs.declared.errors.DiskFail.TheVariants as why;
ghost use Rattle.vl_disk.specs.declared.name.Name.TheVariants as names;
ghost use Rattle.vl_engine_laws.specs.Lent.{LeavesTables};
ghost use Rattle.vl_steps.specs.Rotating.{IsRefusedSo};
ghost use Rattle.vl_engine_laws.specs.RotateFacts.{IsNextVersion, MayBegin, next_name};

use crate::StepFail;
use std::alloc::Global;
use vl_back::Decision;
use vl_disk::{Disk, DiskFail, HeldFile, Name};
use vl_engine_laws::Core;
use vl_seglog::{ActiveLog, LOG_HEADER_BYTES};
use vl_version::Version;

/// What a rotation is answered where no log is begun: the engine is halted, no commit stands in the active log, or no number is
/// left.
pub fn refusal<H: HeldFile>(core: &Core<H>) -> Option<Result<Option<u32>, StepFail>>
    ensures refused { IfSome result (IsRefusedSo core.now) }
    ensures may { result ≡ None → MayBegin core.now }
{
    if let Some(name) = core.front.halted {
        return Some(Err(StepFail::Halted { name }));
    }
    // A log without frames has its header alone.
    let has_frames = core.front.log.length > LOG_HEADER_BYTES as u64;
    match core.back.decide_rotation(has_frames) {
        Decision::Idle => Some(Ok(None)),
        Decision::Exhausted(counter) => Some(Err(StepFail::Exhausted(counter))),
        Decision::Go => None,
    }
}

/// Holds the active log, and gives the version behind its rotation. The disk is as before, but for room that was made for
/// the hold and for the new log. That room is made first, so that a hold can only fail by the disk; the version's memory is
/// taken behind it, since it shares the held log.
pub fn stage_rotation<D: Disk>(
    alloc: Global,
    disk: &mut D,
    core: &Core<D::Held>,
) -> Result<Version<D::Held>, DiskFail>
    requires { ForSome (D.told disk.old) (Stands (names.Log core.now.front.log.number)) }
    ensures version { IfOk result (IsNextVersion D.Held.bytes (D.told disk.old) core.now) }
    ensures ready { IfOk result (λ _. IsReady 16 (D.spare disk.new (next_name core.now))) }
    ensures no_change { ChangesNothing D.Watched disk.old disk.new (IsErrOf result why.Failed) }
    ensures lent { LeavesTables D.Watched disk.old disk.new }
{
    let log = ActiveLog {
        number: core.front.log.number,
        length: core.front.log.length,
    };
    let Ok(()) = disk.ready(Name::Log(log.number), 0) else {
        return Err(DiskFail::NoMemory);
    };
    let next = Name::Log(core.back.next_log);
    let Ok(()) = disk.ready(next, LOG_HEADER_BYTES as u64) else {
        return Err(DiskFail::NoMemory);
    };
    let sealed = match log.seal(disk) {
        Ok(sealed) => sealed,
        Err(why) => return Err(why),
    };
    match core.version.rotated(alloc, core.front.log.length, sealed) {
        Ok(version) => Ok(version),
        Err(_) => Err(DiskFail::NoMemory),
    }
}
