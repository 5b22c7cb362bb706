//! All that comes before the first change.

ghost use Rattle.std.specs.Prelude.{◌≡◌, ◌+◌, ◌≤◌, All, length, Some, IfErr, IfOk, OnOk, vec_capacity, vec_len};
ghost use Rattle.std.specs.Option.{ForSome};
ghost use Rattle.vl_disk.specs.Calls.{ChangesNothing};
ghost use Rattle.vl_disk.specs.Crash.{Image};
ghost use Rattle.vl_disk.specs.DiskState.{DiskState};
ghost use Rattle.vl_disk.specs.Faults.{HasCounted, NoneCounted, never};
ghost use Rattle.vl_disk.specs.Started.{IsRead};
ghost use Rattle.vl_manifest.specs.States.{whole_edits};
ghost use Rattle.vl_recover.specs.repairing.Deciding.{PreparesSo};
ghost use Rattle.vl_recover.specs.opening.Answers.{Finds};
ghost use Rattle.vl_recover.specs.opening.Opening.{NamesNoTable};
ghost use Rattle.vl_recover.specs.opening.Finding.{FailsAtDisk, IsFault, IsFaultAt};
ghost use Rattle.vl_recover.specs.opening.HeldFiles.{AreHeldFound, AreReadTables, AreWaiting, tables_of};
ghost use Rattle.vl_recover.specs.opening.Results.{IsOneRun};
ghost use Rattle.vl_recover.specs.repairing.Fitting.{Fits, HasNumbers, IsReadyFor, IsReadyToMake, IsReadyToRepair};
ghost use Rattle.vl_recover.specs.repairing.Fitting.{SameSpareBeside, SameSpareBesideLog};
ghost use Rattle.vl_recover.specs.repairing.Holding.{IsHoldOf, IsReadyToHold};
ghost use Rattle.vl_recover.specs.repairing.PlanViews.{plan_view, step_of};

use crate::OpenError;
use crate::decide::decide;
use crate::find::find;
use crate::found::HeldFiles;
use crate::plan::{LastStep, LogToHold, RepairingPlan};
use crate::prepared::Prepared;
use std::alloc::Global;
use vl_disk::{Disk, Name, NoMemory};
use vl_seglog::LOG_HEADER_BYTES;

/// Finds out what stands on a disk, decides how it is repaired, and takes all memory that repairing wants behind the new
/// manifest. It changes nothing.
pub(crate) fn prepare<D: Disk>(
    alloc: Global,
    disk: &mut D,
    reader: &mut D::Reader,
) -> Result<(Prepared, HeldFiles<D::Held>), OpenError>
    requires fresh { NoneCounted (D.Reader.faults reader.old) }
    ensures answer { (state : DiskState) (read : Image) → D.told disk.old ≡ Some state → IsRead read state
        → PreparesSo read result }
    ensures fits { IfOk result (λ ready. ForSome (D.told disk.new) (Fits (plan_view ready.0.plan))) }
    ensures edits { IfOk result (λ ready. ready.0.plan.edits.items ≡ whole_edits ready.0.state) }
    ensures numbers { IfOk result (λ ready. HasNumbers (plan_view ready.0.plan)) }
    ensures ready { IfOk result (λ ready. IsReadyFor (plan_view ready.0.plan) (D.spare disk.new)) }
    ensures holds { IfOk result (λ ready. IsHoldOf (plan_view ready.0.plan).last ready.0.plan.hold) }
    ensures room { IfOk result (λ ready. IsReadyToHold ready.0.plan.hold (D.spare disk.new)) }
    ensures tables { (state : DiskState) (read : Image) → D.told disk.old ≡ Some state → IsRead read state
        → IfOk result (λ ready. AreReadTables D.Held.bytes read (tables_of ready.1.levels.items)) }
    ensures seven { IfOk result (λ ready. length ready.1.levels.items ≡ 7) }
    ensures logs { (state : DiskState) (read : Image) (found : Finds read) → D.told disk.old ≡ Some state → IsRead read state
        → IfOk result (λ ready. AreHeldFound D.Held.bytes found ready.1.sealed.items) }
    ensures place { IfOk result (λ ready. vec_len ready.1.sealed + 1 ≤ vec_capacity ready.1.sealed) }
    ensures waiting { (state : DiskState) (read : Image) (found : Finds read) → D.told disk.old ≡ Some state
        → IsRead read state
        → IfOk result (λ ready. AreWaiting found.opening.state.covered ready.0.waiting.items found.opening.logs) }
    ensures runs { IfOk result (λ ready. All IsOneRun ready.0.frozen.items) }
    ensures numbered { IfOk result (λ ready. 1 ≤ ready.0.state.next_table) }
    ensures at { IfErr result (IsFaultAt (D.told disk.old)) }
    ensures fresh { IfOk result (λ _. NoneCounted (D.Reader.faults reader.new)) }
    // What the reader failed at is answered as a fault.
    ensures read_fault { HasCounted (D.Reader.faults reader.new) → IsFault result }
    // One that never fails never did.
    ensures steady { D.Reader.faults reader.old ≡ never → D.Reader.faults reader.new ≡ never }
    // Where no table is named the reader isn't asked.
    ensures unread { (state : DiskState) (read : Image) → D.told disk.old ≡ Some state → IsRead read state → NamesNoTable read
        → NoneCounted (D.Reader.faults reader.new) }
    ensures no_change { ChangesNothing D.Watched disk.old disk.new (FailsAtDisk (D.Reader.faults reader.new) result) }
{
    let (found, held) = find(alloc, disk, reader)?;
    let prepared = decide(alloc, found)?;
    if ready_all(disk, &prepared.plan).is_err() {
        return Err(OpenError::NoMemory);
    }
    Ok((prepared, held))
}

// Makes the disk ready for all calls of a plan behind the new manifest's, and for the hold of the last log.
fn ready_all<D: Disk>(disk: &mut D, plan: &RepairingPlan) -> Result<(), NoMemory>
    requires numbers { HasNumbers (plan_view plan.now) }
    requires holds { IsHoldOf (plan_view plan.now).last plan.now.hold }
    ensures ready { OnOk result (IsReadyFor (plan_view plan.now) (D.spare disk.new)) }
    ensures room { OnOk result (IsReadyToHold plan.now.hold (D.spare disk.new)) }
    ensures no_change { ChangesNothing D.Watched disk.old disk.new ⊥ }
{
    ready_mending(disk, plan.last, plan.hold)?;
    ready_log(disk, plan.log)
}

// The same for the last log alone.
fn ready_mending<D: Disk>(
    disk: &mut D,
    last: LastStep,
    hold: Option<LogToHold>,
) -> Result<(), NoMemory>
    requires { IsHoldOf (step_of last) hold }
    ensures ready { OnOk result (IsReadyToRepair (step_of last) (D.spare disk.new)) }
    ensures room { OnOk result (IsReadyToHold hold (D.spare disk.new)) }
    ensures elsewhere { SameSpareBeside (step_of last) (D.spare disk.old) (D.spare disk.new) }
    ensures no_change { ChangesNothing D.Watched disk.old disk.new ⊥ }
{
    ready_last(disk, last)?;
    match hold {
        None => Ok(()),
        Some(hold) => disk.ready(Name::Log(hold.number), 0),
    }
}

fn ready_last<D: Disk>(disk: &mut D, last: LastStep) -> Result<(), NoMemory>
    ensures ready { OnOk result (IsReadyToRepair (step_of last) (D.spare disk.new)) }
    ensures elsewhere { SameSpareBeside (step_of last) (D.spare disk.old) (D.spare disk.new) }
    ensures no_change { ChangesNothing D.Watched disk.old disk.new ⊥ }
{
    match last {
        LastStep::Nothing => Ok(()),
        LastStep::Keep(_) => Ok(()),
        LastStep::Cut { number, .. } => disk.ready(Name::Log(number), 0),
        LastStep::Rewrite(number) => disk.ready(Name::Log(number), LOG_HEADER_BYTES as u64),
        LastStep::Head(number) => disk.ready(Name::Log(number), LOG_HEADER_BYTES as u64),
    }
}

fn ready_log<D: Disk>(disk: &mut D, log: Option<u32>) -> Result<(), NoMemory>
    ensures ready { OnOk result (IsReadyToMake log (D.spare disk.new)) }
    ensures elsewhere { SameSpareBesideLog log (D.spare disk.old) (D.spare disk.new) }
    ensures no_change { ChangesNothing D.Watched disk.old disk.new ⊥ }
{
    match log {
        None => Ok(()),
        Some(number) => disk.ready(Name::Log(number), LOG_HEADER_BYTES as u64),
    }
}
