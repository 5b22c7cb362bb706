//! Repairing a store by its plan.

ghost use Rattle.std.specs.Prelude.{IfErr, IfOk};
ghost use Rattle.std.specs.Option.{ForSome};
ghost use Rattle.vl_disk.specs.Performs.{FailedAt};
ghost use Rattle.vl_manifest.specs.Making.{HasItsFrame};
ghost use Rattle.vl_recover.specs.repairing.Fitting.{CanMake, CanRemove, Fits, FitsBehind, HasNumbers, IsReadyFor};
ghost use Rattle.vl_recover.specs.repairing.Fitting.{IsReadyToMake, IsNumberedLog};
ghost use Rattle.vl_recover.specs.repairing.Holding.{IsHeld, IsHoldOf, IsReadyToHold};
ghost use Rattle.vl_recover.specs.repairing.PlanViews.{manifest_of, plan_view};
ghost use Rattle.vl_recover.specs.repairing.Repairing.{behind_last, with_last};
ghost use Rattle.vl_recover.specs.repairing.Steps.{MakesLog, Repairs, RepairsBehind, RemovesAll, files_behind, log_files};

use crate::last::{at, repair_last};
use crate::plan::RepairingPlan;
use std::alloc::Global;
use vl_disk::{Disk, Name, make_file};
use vl_manifest::{IoFail, ManifestLog};
use vl_seglog::{SealedLog, log_header};

/// Repairs a store: makes the new manifest, repairs the last log and holds it, where it is to be held, makes the new log and
/// removes the files that aren't needed any more. Each is durable before the next is begun. For want of memory nothing was
/// changed. Where the disk fails the answer has the name of the file at which it did.
pub(crate) fn repair<D: Disk>(
    alloc: Global,
    disk: &mut D,
    plan: &RepairingPlan,
) -> Result<(ManifestLog, Option<SealedLog<D::Held>>), IoFail>
    requires fits { ForSome (D.told disk.old) (Fits (plan_view plan.now)) }
    requires numbers { HasNumbers (plan_view plan.now) }
    requires ready { IsReadyFor (plan_view plan.now) (D.spare disk.old) }
    requires holds { IsHoldOf (plan_view plan.now).last plan.now.hold }
    requires room { IsReadyToHold plan.now.hold (D.spare disk.old) }
    ensures repaired { Repairs D.Watched (plan_view plan.now) disk.old disk.new (manifest_of result) }
    ensures frame { HasItsFrame plan.now.edits.items (manifest_of result) }
    ensures held { IfOk result (λ made. ForSome (D.told disk.old)
        (λ state. IsHeld D.Held.bytes plan.now.hold made.1 (with_last (plan_view plan.now) state))) }
{
    let manifest = ManifestLog::create(alloc, disk, plan.manifest, &plan.edits)?;
    match repair_behind(disk, plan) {
        Ok(log) => Ok((manifest, log)),
        Err(name) => Err(IoFail::Disk { name }),
    }
}

// All that comes behind the new manifest.
fn repair_behind<D: Disk>(
    disk: &mut D,
    plan: &RepairingPlan,
) -> Result<Option<SealedLog<D::Held>>, Name>
    requires fits { ForSome (D.told disk.old) (FitsBehind (plan_view plan.now)) }
    requires numbers { HasNumbers (plan_view plan.now) }
    requires ready { IsReadyFor (plan_view plan.now) (D.spare disk.old) }
    requires holds { IsHoldOf (plan_view plan.now).last plan.now.hold }
    requires room { IsReadyToHold plan.now.hold (D.spare disk.old) }
    ensures repaired { RepairsBehind D.Watched (plan_view plan.now) disk.old disk.new result }
    ensures at { IfErr result (FailedAt (files_behind (plan_view plan.now)) (D.calls disk.old) (D.calls disk.new)) }
    ensures held { IfOk result (λ log. ForSome (D.told disk.old)
        (λ state. IsHeld D.Held.bytes plan.now.hold log (behind_last (plan_view plan.now).last state))) }
{
    let log = repair_last(disk, plan.last, plan.hold)?;
    make_log(disk, plan.log)?;
    remove_all(disk, &plan.strays)?;
    Ok(log)
}

// Makes the log of a header alone, where there is one to be made.
fn make_log<D: Disk>(disk: &mut D, log: Option<u32>) -> Result<(), Name>
    requires numbered { IsNumberedLog log }
    requires free { ForSome (D.told disk.old) (CanMake log) }
    requires ready { IsReadyToMake log (D.spare disk.old) }
    ensures made { MakesLog D.Watched log disk.old disk.new result }
    ensures at { IfErr result (FailedAt (log_files log) (D.calls disk.old) (D.calls disk.new)) }
{
    match log {
        None => Ok(()),
        Some(number) => at(
            Name::Log(number),
            make_file(disk, Name::Log(number), &log_header(number)),
        ),
    }
}

// Removes files, one behind the other.
fn remove_all<D: Disk>(disk: &mut D, names: &[Name]) -> Result<(), Name>
    requires { ForSome (D.told disk.old) (CanRemove names.now) }
    ensures removed { RemovesAll D.Watched names.now disk.old disk.new result }
    ensures at { IfErr result (FailedAt names.now (D.calls disk.old) (D.calls disk.new)) }
{
    for name in names {
        at(*name, disk.remove(*name))?;
    }
    Ok(())
}
