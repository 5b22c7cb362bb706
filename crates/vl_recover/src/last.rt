//! Repairing the last log, and holding it.

ghost use Rattle.std.specs.Prelude.{◌≡◌, IfErr, IfOk, IsErr, IsTrue};
ghost use Rattle.std.specs.Option.{ForSome};
ghost use Rattle.vl_disk.specs.Calls.{ChangesNothing};
ghost use Rattle.vl_disk.specs.Disk.{IsInside, Stands};
ghost use Rattle.vl_disk.specs.Performs.{FailedAt};
ghost use Rattle.vl_disk.specs.Spare.{CanAppend, IsReady, SameSpareElsewhere};
ghost use Rattle.vl_disk.specs.declared.name.Name.TheVariants.{Log};
ghost use Rattle.vl_recover.specs.repairing.Fitting.{CanRepair, IsReadyToRepair, SameSpareBeside};
ghost use Rattle.vl_recover.specs.repairing.Holding.{IsHeld, IsHeldOn, IsHoldOf, IsReadyToHold, SameHold};
ghost use Rattle.vl_recover.specs.repairing.Repairing as repairing;
ghost use Rattle.vl_recover.specs.repairing.PlanViews.{at_file, step_of};
ghost use Rattle.vl_recover.specs.repairing.Steps.{RepairsLast, last_files};

use crate::plan::{LastStep, LogToHold};
use vl_disk::{Disk, Failed, Name};
use vl_seglog::{SealedLog, log_header};

/// Repairs the last log, makes it durable, and holds it as it is then, where it is to be held. Where it fails the answer is
/// the log's name.
pub(crate) fn repair_last<D: Disk>(
    disk: &mut D,
    last: LastStep,
    hold: Option<LogToHold>,
) -> Result<Option<SealedLog<D::Held>>, Name>
    requires stands { ForSome (D.told disk.old) (CanRepair (step_of last)) }
    requires ready { IsReadyToRepair (step_of last) (D.spare disk.old) }
    requires holds { IsHoldOf (step_of last) hold }
    requires room { IsReadyToHold hold (D.spare disk.old) }
    ensures repaired { RepairsLast D.Watched (step_of last) disk.old disk.new result }
    ensures at { IfErr result (FailedAt (last_files (step_of last)) (D.calls disk.old) (D.calls disk.new)) }
    ensures held { IfOk result (λ log. ForSome (D.told disk.new) (IsHeld D.Held.bytes hold log)) }
    ensures spare { SameSpareBeside (step_of last) (D.spare disk.old) (D.spare disk.new) }
{
    mend_last(disk, last)?;
    let Some(hold) = hold else {
        return Ok(None);
    };
    Ok(Some(hold_log(disk, hold)?))
}

// Holds a log, for which there is room. Where it fails the answer is its name.
fn hold_log<D: Disk>(disk: &mut D, hold: LogToHold) -> Result<SealedLog<D::Held>, Name>
    requires stands { ForSome (D.told disk.old) (Stands (Log hold.number)) }
    requires room { IsTrue (D.spare disk.old (Log hold.number)).hold }
    ensures held { IfOk result (λ log. ForSome (D.told disk.old) (IsHeldOn D.Held.bytes hold log)) }
    ensures at { IfErr result (λ name. name ≡ Log hold.number) }
    ensures no_change { ChangesNothing D.Watched disk.old disk.new (IsErr result) }
    ensures spare { SameSpareElsewhere (Log hold.number) (D.spare disk.old) (D.spare disk.new) }
{
    let name = Name::Log(hold.number);
    match disk.hold(name) {
        Ok(held) => Ok(SealedLog {
            number: hold.number,
            format: hold.format,
            held,
        }),
        Err(_) => Err(name),
    }
}

// Repairs the last log, and makes it durable. Where it fails the answer is the log's name.
fn mend_last<D: Disk>(disk: &mut D, last: LastStep) -> Result<(), Name>
    requires stands { ForSome (D.told disk.old) (CanRepair (step_of last)) }
    requires ready { IsReadyToRepair (step_of last) (D.spare disk.old) }
    ensures repaired { RepairsLast D.Watched (step_of last) disk.old disk.new result }
    ensures at { IfErr result (FailedAt (last_files (step_of last)) (D.calls disk.old) (D.calls disk.new)) }
    ensures spare { SameSpareBeside (step_of last) (D.spare disk.old) (D.spare disk.new) }
    ensures room { SameHold (step_of last) (D.spare disk.old) (D.spare disk.new) }
{
    match last {
        LastStep::Nothing => Ok(()),
        LastStep::Keep(number) => at(Name::Log(number), disk.sync(Name::Log(number))),
        LastStep::Cut { number, length } => at(Name::Log(number), cut(disk, number, length)),
        LastStep::Rewrite(number) => at(Name::Log(number), rewrite(disk, number)),
        LastStep::Head(number) => at(Name::Log(number), head(disk, number)),
    }
}

// Cuts the log to a length and makes it durable.
fn cut<D: Disk>(disk: &mut D, number: u32, length: u64) -> Result<(), Failed>
    requires stands { ForSome (D.told disk.old) (Stands (Log number)) }
    requires inside { ForSome (D.told disk.old) (IsInside (Log number) length) }
    requires ready { IsTrue (D.spare disk.old (Log number)).change }
    ensures repaired { RepairsLast D.Watched (repairing.Cut number length) disk.old disk.new result }
    ensures spare { SameSpareElsewhere (Log number) (D.spare disk.old) (D.spare disk.new) }
    ensures room { (D.spare disk.new (Log number)).hold ≡ (D.spare disk.old (Log number)).hold }
{
    disk.cut(Name::Log(number), length)?;
    disk.sync(Name::Log(number))
}

// Cuts the log to nothing, gives it a header and makes it durable.
fn rewrite<D: Disk>(disk: &mut D, number: u32) -> Result<(), Failed>
    requires stands { ForSome (D.told disk.old) (Stands (Log number)) }
    requires ready { IsReady 16 (D.spare disk.old (Log number)) }
    ensures repaired { RepairsLast D.Watched (repairing.Rewritten number) disk.old disk.new result }
    ensures spare { SameSpareElsewhere (Log number) (D.spare disk.old) (D.spare disk.new) }
{
    disk.cut(Name::Log(number), 0)?;
    head(disk, number)
}

// Gives the empty log a header and makes it durable.
fn head<D: Disk>(disk: &mut D, number: u32) -> Result<(), Failed>
    requires stands { ForSome (D.told disk.old) (Stands (Log number)) }
    requires ready { CanAppend 16 (D.spare disk.old (Log number)) }
    ensures repaired { RepairsLast D.Watched (repairing.Headed number) disk.old disk.new result }
    ensures spare { SameSpareElsewhere (Log number) (D.spare disk.old) (D.spare disk.new) }
{
    disk.append(Name::Log(number), &log_header(number))?;
    disk.sync(Name::Log(number))
}

/// A call's result, with the file's name where it failed.
pub(crate) fn at(name: Name, outcome: Result<(), Failed>) -> Result<(), Name>
    ensures { result ≡ at_file name outcome }
{
    match outcome {
        Ok(()) => Ok(()),
        Err(Failed) => Err(name),
    }
}
