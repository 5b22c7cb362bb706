//! What an opening decides by what it found.

ghost use Rattle.std.specs.Prelude.{◌≡◌, Some};
ghost use Rattle.vl_recover.specs.repairing.Deciding.{DecidesSo, next_of, step_for, used_up_of};
ghost use Rattle.vl_recover.specs.repairing.Holding.{hold_for};
ghost use Rattle.vl_recover.specs.opening.Finding.{AreFileNumbers};
ghost use Rattle.vl_recover.specs.repairing.PlanViews.{step_of};
ghost use Rattle.vl_recover.specs.opening.Plans as plans;

use crate::OpenError;
use crate::found::{Findings, LastLog};
use crate::plan::{LastStep, LogToHold, NextLog, RepairingPlan};
use crate::prepared::Prepared;
use std::alloc::Global;
use vl_manifest::ManifestState;
use vl_model::{Counter, MAX_FILE_NUMBER};

/// Decides how a store is repaired and gone on with. A number that is used up is found before memory is asked for.
pub(crate) fn decide(alloc: Global, found: Findings) -> Result<Prepared, OpenError>
    requires { AreFileNumbers found.greatest }
    ensures { DecidesSo found result }
{
    let Findings {
        state,
        number,
        frozen,
        waiting,
        greatest,
        last,
        strays,
    } = found;
    let state = state.opened(greatest.log, greatest.table);
    let next = next_log(&state, last);
    let log = next.made();
    if let Some(counter) = used_up(log, greatest.manifest) {
        return Err(OpenError::Exhausted(counter));
    }
    let manifest = greatest.manifest + 1;
    let Ok(edits) = state.whole_edits(alloc) else {
        return Err(OpenError::NoMemory);
    };
    Ok(Prepared {
        number,
        state,
        frozen,
        waiting,
        plan: RepairingPlan {
            manifest,
            edits,
            last: last_step(last),
            hold: log_to_hold(last),
            log,
            strays,
        },
        active: next.number(),
    })
}

// The log that takes commits then: one is made where the last has frames, or where there is none.
fn next_log(state: &ManifestState, last: Option<LastLog>) -> NextLog
    ensures { result ≡ next_of state.now last }
{
    match last {
        None => NextLog::Made(state.head.max(state.next_log)),
        Some(last) => {
            if last.has_frames {
                NextLog::Made(state.next_log)
            } else {
                NextLog::Last(last.number)
            }
        }
    }
}

// The number that is used up: that of the log that would be made, else the manifest's.
fn used_up(log: Option<u32>, manifest: u32) -> Option<Counter>
    ensures { result ≡ used_up_of log manifest }
{
    if passes(log) {
        return Some(Counter::Log);
    }
    if manifest == MAX_FILE_NUMBER {
        return Some(Counter::Manifest);
    }
    None
}

fn passes(log: Option<u32>) -> bool
    ensures { result ≡ plans.passes log }
{
    match log {
        None => false,
        Some(number) => number > MAX_FILE_NUMBER,
    }
}

// The log that is held: the last one, where it has frames, and so keeps its header.
fn log_to_hold(last: Option<LastLog>) -> Option<LogToHold>
    ensures { result ≡ hold_for last }
{
    match last {
        None => None,
        Some(last) => {
            if last.header && last.has_frames {
                Some(LogToHold {
                    number: last.number,
                    format: last.format,
                })
            } else {
                None
            }
        }
    }
}

// What becomes of the last log.
fn last_step(last: Option<LastLog>) -> LastStep
    ensures { step_of result ≡ step_for last }
{
    match last {
        None => LastStep::Nothing,
        Some(last) => step_of_log(last),
    }
}

fn step_of_log(last: LastLog) -> LastStep
    ensures { step_of result ≡ step_for (Some last) }
{
    if last.header {
        if last.length == last.end {
            LastStep::Keep(last.number)
        } else {
            LastStep::Cut {
                number: last.number,
                length: last.end,
            }
        }
    } else if last.length == 0 {
        LastStep::Head(last.number)
    } else {
        LastStep::Rewrite(last.number)
    }
}
