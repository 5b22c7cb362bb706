//! A pass of one batch.
ghost use Rattle.std.specs.Prelude.{◌≡◌, None, false, true};
ghost use Rattle.vl_collect.specs.Passing.{IsWholeFrom};
ghost use Rattle.vl_disk.specs.declared.read_fault.ReadFault.TheVariants as faults;
ghost use Rattle.vl_drive.specs.Answers as drive;
ghost use Rattle.vl_drive.specs.Knowing.{GoesAside};
ghost use Rattle.vl_drive.specs.declared.fails.StepFail.TheVariants as fails;
ghost use Rattle.vl_space.specs.Collecting.{FitsLooks, GoesOver};
ghost use Rattle.vl_engine_model.specs.Relocation as layout;
ghost use Rattle.vlstore.specs.Handing.{HasLasted};
ghost use Rattle.vlstore.specs.Knowing.{GoesOn};
ghost use Rattle.vlstore.specs.Merging.{Did, IsChange};
ghost use Rattle.vlstore.specs.Shops.{IsFaultyMove, known_by};

use crate::session::Session;
use crate::unfailing::Unfailing;
use std::alloc::Global;
use std::sync::Wait;
use vl_collect::Pass;
use vl_disk::ReadFault;
use vl_drive::StepFail;
use vl_engine::{MoveFail, PickFail};
use vl_version::Base;

// Begins a pass over a log of which so many per cent are garbage, moves one batch out of it, and ends the pass.
pub(super) fn collect<D: Unfailing, R: Wait>(
    session: &mut Session<D>,
    rt: &R,
    alloc: Global,
    percent: u8,
) -> Result<(), StepFail>
    requires tells { session.old.tells ≡ true }
    requires runs { session.old.origin.layout.halted ≡ None }
    ensures on { GoesOn session.old session.new }
    ensures steps { GoesAside (known_by session.old) (known_by session.new) }
    ensures faults { drive.is_step_fault result ≡ false }
{
    match session.pick(rt, percent) {
        Ok(pass) => {
            let mut pass = pass;
            let moved = move_one(session, rt, alloc, &mut pass);
            session.end_pass(rt, pass);
            moved
        }
        Err(PickFail::NoMemory) => Err(StepFail::NoMemory),
        Err(PickFail::InvalidRequest | PickFail::Rejected(_) | PickFail::NoRewrite) => {
            Err(StepFail::Refused)
        }
    }
}

// Moves the first batch of a pass.
fn move_one<D: Unfailing, R: Wait>(
    session: &mut Session<D>,
    rt: &R,
    alloc: Global,
    pass: &mut Pass<Base<D::Held, D::Reader>, D::Held>,
) -> Result<(), StepFail>
    requires tells { session.old.tells ≡ true }
    requires runs { session.old.origin.layout.halted ≡ None }
    requires goes { (p : layout.Pass) × GoesOver D.Held.bytes pass.old p }
    requires looks { FitsLooks D.Held.bytes pass.old }
    requires lasts { HasLasted session.old D.Held.bytes pass.old.log }
    requires whole { IsWholeFrom D.Held.bytes pass.old.log pass.old.at.place }
    ensures on { GoesOn session.old session.new }
    ensures changes { Did IsChange session.old session.new }
    ensures log { pass.new.log ≡ pass.old.log }
    ensures faults { drive.is_step_fault result ≡ false }
{
    let Ok(mut reader) = session.reader(rt) else {
        return Err(StepFail::NoMemory);
    };
    match pass.next(alloc, &mut reader.files, &mut reader.looks) {
        Ok(Some(batch)) => moved(session.relocate(rt, pass, batch)),
        Ok(None) => Ok(()),
        Err(fault) => Err(wanting(fault)),
    }
}

// A move's answer.
fn moved(answer: Result<u32, MoveFail>) -> Result<(), StepFail>
    requires { IsFaultyMove answer → ⊥ }
    ensures { drive.is_step_fault result ≡ false }
{
    match answer {
        Ok(_) => Ok(()),
        Err(MoveFail::NoMemory(_)) => Err(StepFail::NoMemory),
        Err(MoveFail::Exhausted { .. } | MoveFail::Full { .. }) => Err(StepFail::Refused),
        Err(
            MoveFail::Halted { .. }
            | MoveFail::Read { .. }
            | MoveFail::Disk { .. }
            | MoveFail::Damaged { .. },
        ) => unreachable!(),
    }
}

// Memory was wanting.
fn wanting(fault: ReadFault) -> StepFail
    requires { fault ≡ faults.NoMemory }
    ensures { result ≡ fails.NoMemory }
{
    match fault {
        ReadFault::NoMemory => StepFail::NoMemory,
        ReadFault::Disk { .. } | ReadFault::Damaged { .. } => unreachable!(),
    }
}
